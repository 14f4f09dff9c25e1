//! The bytes of an answer.

ghost use Rattle.std.specs.Prelude.{◌≡◌, ◌+◌, ◌≤◌, ◌++◌, [], length, vec_len, vec_capacity};
ghost use Rattle.mds_wire.specs.Answers.{number_of, phrase_of, kind_text, allow_line, head_text, refusal_body, longest_answer_head};

use crate::route::Route;
use http::StatusCode;
use itoa::Buffer;

/// The status of an answer.
#[derive(Clone, Copy, Debug, PartialEq, Eq)]
pub enum Status {
    Success,
    BadRequest,
    NotFound,
    /// It has the route whose method is allowed.
    MethodNotAllowed(Route),
    Conflict,
    LengthRequired,
    ContentTooLarge,
    Unprocessable,
    FieldsTooLarge,
    NotImplemented,
    Unavailable,
}

/// The type of an answer's body.
#[derive(Clone, Copy)]
pub enum Kind {
    Json,
    Csv,
}

impl Status {
    /// Its number and its phrase.
    fn code(self) -> StatusCode
        ensures { result ≡ number_of self }
    {
        match self {
            Status::Success => StatusCode::OK,
            Status::BadRequest => StatusCode::BAD_REQUEST,
            Status::NotFound => StatusCode::NOT_FOUND,
            Status::MethodNotAllowed(_) => StatusCode::METHOD_NOT_ALLOWED,
            Status::Conflict => StatusCode::CONFLICT,
            Status::LengthRequired => StatusCode::LENGTH_REQUIRED,
            Status::ContentTooLarge => StatusCode::PAYLOAD_TOO_LARGE,
            Status::Unprocessable => StatusCode::UNPROCESSABLE_ENTITY,
            Status::FieldsTooLarge => StatusCode::REQUEST_HEADER_FIELDS_TOO_LARGE,
            Status::NotImplemented => StatusCode::NOT_IMPLEMENTED,
            Status::Unavailable => StatusCode::SERVICE_UNAVAILABLE,
        }
    }

    /// Its number, such as 404.
    pub fn number(self) -> u16
        ensures { result ≡ number_of self }
    {
        self.code().as_u16()
    }

    /// Its phrase.
    fn phrase(self) -> &'static str
        ensures value { result.now ≡ phrase_of self }
        ensures size { length result.now ≤ 31 }
    {
        self.code().canonical_reason().unwrap_or("")
    }

    /// The body of an answer that only says why nothing was done: `{"error":"404"}`, or `{"error":"U1"}` for
    /// `Unavailable`.
    pub fn refusal(self) -> &'static [u8]
        ensures { result.now ≡ refusal_body self }
    {
        match self {
            Status::Success => b"{\"error\":\"200\"}",
            Status::BadRequest => b"{\"error\":\"400\"}",
            Status::NotFound => b"{\"error\":\"404\"}",
            Status::MethodNotAllowed(_) => b"{\"error\":\"405\"}",
            Status::Conflict => b"{\"error\":\"409\"}",
            Status::LengthRequired => b"{\"error\":\"411\"}",
            Status::ContentTooLarge => b"{\"error\":\"413\"}",
            Status::Unprocessable => b"{\"error\":\"422\"}",
            Status::FieldsTooLarge => b"{\"error\":\"431\"}",
            Status::NotImplemented => b"{\"error\":\"501\"}",
            Status::Unavailable => b"{\"error\":\"U1\"}",
        }
    }
}

impl Kind {
    /// The text of its `Content-Type`.
    fn text(self) -> &'static [u8]
        ensures value { result.now ≡ kind_text self }
        ensures size { length result.now ≤ 16 }
    {
        match self {
            Kind::Json => b"application/json",
            Kind::Csv => b"text/csv",
        }
    }
}

/// Appends a piece. There is room for it.
fn append(text: &mut Vec<u8>, piece: &[u8])
    requires { vec_len text.old + length piece.now ≤ vec_capacity text.old }
    ensures items { text.new.items ≡ text.old.items ++ piece.now }
    ensures len { vec_len text.new ≡ vec_len text.old + length piece.now }
    ensures capacity { vec_capacity text.old ≤ vec_capacity text.new }
{
    let _ = text.extend_from_slice(piece);
}

/// Appends the line that names the allowed method, if there is one. There is room for it.
fn append_allow(text: &mut Vec<u8>, status: Status)
    requires { vec_len text.old + 13 ≤ vec_capacity text.old }
    ensures items { text.new.items ≡ text.old.items ++ allow_line status }
    ensures len { vec_len text.new ≤ vec_len text.old + 13 }
    ensures capacity { vec_capacity text.old ≤ vec_capacity text.new }
{
    if let Status::MethodNotAllowed(route) = status {
        append(text, b"Allow: ");
        append(text, route.method().as_str().as_bytes());
        append(text, b"\r\n");
    }
}

/// Writes the head of an answer whose body has `size` bytes. It takes no memory.
pub(crate) fn write_head(text: &mut Vec<u8>, status: Status, kind: Kind, size: usize)
    requires empty { text.old.items ≡ [] }
    requires room { longest_answer_head ≤ vec_capacity text.old }
    ensures { text.new.items ≡ head_text status kind size }
{
    let mut buffer = Buffer::new();
    append(text, b"HTTP/1.1 ");
    append(text, status.code().as_str().as_bytes());
    append(text, b" ");
    append(text, status.phrase().as_bytes());
    append(text, b"\r\nContent-Type: ");
    append(text, kind.text());
    append(text, b"\r\nContent-Length: ");
    append(text, buffer.format(size).as_bytes());
    append(text, b"\r\nConnection: close\r\n");
    append_allow(text, status);
    append(text, b"\r\n");
}
