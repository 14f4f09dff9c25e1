//! Reads, handles and answers one request.

ghost use Rattle.std.specs.Prelude.{◌≡◌, ◌≢◌, ◌+◌, ◌-◌, ◌^◌, ◌<◌, ◌≤◌, ◌++◌, ℕ, [], length, take, Err, bytes_eq, codes, vec_capacity, vec_len, IfOk, OnErr, OnOk, is_ok, if◌then◌else◌};
ghost use Rattle.std.specs.Io.KnownBytes.{Appends};
ghost use Rattle.mds_wire.specs.Answers.{longest_answer_head};
ghost use Rattle.mds_wire.specs.Heads.{longest_head, most_fields, IsWhole};
ghost use Rattle.mds_wire.specs.Judging.{longest_body};
ghost use Rattle.mds_wire.specs.Serving.{Serves, short_answer, text_of};
ghost use Rattle.mds_wire.specs.ServeSteps.{Understands, Performs, answer_of, status_of, kind_of, body_of, ends_early};

use crate::answer::{Kind, Status, write_head};
use crate::body::{BodyFault, feed_body};
use crate::head::{HeadFault, HeadRead, read_head};
use crate::judge::{Judged, judge_head};
use crate::route::{Route, RouteFinder};
use httparse::spans::{EMPTY_HEADER_SPAN, HeaderSpan};
use mds_lines::{Sink, Source, write_whole};
use std::alloc::{AllocError, Global};
use std::io;

/// The handler has no answer: it ran out of memory, or what is kept was unavailable (U1).
#[derive(Clone, Copy)]
pub struct Failed;

/// What answers requests.
pub trait Handler {
    ghost use Rattle.std.specs.Prelude.{ℕ, List};
    ghost use Rattle.mds_wire.specs.declared.answer.Status.{Status};
    ghost use Rattle.mds_wire.specs.declared.answer.Kind.{Kind};
    ghost use Rattle.mds_wire.specs.declared.route.Route.{Route};

    /// What is made of a body while it comes.
    type Body: Drop;

    /// A step: the state before, the route, the target and the body. Then the answer's status, type and body, and the state
    /// after.
    ghost step: { Self → Route → List ℕ → List ℕ → Status → Kind → List ℕ → Self → Type 0 };

    /// Both states keep the same.
    ghost same: { Self → Self → Type 0 };

    /// What takes memory before a step: for a route, a target and a body of some size, a piece after what came of the body.
    ghost takes_memory: { Route → List ℕ → ℕ → List ℕ → List ℕ → Type 0 };

    /// The body was begun for a route, a target and a size, and was fed these bytes.
    ghost holds: { Self.Body → Route → List ℕ → ℕ → List ℕ → Type 0 };

    /// Begins a body of `size` bytes, of which nothing has come. It fails only if that takes memory.
    fn begin(
        &self,
        alloc: Global,
        route: Route,
        target: &[u8],
        size: usize,
    ) -> Result<Self::Body, Failed>
        ensures begun { IfOk result (λ body. holds body route target.now size []) }
        ensures only { OnErr result (takes_memory route target.now size [] []) };

    /// Takes more of a body, and no more than it has. It fails only if this piece takes memory after what came before.
    fn feed(body: &mut Self::Body, piece: &[u8]) -> Result<(), Failed>
        ensures fed { (route : Route) (target : List ℕ) (size : ℕ) (bytes : List ℕ) → holds body.old route target size bytes
            → length (bytes ++ piece.now) ≤ size → size ≤ longest_body
            → IfOk result (λ _. holds body.new route target size (bytes ++ piece.now)) }
        ensures only { (route : Route) (target : List ℕ) (size : ℕ) (bytes : List ℕ) → holds body.old route target size bytes
            → length (bytes ++ piece.now) ≤ size → size ≤ longest_body
            → OnErr result (takes_memory route target size bytes piece.now) };

    /// Makes a step with a whole body, and writes the answer's body, which has room for 768 bytes. If memory or what is kept is
    /// unavailable, nothing has changed. Then whatever was written is ignored, and the answer is 503.
    fn handle(
        &mut self,
        alloc: Global,
        route: Route,
        target: &[u8],
        body: Self::Body,
        answer: &mut Vec<u8>,
    ) -> Result<(Status, Kind), Failed>
        requires empty { answer.old.items ≡ [] }
        requires room { short_answer ≤ vec_capacity answer.old }
        ensures step { (bytes : List ℕ) → holds body route target.now (length bytes) bytes → IfOk result (λ told.
            step self.old route target.now bytes told.0 told.1 answer.new.items self.new) }
        ensures same { OnErr result (same self.old self.new) }
        ensures only { (bytes : List ℕ) → holds body route target.now (length bytes) bytes
            → OnErr result (takes_memory route target.now (length bytes) bytes []) };
}

/// What is answered: a refusal, with whether the request's method is `HEAD`, or what the handler wrote.
#[derive(Clone, Copy)]
enum Reply {
    Refused(Status, bool),
    Told(Status, Kind),
}

/// Why there is nothing to answer.
#[derive(Clone, Copy)]
enum Unread {
    Read,
    Closed,
}

/// Why no answer was written, or not all of it.
#[derive(Clone, Copy, Debug, PartialEq, Eq)]
pub enum WireFault {
    /// The reader failed. Nothing changed.
    Read,
    /// The input ended before the request did. Nothing changed.
    Closed,
    /// The writer failed. The request was handled, and a part of its answer was written.
    Write,
    /// There was no memory for a head and a short answer. Nothing was read.
    Memory,
}

impl From<AllocError> for Failed {
    ghost use Rattle.std.specs.Prelude.{⊤};

    ghost from_gives = { λ _ _. ⊤ };

    fn from(_: AllocError) -> Failed {
        Failed
    }
}

impl From<AllocError> for WireFault {
    ghost use Rattle.std.specs.Prelude.{◌≡◌};
    ghost use Rattle.mds_wire.specs.declared.serve.WireFault.TheVariants as fault;

    ghost from_gives = { λ _ it. it ≡ fault.Memory };

    fn from(_: AllocError) -> WireFault {
        WireFault::Memory
    }
}

impl Reply {
    /// The status of the answer.
    fn status(self) -> Status
        ensures { result ≡ status_of self }
    {
        match self {
            Reply::Refused(status, _) => status,
            Reply::Told(status, _) => status,
        }
    }

    /// The type of the answer's body.
    fn kind(self) -> Kind
        ensures { result ≡ kind_of self }
    {
        match self {
            Reply::Refused(_, _) => Kind::Json,
            Reply::Told(_, kind) => kind,
        }
    }

    /// Whether the answer is only a head.
    fn ends_early(self) -> bool
        ensures { result ≡ ends_early self }
    {
        match self {
            Reply::Refused(_, is_head) => is_head,
            Reply::Told(_, _) => false,
        }
    }

    /// The answer's body, if the handler wrote `told`.
    fn body<'b>(self, told: &'b [u8]) -> &'b [u8]
        ensures { result.now ≡ body_of self told.now }
    {
        match self {
            Reply::Refused(status, _) => status.refusal(),
            Reply::Told(_, _) => told,
        }
    }
}

/// The front of the bytes, as many as a body has.
fn front_of(rest: &[u8], size: usize) -> &[u8]
    ensures value { result.now ≡ take size rest.now }
    ensures short { length result.now ≤ size }
{
    if rest.len() > size {
        &rest[..size]
    } else {
        rest
    }
}

/// Whether a method is `HEAD`.
fn is_head(method: &[u8]) -> bool
    ensures { result ≡ bytes_eq method.now (codes "HEAD") }
{
    method == b"HEAD".as_slice()
}

/// Feeds the body of a request to the handler, once the head is whole, and does what it asks. If the handler fails, it answers
/// 503.
fn perform<F: RouteFinder, H: Handler, R: Source>(
    alloc: Global,
    routes: &F,
    handler: &mut H,
    reader: &mut R,
    bytes: &[u8],
    fields: &[HeaderSpan],
    read: HeadRead,
    answer: &mut Vec<u8>,
) -> Result<Reply, Unread>
    requires failures { R.failures reader.old < 2 ^ 64 - 1 }
    requires empty { answer.old.items ≡ [] }
    requires room { short_answer ≤ vec_capacity answer.old }
    requires whole { IsWhole bytes.now fields.now read.spans }
    ensures does { Performs H.step H.same H.takes_memory bytes.now R.gives reader.old reader.new
        (R.remaining reader.old) (R.remaining reader.new) handler.old handler.new answer.new.items result }
    ensures counted { (result ≡ Err Unread.Read → R.failures reader.new ≡ R.failures reader.old + 1)
        × (result ≢ Err Unread.Read → R.failures reader.new ≡ R.failures reader.old) }
{
    let spans = read.spans;
    let is_head = is_head(spans.method.of(bytes));
    match judge_head(routes, bytes, fields, &spans) {
        Judged::Refused(status) => Ok(Reply::Refused(status, is_head)),
        Judged::Wanted(route, size) => {
            let target = spans.path.of(bytes);
            let Ok(mut body) = handler.begin(alloc, route, target, size) else {
                return Ok(Reply::Refused(Status::Unavailable, false));
            };
            let front = front_of(&bytes[spans.len..], size);
            match feed_body::<H, R>(&mut body, front, size, reader) {
                Ok(()) => match handler.handle(alloc, route, target, body, answer) {
                    Ok((status, kind)) => Ok(Reply::Told(status, kind)),
                    Err(_) => Ok(Reply::Refused(Status::Unavailable, false)),
                },
                Err(BodyFault::Unavailable) => Ok(Reply::Refused(Status::Unavailable, false)),
                Err(BodyFault::Closed) => Err(Unread::Closed),
                Err(BodyFault::Read) => Err(Unread::Read),
            }
        }
    }
}

/// Reads a request, and does what it asks.
fn understand<F: RouteFinder, H: Handler, R: Source>(
    alloc: Global,
    routes: &F,
    handler: &mut H,
    reader: &mut R,
    buffer: &mut [u8],
    fields: &mut [HeaderSpan],
    answer: &mut Vec<u8>,
) -> Result<Reply, Unread>
    requires failures { R.failures reader.old < 2 ^ 64 - 1 }
    requires buffer { length buffer.old ≡ longest_head }
    requires fields { length fields.old ≡ most_fields }
    requires empty { answer.old.items ≡ [] }
    requires room { short_answer ≤ vec_capacity answer.old }
    ensures understands { Understands H.step H.same H.takes_memory R.gives reader.old reader.new
        (R.remaining reader.old) (R.remaining reader.new) handler.old handler.new answer.new.items result }
    ensures counted { (result ≡ Err Unread.Read → R.failures reader.new ≡ R.failures reader.old + 1)
        × (result ≢ Err Unread.Read → R.failures reader.new ≡ R.failures reader.old) }
{
    match read_head(buffer, fields, reader) {
        Ok(read) => perform(
            alloc,
            routes,
            handler,
            reader,
            &buffer[..read.filled],
            fields,
            read,
            answer,
        ),
        Err(HeadFault::Bad) => Ok(Reply::Refused(Status::BadRequest, false)),
        Err(HeadFault::TooLarge) => Ok(Reply::Refused(Status::FieldsTooLarge, false)),
        Err(HeadFault::Closed) => Err(Unread::Closed),
        Err(HeadFault::Read) => Err(Unread::Read),
    }
}

/// Writes all of two texts, one after the other, without joining them.
fn write_both<W: Sink>(head: &[u8], body: &[u8], writer: &mut W) -> io::Result<()>
    requires { W.failures writer.old < 2 ^ 64 - 1 }
    ensures done { OnOk result (Appends (W.contents writer.old) (W.contents writer.new) (head.now ++ body.now)) }
    ensures part { OnErr result ((n : ℕ) × (n < length (head.now ++ body.now))
        × Appends (W.contents writer.old) (W.contents writer.new) (take n (head.now ++ body.now))) }
    ensures writer { W.failures writer.new ≡ W.failures writer.old + (if is_ok result then 0 else 1) }
{
    write_whole(head, writer)?;
    write_whole(body, writer)
}

/// Writes all of an answer, whose head is put together in `text`.
fn write_answer<W: Sink>(
    text: &mut Vec<u8>,
    reply: Reply,
    told: &[u8],
    writer: &mut W,
) -> io::Result<()>
    requires failures { W.failures writer.old < 2 ^ 64 - 1 }
    requires empty { text.old.items ≡ [] }
    requires room { longest_answer_head ≤ vec_capacity text.old }
    ensures done { OnOk result (Appends (W.contents writer.old) (W.contents writer.new)
        (text_of (answer_of reply told.now))) }
    ensures part { OnErr result ((n : ℕ) × (n < length (text_of (answer_of reply told.now)))
        × Appends (W.contents writer.old) (W.contents writer.new) (take n (text_of (answer_of reply told.now)))) }
    ensures writer { W.failures writer.new ≡ W.failures writer.old + (if is_ok result then 0 else 1) }
{
    let body = reply.body(told);
    write_head(text, reply.status(), reply.kind(), body.len());
    if reply.ends_early() {
        write_whole(text, writer)
    } else {
        write_both(text, body, writer)
    }
}

/// The most bytes of a head.
const LONGEST_HEAD: usize = 16_384;

/// The most fields of a head.
const MOST_FIELDS: usize = 64;

/// Room for the head of an answer.
const LONGEST_ANSWER_HEAD: usize = 256;

/// Room for the body of a short answer.
const SHORT_ANSWER: usize = 768;

/// Room for a head.
fn room_of_head(alloc: Global) -> Result<Vec<u8>, AllocError>
    ensures { IfOk result (λ buffer. vec_len buffer ≡ longest_head) }
{
    vec![in alloc; 0; LONGEST_HEAD]
}

/// Reads one request, handles it, and writes its answer. Returns the answer's status. At most 16,384 bytes are read for the head,
/// with whatever comes after it. The handler is fed the body as it comes, and no byte beyond it is read. All the memory that a
/// refusal needs is taken before the first read.
///
/// # Errors
///
/// See `WireFault`.
pub fn serve_one<F: RouteFinder, H: Handler, R: Source, W: Sink>(
    alloc: Global,
    routes: &F,
    handler: &mut H,
    reader: &mut R,
    writer: &mut W,
) -> Result<Status, WireFault>
    requires reader { R.failures reader.old < 2 ^ 64 - 1 }
    requires writer { W.failures writer.old < 2 ^ 64 - 1 }
    ensures serves { Serves H.step H.same H.takes_memory R.gives reader.old reader.new
        (R.remaining reader.old) (R.remaining reader.new) (W.contents writer.old) (W.contents writer.new) handler.old handler.new result }
    ensures reader { (result ≡ Err WireFault.Read → R.failures reader.new ≡ R.failures reader.old + 1)
        × (result ≢ Err WireFault.Read → R.failures reader.new ≡ R.failures reader.old) }
    ensures writer { (result ≡ Err WireFault.Write → W.failures writer.new ≡ W.failures writer.old + 1)
        × (result ≢ Err WireFault.Write → W.failures writer.new ≡ W.failures writer.old) }
{
    // decides: how large may a line, a head or a body be (`LONGEST_LINE`, `LONGEST_HEAD`, `LONGEST_BODY`)?
    let mut buffer = room_of_head(alloc)?;
    let mut text = Vec::with_capacity(alloc, LONGEST_ANSWER_HEAD)?;
    let mut answer = Vec::with_capacity(alloc, SHORT_ANSWER)?;
    let mut fields = [EMPTY_HEADER_SPAN; MOST_FIELDS];
    let reply = match understand(
        alloc,
        routes,
        handler,
        reader,
        &mut buffer,
        &mut fields,
        &mut answer,
    ) {
        Ok(reply) => reply,
        Err(Unread::Read) => return Err(WireFault::Read),
        Err(Unread::Closed) => return Err(WireFault::Closed),
    };
    match write_answer(&mut text, reply, &answer, writer) {
        Ok(()) => Ok(reply.status()),
        Err(_) => Err(WireFault::Write),
    }
}
