//! The checks of a head, in their order: the first that fails gives the answer.

ghost use Rattle.std.specs.Prelude.{◌≡◌, ◌≤◌, ℕ, List, length, map, min, All, slice_index_or, ◌==◌, nat_lt, ◌+◌, if◌then◌else◌, Option, Some, None, IsUtf8};
ghost use Rattle.std.specs.Char.{is_ascii_digit};
ghost use Rattle.std.specs.List.{list_all};
ghost use Rattle.std.specs.Str.Parse.{digits_value};
ghost use Rattle.httparse.specs.Spans.{IsHeaderWithin, IsRequestWithin, header_bytes, span_bytes};
ghost use Rattle.mds_wire.specs.declared.route.Route.{Route as RouteOf};
ghost use Rattle.mds_wire.specs.Routes.{route_of};
ghost use Rattle.mds_wire.specs.Judging.{parts_at, values_in, is_host_fault, judge, judge_length, path_of, longest_body};
ghost use Rattle.mds_wire.specs.JudgeSteps.{IsValues};

use crate::answer::Status;
use crate::route::{Route, RouteFinder};
use crate::target::path_of;
use http::Method;
use httparse::spans::{HeaderSpan, RequestSpans};
use std::str;

/// What a head means.
#[derive(Clone, Copy)]
pub(crate) enum Judged {
    /// An answer that needs no body.
    Refused(Status),
    /// A route, and how many bytes the body has.
    Wanted(Route, usize),
}

/// The values of the fields with a name.
#[derive(Clone, Copy)]
enum Values<'b> {
    None,
    One(&'b [u8]),
    Several,
}

/// The most bytes of a body.
const LONGEST_BODY: usize = 8_388_608;

/// What a head means. The parser found the places of its parts.
pub(crate) fn judge_head<F: RouteFinder>(
    routes: &F,
    bytes: &[u8],
    fields: &[HeaderSpan],
    spans: &RequestSpans,
) -> Judged
    requires within { IsRequestWithin bytes.now fields.now spans.now }
    requires text { IsUtf8 (span_bytes bytes.now spans.now.path) }
    ensures value { result ≡ judge (parts_at bytes.now fields.now spans.now) }
    ensures few { (route : RouteOf) (size : ℕ) → result ≡ Judged.Wanted route size → size ≤ longest_body }
{
    // decides: what does the head of a request over HTTP mean?
    let fields = &fields[..spans.headers];
    if is_host_fault(spans.version, values_of(bytes, fields, b"host")) {
        return Judged::Refused(Status::BadRequest);
    }
    if is_some(values_of(bytes, fields, b"transfer-encoding")) {
        return Judged::Refused(Status::NotImplemented);
    }
    let target = spans.path.of(bytes);
    if !begins_with_slash(target) {
        return Judged::Refused(Status::BadRequest);
    }
    let Some(route) = route_of(routes, target) else {
        return Judged::Refused(Status::NotFound);
    };
    let method = route.method();
    if spans.method.of(bytes) != method.as_str().as_bytes() {
        return Judged::Refused(Status::MethodNotAllowed(route));
    }
    if method == Method::GET {
        return Judged::Wanted(route, 0);
    }
    judge_length(route, values_of(bytes, fields, b"content-length"))
}

/// The values of the fields with a name, whatever the case of its letters.
fn values_of<'b>(bytes: &'b [u8], fields: &[HeaderSpan], name: &[u8]) -> Values<'b>
    requires { All (IsHeaderWithin (length bytes.now)) fields.now }
    ensures { IsValues (values_in name.now (map (header_bytes bytes.now) fields.now)) result }
{
    let mut found = Values::None;
    for field in fields {
        if field.name.of(bytes).eq_ignore_ascii_case(name) {
            match found {
                Values::None => found = Values::One(field.value.of(bytes)),
                _ => return Values::Several,
            }
        }
    }
    found
}

/// Whether the values of the `Host` fields are a fault. `minor` is 0 or 1, for HTTP/1.0 or 1.1.
fn is_host_fault(minor: u8, values: Values<'_>) -> bool
    ensures { (found : List (List ℕ)) → IsValues found values.entry → result ≡ is_host_fault minor found }
{
    match values {
        Values::None => minor == 1,
        Values::One(_) => false,
        Values::Several => true,
    }
}

/// Whether there are values.
fn is_some(values: Values<'_>) -> bool
    ensures { (found : List (List ℕ)) → IsValues found values.entry → result ≡ nat_lt 0 (length found) }
{
    !matches!(values, Values::None)
}

/// Whether the first byte is a slash.
fn begins_with_slash(target: &[u8]) -> bool
    ensures { result ≡ (slice_index_or target.now 0 0 == 47) }
{
    !target.is_empty() && target[0] == b'/'
}

/// The route of a target, which the parser tested to be text.
fn route_of<F: RouteFinder>(routes: &F, target: &[u8]) -> Option<Route>
    requires { IsUtf8 target.now }
    ensures { result ≡ route_of (path_of target.now) }
{
    routes.find(str::from_utf8(path_of(target)).unwrap())
}

/// What the values of the `Content-Length` fields mean.
fn judge_length(route: Route, values: Values<'_>) -> Judged
    ensures value { (found : List (List ℕ)) → IsValues found values.entry → result ≡ judge_length route found }
    ensures few { (other : RouteOf) (size : ℕ) → result ≡ Judged.Wanted other size → size ≤ longest_body }
{
    // decides: what does the head of a request over HTTP mean?
    match values {
        Values::None => Judged::Refused(Status::LengthRequired),
        Values::Several => Judged::Refused(Status::BadRequest),
        Values::One(value) => {
            if value.is_empty() {
                return Judged::Refused(Status::BadRequest);
            }
            match number(value) {
                None => Judged::Refused(Status::BadRequest),
                // decides: how large may a line, a head or a body be (`LONGEST_LINE`, `LONGEST_HEAD`, `LONGEST_BODY`)?
                Some(size) if size > LONGEST_BODY => Judged::Refused(Status::ContentTooLarge),
                Some(size) => Judged::Wanted(route, size),
            }
        }
    }
}

/// The number that digits write, or `None` if some byte is no digit. From 8,388,609 on it is 8,388,609, so that no
/// row of digits is too long.
fn number(value: &[u8]) -> Option<usize>
    ensures { result ≡ (if list_all is_ascii_digit value.now
        then Some (min (digits_value 10 value.now) (longest_body + 1)) else None) }
{
    let mut size = 0;
    for byte in value {
        if !byte.is_ascii_digit() {
            return None;
        }
        size = (size * 10 + (*byte - b'0') as usize).min(LONGEST_BODY + 1);
    }
    Some(size)
}
