//! How an answer is sent, or what is sent if a target asks for nothing.

ghost use Rattle.std.specs.Prelude.{◌≡◌, ◌≤◌, [], true, false, vec_capacity};
ghost use Rattle.mds_messages.specs.Answers.{has_list, has_text};
ghost use Rattle.mds_requests.specs.declared.targets.TargetFault.TheVariants as fault;
ghost use Rattle.mds_wire.specs.Serving.{short_answer};
ghost use Rattle.mds_http.specs.Handling.{TellsFault, status_of as status_of_answer, status_of_rule as status_of_code};
ghost use Rattle.mds_http.specs.TellingSteps.{TellsOrNot, TellsWhole};

use mds_answers::{holidays_json, list_json, short_json};
use mds_keeper::RefusalCode;
use mds_messages::Answer;
use mds_wire::{Kind, Status};
use std::alloc::Global;

/// Writes the text of an answer, and returns its status and its type. If there is no memory for the text of a list,
/// `Unavailable` is sent instead (U1).
pub(crate) fn tell(alloc: Global, answer: Answer, out: &mut Vec<u8>) -> (Status, Kind)
    requires empty { out.old.items ≡ [] }
    requires room { short_answer ≤ vec_capacity out.old }
    ensures { TellsOrNot answer result.0 result.1 out.new.items }
{
    match answer.into_text() {
        Ok(text) => tell_text(text, out),
        Err(other) => tell_json(alloc, &other, out),
    }
}

/// Passes on the text of an answer, without a copy of it.
fn tell_text(text: Vec<u8>, out: &mut Vec<u8>) -> (Status, Kind)
    ensures { (result ≡ (Status.Success, Kind.Csv)) × (out.new.items ≡ text.items) }
{
    *out = text;
    (Status::Success, Kind::Csv)
}

/// Writes the JSON text of an answer. Only the text of a list takes memory.
fn tell_json(alloc: Global, answer: &Answer, out: &mut Vec<u8>) -> (Status, Kind)
    requires text { has_text answer.now ≡ false }
    requires empty { out.old.items ≡ [] }
    requires room { short_answer ≤ vec_capacity out.old }
    ensures { TellsOrNot answer.now result.0 result.1 out.new.items }
{
    if answer.has_list() {
        return tell_list(alloc, answer, out);
    }
    tell_short(answer, out)
}

/// Writes the text of an answer with a list, which takes memory.
fn tell_list(alloc: Global, answer: &Answer, out: &mut Vec<u8>) -> (Status, Kind)
    requires list { has_list answer.now ≡ true }
    requires empty { out.old.items ≡ [] }
    requires room { short_answer ≤ vec_capacity out.old }
    ensures { TellsOrNot answer.now result.0 result.1 out.new.items }
{
    match list_json(alloc, answer) {
        Ok(text) => {
            *out = text;
            (status_of(answer), Kind::Json)
        }
        Err(_) => tell_short(&Answer::Unavailable, out),
    }
}

/// Writes the text of an answer for which there is room.
fn tell_short(answer: &Answer, out: &mut Vec<u8>) -> (Status, Kind)
    requires text { has_text answer.now ≡ false }
    requires list { has_list answer.now ≡ false }
    requires empty { out.old.items ≡ [] }
    requires room { short_answer ≤ vec_capacity out.old }
    ensures { TellsWhole answer.now result.0 result.1 out.new.items }
{
    let Ok(()) = short_json(answer, out) else {
        unreachable!();
    };
    (status_of(answer), Kind::Json)
}

/// The status of an answer: 422 for a fault of a file, 503 for U1, and 200 if nothing is refused.
fn status_of(answer: &Answer) -> Status
    ensures { result ≡ status_of_answer answer.now }
{
    // decides: which HTTP status does an answer have?
    match answer {
        Answer::File(_) => Status::Unprocessable,
        Answer::Refused(refusal) => status_of_rule(refusal.code),
        Answer::Unavailable => Status::Unavailable,
        _ => Status::Success,
    }
}

/// The status of a refusal: 404 for M10, 409 for M1 to M6, and 422 for the others.
fn status_of_rule(code: RefusalCode) -> Status
    ensures { result ≡ status_of_code code }
{
    // decides: which HTTP status does an answer have?
    match code {
        RefusalCode::LengthConflict
        | RefusalCode::UnitConflict
        | RefusalCode::VersionConflict
        | RefusalCode::JobReused
        | RefusalCode::Protected
        | RefusalCode::StaleUpdate => Status::Conflict,
        RefusalCode::UnknownDay => Status::NotFound,
        RefusalCode::NoLikeDay
        | RefusalCode::TooLong
        | RefusalCode::NoAnchor
        | RefusalCode::BadJob
        | RefusalCode::RangeTooWide => Status::Unprocessable,
    }
}

/// Writes the refusal of a target and body that ask for nothing.
pub(crate) fn refuse_target(out: &mut Vec<u8>) -> (Status, Kind)
    requires empty { out.old.items ≡ [] }
    requires room { short_answer ≤ vec_capacity out.old }
    ensures { TellsFault fault.Bad result.0 result.1 out.new.items }
{
    // decides: which HTTP status does an answer have?
    let Ok(()) = out.extend_from_slice(Status::BadRequest.refusal()) else {
        unreachable!();
    };
    (Status::BadRequest, Kind::Json)
}

/// Writes the refusal of a list of holidays, with its first bad row (H1).
pub(crate) fn refuse_holidays(row: u64, out: &mut Vec<u8>) -> (Status, Kind)
    requires empty { out.old.items ≡ [] }
    requires room { short_answer ≤ vec_capacity out.old }
    ensures { TellsFault (fault.BadHolidays row) result.0 result.1 out.new.items }
{
    // decides: which HTTP status does an answer have?
    let Ok(()) = holidays_json(row, out) else {
        unreachable!();
    };
    (Status::Unprocessable, Kind::Json)
}
