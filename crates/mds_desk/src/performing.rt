//! One request over a store, as a command does it.

ghost use Rattle.std.specs.Prelude.{◌≡◌, ◌+◌, ◌-◌, ◌<◌, ◌≤◌, ◌^◌, ◌++◌, ℕ, List, false, true, Err, OnErr, IfErr, IfOk, if◌then◌else◌, is_ok, codes, decimal, length, take};
ghost use Rattle.std.specs.Io.KnownBytes.{Appends as AppendsKnown, Keeps};
ghost use Rattle.mds_messages.specs.declared.answer.Answer.{Answer as AnAnswer};
ghost use Rattle.mds_records.specs.Printed.{fault_text};
ghost use Rattle.mds_keeper.specs.Refusals.{place_text, refusal_text};
ghost use Rattle.mds_messages.specs.Answers.{has_list, has_text};
ghost use Rattle.mds_service.specs.Crashes.{Goes};
ghost use Rattle.mds_desk.specs.Performed.{IsAnswerText, IsJsonLine, IsToldAs, answer_status, is_write_failure};
ghost use Rattle.mds_desk.specs.Printed.{printed_bytes};

use crate::outcome::Status;
use arrayvec::ArrayString;
use itoa::Buffer;
use mds_answers::list_json;
use mds_keeper::{Keeper, Refusal};
use mds_lines::{Sink, write_whole};
use mds_messages::{Answer, Request};
use mds_records::FileFault;
use mds_service::run;
use std::alloc::{AllocError, Global};

/// Room for a line. The longest is a refusal's, of at most 87 bytes.
const LONGEST: usize = 100;

/// A line put together on the stack, so that it takes no memory.
type Line = ArrayString<LONGEST>;

/// What is printed of an answer: a line, the answer's own text, which isn't copied, or its JSON text as a line.
#[derive(Drop)]
enum Printed<'a> {
    Line(Line),
    Text(&'a [u8]),
    Json(Vec<u8>),
}

impl<'a> Printed<'a> {
    /// What is printed of an answer. Only a JSON text takes memory, and it fails just if memory for it runs out.
    fn of(alloc: Global, answer: &'a Answer) -> Result<Printed<'a>, AllocError>
        ensures text { IfOk result (λ printed. IsAnswerText answer.now (printed_bytes printed)) }
        ensures memory { OnErr result (has_list answer.now ≡ true) }
    {
        if let Some(text) = answer.text() {
            return Ok(Printed::Text(text));
        }
        if answer.has_list() {
            return Ok(Printed::Json(json_line(alloc, answer)?));
        }
        Ok(Printed::Line(short_line(answer)))
    }

    /// Its bytes.
    fn bytes(&self) -> &[u8]
        ensures { result.now ≡ printed_bytes self.now }
    {
        match self {
            Printed::Line(line) => line.as_str().as_bytes(),
            Printed::Text(text) => text,
            Printed::Json(text) => text,
        }
    }
}

/// Why not everything was printed.
#[derive(Clone, Copy)]
pub enum PerformFault {
    /// The writer failed. Some front of the text was written, and the request was done.
    Write,
    /// There was no memory. The request wasn't done, and nothing was written.
    Memory,
}

/// Does one request over a keeper, writes what a command prints of its answer, and returns the status to end with.
pub fn perform<K: Keeper, W: Sink>(
    alloc: Global,
    keeper: &mut K,
    request: &Request,
    writer: &mut W,
) -> Result<Status, PerformFault>
    requires { W.failures writer.old < 2 ^ 64 - 1 }

    // A step of the machine was done, and its answer printed, whole and nothing else. It is one from every lawful World that is
    // kept if the keeper is sound, so also after a fault that shut it.
    ensures done { IfOk result (λ status. (answer : AnAnswer)
        × Goes (K.kept keeper.old) (K.kept keeper.new) request.now answer
        × (status ≡ answer_status answer) × (text : List ℕ) × IsAnswerText answer text
        × AppendsKnown (W.contents writer.old) (W.contents writer.new) text) }

    // If the writer fails, the step was done all the same, and a part of its answer was printed.
    ensures part { result ≡ Err PerformFault.Write → (answer : AnAnswer)
        × Goes (K.kept keeper.old) (K.kept keeper.new) request.now answer
        × (text : List ℕ) × IsAnswerText answer text × (n : ℕ) × (n < length text)
        × AppendsKnown (W.contents writer.old) (W.contents writer.new) (take n text) }

    // Without memory nothing was done or written.
    ensures memory { result ≡ Err PerformFault.Memory → (keeper.new ≡ keeper.old)
        × Keeps (W.contents writer.old) (W.contents writer.new) }

    // `Write` is returned just if the writer failed, once.
    ensures writer { W.failures writer.new ≡ W.failures writer.old + (if is_write_failure result then 1 else 0) }
{
    let Ok(answers) = run(alloc, keeper, std::slice::from_ref(request)) else {
        return Err(PerformFault::Memory);
    };
    let [answer] = answers.as_slice() else {
        unreachable!();
    };
    print_answer(alloc, answer, writer)
}

/// Writes what a command prints of an answer, and returns the status to end with. Only the JSON text of a query's answer takes
/// memory: if that runs out, the answer is printed as unavailable.
pub(crate) fn print_answer<W: Sink>(
    alloc: Global,
    answer: &Answer,
    writer: &mut W,
) -> Result<Status, PerformFault>
    requires { W.failures writer.old < 2 ^ 64 - 1 }
    ensures done { IfOk result (λ status. (told : AnAnswer) × (text : List ℕ) × IsToldAs answer.now told
        × IsAnswerText told text × (status ≡ answer_status told)
        × AppendsKnown (W.contents writer.old) (W.contents writer.new) text) }
    ensures part { IfErr result (λ fault. (fault ≡ PerformFault.Write)
        × (told : AnAnswer) × (text : List ℕ) × IsToldAs answer.now told × IsAnswerText told text
        × (n : ℕ) × (n < length text)
        × AppendsKnown (W.contents writer.old) (W.contents writer.new) (take n text)) }
    ensures writer { W.failures writer.new ≡ W.failures writer.old + (if is_ok result then 0 else 1) }
{
    match Printed::of(alloc, answer) {
        Ok(printed) => print_text(printed.bytes(), status_of(answer), writer),
        Err(_) => print_text(
            unavailable_line().as_str().as_bytes(),
            Status::Unavailable,
            writer,
        ),
    }
}

/// Writes a text, and returns a status.
fn print_text<W: Sink>(text: &[u8], status: Status, writer: &mut W) -> Result<Status, PerformFault>
    requires { W.failures writer.old < 2 ^ 64 - 1 }
    ensures done { IfOk result (λ answered. (answered ≡ status)
        × AppendsKnown (W.contents writer.old) (W.contents writer.new) text.now) }
    ensures part { IfErr result (λ fault. (fault ≡ PerformFault.Write) × (n : ℕ) × (n < length text.now)
        × AppendsKnown (W.contents writer.old) (W.contents writer.new) (take n text.now)) }
    ensures writer { W.failures writer.new ≡ W.failures writer.old + (if is_ok result then 0 else 1) }
{
    match write_whole(text, writer) {
        Ok(()) => Ok(status),
        Err(_) => Err(PerformFault::Write),
    }
}

/// The status to end with after an answer.
fn status_of(answer: &Answer) -> Status
    ensures { result ≡ answer_status answer.now }
{
    // decides: which status does a run end with?
    match answer {
        Answer::File(_) | Answer::Refused(_) => Status::Fault,
        Answer::Unavailable => Status::Unavailable,
        _ => Status::Done,
    }
}

/// The line of a short answer.
fn short_line(answer: &Answer) -> Line
    requires text { has_text answer.now ≡ false }
    requires list { has_list answer.now ≡ false }
    ensures { IsAnswerText answer.now result.bytes }
{
    match answer {
        Answer::Imported { added, known } => added_line(*added, *known),
        Answer::Substituted { count } => count_line("substituted ", *count),
        Answer::Known { count } => count_line("known ", *count),
        Answer::HolidaysAdded { added, known } => added_line(*added, *known),
        Answer::File(fault) => fault_line(fault),
        Answer::Refused(refusal) => refusal_line(refusal),
        Answer::Unavailable => unavailable_line(),
        _ => unreachable!(),
    }
}

fn added_line(added: u64, known: u64) -> Line
    ensures { result.bytes ≡ codes "added " ++ decimal added ++ codes " known " ++ decimal known ++ codes "\n" }
{
    let mut line = Line::new();
    push_number(&mut line, "added ", added);
    push_number(&mut line, " known ", known);
    line.push_str("\n");
    line
}

fn count_line(name: &str, count: u64) -> Line
    requires { length name.now ≤ 12 }
    ensures { result.bytes ≡ name.now ++ decimal count ++ codes "\n" }
{
    let mut line = Line::new();
    push_number(&mut line, name, count);
    line.push_str("\n");
    line
}

#[tactic(auto, using(crate::proofs::Codes::code_short))]
fn fault_line(fault: &FileFault) -> Line
    ensures { result.bytes ≡ fault_text fault.now ++ codes "\n" }
{
    let mut line = Line::new();
    line.push_str(fault.code.text());
    push_number(&mut line, " line ", fault.line);
    push_place(&mut line, " field ", fault.field as u64);
    line.push_str("\n");
    line
}

#[tactic(auto, using(crate::proofs::Codes::rule_short))]
fn refusal_line(refusal: &Refusal) -> Line
    ensures { result.bytes ≡ refusal_text refusal.now ++ codes "\n" }
{
    let mut line = Line::new();
    line.push_str(refusal.code.text());
    push_place(&mut line, " line ", refusal.line);
    push_place(&mut line, " field ", refusal.field);
    push_place(&mut line, " interval ", u64::from(refusal.interval));
    line.push_str("\n");
    line
}

/// The JSON text of an answer with a list, as a line.
fn json_line(alloc: Global, answer: &Answer) -> Result<Vec<u8>, AllocError>
    requires { has_list answer.now ≡ true }
    ensures { IfOk result (λ line. IsJsonLine answer.now line.items) }
{
    let mut line = list_json(alloc, answer)?;
    line.push(b'\n')?;
    Ok(line)
}

fn unavailable_line() -> Line
    ensures { result.bytes ≡ codes "U1\n" }
{
    let mut line = Line::new();
    line.push_str("U1\n");
    line
}

/// Appends a number after its name.
fn push_number(line: &mut Line, name: &str, number: u64)
    requires { length line.old.bytes + length name.now + 20 ≤ LONGEST }
    ensures bytes { line.new.bytes ≡ line.old.bytes ++ name.now ++ decimal number }
    ensures short { length line.new.bytes ≤ length line.old.bytes + length name.now + 20 }
{
    line.push_str(name);
    line.push_str(Buffer::new().format(number));
}

/// Appends a number after its name, unless it is 0.
fn push_place(line: &mut Line, name: &str, number: u64)
    requires { length line.old.bytes + length name.now + 20 ≤ LONGEST }
    ensures bytes { line.new.bytes ≡ line.old.bytes ++ place_text name.now number }
    ensures short { length line.new.bytes ≤ length line.old.bytes + length name.now + 20 }
{
    if number != 0 {
        push_number(line, name, number);
    }
}
