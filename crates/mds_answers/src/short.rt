//! Answers without a list. Their texts are put together on the stack, so that they take no memory.

ghost use Rattle.std.specs.Prelude.{◌≡◌, ◌+◌, ◌≤◌, ◌++◌, false, codes, decimal, length};
ghost use Rattle.serde_json.specs.Data.{boolean};
ghost use Rattle.serde_json.specs.Written.{compact_text};
ghost use Rattle.mds_records.specs.Printed.{code_text as fault_code_text};
ghost use Rattle.mds_keeper.specs.Refusals.{code_text as rule_code_text, place_text};
ghost use Rattle.mds_messages.specs.Answers.{has_list, has_text};
ghost use Rattle.mds_answers.specs.Json.{IsJson, counts, filled, refused};
ghost use Rattle.mds_answers.specs.JsonSteps.{IsPlain};

use arrayvec::ArrayString;
use itoa::Buffer;
use mds_keeper::Refusal;
use mds_messages::Answer;
use mds_records::FileFault;

/// Room for a text. The longest is a refusal's with a field, an interval and a line, of at most 89 bytes.
const ROOM: usize = 160;

/// A text that is put together on the stack.
pub(crate) type Line = ArrayString<ROOM>;

/// The text of an answer without a list.
pub(crate) fn line_of(answer: &Answer) -> Line
    requires text { has_text answer.now ≡ false }
    requires list { has_list answer.now ≡ false }
    ensures { IsJson answer.now result.bytes }
{
    match answer {
        Answer::Imported { added, known } => counts_line(*added, *known),
        Answer::Substituted { count } => filled_line(*count, false),
        Answer::Known { count } => filled_line(*count, true),
        Answer::HolidaysAdded { added, known } => counts_line(*added, *known),
        Answer::File(fault) => fault_line(fault),
        Answer::Refused(refusal) => refusal_line(refusal),
        Answer::Unavailable => unavailable_line(),
        _ => unreachable!(),
    }
}

/// How many were added, and how many were known.
#[tactic(auto, using(crate::proofs::ShortTexts::counts_text))]
fn counts_line(added: u64, known: u64) -> Line
    ensures { result.bytes ≡ compact_text (counts added known) }
{
    let mut line = Line::new();
    push_number(&mut line, "{\"added\":", added);
    push_number(&mut line, ",\"known\":", known);
    line.push_str("}");
    line
}

/// How many intervals a job filled, and whether it was known.
#[tactic(auto, using(crate::proofs::ShortTexts::filled_text))]
fn filled_line(count: u64, is_known: bool) -> Line
    ensures { result.bytes ≡ compact_text (filled count is_known) }
{
    let mut line = Line::new();
    push_number(&mut line, "{\"count\":", count);
    line.push_str(",\"known\":");
    line.push_str(truth_text(is_known));
    line.push_str("}");
    line
}

/// The text of a truth value.
fn truth_text(value: bool) -> &'static str
    ensures text { result.now ≡ compact_text (boolean value) }
    ensures short { length result.now ≤ 5 }
{
    if value { "true" } else { "false" }
}

/// A refusal: its code, and its place.
#[tactic(auto, using(crate::proofs::ShortTexts::refused_text))]
fn refused_line(code: &str, field: u64, interval: u64, line: u64) -> Line
    requires { IsPlain code.now }
    ensures { result.bytes ≡ compact_text (refused code.now field interval line) }
{
    let mut text = Line::new();
    text.push_str("{\"error\":\"");
    text.push_str(code);
    text.push_str("\"");
    push_place(&mut text, ",\"field\":", field);
    push_place(&mut text, ",\"interval\":", interval);
    push_place(&mut text, ",\"line\":", line);
    text.push_str("}");
    text
}

/// The fault of a file.
fn fault_line(fault: &FileFault) -> Line
    ensures { result.bytes
        ≡ compact_text (refused (fault_code_text fault.now.code) fault.now.field 0 fault.now.line) }
{
    refused_line(fault.code.text(), fault.field as u64, 0, fault.line)
}

/// The rule that is broken.
fn refusal_line(refusal: &Refusal) -> Line
    ensures { result.bytes ≡ compact_text (refused (rule_code_text refusal.now.code) refusal.now.field
        refusal.now.interval refusal.now.line) }
{
    refused_line(
        refusal.code.text(),
        refusal.field,
        u64::from(refusal.interval),
        refusal.line,
    )
}

/// For an answer that is unavailable now.
#[tactic(auto, unfolding(serde_json::proofs::OnLiterals::serde_json_on_literals))]
fn unavailable_line() -> Line
    ensures { result.bytes ≡ compact_text (refused (codes "U1") 0 0 0) }
{
    refused_line("U1", 0, 0, 0)
}

/// For a list of holidays that differs from some row on.
#[tactic(auto, unfolding(serde_json::proofs::OnLiterals::serde_json_on_literals))]
pub(crate) fn holidays_line(row: u64) -> Line
    ensures { result.bytes ≡ compact_text (refused (codes "H1") 0 0 row) }
{
    refused_line("H1", 0, 0, row)
}

/// Appends a number after its name.
fn push_number(line: &mut Line, name: &str, number: u64)
    requires { length line.old.bytes + length name.now + 20 ≤ ROOM }
    ensures bytes { line.new.bytes ≡ line.old.bytes ++ name.now ++ decimal number }
    ensures short { length line.new.bytes ≤ length line.old.bytes + length name.now + 20 }
{
    line.push_str(name);
    line.push_str(Buffer::new().format(number));
}

/// Appends a number after its name, unless it is 0.
fn push_place(line: &mut Line, name: &str, number: u64)
    requires { length line.old.bytes + length name.now + 20 ≤ ROOM }
    ensures bytes { line.new.bytes ≡ line.old.bytes ++ place_text name.now number }
    ensures short { length line.new.bytes ≤ length line.old.bytes + length name.now + 20 }
{
    if number != 0 {
        push_number(line, name, number);
    }
}
