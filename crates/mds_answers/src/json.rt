//! The JSON text of an answer.

ghost use Rattle.std.specs.Prelude.{◌≡◌, ◌+◌, ◌≤◌, ◌++◌, ℕ, List, true, false, codes, is_ok, IfOk, OnOk, OnErr, vec_capacity, vec_len};
ghost use Rattle.serde_json.specs.Written.{compact_text};
ghost use Rattle.mds_quantity.specs.Append.{Appends};
ghost use Rattle.mds_messages.specs.declared.answer.Answer.{Answer as AnAnswer};
ghost use Rattle.mds_messages.specs.Answers.{has_list, has_text};
ghost use Rattle.mds_answers.specs.Json.{IsJson, refused, short_room};

use crate::listed::list_json;
use crate::short::{holidays_line, line_of};
use mds_messages::Answer;
use mds_terms::{one_day_text, one_moment_text};
use std::alloc::{AllocError, Global};

/// Appends the JSON text of an answer without a list, in the same form. It fits in 160 bytes, and takes no memory if there is room
/// for them. If it runs out of memory, nothing is appended.
pub fn short_json(answer: &Answer, out: &mut Vec<u8>) -> Result<(), AllocError>
    requires text { has_text answer.now ≡ false }
    requires list { has_list answer.now ≡ false }
    ensures done { OnOk result ((text : List ℕ) × IsJson answer.now text × Appends out.old.items out.new.items text) }
    ensures kept { OnErr result (out.new.items ≡ out.old.items) }
    ensures short { vec_len out.old + short_room ≤ vec_capacity out.old → is_ok result ≡ true }
{
    out.extend_from_slice(line_of(answer).as_str().as_bytes())
}

/// Appends the JSON text of an answer that isn't a text of its own. If there is room for 160 bytes, only an answer with a list
/// takes memory. If it runs out of memory, nothing is appended.
pub fn answer_json(alloc: Global, answer: &Answer, out: &mut Vec<u8>) -> Result<(), AllocError>
    requires { has_text answer.now ≡ false }
    ensures done { OnOk result ((text : List ℕ) × IsJson answer.now text × Appends out.old.items out.new.items text) }
    ensures kept { OnErr result (out.new.items ≡ out.old.items) }
    ensures short { has_list answer.now ≡ false → vec_len out.old + short_room ≤ vec_capacity out.old → is_ok result ≡ true }
{
    if answer.has_list() {
        let text = list_json(alloc, answer)?;
        return out.extend_from_slice(&text);
    }
    short_json(answer, out)
}

/// Appends the JSON text for a list of holidays that differs from some row on, counted from 1. The row is its `line`. It takes no
/// memory if there is room for 160 bytes.
pub fn holidays_json(row: u64, out: &mut Vec<u8>) -> Result<(), AllocError>
    ensures done { OnOk result (Appends out.old.items out.new.items (compact_text (refused (codes "H1") 0 0 row))) }
    ensures kept { OnErr result (out.new.items ≡ out.old.items) }
    ensures short { vec_len out.old + short_room ≤ vec_capacity out.old → is_ok result ≡ true }
{
    out.extend_from_slice(holidays_line(row).as_str().as_bytes())
}

/// A law: an answer has one JSON text.
pub fn one_json()
    ensures { (answer : AnAnswer) (a b : List ℕ) → IsJson answer a → IsJson answer b → a ≡ b }
{
    // For the proof: a day and a moment have one text each.
    one_day_text();
    one_moment_text();
}
