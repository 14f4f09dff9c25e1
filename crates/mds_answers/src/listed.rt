//! Answers with a list. Their data are sent to the writer of `serde_json` as they are found, without a `Value` of the whole. So an answer
//! takes its text, and no memory for each reading.

ghost use Rattle.std.specs.Prelude.{◌≡◌, true, IfOk, OnOk};
ghost use Rattle.mds_messages.specs.Answers.{has_list};
ghost use Rattle.mds_answers.specs.Json.{IsData, IsJson};
ghost use Rattle.mds_answers.specs.JsonSteps.{Tells};

use crate::streams::send_streams;
use crate::told::ToJson;
use mds_messages::Answer;
use serde::{Described, Serialize, Serializer};
use serde_json::to_vec;
use std::alloc::{AllocError, Global};

/// The JSON text of an answer with a list: compact, with keys in the order of their bytes, and whole numbers.
pub fn list_json(alloc: Global, answer: &Answer) -> Result<Vec<u8>, AllocError>
    requires { has_list answer.now ≡ true }
    ensures { IfOk result (λ text. IsJson answer.now text.items) }
{
    // Only memory can be what such an answer fails for: it has no float, and each key is a text.
    match to_vec(alloc, &Listed { alloc, answer }) {
        Ok(text) => Ok(text),
        Err(_) => Err(AllocError),
    }
}

/// An answer with a list, as it is written by `serde_json`.
#[derive(Clone, Copy)]
struct Listed<'a> {
    alloc: Global,
    answer: &'a Answer,
    ghost list: { has_list answer.now ≡ true },
}

impl<'a> Described for Listed<'a> {
    ghost writes = { λ listed. Tells IsData listed.answer.now };
}

impl<'a> Serialize for Listed<'a> {
    fn serialize<S: Serializer>(&self, out: &mut S) -> Result<(), S::Error> {
        let mut room = String::new(self.alloc);
        send_answer(self.answer, &mut room, out)
    }
}

/// Sends an answer with a list.
fn send_answer<S: Serializer>(
    answer: &Answer,
    room: &mut String,
    out: &mut S,
) -> Result<(), S::Error>
    requires { has_list answer.now ≡ true }
    ensures { OnOk result (Tells IsData answer.now (S.written out.old) (S.written out.new)) }
{
    match answer {
        Answer::Day(answer) => answer.send(room, out),
        Answer::Versions(answer) => answer.send(room, out),
        Answer::Period(answer) => answer.send(room, out),
        Answer::Streams(answers) => send_streams(answers, room, out),
        _ => unreachable!(),
    }
}
