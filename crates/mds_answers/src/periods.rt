//! Accumulations as JSON.

ghost use Rattle.std.specs.Prelude.{◌≡◌, ◌<◌, IfOk, OnOk, map, string_bytes, vec_len};
ghost use Rattle.std.specs.List.{slice_split};
ghost use Rattle.serde_json.specs.Data.{array};
ghost use Rattle.serde_json.specs.Events.{SendsValue};
ghost use Rattle.serde_json.specs.View.{items_of, view};
ghost use Rattle.mds_statements.specs.Bodies.{IsPeriodBody};
ghost use Rattle.mds_statements.specs.Contents.{content_of, is_line_feed, texts_of};
ghost use Rattle.mds_answers.specs.Json.{ArePeriods, IsPeriod, texts};
ghost use Rattle.mds_answers.specs.JsonSteps.{SendsMember, content_json, parts_json};

use crate::told::{ToJson, send_list, send_text, texts_of};
use mds_messages::PeriodAnswer;
use mds_statements::Period;
use serde::{Serialize, Serializer};
use serde_json::Value;
use std::alloc::{AllocError, Global};

/// Its fields followed by its update, and its notes: the lines of its body.
impl ToJson for Period {
    ghost told_as = { IsPeriod };

    fn send<S: Serializer>(&self, room: &mut String, out: &mut S) -> Result<(), S::Error> {
        match put_body(self, room) {
            Ok(()) => send_body(*room.allocator(), room.as_str(), out),
            Err(_) => Err(out.custom("there is no memory")),
        }
    }
}

/// Replaces a text by the body of an accumulation.
fn put_body(period: &Period, text: &mut String) -> Result<(), AllocError>
    ensures { OnOk result (IsPeriodBody period.now (string_bytes text.new)) }
{
    text.clear();
    period.write_body(text)
}

/// Sends the fields that a body says, and its notes.
fn send_body<S: Serializer>(alloc: Global, body: &str, out: &mut S) -> Result<(), S::Error>
    ensures { OnOk result (SendsValue (content_json (content_of body.now)) (S.written out.old) (S.written out.new)) }
{
    match parts_of(alloc, body) {
        Ok(parts) => send_parts(&parts.0, &parts.1, out),
        Err(_) => Err(out.custom("there is no memory")),
    }
}

/// Sends fields and notes. Their values are lent, so that they are dropped in one place.
fn send_parts<S: Serializer>(fields: &Value, notes: &Value, out: &mut S) -> Result<(), S::Error>
    ensures { OnOk result (SendsValue (parts_json (view fields.now) (view notes.now)) (S.written out.old) (S.written out.new)) }
{
    out.begin_map(Some(2))?;
    send_value("fields", fields, out)?;
    send_value("notes", notes, out)?;
    out.end_map()
}

/// Sends a member with a value.
fn send_value<S: Serializer>(name: &str, value: &Value, out: &mut S) -> Result<(), S::Error>
    ensures { OnOk result (SendsMember name.now (view value.now) (S.written out.old) (S.written out.new)) }
{
    out.key(name)?;
    value.serialize(out)
}

/// The fields that a body says, and its notes.
fn parts_of(alloc: Global, body: &str) -> Result<(Value, Value), AllocError>
    ensures { IfOk result (λ parts. (view parts.0 ≡ texts (content_of body.now).fields)
        × (view parts.1 ≡ array (items_of (map texts (content_of body.now).notes)))) }
{
    let mut lines = lines_of(alloc, body)?;
    let fields = lines.remove(0);
    Ok((fields, Value::from(lines)))
}

/// The lines of a text, each as the list of its texts.
fn lines_of(alloc: Global, text: &str) -> Result<Vec<Value>, AllocError>
    ensures lines { IfOk result (λ lines. map view lines.items
        ≡ map (λ line. texts (texts_of line)) (slice_split is_line_feed text.now)) }
    ensures some { IfOk result (λ lines. 0 < vec_len lines) }
{
    let mut lines = Vec::new(alloc);
    for line in text.split('\n') {
        lines.push(texts_of(alloc, line)?)?;
    }
    Ok(lines)
}

/// The accumulations of a stream.
impl ToJson for PeriodAnswer {
    ghost told_as = { ArePeriods };

    fn send<S: Serializer>(&self, room: &mut String, out: &mut S) -> Result<(), S::Error> {
        out.begin_map(Some(3))?;
        send_text("nmi", self.stream.nmi.text(), out)?;
        send_list("periods", &self.periods, room, out)?;
        send_text("suffix", self.stream.suffix.text(), out)?;
        out.end_map()
    }
}
