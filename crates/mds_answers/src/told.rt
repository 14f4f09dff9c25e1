//! What is listed in answers, as it is sent to the writer of JSON, and the texts in it.

ghost use Rattle.std.specs.Prelude.{◌≡◌, ℕ, true, List, Some, IfOk, OnOk};
ghost use Rattle.std.specs.Char.{is_ascii_digit};
ghost use Rattle.std.specs.List.{list_all, slice_split};
ghost use Rattle.serde_json.specs.Data.{Data, array, string};
ghost use Rattle.serde_json.specs.View.{items_of, view};
ghost use Rattle.mds_calendar.specs.Calendar.{day_of};
ghost use Rattle.mds_names.specs.Names.{is_comma};
ghost use Rattle.mds_terms.specs.Parts.{optional};
ghost use Rattle.mds_answers.specs.Json.{AreEach, texts, whole};
ghost use Rattle.mds_answers.specs.JsonSteps.{SendsMember, Tells};

use mds_terms::Day;
use serde::Serializer;
use serde_json::Value;
use std::alloc::{AllocError, Global};
use std::str;

/// What can be sent as JSON.
pub(crate) trait ToJson {
    /// Which JSON data say it.
    ghost told_as: { Self → Data → Type 0 };

    /// Sends the JSON data that say it. A text that has to be made is made in `room`.
    fn send<S: Serializer>(&self, room: &mut String, out: &mut S) -> Result<(), S::Error>
        ensures { OnOk result (Tells told_as self.now (S.written out.old) (S.written out.new)) };
}

/// Sends a member: the list of all things, in their order.
pub(crate) fn send_list<T: ToJson, S: Serializer>(
    name: &str,
    things: &[T],
    room: &mut String,
    out: &mut S,
) -> Result<(), S::Error>
    ensures { OnOk result ((told : List Data) × AreEach T.told_as things.now told
        × SendsMember name.now (array (items_of told)) (S.written out.old) (S.written out.new)) }
{
    out.key(name)?;
    out.begin_seq(Some(things.len()))?;
    for thing in things {
        thing.send(room, out)?;
    }
    out.end_seq()
}

/// Sends a member with a text.
pub(crate) fn send_text<S: Serializer>(name: &str, text: &str, out: &mut S) -> Result<(), S::Error>
    ensures { OnOk result (SendsMember name.now (string text.now) (S.written out.old) (S.written out.new)) }
{
    out.key(name)?;
    out.str(text)
}

/// Sends a member with a whole number.
pub(crate) fn send_number<S: Serializer>(
    name: &str,
    number: u64,
    out: &mut S,
) -> Result<(), S::Error>
    ensures { OnOk result (SendsMember name.now (whole number) (S.written out.old) (S.written out.new)) }
{
    out.key(name)?;
    out.u64(number)
}

/// Sends a member with the text of a day, or with the empty text if the day is absent.
pub(crate) fn send_optional_day<S: Serializer>(
    name: &str,
    day: Option<Day>,
    out: &mut S,
) -> Result<(), S::Error>
    ensures { OnOk result ((text : List ℕ) × (optional day_of text ≡ Some day)
        × SendsMember name.now (string text) (S.written out.old) (S.written out.new)) }
{
    match day {
        Some(day) => send_text(name, digits_text(&day.digits()), out),
        None => send_text(name, "", out),
    }
}

/// Digits as a text.
pub(crate) fn digits_text(digits: &[u8]) -> &str
    requires { list_all is_ascii_digit digits.now ≡ true }
    ensures { result.now ≡ digits.now }
{
    str::from_utf8(digits).unwrap()
}

/// The list of the texts between the commas of a text.
pub(crate) fn texts_of(alloc: Global, text: &str) -> Result<Value, AllocError>
    ensures { IfOk result (λ value. view value ≡ texts (slice_split is_comma text.now)) }
{
    let mut list = Vec::new(alloc);
    for part in text.split(',') {
        list.push(Value::try_from_str(alloc, part)?)?;
    }
    Ok(Value::from(list))
}
