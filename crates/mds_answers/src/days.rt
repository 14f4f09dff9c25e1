//! Days and versions as JSON.

ghost use Rattle.std.specs.Prelude.{◌≡◌, ℕ, List, OnOk, Some, codes, decimal, map, string_bytes};
ghost use Rattle.serde_json.specs.Data.{array};
ghost use Rattle.serde_json.specs.View.{items_of};
ghost use Rattle.mds_calendar.specs.Calendar.{moment_of};
ghost use Rattle.mds_marks.specs.Quality.{quality_text};
ghost use Rattle.mds_marks.specs.Reading.{value_text};
ghost use Rattle.mds_marks.specs.Reason.{code_text as text_of_code};
ghost use Rattle.mds_terms.specs.Event.{trans_text};
ghost use Rattle.mds_terms.specs.Parts.{optional};
ghost use Rattle.mds_answers.specs.Json.{IsDayData, IsEvent, IsVersion, IsVersionsData, reading_texts, texts};
ghost use Rattle.mds_answers.specs.JsonSteps.{SendsMember, SendsText, SendsTexts};

use crate::told::{ToJson, digits_text, send_list, send_number, send_text};
use itoa::Buffer;
use mds_keeper::Version;
use mds_messages::{DayAnswer, VersionsAnswer};
use mds_quantity::Quantity;
use mds_terms::{Event, Length, Moment, Quality, Reading, TransCode};
use serde::Serializer;
use std::alloc::AllocError;
use std::str;

/// The texts of its quality, of the code and of the text of its reason, and of its value.
impl ToJson for Reading {
    ghost told_as = { λ reading json. json ≡ texts (reading_texts reading) };

    fn send<S: Serializer>(&self, room: &mut String, out: &mut S) -> Result<(), S::Error> {
        out.begin_seq(Some(4))?;
        send_reading(self, room, out)?;
        out.end_seq()
    }
}

/// Its update, its reading, and the minutes of its interval.
impl ToJson for Version {
    ghost told_as = { IsVersion };

    fn send<S: Serializer>(&self, room: &mut String, out: &mut S) -> Result<(), S::Error> {
        let update = self.update.digits();
        out.begin_seq(Some(6))?;
        out.str(digits_text(&update))?;
        send_reading(&self.reading, room, out)?;
        send_length(self.length, out)?;
        out.end_seq()
    }
}

/// Sends the texts of a reading. They take no memory of their own: that of the value is made in `room`, which is kept from reading to
/// reading.
fn send_reading<S: Serializer>(
    reading: &Reading,
    room: &mut String,
    out: &mut S,
) -> Result<(), S::Error>
    ensures { OnOk result (SendsTexts (reading_texts reading.now) (S.written out.old) (S.written out.new)) }
{
    let mark = reading.mark();
    send_quality(mark.quality, out)?;
    send_code(mark.reason.code(), out)?;
    out.str(mark.reason.text())?;
    send_value(reading.value(), room, out)
}

/// Sends the text of a quality.
fn send_quality<S: Serializer>(quality: Quality, out: &mut S) -> Result<(), S::Error>
    ensures { OnOk result (SendsText (quality_text quality) (S.written out.old) (S.written out.new)) }
{
    let (letters, count) = quality.letters();
    out.str(str::from_utf8(&letters[..count]).unwrap())
}

/// Sends the text of a reason's code, or the empty text if it is absent.
fn send_code<S: Serializer>(code: Option<u16>, out: &mut S) -> Result<(), S::Error>
    ensures { OnOk result (SendsText (text_of_code code) (S.written out.old) (S.written out.new)) }
{
    match code {
        Some(code) => out.str(Buffer::new().format(code)),
        None => out.str(""),
    }
}

/// Sends the text of a value, or the empty text if it is absent.
fn send_value<S: Serializer>(
    value: Option<Quantity>,
    room: &mut String,
    out: &mut S,
) -> Result<(), S::Error>
    ensures { OnOk result (SendsText (value_text value) (S.written out.old) (S.written out.new)) }
{
    match put_value(value, room) {
        Ok(()) => out.str(room.as_str()),
        Err(_) => Err(out.custom("there is no memory")),
    }
}

/// Replaces a text by that of a value. It is empty if there is no value.
fn put_value(value: Option<Quantity>, text: &mut String) -> Result<(), AllocError>
    ensures { OnOk result (string_bytes text.new ≡ value_text value) }
{
    text.clear();
    let Some(value) = value else {
        return Ok(());
    };
    value.write_to(text)
}

/// Sends the text of a length, its minutes.
fn send_length<S: Serializer>(length: Length, out: &mut S) -> Result<(), S::Error>
    ensures { OnOk result (SendsText (decimal length) (S.written out.old) (S.written out.new)) }
{
    out.str(Buffer::new().format(minutes_of(length)))
}

/// The minutes of a length.
fn minutes_of(length: Length) -> u64
    ensures { result ≡ length }
{
    length.minutes() as u64
}

/// Its transaction code, service order, moment of the read and index read.
impl ToJson for Event {
    ghost told_as = { IsEvent };

    fn send<S: Serializer>(&self, room: &mut String, out: &mut S) -> Result<(), S::Error> {
        out.begin_seq(Some(4))?;
        send_trans(self.trans(), room, out)?;
        out.str(self.ticket())?;
        send_optional_moment(self.moment(), out)?;
        out.str(self.reading())?;
        out.end_seq()
    }
}

/// Sends the text of a transaction code, or the empty text if it is absent.
fn send_trans<S: Serializer>(
    trans: Option<TransCode>,
    room: &mut String,
    out: &mut S,
) -> Result<(), S::Error>
    ensures { OnOk result (SendsText (trans_text trans) (S.written out.old) (S.written out.new)) }
{
    match put_trans(trans, room) {
        Ok(()) => out.str(room.as_str()),
        Err(_) => Err(out.custom("there is no memory")),
    }
}

/// Replaces a text by that of a transaction code. It is empty if there is no code.
fn put_trans(trans: Option<TransCode>, text: &mut String) -> Result<(), AllocError>
    ensures { OnOk result (string_bytes text.new ≡ trans_text trans) }
{
    text.clear();
    if let Some(code) = trans {
        text.push(char::from(code.letter()))?;
    }
    Ok(())
}

/// Sends the text of a moment, or the empty text if it is absent.
fn send_optional_moment<S: Serializer>(moment: Option<Moment>, out: &mut S) -> Result<(), S::Error>
    ensures { OnOk result ((text : List ℕ) × (optional moment_of text ≡ Some moment)
        × SendsText text (S.written out.old) (S.written out.new)) }
{
    match moment {
        Some(moment) => out.str(digits_text(&moment.digits())),
        None => out.str(""),
    }
}

/// A known day.
impl ToJson for DayAnswer {
    ghost told_as = { IsDayData };

    fn send<S: Serializer>(&self, room: &mut String, out: &mut S) -> Result<(), S::Error> {
        let date = self.day.digits();
        let update = self.update.digits();
        out.begin_map(Some(8))?;
        send_text("date", digits_text(&date), out)?;
        send_list("events", &self.events, room, out)?;
        send_number("length", minutes_of(self.length), out)?;
        send_text("nmi", self.stream.nmi.text(), out)?;
        send_readings(&self.readings, room, out)?;
        send_text("suffix", self.stream.suffix.text(), out)?;
        send_text("unit", self.unit.text(), out)?;
        send_text("update", digits_text(&update), out)?;
        out.end_map()
    }
}

/// Sends a member with readings, in their order.
fn send_readings<S: Serializer>(
    readings: &[Reading],
    room: &mut String,
    out: &mut S,
) -> Result<(), S::Error>
    ensures { OnOk result (SendsMember (codes "readings")
        (array (items_of (map (λ reading. texts (reading_texts reading)) readings.now)))
        (S.written out.old) (S.written out.new)) }
{
    send_list("readings", readings, room, out)
}

/// The versions of an interval.
impl ToJson for VersionsAnswer {
    ghost told_as = { IsVersionsData };

    fn send<S: Serializer>(&self, room: &mut String, out: &mut S) -> Result<(), S::Error> {
        let date = self.day.digits();
        out.begin_map(Some(5))?;
        send_text("date", digits_text(&date), out)?;
        send_number("interval", u64::from(self.interval), out)?;
        send_text("nmi", self.stream.nmi.text(), out)?;
        send_text("suffix", self.stream.suffix.text(), out)?;
        send_list("versions", &self.versions, room, out)?;
        out.end_map()
    }
}
