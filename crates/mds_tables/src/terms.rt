//! Rows that queries return, as terms. `None` if the store doesn't write such a row.

ghost use Rattle.std.specs.Prelude.{◌≡◌, ◌≢◌, ◌<◌, ◌≤◌, ◌+◌, ◌^◌, ◌∷◌, ℕ, ℤ, List, Option, length as list_length, pos, unsigned_abs, Some, IfNone, IfOk, IfSome, IsTrue, OnErr};
ghost use Rattle.std.specs.Str.{is_utf8};
ghost use Rattle.sqlite.specs.declared.types.Value.TheVariants.{Int, Null, Text};
ghost use Rattle.sqlite.specs.Order.{column};
ghost use Rattle.mds_calendar.specs.Length.{is_length};
ghost use Rattle.mds_names.specs.Names.{is_name};
ghost use Rattle.mds_names.specs.declared.stream.Stream.{Stream as StreamValue};
ghost use Rattle.mds_quantity.specs.Quantity.{limit};
ghost use Rattle.mds_quantity.specs.Unit.{unit_of, unit_text};
ghost use Rattle.mds_quantity.specs.declared.unit.Unit.{Unit as UnitValue};
ghost use Rattle.mds_marks.specs.Quality.{QualityValue, is_quality, null, quality_text};
ghost use Rattle.mds_marks.specs.Reading.{ReadingValue};
ghost use Rattle.mds_world.specs.Facts.Fact.{EventIs, HeadIs, VersionIs};
ghost use Rattle.mds_world.specs.declared.facts.Head.{Head as HeadValue};
ghost use Rattle.mds_world.specs.declared.facts.Key.{Key as KeyValue};
ghost use Rattle.mds_tables.specs.Cells.{letter_text, number_cell, optional_cell};
ghost use Rattle.mds_tables.specs.RowFacts.{event_fact, head_fact, lengthless, letter_in, optional_at, quality_named, text_at as bytes_in, unit_named, version_fact};
ghost use Rattle.mds_terms.specs.BorrowedTexts.{event_in, text_of};
ghost use Rattle.mds_terms.specs.Event.{EventValue, is_trans};
ghost use Rattle.mds_terms.specs.Printable.{is_printable};
ghost use Rattle.mds_tables.specs.Shown.{amount_in, shown_key, shown_reading};
ghost use Rattle.mds_tables.specs.Written.{BeginsWith, IsDay, IsMoment, IsRowOfEvent, IsRowOfHead, IsRowOfVersion};

use crate::refusals::told;
use mds_keeper::Unavailable;
use mds_marks::flags::NULL;
use mds_quantity::{Quantity, Unit, units_read_back};
use mds_terms::{
    Day, Event, EventRef, Length, Mark, Moment, Nmi, PrintableText, Quality, Reading, Reason,
    Stream, Suffix, TransCode, qualities_read_back,
};
use mds_world::{Head, Key};
use sqlite::Row;
use sqlite::types::ValueRef;
use std::alloc::{AllocError, Global};

/// The text in a column.
pub fn text_at<'a>(row: &'a Row, at: usize) -> Option<&'a [u8]>
    ensures some { IfSome result (λ text. column row.now at ≡ Text text.now) }
    ensures none { IfNone result ((text : List ℕ) → column row.now at ≢ Text text) }
{
    match row.get_ref(at) {
        Ok(ValueRef::Text(text)) => Some(text),
        _ => None,
    }
}

/// The number in a column.
pub fn int_at(row: &Row, at: usize) -> Option<i64>
    ensures some { IfSome result (λ number. column row.now at ≡ Int number) }
    ensures none { IfNone result ((number : ℤ) → column row.now at ≢ Int number) }
{
    match row.get_ref(at) {
        Ok(ValueRef::Int(number)) => Some(number),
        _ => None,
    }
}

/// The NMI in a column.
fn nmi_at(row: &Row, at: usize) -> Option<Nmi>
    ensures some { IfSome result (λ nmi. column row.now at ≡ Text nmi) }
    ensures none { IfNone result ((nmi : List ℕ) → IsTrue (is_name 10 nmi) → column row.now at ≢ Text nmi) }
{
    Nmi::read(text_at(row, at)?)
}

/// The suffix in a column.
fn suffix_at(row: &Row, at: usize) -> Option<Suffix>
    ensures some { IfSome result (λ suffix. column row.now at ≡ Text suffix) }
    ensures none { IfNone result ((suffix : List ℕ) → IsTrue (is_name 2 suffix) → column row.now at ≢ Text suffix) }
{
    Suffix::read(text_at(row, at)?)
}

/// The stream of a row that begins with it.
pub fn stream_in(row: &Row) -> Option<Stream>
    ensures some { IfSome result (λ stream. (column row.now 0 ≡ Text stream.nmi) × (column row.now 1 ≡ Text stream.suffix)) }
    ensures none { IfNone result ((stream : StreamValue) → ¬ BeginsWith row.now stream) }
{
    Some(Stream {
        nmi: nmi_at(row, 0)?,
        suffix: suffix_at(row, 1)?,
    })
}

/// The day in a column.
pub fn day_at(row: &Row, at: usize) -> Option<Day>
    ensures some { IfSome result (λ day. column row.now at ≡ Int (pos day)) }
    ensures none { IfNone result ((day : ℕ) → IsDay day → column row.now at ≢ number_cell day) }
{
    Day::from_number(int_at(row, at)?)
}

/// The moment in a column.
pub fn moment_at(row: &Row, at: usize) -> Option<Moment>
    ensures some { IfSome result (λ moment. column row.now at ≡ Int (pos moment)) }
    ensures none { IfNone result ((moment : ℕ) → IsMoment moment → column row.now at ≢ number_cell moment) }
{
    Moment::from_seconds(int_at(row, at)?)
}

/// The length of intervals in a column.
pub fn length_at(row: &Row, at: usize) -> Option<Length>
    ensures some { IfSome result (λ length. column row.now at ≡ Int (pos length)) }
    ensures none { IfNone result ((length : ℕ) → IsTrue (is_length length) → column row.now at ≢ number_cell length) }
{
    Length::from_minutes(int_at(row, at)?)
}

/// The unit in a column.
pub fn unit_at(row: &Row, at: usize) -> Option<Unit>
    ensures some { IfSome result (λ unit. unit_named (bytes_in row.now at) ≡ unit) }
    ensures read { IfSome result (λ unit. unit_of (bytes_in row.now at) ≡ Some unit) }
    ensures none { IfNone result ((unit : UnitValue) → column row.now at ≢ Text (unit_text unit)) }
{
    // For the proof: the text of each unit is read as that unit.
    units_read_back();
    Unit::read(text_at(row, at)?)
}

/// The head that a row of mds_head says in schemas 1 to 3. These say no update, so it is 0 seconds.
pub fn head_in(row: &Row) -> Option<Head>
    ensures some { IfSome result (λ head. head_fact (Null ∷ row.now) ≡ HeadIs head) }
    ensures none { IfNone result ((head : HeadValue) → ¬ IsRowOfHead row.now head) }
{
    Some(Head {
        stream: stream_in(row)?,
        day: day_at(row, 2)?,
        update: Moment::from_seconds(0)?,
        length: length_at(row, 3)?,
        unit: unit_at(row, 4)?,
    })
}

/// The quality in a column.
fn quality_at(row: &Row, at: usize) -> Option<Quality>
    ensures some { IfSome result (λ quality. quality_named (bytes_in row.now at) ≡ quality) }
    ensures none { IfNone result ((quality : QualityValue) → IsTrue (is_quality quality.flag quality.method)
        → column row.now at ≢ Text (quality_text quality)) }
{
    // For the proof: the text of each quality is read as that quality.
    qualities_read_back();
    Quality::read(text_at(row, at)?)
}

/// The code in a column, which is -1 if absent. `None` if the number is neither.
fn code_at(row: &Row, at: usize) -> Option<Option<u16>>
    ensures some { IfSome result (λ code. optional_at row.now at ≡ code) }
    ensures none { IfNone result ((code : Option ℕ) → IfSome code (λ n. n < 2 ^ 16) → column row.now at ≢ optional_cell code) }
{
    match int_at(row, at)? {
        -1 => Some(None),
        number => Some(Some(u16::try_from(number).ok()?)),
    }
}

/// The text in a column, if it is UTF-8.
pub fn str_at<'a>(row: &'a Row, at: usize) -> Option<&'a str>
    ensures some { IfSome result (λ text. column row.now at ≡ Text text.now) }
    ensures none { IfNone result ((text : List ℕ) → IsTrue (is_utf8 text) → column row.now at ≢ Text text) }
{
    match str::from_utf8(text_at(row, at)?) {
        Ok(text) => Some(text),
        Err(_) => None,
    }
}

/// The value of a reading: none if its quality is N, whatever the amount.
fn value_in(quality: Quality, amount: i64) -> Option<Option<Quantity>>
    ensures some { IfSome result (λ value. value ≡ amount_in quality amount) }
    ensures none { IfNone result ((quality.flag ≢ null) × (limit ≤ unsigned_abs amount)) }
{
    if quality.flag() == NULL {
        return Some(None);
    }
    Some(Some(Quantity::from_millionths(amount)?))
}

/// What a version's row says of its reading. The note is borrowed from the row.
#[derive(Clone, Copy)]
struct ReadingRef<'a> {
    quality: Quality,
    code: Option<u16>,
    note: &'a str,
    value: Option<Quantity>,
}

/// What the columns of a version say, from its quality on.
fn reading_ref_in<'a>(row: &'a Row) -> Option<ReadingRef<'a>>
    ensures some { IfSome result (λ it. shown_reading row.now
        ≡ record { mark = record { quality = it.quality; reason = record { code = it.code; text = it.note.now } }; value = it.value }) }
    ensures none { IfNone result ((key : KeyValue) (reading : ReadingValue) → ¬ IsRowOfVersion row.now key reading) }
{
    let quality = quality_at(row, 5)?;
    Some(ReadingRef {
        quality,
        code: code_at(row, 6)?,
        note: str_at(row, 7)?,
        value: value_in(quality, int_at(row, 8)?)?,
    })
}

/// The reading that the columns of a version say, from its quality on, if they read. It takes memory only for a note.
fn reading_read(alloc: Global, row: &Row) -> Result<Option<Reading>, AllocError>
    ensures some { IfOk result (λ read. IfSome read (λ reading. shown_reading row.now ≡ reading)) }
    ensures none { IfOk result (λ read. IfNone read ((key : KeyValue) (reading : ReadingValue) → ¬ IsRowOfVersion row.now key reading)) }
    ensures err { OnErr result ((key : KeyValue) (reading : ReadingValue) → IsRowOfVersion row.now key reading
        → 0 < list_length reading.mark.reason.text) }
{
    let Some(it) = reading_ref_in(row) else {
        return Ok(None);
    };
    let read = Reason::new(alloc, it.code, it.note)?;
    let Some(reason) = read else {
        return Ok(None);
    };
    let mark = Mark {
        quality: it.quality,
        reason,
    };
    Ok(Reading::new(mark, it.value))
}

/// The version that a row says, given its length, which the row doesn't say. It takes memory only for a note.
pub(crate) fn version_in(
    alloc: Global,
    length: Length,
    row: &Row,
) -> Result<(Key, Reading), Unavailable>
    ensures ok { IfOk result (λ it. version_fact (Null ∷ row.now) ≡ VersionIs (lengthless it.0) it.1) }
    ensures err { OnErr result ((key : KeyValue) (reading : ReadingValue) → IsRowOfVersion row.now key reading
        → 0 < list_length reading.mark.reason.text) }
{
    // decides: which version does a row of schema 1 say? (definition: version_fact in mds_tables/specs/RowFacts.antt)
    let key = told(key_in(length, row))?;
    let reading = told(reading_read(alloc, row)?)?;
    Ok((key, reading))
}

/// The number of an interval in a column.
fn interval_at(row: &Row, at: usize) -> Option<u16>
    ensures some { IfSome result (λ interval. column row.now at ≡ Int (pos interval)) }
    ensures none { IfNone result ((interval : ℕ) → interval < 2 ^ 16 → column row.now at ≢ number_cell interval) }
{
    u16::try_from(int_at(row, at)?).ok()
}

/// The key of a version, given its length.
fn key_in(length: Length, row: &Row) -> Option<Key>
    ensures some { IfSome result (λ key. key ≡ shown_key length row.now) }
    ensures none { IfNone result ((key : KeyValue) (reading : ReadingValue) → ¬ IsRowOfVersion row.now key reading) }
{
    Some(Key {
        stream: stream_in(row)?,
        day: day_at(row, 2)?,
        length,
        interval: interval_at(row, 3)?,
        update: moment_at(row, 4)?,
    })
}

/// The printable text in a column.
fn printable_at<'a>(row: &'a Row, at: usize) -> Option<PrintableText<'a>>
    ensures some { IfSome result (λ text. column row.now at ≡ Text (text_of text)) }
    ensures none { IfNone result ((text : List ℕ) → IsTrue (is_printable text) → column row.now at ≢ Text text) }
{
    PrintableText::read(text_at(row, at)?)
}

/// The transaction code in a column, whose text is empty if the code is absent. `None` if it is neither.
fn trans_at(row: &Row, at: usize) -> Option<Option<TransCode>>
    ensures some { IfSome result (λ code. letter_in (bytes_in row.now at) ≡ code) }
    ensures none { IfNone result ((code : Option ℕ) → IsTrue (is_trans code) → column row.now at ≢ Text (letter_text code)) }
{
    let text = text_at(row, at)?;
    if text.is_empty() {
        return Some(None);
    }
    Some(Some(TransCode::read(text)?))
}

/// The moment in a column, which is -1 if absent. `None` if the number is neither.
fn read_at(row: &Row, at: usize) -> Option<Option<Moment>>
    ensures some { IfSome result (λ moment. optional_at row.now at ≡ moment) }
    ensures none { IfNone result ((moment : Option ℕ) → IfSome moment IsMoment → column row.now at ≢ optional_cell moment) }
{
    match int_at(row, at)? {
        -1 => Some(None),
        number => Some(Some(Moment::from_seconds(number)?)),
    }
}

/// The event that a row says, borrowed from it.
fn event_ref_in<'a>(row: &'a Row) -> Option<EventRef<'a>>
    ensures some { IfSome result (λ event. event_fact (Null ∷ row.now) ≡ EventIs (event_in event)) }
    ensures none { IfNone result ((event : EventValue) → ¬ IsRowOfEvent row.now event) }
{
    Some(EventRef {
        nmi: nmi_at(row, 0)?,
        suffix: suffix_at(row, 1)?,
        day: day_at(row, 2)?,
        trans: trans_at(row, 3)?,
        ticket: printable_at(row, 4)?,
        moment: read_at(row, 5)?,
        reading: printable_at(row, 6)?,
    })
}

/// The event that a row says. It takes memory only for its texts.
pub(crate) fn event_at(alloc: Global, row: &Row) -> Result<Event, Unavailable>
    ensures ok { IfOk result (λ event. event_fact (Null ∷ row.now) ≡ EventIs event) }
    ensures err { OnErr result ((event : EventValue) → IsRowOfEvent row.now event
        → 0 < list_length event.ticket + list_length event.reading) }
{
    told(event_read(alloc, row)?)
}

/// The event that a row says, if it reads.
fn event_read(alloc: Global, row: &Row) -> Result<Option<Event>, AllocError>
    ensures some { IfOk result (λ read. IfSome read (λ event. event_fact (Null ∷ row.now) ≡ EventIs event)) }
    ensures none { IfOk result (λ read. IfNone read ((event : EventValue) → ¬ IsRowOfEvent row.now event)) }
    ensures err { OnErr result ((event : EventValue) → IsRowOfEvent row.now event
        → 0 < list_length event.ticket + list_length event.reading) }
{
    let Some(it) = event_ref_in(row) else {
        return Ok(None);
    };
    let event = it.to_event(alloc)?;
    Ok(Some(event))
}
