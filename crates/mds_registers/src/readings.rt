//! The current readings of a stream as a CSV text. What the rows of a day share is made once a day, and the text of an update only if
//! it changes. Rows are written without `csv`, as it would take more time than all the rest (`fields.rt`).

ghost use Rattle.std.specs.Prelude.{◌≡◌, ◌++◌, ◌*◌, ◌-◌, ◌≤◌, ◌<◌, ℕ, List, [], codes, decimal, IfOk, OnOk, OnErr, Some, map, string_bytes};
ghost use Rattle.mds_quantity.specs.Append.{Appends};
ghost use Rattle.mds_quantity.specs.Unit.{unit_text};
ghost use Rattle.mds_quantity.specs.declared.unit.Unit.{Unit as MeasureUnit};
ghost use Rattle.mds_calendar.specs.Calendar.{moment_of};
ghost use Rattle.mds_calendar.specs.Length.{count_of};
ghost use Rattle.mds_marks.specs.Reading.{ReadingValue, value_text};
ghost use Rattle.mds_marks.specs.Reason.{code_text as text_of_code};
ghost use Rattle.mds_world.specs.Current.{IsFormOf, no_reading};
ghost use Rattle.mds_world.specs.World.{IsKnownDay, World};
ghost use Rattle.mds_keeper.specs.Books.{IsDay, book_world};
ghost use Rattle.mds_keeper.specs.LentVersions.{lent_reading};
ghost use Rattle.mds_registers.specs.FieldsSteps.{Begins, IsPlain, closed};
ghost use Rattle.mds_registers.specs.Readings.{AreIntervalRows, AreKnownDays, IsDayText, IsReadingsText, IsShown, start_text as text_of_start};
ghost use Rattle.mds_registers.specs.ReadingsSteps.{AreTextsOf, mark_fields, row_front, row_of};

use crate::fields::write_field;
use crate::writing::{code_text, two_digits};
use itoa::Buffer;
use mds_keeper::{DayBook, LentVersion};
use mds_quantity::{Quantity, Unit};
use mds_terms::{Length, Mark, Moment, Reason, Stream};
use std::alloc::{AllocError, Global};

/// What the rows of a day share. Fields are as `csv` writes them.
#[derive(Clone, Copy)]
struct DayTexts<'a> {
    /// What comes before the start: the NMI and the suffix, each with the comma after it.
    front: &'a [u8],
    date: [u8; 8],
    length: Length,
    /// What comes between the start and the quality: a comma, and the minutes and the unit, each with the comma after it.
    middle: &'a [u8],
}

/// The text of an update. Most rows have the update of the row before, so its text is kept from row to row.
#[derive(Clone, Copy)]
struct UpdateText {
    update: Moment,
    digits: [u8; 14],
    ghost reads: { moment_of digits ≡ Some update },
}

/// The number of minutes in an hour.
const HOUR: u16 = 60;

/// Appends the register of a stream's current readings on days, each a known day of this stream. The head row is
/// `nmi,suffix,start,minutes,unit,quality,code,text,value,update`. A row for each interval of each day follows, in the
/// given order of the days. It starts at a moment like `2024-01-01T00:30`. An absent code, a value under N, and the
/// update of an interval without a version are empty. After an error nothing is appended.
pub fn write_readings(
    stream: &Stream,
    books: &[DayBook],
    out: &mut Vec<u8>,
) -> Result<(), AllocError>
    ensures done { (w : World) → AreKnownDays w stream.now books.now → OnOk result ((text : List ℕ)
        × IsReadingsText w stream.now (map (λ book. book.day) books.now) text × Appends out.old.items out.new.items text) }
    ensures kept { OnErr result (out.new.items ≡ out.old.items) }
{
    let start = out.len();
    // decides: which rows does the register of readings have?
    match write_days(stream, books, out) {
        Ok(()) => Ok(()),
        Err(refused) => {
            out.truncate(start);
            Err(refused)
        }
    }
}

/// Appends the register of a stream's readings. After an error a part of it may be appended.
fn write_days(stream: &Stream, books: &[DayBook], out: &mut Vec<u8>) -> Result<(), AllocError>
    ensures done { (w : World) → AreKnownDays w stream.now books.now → OnOk result ((text : List ℕ)
        × IsReadingsText w stream.now (map (λ book. book.day) books.now) text × Appends out.old.items out.new.items text) }
    ensures begun { Begins out.old.items out.new.items }
{
    out.extend_from_slice(b"nmi,suffix,start,minutes,unit,quality,code,text,value,update\n")?;
    // These are kept from row to row, so that a row takes no memory of its own.
    let mut rows = Vec::new(*out.allocator());
    let mut value = String::new(*out.allocator());
    let mut update = update_text(Moment::from_seconds(0).unwrap());
    for book in books {
        write_day(stream, book, &mut rows, &mut value, &mut update, out)?;
    }
    Ok(())
}

/// Appends the rows of a day, after all of them are in the buffer `rows`. A day that isn't known has none. After an
/// error nothing is appended.
fn write_day(
    stream: &Stream,
    book: &DayBook,
    rows: &mut Vec<u8>,
    value: &mut String,
    update: &mut UpdateText,
    out: &mut Vec<u8>,
) -> Result<(), AllocError>
    ensures done { (w : World) → book.now.stream ≡ stream.now → IsDay w book.now
        → IsKnownDay w stream.now book.now.day → OnOk result ((text : List ℕ)
        × IsDayText w stream.now book.now.day text × Appends out.old.items out.new.items text) }
    ensures begun { Begins out.old.items out.new.items }
{
    let Some(form) = book.form() else {
        return Ok(());
    };
    let (length, unit) = form;
    let date = book.day().digits();
    let front = front_text(*out.allocator(), stream)?;
    let middle = middle_text(*out.allocator(), length, unit)?;
    let day = DayTexts {
        front: front.as_slice(),
        date,
        length,
        middle: middle.as_slice(),
    };
    rows.clear();
    write_intervals(rows, &day, book, value, update)?;
    out.extend_from_slice(rows)
}

/// What comes before the start of a row.
fn front_text(alloc: Global, stream: &Stream) -> Result<Vec<u8>, AllocError>
    ensures { IfOk result (λ text. text.items ≡ closed stream.now.nmi ++ closed stream.now.suffix) }
{
    let mut text = Vec::new(alloc);
    write_field(&mut text, stream.nmi.text().as_bytes())?;
    write_field(&mut text, stream.suffix.text().as_bytes())?;
    Ok(text)
}

/// What comes between the start and the quality of a row.
fn middle_text(alloc: Global, length: Length, unit: Unit) -> Result<Vec<u8>, AllocError>
    ensures { IfOk result (λ text. text.items ≡ codes "," ++ closed (decimal length) ++ closed (unit_text unit)) }
{
    let mut text = Vec::new(alloc);
    text.push(b',')?;
    let mut minutes = Buffer::new();
    write_field(&mut text, minutes.format(minutes_of(length)).as_bytes())?;
    write_field(&mut text, unit.text().as_bytes())?;
    Ok(text)
}

/// Appends a row for each interval of a known day.
fn write_intervals<'a>(
    rows: &mut Vec<u8>,
    day: &DayTexts<'a>,
    book: &'a DayBook,
    value: &mut String,
    update: &mut UpdateText,
) -> Result<(), AllocError>
    ensures { (unit : MeasureUnit) → AreTextsOf day.now book.now.stream unit
        → IsFormOf (book_world book.now) book.now.stream book.now.day day.now.length unit → OnOk result ((text : List ℕ)
        × AreIntervalRows (book_world book.now) book.now.stream book.now.day day.now.date day.now.length unit
        (count_of day.now.length) text
        × Appends rows.old.items rows.new.items text) }
{
    for i in 0..day.length.count() {
        write_interval(rows, day, book, i as u16 + 1, value, update)?;
    }
    Ok(())
}

/// Appends the row of an interval of a known day.
fn write_interval<'a>(
    rows: &mut Vec<u8>,
    day: &DayTexts<'a>,
    book: &'a DayBook,
    interval: u16,
    value: &mut String,
    update: &mut UpdateText,
) -> Result<(), AllocError>
    requires { (1 ≤ interval) × (interval ≤ count_of day.now.length) }
    ensures { (unit : MeasureUnit)
        → IsFormOf (book_world book.now) book.now.stream book.now.day day.now.length unit
        → OnOk result ((reading : ReadingValue) × (text : List ℕ)
        × IsShown (book_world book.now) book.now.stream book.now.day day.now.length interval reading text
        × Appends rows.old.items rows.new.items
        (row_of day.now (text_of_start day.now.date ((interval - 1) * day.now.length)) reading text)) }
{
    let start = start_text(&day.date, minutes_before(day.length, interval));
    // For the proof: a day has one current length.
    book.is_lawful();
    // decides: which reading does an interval without a version have?
    match book.current(interval) {
        Some(version) => write_version(rows, day, &start, &version, value, update),
        None => write_none(rows, day, &start),
    }
}

/// Appends the row of a version of an interval that starts at this text's moment.
fn write_version<'a>(
    rows: &mut Vec<u8>,
    day: &DayTexts<'a>,
    start: &[u8; 16],
    version: &LentVersion<'a>,
    value: &mut String,
    update: &mut UpdateText,
) -> Result<(), AllocError>
    ensures { OnOk result ((text : List ℕ) × (moment_of text ≡ Some version.now.update)
        × Appends rows.old.items rows.new.items (row_of day.now start.now (lent_reading version.now) text)) }
{
    put_value(version.value, value)?;
    put_update(version.update, update);
    write_front(rows, day, start)?;
    write_mark(rows, version.mark)?;
    rows.extend_from_slice(value.as_bytes())?;
    rows.push(b',')?;
    rows.extend_from_slice(&update.digits)?;
    rows.push(b'\n')?;
    Ok(())
}

/// Appends the row of an interval without a version that starts at this text's moment: bare N.
fn write_none(rows: &mut Vec<u8>, day: &DayTexts<'_>, start: &[u8; 16]) -> Result<(), AllocError>
    ensures { OnOk result (Appends rows.old.items rows.new.items (row_of day.now start.now no_reading [])) }
{
    write_front(rows, day, start)?;
    rows.extend_from_slice(b"N,,,,\n")
}

/// Appends a row that starts at this text's moment, up to its quality.
#[inline(always)]
fn write_front(rows: &mut Vec<u8>, day: &DayTexts<'_>, start: &[u8; 16]) -> Result<(), AllocError>
    ensures { OnOk result (Appends rows.old.items rows.new.items (row_front day.now start.now)) }
{
    rows.extend_from_slice(day.front)?;
    rows.extend_from_slice(start)?;
    rows.extend_from_slice(day.middle)
}

/// Appends the quality, the code and the text of a mark, each with the comma after it.
fn write_mark(rows: &mut Vec<u8>, mark: &Mark) -> Result<(), AllocError>
    ensures { OnOk result (Appends rows.old.items rows.new.items (mark_fields mark.now)) }
{
    let (letters, count) = mark.quality.letters();
    rows.extend_from_slice(&letters[..count])?;
    write_reason(rows, &mark.reason)
}

/// Appends a comma, and the code and the text of a reason, each with the comma after it. Most readings have neither.
fn write_reason(rows: &mut Vec<u8>, reason: &Reason) -> Result<(), AllocError>
    ensures { OnOk result (Appends rows.old.items rows.new.items
        (codes "," ++ closed (text_of_code reason.now.code) ++ closed reason.now.text)) }
{
    let code = reason.code();
    let text = reason.text();
    if code.is_none() && text.is_empty() {
        return rows.extend_from_slice(b",,,");
    }
    rows.push(b',')?;
    let mut buffer = Buffer::new();
    write_field(rows, code_text(code, &mut buffer).as_bytes())?;
    write_field(rows, text.as_bytes())
}

/// The text of an update.
fn update_text(update: Moment) -> UpdateText
    ensures { result.update ≡ update }
{
    let digits = update.digits();
    UpdateText { update, digits }
}

/// Replaces the text of an update by that of another one. It stays if both are the same.
fn put_update(update: Moment, text: &mut UpdateText)
    ensures { moment_of text.new.digits ≡ Some update }
{
    if text.update != update {
        *text = update_text(update);
    }
}

/// Replaces a text by that of a value. It is empty if there is no value.
fn put_value(value: Option<Quantity>, text: &mut String) -> Result<(), AllocError>
    ensures text { OnOk result (string_bytes text.new ≡ value_text value) }
    ensures plain { IsPlain (value_text value) }
{
    text.clear();
    let Some(value) = value else {
        return Ok(());
    };
    // For the proof: a quantity has less than 10^18 millionths.
    let _ = value.millionths();
    value.write_to(text)
}

/// The minutes of a day before an interval of a length begins.
fn minutes_before(length: Length, interval: u16) -> u16
    requires { (1 ≤ interval) × (interval ≤ count_of length) }
    ensures value { result ≡ (interval - 1) * length }
    ensures within { result < 1440 }
{
    (interval - 1) * minutes_of(length)
}

/// The minutes of a length.
fn minutes_of(length: Length) -> u16
    ensures value { result ≡ length }
    ensures whole { count_of length * result ≡ 1440 }
{
    // For the proof: a day has a whole number of intervals.
    let _ = length.count();
    length.minutes() as u16
}

/// The text of a moment of a date, CCYYMMDD, after this many minutes of the day.
fn start_text(date: &[u8; 8], minutes: u16) -> [u8; 16]
    requires { minutes < 1440 }
    ensures { result ≡ text_of_start date.now minutes }
{
    let [hour_tens, hour] = two_digits((minutes / HOUR) as u8);
    let [tens, ones] = two_digits((minutes % HOUR) as u8);
    [
        date[0], date[1], date[2], date[3], b'-', date[4], date[5], b'-', date[6], date[7], b'T',
        hour_tens, hour, b':', tens, ones,
    ]
}
