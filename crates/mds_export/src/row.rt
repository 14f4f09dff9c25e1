//! The rows of a NEM12 file.

ghost use Rattle.std.specs.Prelude.{◌≡◌, ◌++◌, ℕ, List, OnOk, OnErr};
ghost use Rattle.mds_quantity.specs.Append.{Appends, AppendsPart};
ghost use Rattle.mds_export.specs.ReadBack.{IsLawful};
ghost use Rattle.mds_export.specs.Rows.{IsRowText, row_value};

use crate::line::{write_field, write_line};
use crate::value::write_values;
use itoa::Buffer;
use mds_quantity::Unit;
use mds_runs::DayReadings;
use mds_terms::{Day, Details, Length, Mark, Moment, PrintableText, Stream};
use std::alloc::AllocError;

/// A row of a NEM12 file, with borrowed parts.
#[derive(Clone, Copy)]
pub enum Row<'a> {
    /// 100, the header.
    Header(HeaderRow<'a>),
    /// 200, which describes the 300 rows after it.
    Details(DetailsRow<'a>),
    /// 300, the values of a day.
    Day(DayRow<'a>),
    /// 400, the mark of some of its intervals.
    Run(RunRow<'a>),
    /// 900, the end of data.
    End,
}

/// A 100 row: when the file was made, by whom and for whom. The texts may be empty.
#[derive(Clone, Copy)]
pub struct HeaderRow<'a> {
    pub moment: Moment,
    pub sender: PrintableText<'a>,
    pub receiver: PrintableText<'a>,
}

/// A 200 row: a stream, the details of its meter, and the unit and the length of the intervals of its days.
#[derive(Clone, Copy)]
pub struct DetailsRow<'a> {
    pub stream: Stream,
    pub details: &'a Details,
    pub unit: Unit,
    pub length: Length,
}

/// A 300 row: a day, with the values of its readings.
#[derive(Clone, Copy)]
pub struct DayRow<'a> {
    pub date: Day,
    /// One for each interval, in order.
    pub readings: &'a DayReadings,
    /// The mark of all of them, or `None` if 400 rows follow with the marks.
    pub mark: Option<&'a Mark>,
    pub update: Moment,
}

/// A 400 row: the mark of the intervals from the first to the last, counted from 1.
#[derive(Clone, Copy)]
pub struct RunRow<'a> {
    pub first: u16,
    pub last: u16,
    pub mark: &'a Mark,
}

/// Appends the one line of a row: every field written, joined by commas, CR and LF. It fails only if `out` has no room for
/// all of it and can't grow, and then nothing is appended. The parts of a row that was written are lawful, since their types
/// guarantee it.
pub fn write_record(row: &Row<'_>, out: &mut Vec<u8>) -> Result<(), AllocError>
    ensures done { OnOk result ((text : List ℕ) × IsRowText (row_value row.now) text
        × Appends out.old.items out.new.items text) }
    ensures kept { OnErr result (out.new.items ≡ out.old.items) }
    ensures lawful { OnOk result (IsLawful (row_value row.now)) }
    ensures full { OnErr result ((text : List ℕ) × IsRowText (row_value row.now) text
        × (vec_capacity out.old < vec_len out.old + length text)) }
{
    let start = out.len();
    let Ok(()) = write_row(row, out) else {
        out.truncate(start);
        return Err(AllocError);
    };
    Ok(())
}

ghost use Rattle.std.specs.Prelude.{◌∷◌, [], ◌+◌, ◌<◌, ◌≤◌, length, vec_capacity, vec_len, take, codes, decimal, option_map, Some, IfSome, IsTrue};
ghost use Rattle.mds_calendar.specs.Calendar.{day_of};
ghost use Rattle.mds_marks.specs.Mark.{is_mark};
ghost use Rattle.mds_marks.specs.Reason.{code_text};
ghost use Rattle.mds_terms.specs.Details.{is_details};
ghost use Rattle.mds_terms.specs.Parts.{optional};
ghost use Rattle.mds_export.specs.Rows.{IsHeaderMoment, line_of, own_fields};
ghost use Rattle.mds_export.specs.Begun.{Begins};

/// Appends the line of a row, or after an error a part of it.
fn write_row(row: &Row<'_>, out: &mut Vec<u8>) -> Result<(), AllocError>
    ensures done { OnOk result ((text : List ℕ) × IsRowText (row_value row.now) text
        × Appends out.old.items out.new.items text) }
    ensures lawful { OnOk result (IsLawful (row_value row.now)) }
    ensures grown { OnErr result (Begins out.old.items out.new.items) }
    ensures full { OnErr result ((text : List ℕ) × IsRowText (row_value row.now) text
        × (vec_capacity out.old < vec_len out.old + length text)) }
{
    match row {
        Row::Header(header) => write_header(header, out),
        Row::Details(details) => write_details(details, out),
        Row::Day(day) => write_day(day, out),
        Row::Run(run) => write_run(run, out),
        Row::End => write_end(out),
    }
}

/// Appends the line of a 100, or after an error a part of it.
pub(crate) fn write_header(row: &HeaderRow<'_>, out: &mut Vec<u8>) -> Result<(), AllocError>
    ensures done { OnOk result ((text : List ℕ) × IsRowText (row_value (Row.Header row.now)) text
        × Appends out.old.items out.new.items text) }
    ensures lawful { OnOk result (IsLawful (row_value (Row.Header row.now))) }
    ensures grown { OnErr result (Begins out.old.items out.new.items) }
    ensures full { OnErr result ((text : List ℕ) × IsRowText (row_value (Row.Header row.now)) text
        × (vec_capacity out.old < vec_len out.old + length text)) }
{
    let (digits, count) = moment_digits(row.moment);
    // decides: how is a line of an export written (100, 200, 300, 400, 900)?
    write_line(
        out,
        &[
            b"100",
            b"NEM12",
            &digits[..count],
            row.sender.text().as_bytes(),
            row.receiver.text().as_bytes(),
        ],
    )
}

/// The digits of the moment of a 100, and how many of them are written: 12 if its seconds are 00, otherwise 14.
fn moment_digits(moment: Moment) -> ([u8; 14], usize)
    ensures text { IsHeaderMoment moment (take result.1 result.0) }
    ensures count { result.1 ≤ 14 }
{
    let digits = moment.digits();
    let seconds = moment.seconds().unsigned_abs();
    let count = if seconds % 60 == 0 { 12 } else { 14 };
    (digits, count)
}

/// Appends the line of a 200, or after an error a part of it.
pub(crate) fn write_details(row: &DetailsRow<'_>, out: &mut Vec<u8>) -> Result<(), AllocError>
    ensures done { OnOk result ((text : List ℕ) × IsRowText (row_value (Row.Details row.now)) text
        × Appends out.old.items out.new.items text) }
    ensures lawful { OnOk result (IsLawful (row_value (Row.Details row.now))) }
    ensures grown { OnErr result (Begins out.old.items out.new.items) }
    ensures full { OnErr result ((text : List ℕ) × IsRowText (row_value (Row.Details row.now)) text
        × (vec_capacity out.old < vec_len out.old + length text)) }
{
    let (stream, _) = (row.stream, row.length.minutes());
    let (next, count) = day_digits(row.details.next());
    // decides: how is a line of an export written (100, 200, 300, 400, 900)?
    write_details_of(
        stream.nmi.text().as_bytes(),
        stream.suffix.text().as_bytes(),
        row.details,
        row.unit.text().as_bytes(),
        length_text(row.length).as_bytes(),
        &next[..count],
        out,
    )
}

/// Appends the line of a 200 with these fields, or after an error a part of it.
fn write_details_of<'a>(
    nmi: &'a [u8],
    suffix: &'a [u8],
    details: &'a Details,
    unit: &'a [u8],
    minutes: &'a [u8],
    next: &'a [u8],
    out: &mut Vec<u8>,
) -> Result<(), AllocError>
    ensures done { OnOk result (Appends out.old.items out.new.items (line_of (codes "200" ∷ nmi.now
        ∷ details.now.configuration ∷ details.now.register ∷ suffix.now ∷ details.now.datastream ∷ details.now.meter
        ∷ unit.now ∷ minutes.now ∷ next.now ∷ []))) }
    ensures lawful { IsTrue (is_details details.now) }
    ensures grown { OnErr result (Begins out.old.items out.new.items) }
    ensures full { OnErr result (vec_capacity out.old < vec_len out.old + length (line_of (codes "200" ∷ nmi.now
        ∷ details.now.configuration ∷ details.now.register ∷ suffix.now ∷ details.now.datastream ∷ details.now.meter
        ∷ unit.now ∷ minutes.now ∷ next.now ∷ []))) }
{
    write_line(
        out,
        &[
            b"200",
            nmi,
            details.configuration().as_bytes(),
            details.register().as_bytes(),
            suffix,
            details.datastream().as_bytes(),
            details.meter().as_bytes(),
            unit,
            minutes,
            next,
        ],
    )
}

/// The digits of a day that may be absent, and how many of them are written.
fn day_digits(day: Option<Day>) -> ([u8; 8], usize)
    ensures text { optional day_of (take result.1 result.0) ≡ Some day }
    ensures count { result.1 ≤ 8 }
{
    match day {
        Some(day) => (day.digits(), 8),
        None => ([b'0'; 8], 0),
    }
}

/// The written text of a length.
fn length_text(length: Length) -> &'static str
    ensures { result.now ≡ decimal length }
{
    let _ = length.minutes();
    let count = length.count();
    if count == 288 {
        return "5";
    }
    if count == 96 {
        return "15";
    }
    "30"
}

/// Appends the line of a 300, or after an error a part of it.
pub(crate) fn write_day(row: &DayRow<'_>, out: &mut Vec<u8>) -> Result<(), AllocError>
    ensures done { OnOk result ((text : List ℕ) × IsRowText (row_value (Row.Day row.now)) text
        × Appends out.old.items out.new.items text) }
    ensures lawful { OnOk result (IsLawful (row_value (Row.Day row.now))) }
    ensures grown { OnErr result (Begins out.old.items out.new.items) }
    ensures full { OnErr result ((text : List ℕ) × IsRowText (row_value (Row.Day row.now)) text
        × (vec_capacity out.old < vec_len out.old + length text)) }
{
    let (date, update) = (row.date.digits(), row.update.digits());
    // decides: how is a line of an export written (100, 200, 300, 400, 900)?
    write_field(out, b"300")?;
    write_field(out, &date)?;
    write_values(row.readings, out)?;
    write_own(row.mark, &update, out)
}

/// Appends what follows the values of a 300, with one mark or of variable quality, or after an error a part of it.
fn write_own(mark: Option<&Mark>, update: &[u8], out: &mut Vec<u8>) -> Result<(), AllocError>
    ensures done { OnOk result (Appends out.old.items out.new.items
        (line_of (own_fields (option_map (λ mark. mark.now) mark.entry) ++ update.now ∷ [] ∷ []))) }
    ensures lawful { IfSome mark.entry (λ mark. IsTrue (is_mark mark.now)) }
    ensures grown { OnErr result (Begins out.old.items out.new.items) }
    ensures full { OnErr result (vec_capacity out.old < vec_len out.old + length (line_of (own_fields (option_map (λ mark. mark.now) mark.entry) ++ update.now ∷ [] ∷ []))) }
{
    let Some(mark) = mark else {
        return write_line(out, &[b"V", b"", b"", update, b""]);
    };
    mark.parts_are_lawful();
    let (letters, count) = mark.quality.letters();
    let mut buffer = Buffer::new();
    write_line(
        out,
        &[
            &letters[..count],
            code_digits(mark.reason.code(), &mut buffer),
            mark.reason.text().as_bytes(),
            update,
            b"",
        ],
    )
}

/// The digits of a code, or nothing if there is no code.
fn code_digits(code: Option<u16>, buffer: &mut Buffer) -> &[u8]
    ensures { result.now ≡ code_text code }
{
    match code {
        Some(number) => buffer.format(number).as_bytes(),
        None => b"",
    }
}

/// Appends the line of a 400, or after an error a prefix of it. It fails only if `out` has no room for all of it and can't
/// grow.
pub fn write_run(row: &RunRow<'_>, out: &mut Vec<u8>) -> Result<(), AllocError>
    ensures done { OnOk result ((text : List ℕ) × IsRowText (row_value (Row.Run row.now)) text
        × Appends out.old.items out.new.items text) }
    ensures lawful { OnOk result (IsLawful (row_value (Row.Run row.now))) }
    ensures part { OnErr result ((text : List ℕ) × IsRowText (row_value (Row.Run row.now)) text
        × AppendsPart out.old.items out.new.items text) }
    ensures grown { OnErr result (Begins out.old.items out.new.items) }
    ensures full { OnErr result ((text : List ℕ) × IsRowText (row_value (Row.Run row.now)) text
        × (vec_capacity out.old < vec_len out.old + length text)) }
{
    let (mut first, mut last) = (Buffer::new(), Buffer::new());
    row.mark.parts_are_lawful();
    let (letters, count) = row.mark.quality.letters();
    let mut buffer = Buffer::new();
    // decides: how is a line of an export written (100, 200, 300, 400, 900)?
    write_line(
        out,
        &[
            b"400",
            first.format(row.first).as_bytes(),
            last.format(row.last).as_bytes(),
            &letters[..count],
            code_digits(row.mark.reason.code(), &mut buffer),
            row.mark.reason.text().as_bytes(),
        ],
    )
}

/// Appends the line of a 900, or after an error a part of it.
pub(crate) fn write_end(out: &mut Vec<u8>) -> Result<(), AllocError>
    ensures done { OnOk result ((text : List ℕ) × IsRowText (row_value Row.End) text
        × Appends out.old.items out.new.items text) }
    ensures grown { OnErr result (Begins out.old.items out.new.items) }
    ensures full { OnErr result ((text : List ℕ) × IsRowText (row_value Row.End) text
        × (vec_capacity out.old < vec_len out.old + length text)) }
{
    // decides: how is a line of an export written (100, 200, 300, 400, 900)?
    write_line(out, &[b"900"])
}
