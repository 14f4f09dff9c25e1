//! The registers as CSV texts.

ghost use Rattle.std.specs.Prelude.{◌≡◌, ◌++◌, ◌<◌, ℕ, List, [], IfOk, OnOk, OnErr, Some, map};
ghost use Rattle.csv.specs.Writing.{default_writer, row_text};
ghost use Rattle.mds_quantity.specs.Append.{Appends};
ghost use Rattle.mds_calendar.specs.Calendar.{day_of};
ghost use Rattle.mds_marks.specs.Quality.{two_digits as digits_of_method};
ghost use Rattle.mds_marks.specs.Reason.{code_text as text_of_code};
ghost use Rattle.mds_registers.specs.Registers.{AreGapRowsText, IsFinalsText, IsGapsText, final_fields, gap_fields, gaps_head_text};
ghost use Rattle.mds_registers.specs.RegistersSteps.{HasWritten};

use crate::stretches::{Final, Gap};
use csv::{Writer, WriterBuilder};
use itoa::Buffer;
use mds_terms::{Day, Stream};
use std::alloc::{AllocError, Global};

/// A gap of a day.
#[derive(Clone, Copy)]
pub struct GapRow {
    pub day: Day,
    pub gap: Gap,
}

/// A final of a day.
#[derive(Drop)]
pub struct FinalRow {
    pub day: Day,
    pub stretch: Final,
}

/// Appends the register of a stream's gaps. The head row is `nmi,suffix,date,first,last`. A row for each gap follows,
/// in the given order. After an error nothing is appended.
pub fn write_gaps(stream: &Stream, rows: &[GapRow], out: &mut Vec<u8>) -> Result<(), AllocError>
    ensures done { OnOk result ((text : List ℕ) × IsGapsText stream.now rows.now text
        × Appends out.old.items out.new.items text) }
    ensures kept { OnErr result (out.new.items ≡ out.old.items) }
{
    // decides: which rows do the gaps and finals of a range have?
    let text = gaps_text(*out.allocator(), stream, rows)?;
    out.extend_from_slice(&text)
}

/// Appends the head row of the register of gaps. After an error nothing is appended.
pub fn write_gaps_head(out: &mut Vec<u8>) -> Result<(), AllocError>
    ensures done { OnOk result (Appends out.old.items out.new.items gaps_head_text) }
    ensures kept { OnErr result (out.new.items ≡ out.old.items) }
{
    let text = written(gaps_writer(*out.allocator())?)?;
    out.extend_from_slice(&text)
}

/// Appends a row for each gap of a stream, in the given order, without a head row. After an error nothing is appended.
pub fn write_gap_rows(stream: &Stream, rows: &[GapRow], out: &mut Vec<u8>) -> Result<(), AllocError>
    ensures done { OnOk result ((text : List ℕ) × AreGapRowsText stream.now rows.now text
        × Appends out.old.items out.new.items text) }
    ensures kept { OnErr result (out.new.items ≡ out.old.items) }
{
    // decides: which rows do the gaps and finals of a range have?
    let text = gap_rows_text(*out.allocator(), stream, rows)?;
    out.extend_from_slice(&text)
}

/// Appends the register of a stream's finals. The head row is `nmi,suffix,date,first,last,method,code,text`. A row for
/// each final follows, in the given order. The method has two digits, and an absent code is empty. After an error
/// nothing is appended.
pub fn write_finals(stream: &Stream, rows: &[FinalRow], out: &mut Vec<u8>) -> Result<(), AllocError>
    ensures done { OnOk result ((text : List ℕ) × IsFinalsText stream.now rows.now text
        × Appends out.old.items out.new.items text) }
    ensures kept { OnErr result (out.new.items ≡ out.old.items) }
{
    // decides: which rows do the gaps and finals of a range have?
    let text = finals_text(*out.allocator(), stream, rows)?;
    out.extend_from_slice(&text)
}

/// The register of a stream's gaps, in its own buffer, since a writer that fails may have written a part.
fn gaps_text(alloc: Global, stream: &Stream, rows: &[GapRow]) -> Result<Vec<u8>, AllocError>
    ensures { IfOk result (λ text. IsGapsText stream.now rows.now text.items) }
{
    let mut writer = gaps_writer(alloc)?;
    for row in rows {
        write_gap(&mut writer, stream, row)?;
    }
    written(writer)
}

/// The rows of a stream's gaps, in their own buffer.
fn gap_rows_text(alloc: Global, stream: &Stream, rows: &[GapRow]) -> Result<Vec<u8>, AllocError>
    ensures { IfOk result (λ text. AreGapRowsText stream.now rows.now text.items) }
{
    let mut writer = new_writer(alloc);
    for row in rows {
        write_gap(&mut writer, stream, row)?;
    }
    written(writer)
}

/// The register of a stream's finals, in its own buffer.
fn finals_text(alloc: Global, stream: &Stream, rows: &[FinalRow]) -> Result<Vec<u8>, AllocError>
    ensures { IfOk result (λ text. IsFinalsText stream.now rows.now text.items) }
{
    let mut writer = headed_writer(
        alloc,
        &[
            b"nmi".as_slice(),
            b"suffix".as_slice(),
            b"date".as_slice(),
            b"first".as_slice(),
            b"last".as_slice(),
            b"method".as_slice(),
            b"code".as_slice(),
            b"text".as_slice(),
        ],
    )?;
    for row in rows {
        write_final(&mut writer, stream, row)?;
    }
    written(writer)
}

/// Writes the row of a gap.
fn write_gap(writer: &mut Writer<Vec<u8>>, stream: &Stream, row: &GapRow) -> Result<(), AllocError>
    ensures { (text : List ℕ) → HasWritten writer.old text
        → OnOk result ((date : List ℕ) × (day_of date ≡ Some row.now.day)
        × HasWritten writer.new (text ++ row_text default_writer (gap_fields stream.now row.now date))) }
{
    let date = row.day.digits();
    let mut first = Buffer::new();
    let first = first.format(row.gap.first);
    let mut last = Buffer::new();
    let last = last.format(row.gap.last);
    write_row(
        writer,
        &[
            stream.nmi.text().as_bytes(),
            stream.suffix.text().as_bytes(),
            &date,
            first.as_bytes(),
            last.as_bytes(),
        ],
    )
}

/// Writes the row of a final.
fn write_final(
    writer: &mut Writer<Vec<u8>>,
    stream: &Stream,
    row: &FinalRow,
) -> Result<(), AllocError>
    ensures { (text : List ℕ) → HasWritten writer.old text
        → OnOk result ((date : List ℕ) × (day_of date ≡ Some row.now.day)
        × HasWritten writer.new (text ++ row_text default_writer (final_fields stream.now row.now date))) }
{
    let mark = &row.stretch.mark;
    let date = row.day.digits();
    let mut first = Buffer::new();
    let first = first.format(row.stretch.first);
    let mut last = Buffer::new();
    let last = last.format(row.stretch.last);
    let method = two_digits(mark.quality.method());
    let mut code = Buffer::new();
    let code = code_text(mark.reason.code(), &mut code);
    write_row(
        writer,
        &[
            stream.nmi.text().as_bytes(),
            stream.suffix.text().as_bytes(),
            &date,
            first.as_bytes(),
            last.as_bytes(),
            &method,
            code.as_bytes(),
            mark.reason.text().as_bytes(),
        ],
    )
}

/// The two digits of a number below a hundred.
pub(crate) fn two_digits(number: u8) -> [u8; 2]
    requires { number < 100 }
    ensures { result ≡ digits_of_method number }
{
    [b'0' + number / 10, b'0' + number % 10]
}

/// The text of a reason's code, which is empty if there is no code.
pub(crate) fn code_text(code: Option<u16>, buffer: &mut Buffer) -> &str
    ensures { result.now ≡ text_of_code code }
{
    match code {
        Some(number) => buffer.format(number),
        None => "",
    }
}

/// A writer that has written the head row of gaps.
fn gaps_writer(alloc: Global) -> Result<Writer<Vec<u8>>, AllocError>
    ensures { IfOk result (λ writer. HasWritten writer gaps_head_text) }
{
    headed_writer(
        alloc,
        &[
            b"nmi".as_slice(),
            b"suffix".as_slice(),
            b"date".as_slice(),
            b"first".as_slice(),
            b"last".as_slice(),
        ],
    )
}

/// A writer of rows that has written nothing.
fn new_writer(alloc: Global) -> Writer<Vec<u8>>
    ensures { HasWritten result [] }
{
    WriterBuilder::new().from_writer(Vec::new(alloc))
}

/// A writer of rows that has written a head row with these names.
fn headed_writer(alloc: Global, names: &[&[u8]]) -> Result<Writer<Vec<u8>>, AllocError>
    ensures { IfOk result (λ writer.
        HasWritten writer (row_text default_writer (map (λ name. name.now) names.now))) }
{
    let mut writer = new_writer(alloc);
    write_row(&mut writer, names)?;
    Ok(writer)
}

/// Writes a row of fields.
fn write_row(writer: &mut Writer<Vec<u8>>, fields: &[&[u8]]) -> Result<(), AllocError>
    ensures { (text : List ℕ) → HasWritten writer.old text → OnOk result
        (HasWritten writer.new (text ++ row_text default_writer (map (λ field. field.now) fields.now))) }
{
    match writer.write_fields(fields) {
        Ok(()) => Ok(()),
        Err(_) => Err(AllocError),
    }
}

/// What a writer has written.
fn written(writer: Writer<Vec<u8>>) -> Result<Vec<u8>, AllocError>
    ensures { (text : List ℕ) → HasWritten writer text → IfOk result (λ bytes. bytes.items ≡ text) }
{
    match writer.into_inner() {
        Ok(bytes) => Ok(bytes),
        Err(_) => Err(AllocError),
    }
}
