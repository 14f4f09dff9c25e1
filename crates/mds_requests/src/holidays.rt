//! The reader of a list of public holidays.

ghost use Rattle.std.specs.Prelude.{◌≡◌, ◌<◌, ◌↔◌, ◌++◌, ◌∷◌, [], ℕ, List, MatchBool, IsTrue, IfOk, IfErr, length, option_map};
ghost use Rattle.csv.specs.Records.{fields_of};
ghost use Rattle.mds_requests.specs.Holidays.{IsListOf, IsRefusal, day_in, head_row, only_field, rows_of};
ghost use Rattle.mds_requests.specs.HolidaysSteps.{HasRead};

use csv::{ByteRecord, Reader, ReaderBuilder};
use mds_terms::Day;
use std::alloc::{AllocFailed, Global};

/// Why a list of public holidays isn't read.
#[derive(Clone, Copy)]
pub enum HolidaysFault {
    /// The row with this number, from 1, is the first that differs from a list of holidays (H1).
    BadHolidays(u64),
    /// There was no memory.
    Memory,
}

impl<T: Drop> From<AllocFailed<T>> for HolidaysFault {
    ghost use Rattle.mds_requests.specs.declared.holidays.HolidaysFault.TheVariants as fault;

    ghost from_gives = { λ _ reason. reason ≡ fault.Memory };

    fn from(_: AllocFailed<T>) -> HolidaysFault {
        HolidaysFault::Memory
    }
}

/// The days of a list of public holidays, in its order (profile). The list is a CSV text. Its head row has the single field
/// `date`, and each other row the single field CCYYMMDD, a day. A day may come twice. If there is no row, row 1 differs (H1).
/// An empty text takes no memory.
pub fn read_holidays(alloc: Global, text: &[u8]) -> Result<Vec<Day>, HolidaysFault>
    ensures days { IfOk result (λ days. IsListOf (rows_of text.now) days.items) }
    ensures refused { IfErr result (λ fault. IsRefusal text.now fault) }
{
    if text.is_empty() {
        return Err(HolidaysFault::BadHolidays(1));
    }
    let mut reader = reader_of(alloc, text);
    let mut row = ByteRecord::new(alloc);
    read_days(alloc, &mut reader, &mut row)
}

/// Reads the days of a list with a reader that has read nothing so far. Each row is read into `row`.
fn read_days(
    alloc: Global,
    reader: &mut Reader<&[u8]>,
    row: &mut ByteRecord,
) -> Result<Vec<Day>, HolidaysFault>
    requires { (text : List ℕ) × HasRead text reader.old [] }
    ensures days { (text : List ℕ) → HasRead text reader.old [] → IfOk result (λ days. IsListOf (rows_of text) days.items) }
    ensures refused { (text : List ℕ) → HasRead text reader.old [] → 0 < length text → IfErr result (λ fault. IsRefusal text fault) }
{
    if !next_row(reader, row)? {
        return Err(HolidaysFault::BadHolidays(1));
    }
    if !is_head(row) {
        return Err(HolidaysFault::BadHolidays(1));
    }
    let mut days = Vec::new(alloc);
    let mut number = 1;
    while next_row(reader, row)? {
        number += 1;
        // decides: H1: the row is no day of a list of holidays
        let Some(day) = day_in(row) else {
            return Err(HolidaysFault::BadHolidays(number));
        };
        days.push(day)?;
    }
    Ok(days)
}

/// A reader of the rows of a text, which may have any number of fields.
fn reader_of(alloc: Global, text: &[u8]) -> Reader<&[u8]>
    ensures { HasRead text.now result [] }
{
    ReaderBuilder::new()
        .has_headers(false)
        .flexible(true)
        .from_reader(alloc, text)
}

/// Reads the next row of a text. Returns whether there was one. It fails if memory was refused.
fn next_row(reader: &mut Reader<&[u8]>, row: &mut ByteRecord) -> Result<bool, HolidaysFault>
    ensures reads { (text : List ℕ) (rows : List (List (List ℕ))) → HasRead text reader.old rows →
        IfOk result (λ found. MatchBool found
        (HasRead text reader.new (rows ++ fields_of row.new ∷ []))
        (rows_of text ≡ rows)) }
    ensures memory { IfErr result (λ fault. fault ≡ HolidaysFault.Memory) }
{
    let Ok(found) = reader.read_byte_record(row) else {
        return Err(HolidaysFault::Memory);
    };
    Ok(found)
}

/// Whether a row is the head row.
fn is_head(row: &ByteRecord) -> bool
    ensures { IsTrue result ↔ (fields_of row.now ≡ head_row) }
{
    only_field(row) == Some(b"date".as_slice())
}

/// The day in the only field of a row.
fn day_in(row: &ByteRecord) -> Option<Day>
    ensures { result ≡ day_in (fields_of row.now) }
{
    only_field(row).and_then(Day::read)
}

/// The only field of a row.
fn only_field(row: &ByteRecord) -> Option<&[u8]>
    ensures { option_map (λ field. field.now) result ≡ only_field (fields_of row.now) }
{
    if row.len() == 1 { row.get(0) } else { None }
}
