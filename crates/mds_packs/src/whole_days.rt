//! From a body to the readings of a whole day.

ghost use Rattle.std.specs.Prelude.{◌≡◌, ◌+◌, ◌-◌, ◌<◌, ◌≤◌, ◌^◌, ℕ, IsTrue, IfOk, IfSome, IfNone, IsSome, OnErr, None, Some, [], List, get_or, length as list_length, map, option_map, replicate};
ghost use Rattle.mds_calendar.specs.Length.{count_of};
ghost use Rattle.mds_marks.specs.Reading.{ReadingValue, is_reading};
ghost use Rattle.mds_runs.specs.GapSteps.{are_parted, marks_after};
ghost use Rattle.mds_runs.specs.Marked.{reading_by};
ghost use Rattle.mds_packs.specs.LoopSteps.{ReadsWhole, held_by, with_front};
ghost use Rattle.mds_packs.specs.Sizes.{values_size as size_in};
ghost use Rattle.mds_packs.specs.Unpacked.{readings_at, unpacked};

use crate::sizes::values_size;
use crate::unpacking::{intervals_of, read_head, read_value};
use mds_calendar::Length;
use mds_marks::Mark;
use mds_marks::flags::VARIABLE;
use mds_quantity::Quantity;
use mds_runs::{DayReadings, Run};
use std::alloc::{AllocError, Global};

/// Unpacks the body of a whole day with intervals of this length to `DayReadings`. `None` if these bytes aren't a body
/// of such a day, or an interval has no reading. Takes memory only for bytes that have the head and the size of such a
/// body.
pub fn unpack_readings(
    alloc: Global,
    length: Length,
    body: &[u8],
) -> Result<Option<DayReadings>, AllocError>
    ensures some { IfOk result (λ o. IfSome o (λ readings.
        unpacked (count_of length) body.now ≡ Some (map (λ reading. Some reading) readings))) }
    ensures none { IfOk result (λ o. IfNone o ((readings : List ReadingValue)
        → unpacked (count_of length) body.now ≡ Some (map (λ reading. Some reading) readings) → ⊥)) }
    ensures memory { OnErr result (IsSome (size_in (count_of length) body.now)) }
{
    let count = intervals_of(length);
    if values_size(count, body).is_none() {
        return Ok(None);
    }
    let mut runs = Vec::new(alloc);
    let Some(rest) = read_head(&mut runs, count, body)? else {
        return Ok(None);
    };
    let mut readings = DayReadings::with_capacity(alloc, usize::from(count))?;
    let Some(rest) = read_each(alloc, &mut readings, count, runs.as_slice(), rest)? else {
        return Ok(None);
    };
    // For the proof: the size was tested, so nothing is left.
    if !rest.is_empty() {
        return Ok(None);
    }
    Ok(Some(readings))
}

/// Reads a reading for each interval, and appends them. `None` if an interval has no reading, or the bytes don't
/// contain them. Here and below the rest of the bytes is returned with it.
fn read_each<'a>(
    alloc: Global,
    readings: &mut DayReadings,
    count: u16,
    runs: &[Run],
    bytes: &'a [u8],
) -> Result<Option<&'a [u8]>, AllocError>
    requires lawful { IsTrue (are_parted count None runs.now) }
    requires empty { readings.old ≡ [] }
    ensures { IfOk result (λ o. ReadsWhole (readings_at (marks_after count 0 runs.now) bytes.now)
        (option_map (λ rest. (readings.new, rest.now)) o)) }
{
    let mut values = Vec::with_capacity(alloc, usize::from(count))?;
    let mut rest = bytes;
    for run in runs {
        if usize::from(run.first) != readings.len() + 1 {
            return Ok(None);
        }
        let Some(after) = read_run(readings, &mut values, run, rest)? else {
            return Ok(None);
        };
        rest = after;
    }
    if readings.len() < usize::from(count) {
        return Ok(None);
    }
    Ok(Some(rest))
}

/// Reads the readings of a run, and appends them. The run begins right after those before it. Its values pass through
/// `values`.
fn read_run<'a>(
    readings: &mut DayReadings,
    values: &mut Vec<Option<Quantity>>,
    run: &Run,
    bytes: &'a [u8],
) -> Result<Option<&'a [u8]>, AllocError>
    requires next { run.now.first ≡ list_length readings.old + 1 }
    requires some { run.now.first ≤ run.now.last }
    requires few { run.now.last < 2 ^ 16 }
    ensures { IfOk result (λ o. option_map (λ rest. (map (λ reading. Some reading) readings.new, rest.now)) o
        ≡ with_front (map (λ reading. Some reading) readings.old)
        (readings_at (replicate (run.now.last + 1 - run.now.first) (Some run.now.mark)) bytes.now)) }
{
    let number = usize::from(run.last) + 1 - usize::from(run.first);
    let Some(rest) = read_values(values, &run.mark, number, bytes)? else {
        return Ok(None);
    };
    readings.push_all(&run.mark, values.as_slice())?;
    Ok(Some(rest))
}

/// Reads the values of this many readings with this mark. They replace the contents of `values`.
fn read_values<'a>(
    values: &mut Vec<Option<Quantity>>,
    mark: &Mark,
    number: usize,
    bytes: &'a [u8],
) -> Result<Option<&'a [u8]>, AllocError>
    requires { 0 < number }
    ensures value { IfOk result (λ o. option_map (λ rest. (map (held_by mark.now) values.new.items, rest.now)) o
        ≡ readings_at (replicate number (Some mark.now)) bytes.now) }
    ensures together { IfOk result (λ o. IfSome o (λ rest. (k : ℕ) → k < list_length values.new.items
        → IsTrue (is_reading mark.now.quality.flag (reading_by mark.now (get_or values.new.items k None)).value))) }
{
    values.clear();
    if mark.quality.flag() == VARIABLE {
        return Ok(None);
    }
    let mut rest = bytes;
    for _ in 0..number {
        let Some((value, after)) = read_value(mark, rest) else {
            return Ok(None);
        };
        values.push(value)?;
        rest = after;
    }
    Ok(Some(rest))
}
