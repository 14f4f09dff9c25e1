//! From the readings of a day to one body.

ghost use Rattle.std.specs.Prelude.{option_map, List, ◌≡◌, ◌≢◌, ◌↔◌, ◌+◌, ◌<◌, ◌≤◌, ◌^◌, ℕ, IsTrue, IfOk, OnOk, Some, [], ◌∷◌, ◌++◌, is_some, length, map, slice_get};
ghost use Rattle.std.specs.List.{flat_map, list_all, list_any};
ghost use Rattle.mds_runs.specs.GapSteps.{stretch_of};
ghost use Rattle.mds_packs.specs.Body.{is_held_lawful, IsDay, body_of, two, code_number, mark_in, run_bytes, reading_bytes, runs_in, value_bytes};
ghost use Rattle.mds_packs.specs.Unpacked.{unpacked};

use crate::layout::{NO_CODE, VERSION};
use mds_marks::{Mark, Reading};
use mds_quantity::Quantity;
use mds_runs::{DayReadings, Run};
use std::alloc::{AllocError, Global};

/// The number of bytes before the first run.
const HEAD: usize = 5;

/// The number of bytes of a run and of a short text. Most days have one run.
const RUN: usize = 16;

/// The number of bytes of a value.
const VALUE: usize = 8;

/// Packs the readings of a day, one place for each interval and at most 65,535. If at least one is held, they are a
/// day, and `unpack_day` returns them. It fails only if memory is refused.
pub fn pack_day(alloc: Global, readings: &[Option<Reading>]) -> Result<Vec<u8>, AllocError>
    requires few { length readings.now < 2 ^ 16 }
    ensures value { IfOk result (λ body. body.items ≡ body_of readings.now) }
    ensures day { OnOk result (IsTrue (list_any (λ reading. is_some reading) readings.now)
        → IsDay (length readings.now) readings.now) }
    ensures back { IfOk result (λ body. IsTrue (list_any (λ reading. is_some reading) readings.now)
        → unpacked (length readings.now) body.items ≡ Some readings.now) }
{
    let mut out = Vec::with_capacity(alloc, HEAD + RUN + VALUE * readings.len())?;
    // decides: which bytes are a packed day? (definition: body_of in mds_packs/specs/Body.antt)
    out.push(VERSION)?;
    put_two(&mut out, readings.len() as u16)?;
    put_two(&mut out, 0)?;
    let number = put_runs(&mut out, readings)?;
    set_number(&mut out, number);
    put_values(&mut out, readings)?;
    Ok(out)
}

/// Packs a day in which each interval has a reading, as `pack_day` does. It fails only if memory is refused.
pub fn pack_readings(alloc: Global, readings: &DayReadings) -> Result<Vec<u8>, AllocError>
    ensures value { IfOk result (λ body. body.items ≡ body_of (map (λ reading. Some reading) readings.now)) }
    ensures day { OnOk result (0 < length readings.now
        → IsDay (length readings.now) (map (λ reading. Some reading) readings.now)) }
    ensures back { IfOk result (λ body. 0 < length readings.now
        → unpacked (length readings.now) body.items ≡ Some (map (λ reading. Some reading) readings.now)) }
{
    // For the proof: each reading is lawful.
    readings.are_lawful();
    let runs = readings.runs();
    let mut out = Vec::with_capacity(alloc, HEAD + RUN * runs.len() + VALUE * readings.len())?;
    // decides: which bytes are a packed day? (definition: body_of in mds_packs/specs/Body.antt)
    out.push(VERSION)?;
    put_two(&mut out, readings.len() as u16)?;
    put_two(&mut out, runs.len() as u16)?;
    put_each_run(&mut out, runs)?;
    put_each_value(&mut out, readings)?;
    Ok(out)
}

/// Sets the number of runs, in the fourth and the fifth byte.
fn set_number(out: &mut Vec<u8>, number: u16)
    requires { 5 ≤ length out.old.items }
    ensures { (a b c d e : ℕ) (rest : List ℕ) → out.old.items ≡ a ∷ b ∷ c ∷ d ∷ e ∷ rest
        → out.new.items ≡ a ∷ b ∷ c ∷ (two number ++ rest) }
{
    let bytes = number.to_be_bytes();
    out[3] = bytes[0];
    out[4] = bytes[1];
}

/// Appends the two bytes of a number.
fn put_two(out: &mut Vec<u8>, number: u16) -> Result<(), AllocError>
    ensures { OnOk result (out.new.items ≡ out.old.items ++ two number) }
{
    out.extend_from_slice(&number.to_be_bytes())
}

/// Appends the runs of the readings, and returns how many there are.
fn put_runs(out: &mut Vec<u8>, readings: &[Option<Reading>]) -> Result<u16, AllocError>
    requires { length readings.now < 2 ^ 16 }
    ensures number { IfOk result (λ number. number ≡ length (runs_in readings.now)) }
    ensures done { OnOk result (out.new.items ≡ out.old.items ++ flat_map run_bytes (runs_in readings.now)) }
{
    let mut number = 0;
    let mut place = 0;
    while place < readings.len() {
        let end = end_of_stretch(readings, place);
        number += put_stretch(out, place as u16 + 1, end as u16, &readings[place])?;
        place = end;
    }
    Ok(number)
}

/// The index of the first place after this one with another mark, or the number of places. A gap differs from each
/// mark.
fn end_of_stretch(readings: &[Option<Reading>], start: usize) -> usize
    requires { start < length readings.now }
    ensures within { (start < result) × (result ≤ length readings.now) }
    ensures alike { (k : ℕ) → start ≤ k → k < result
        → option_map mark_in (slice_get readings.now k) ≡ option_map mark_in (slice_get readings.now start) }
    ensures differs { result < length readings.now
        → option_map mark_in (slice_get readings.now result) ≢ option_map mark_in (slice_get readings.now start) }
{
    let first = &readings[start];
    for end in start + 1..readings.len() {
        if !are_alike(&readings[end], first) {
            return end;
        }
    }
    readings.len()
}

/// Whether both readings have the same mark, or neither is held.
#[inline]
fn are_alike(one: &Option<Reading>, other: &Option<Reading>) -> bool
    ensures { IsTrue result ↔ (mark_in one.now ≡ mark_in other.now) }
{
    match (one, other) {
        (Some(one), Some(other)) => one.mark().is_same(other.mark()),
        (None, None) => true,
        _ => false,
    }
}

/// Appends the run of intervals `first` to `last`, which have the mark of this reading. It returns 1 for the one run,
/// or 0 if no reading is held.
fn put_stretch(
    out: &mut Vec<u8>,
    first: u16,
    last: u16,
    reading: &Option<Reading>,
) -> Result<u16, AllocError>
    ensures number { IfOk result (λ number. number ≡ length (stretch_of first last (mark_in reading.now))) }
    ensures done { OnOk result (out.new.items
        ≡ out.old.items ++ flat_map run_bytes (stretch_of first last (mark_in reading.now))) }
{
    let Some(reading) = reading else {
        return Ok(0);
    };
    put_run(out, first, last, reading.mark())?;
    Ok(1)
}

/// Appends a run.
fn put_run(out: &mut Vec<u8>, first: u16, last: u16, mark: &Mark) -> Result<(), AllocError>
    ensures { OnOk result (out.new.items
        ≡ out.old.items ++ run_bytes (record { first = first; last = last; mark = mark.now })) }
{
    mark.parts_are_lawful();
    put_two(out, first)?;
    put_two(out, last)?;
    out.push(mark.quality.flag())?;
    out.push(mark.quality.method())?;
    put_two(out, number_of(mark.reason.code()))?;
    let text = mark.reason.text();
    put_two(out, text.len() as u16)?;
    out.extend_from_slice(text.as_bytes())
}

/// Appends runs.
fn put_each_run(out: &mut Vec<u8>, runs: &[Run]) -> Result<(), AllocError>
    ensures { OnOk result (out.new.items ≡ out.old.items ++ flat_map run_bytes runs.now) }
{
    for run in runs {
        put_run(out, run.first, run.last, &run.mark)?;
    }
    Ok(())
}

/// The number of a code, or the number for no code.
fn number_of(code: Option<u16>) -> u16
    ensures { result ≡ code_number code }
{
    match code {
        Some(number) => number,
        None => NO_CODE,
    }
}

/// Appends the values of the held readings.
fn put_values(out: &mut Vec<u8>, readings: &[Option<Reading>]) -> Result<(), AllocError>
    ensures done { OnOk result (out.new.items ≡ out.old.items ++ flat_map reading_bytes readings.now) }
    ensures lawful { OnOk result (IsTrue (list_all is_held_lawful readings.now)) }
{
    for reading in readings {
        put_value(out, reading)?;
    }
    Ok(())
}

/// Appends the value of a held reading, if it has one.
#[inline]
fn put_value(out: &mut Vec<u8>, reading: &Option<Reading>) -> Result<(), AllocError>
    ensures done { OnOk result (out.new.items ≡ out.old.items ++ reading_bytes reading.now) }
    ensures lawful { OnOk result (IsTrue (is_held_lawful reading.now)) }
{
    let Some(reading) = reading else {
        return Ok(());
    };
    put_number(out, reading.value())
}

/// Appends the values of readings.
fn put_each_value(out: &mut Vec<u8>, readings: &DayReadings) -> Result<(), AllocError>
    ensures { OnOk result (out.new.items
        ≡ out.old.items ++ flat_map (λ reading. value_bytes reading.value) readings.now) }
{
    for at in 0..readings.len() {
        put_number(out, readings.value(at))?;
    }
    Ok(())
}

/// Appends a value, if there is one.
#[inline]
fn put_number(out: &mut Vec<u8>, value: Option<Quantity>) -> Result<(), AllocError>
    ensures { OnOk result (out.new.items ≡ out.old.items ++ value_bytes value) }
{
    let Some(value) = value else {
        return Ok(());
    };
    let bits = value.millionths().cast_unsigned();
    out.extend_from_slice(&bits.to_be_bytes())
}
