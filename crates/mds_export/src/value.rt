//! Appending values to a text.

ghost use Rattle.std.specs.Prelude.{◌≡◌, ◌+◌, ◌++◌, ◌^◌, ◌<◌, ◌≤◌, length, vec_capacity, vec_len, unsigned_abs, IsTrue, OnOk, OnErr};
ghost use Rattle.mds_quantity.specs.Append.{Appends};
ghost use Rattle.mds_quantity.specs.Quantity.{limit, point_and_decimals, sign_of, written};
ghost use Rattle.std.specs.List.{All};
ghost use Rattle.mds_marks.specs.Reading.{is_lawful};
ghost use Rattle.mds_export.specs.Begun.{Begins};
ghost use Rattle.mds_export.specs.RowSteps.{closed, value_texts};

use itoa::Buffer;
use mds_runs::DayReadings;
use std::alloc::AllocError;

/// Millionths in one.
const ONE: u64 = 1_000_000;

/// Appends the value field of each reading and the comma after it, or after an error a part of that. Without a value it is `0`.
pub(crate) fn write_values(readings: &DayReadings, out: &mut Vec<u8>) -> Result<(), AllocError>
    ensures done { OnOk result (Appends out.old.items out.new.items (value_texts readings.now)) }
    ensures lawful { All (λ reading. IsTrue (is_lawful reading)) readings.now }
    ensures grown { OnErr result (Begins out.old.items out.new.items) }
    ensures full { OnErr result (vec_capacity out.old < vec_len out.old + length (value_texts readings.now)) }
    ensures grows { vec_capacity out.old ≤ vec_capacity out.new }
    ensures len { OnOk result (vec_len out.new ≡ vec_len out.old + length (value_texts readings.now)) }
{
    // For the proof: each reading is lawful.
    readings.are_lawful();
    for number in readings.millionths() {
        write_number(*number, out)?;
    }
    Ok(())
}

/// Appends the written text of a quantity of this many millionths and a comma, or after an error a part of that.
fn write_number(millionths: i64, out: &mut Vec<u8>) -> Result<(), AllocError>
    requires { unsigned_abs millionths < limit }
    ensures done { OnOk result (Appends out.old.items out.new.items (closed (written millionths))) }
    ensures grown { OnErr result (Begins out.old.items out.new.items) }
    ensures full { OnErr result (vec_capacity out.old < vec_len out.old + length (closed (written millionths))) }
    ensures grows { vec_capacity out.old ≤ vec_capacity out.new }
    ensures len { OnOk result (vec_len out.new ≡ vec_len out.old + length (closed (written millionths))) }
{
    write_quantity(millionths, out)?;
    out.push(b',')?;
    Ok(())
}

/// Appends the written text of a quantity of this many millionths, or after an error a part of it.
fn write_quantity(millionths: i64, out: &mut Vec<u8>) -> Result<(), AllocError>
    requires { unsigned_abs millionths < limit }
    ensures done { OnOk result (Appends out.old.items out.new.items (written millionths)) }
    ensures grown { OnErr result (Begins out.old.items out.new.items) }
    ensures full { OnErr result (vec_capacity out.old < vec_len out.old + length (written millionths)) }
    ensures grows { vec_capacity out.old ≤ vec_capacity out.new }
    ensures len { OnOk result (vec_len out.new ≡ vec_len out.old + length (written millionths)) }
{
    write_sign(millionths, out)?;
    let magnitude = millionths.unsigned_abs();
    let mut buffer = Buffer::new();
    out.extend_from_slice(buffer.format(magnitude / ONE).as_bytes())?;
    write_decimals((magnitude % ONE) as u32, out)
}

/// Appends a minus sign, if the number is negative.
fn write_sign(millionths: i64, out: &mut Vec<u8>) -> Result<(), AllocError>
    ensures done { OnOk result (Appends out.old.items out.new.items (sign_of millionths)) }
    ensures grown { OnErr result (Begins out.old.items out.new.items) }
    ensures full { OnErr result (vec_capacity out.old < vec_len out.old + length (sign_of millionths)) }
    ensures grows { vec_capacity out.old ≤ vec_capacity out.new }
    ensures len { OnOk result (vec_len out.new ≡ vec_len out.old + length (sign_of millionths)) }
{
    let has_minus = millionths < 0;
    if has_minus {
        out.push(b'-')?;
    }
    Ok(())
}

/// The value of each of the six decimal places, in millionths.
const PLACES: [u32; 6] = [100_000, 10_000, 1_000, 100, 10, 1];

/// Appends a point and the decimals of a number of millionths below one, down to the last that isn't 0. If all are 0
/// it appends nothing. After an error a part of that is appended.
fn write_decimals(part: u32, out: &mut Vec<u8>) -> Result<(), AllocError>
    requires { part < 10 ^ 6 }
    ensures done { OnOk result (Appends out.old.items out.new.items (point_and_decimals part)) }
    ensures grown { OnErr result (Begins out.old.items out.new.items) }
    ensures full { OnErr result (vec_capacity out.old < vec_len out.old + length (point_and_decimals part)) }
    ensures grows { vec_capacity out.old ≤ vec_capacity out.new }
    ensures len { OnOk result (vec_len out.new ≡ vec_len out.old + length (point_and_decimals part)) }
{
    if part == 0 {
        return Ok(());
    }
    out.push(b'.')?;
    let mut rest = part;
    for place in PLACES {
        if rest == 0 {
            break;
        }
        out.push(b'0' + (rest / place) as u8)?;
        rest %= place;
    }
    Ok(())
}
