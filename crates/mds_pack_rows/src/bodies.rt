//! The body in a row, and the readings that it holds.

ghost use Rattle.std.specs.Prelude.{◌≡◌, ◌≢◌, ◌<◌, ◌^◌, ℕ, List, Option, IfNone, IfOk, IfSome, IsTrue, Some, drop, is_some, length as list_length, map, option_map};
ghost use Rattle.std.specs.List.{list_any};
ghost use Rattle.std.specs.Int.{w16};
ghost use Rattle.sqlite.specs.Order.{column};
ghost use Rattle.sqlite.specs.declared.types.Value.TheVariants.{Blob};
ghost use Rattle.mds_calendar.specs.Length.{count_of, is_length};
ghost use Rattle.mds_marks.specs.Reading.{ReadingValue};
ghost use Rattle.mds_packs.specs.Unpacked.{number_at, unpacked};
ghost use Rattle.mds_pack_rows.specs.PackFacts.{IsSaidAt, minutes_of, readings_in};

use mds_packs::{unpack_day, unpack_readings};
use mds_runs::DayReadings;
use mds_terms::{Length, Reading};
use sqlite::Row;
use sqlite::types::ValueRef;
use std::alloc::{AllocError, Global};

/// The body in a column. `None` if the column has another kind of value.
pub fn blob_at<'a>(row: &'a Row, at: usize) -> Option<&'a [u8]>
    ensures some { IfSome result (λ body. column row.now at ≡ Blob body.now) }
    ensures none { IfNone result ((body : List ℕ) → column row.now at ≢ Blob body) }
{
    match row.get_ref(at) {
        Ok(ValueRef::Blob(body)) => Some(body),
        _ => None,
    }
}

/// The readings in a row's body, for as many intervals as it says. `None` if the column has another kind of value, or these bytes
/// are no body of a day.
pub(crate) fn readings_at(
    alloc: Global,
    row: &Row,
    at: usize,
) -> Result<Option<Vec<Option<Reading>>>, AllocError>
    ensures says { IfOk result (λ o. IfSome o (λ readings. IsSaidAt row.now at readings.items)) }
    ensures few { IfOk result (λ o. IfSome o (λ readings. list_length readings.items < 2 ^ 16)) }
    ensures only { IfOk result (λ o. (body : List ℕ) (minutes : ℕ) (readings : List (Option ReadingValue)) → column row.now at ≡ Blob body
        → IsTrue (is_length minutes) → unpacked (count_of minutes) body ≡ Some readings → option_map (λ v. v.items) o ≡ Some readings) }
{
    let Some(body) = blob_at(row, at) else {
        return Ok(None);
    };
    unpack(alloc, body)
}

/// The readings in a row's body, of a day with intervals of this length. `None` only if the column has another kind of value, these
/// bytes are no body of such a day, or no interval has a reading.
pub fn readings_for(
    alloc: Global,
    length: Length,
    row: &Row,
    at: usize,
) -> Result<Option<Vec<Option<Reading>>>, AllocError>
    ensures says { IfOk result (λ o. IfSome o (λ readings. IsSaidAt row.now at readings.items)) }
    ensures few { IfOk result (λ o. IfSome o (λ readings. list_length readings.items < 2 ^ 16)) }
    ensures len { IfOk result (λ o. IfSome o (λ readings. minutes_of (list_length readings.items) ≡ length)) }
    ensures some { IfOk result (λ o. IfSome o (λ readings. IsTrue (list_any (λ reading. is_some reading) readings.items))) }
    ensures none { IfOk result (λ o. IfNone o ((body : List ℕ) (readings : List (Option ReadingValue)) → column row.now at ≡ Blob body
        → unpacked (count_of length) body ≡ Some readings → IsTrue (list_any (λ reading. is_some reading) readings) → ⊥)) }
{
    let Some(body) = blob_at(row, at) else {
        return Ok(None);
    };
    let Some(readings) = unpack_for(alloc, length, body)? else {
        return Ok(None);
    };
    if !has_some(readings.as_slice()) {
        return Ok(None);
    }
    Ok(Some(readings))
}

/// Whether an interval has a reading.
pub fn has_some(readings: &[Option<Reading>]) -> bool
    ensures { result ≡ list_any (λ reading. is_some reading) readings.now }
{
    match readings {
        [] => false,
        [first, rest @ ..] => first.is_some() || has_some(rest),
    }
}

/// Unpacks a body for as many intervals as it says. `None` if these bytes are no body of a day.
fn unpack(alloc: Global, body: &[u8]) -> Result<Option<Vec<Option<Reading>>>, AllocError>
    ensures says { IfOk result (λ o. IfSome o (λ readings. readings_in body.now ≡ Some readings.items)) }
    ensures few { IfOk result (λ o. IfSome o (λ readings. list_length readings.items < 2 ^ 16)) }
    ensures only { IfOk result (λ o. (minutes : ℕ) (readings : List (Option ReadingValue)) → IsTrue (is_length minutes)
        → unpacked (count_of minutes) body.now ≡ Some readings → option_map (λ v. v.items) o ≡ Some readings) }
{
    let Some(count) = count_in(body) else {
        return Ok(None);
    };
    let Some(length) = length_of(count) else {
        return Ok(None);
    };
    unpack_for(alloc, length, body)
}

/// Unpacks a body for a day with intervals of this length. `None` if these bytes are no body of such a day: a body that says another
/// count of intervals isn't read.
pub fn unpack_for(
    alloc: Global,
    length: Length,
    body: &[u8],
) -> Result<Option<Vec<Option<Reading>>>, AllocError>
    ensures says { IfOk result (λ o. IfSome o (λ readings. readings_in body.now ≡ Some readings.items)) }
    ensures few { IfOk result (λ o. IfSome o (λ readings. list_length readings.items < 2 ^ 16)) }
    ensures len { IfOk result (λ o. IfSome o (λ readings. minutes_of (list_length readings.items) ≡ length)) }
    ensures value { IfOk result (λ o. option_map (λ v. v.items) o ≡ unpacked (count_of length) body.now) }
{
    // For the proof: a length is 5, 15 or 30 minutes.
    let _ = length.minutes();
    unpack_day(alloc, length, body)
}

/// Unpacks a body for a whole day with intervals of this length, without spreading its readings. `None` only if these bytes are no
/// body of such a day, or an interval has no reading.
pub fn unpack_whole(
    alloc: Global,
    length: Length,
    body: &[u8],
) -> Result<Option<DayReadings>, AllocError>
    ensures says { IfOk result (λ o. IfSome o (λ readings. readings_in body.now ≡ Some (map (λ reading. Some reading) readings))) }
    ensures len { IfOk result (λ o. IfSome o (λ readings. minutes_of (list_length readings) ≡ length)) }
    ensures none { IfOk result (λ o. IfNone o ((readings : List ReadingValue)
        → unpacked (count_of length) body.now ≡ Some (map (λ reading. Some reading) readings) → ⊥)) }
{
    // For the proof: a length is 5, 15 or 30 minutes.
    let _ = length.minutes();
    unpack_readings(alloc, length, body)
}

/// How many intervals a body says.
fn count_in(body: &[u8]) -> Option<u16>
    ensures { result ≡ option_map (λ n. n.0) (number_at w16 (drop 1 body.now)) }
{
    match body {
        [_, high, low, ..] => Some(u16::from_be_bytes([*high, *low])),
        _ => None,
    }
}

/// The length of the intervals of a day with this count of them.
fn length_of(count: u16) -> Option<Length>
    ensures some { IfSome result (λ minutes. count_of minutes ≡ count) }
    ensures none { IfNone result ((minutes : ℕ) → IsTrue (is_length minutes) → count_of minutes ≢ count) }
{
    match count {
        288 => Length::from_minutes(5),
        96 => Length::from_minutes(15),
        48 => Length::from_minutes(30),
        _ => None,
    }
}
