//! From a body to the readings of a day.

ghost use Rattle.std.specs.Prelude.{nat_lt, nat_le, ◌&&◌, ◌≡◌, ◌+◌, ◌-◌, ◌<◌, ◌≤◌, ◌^◌, IsTrue, IfOk, OnOk, OnErr, IfSome, IfNone, IsSome, false, Some, None, [], ◌++◌, length as list_length, option_map, replicate, List, Option};
ghost use Rattle.std.specs.Int.{w16, w64};
ghost use Rattle.mds_calendar.specs.Length.{count_of};
ghost use Rattle.mds_marks.specs.Reading.{ReadingValue};
ghost use Rattle.mds_marks.specs.Reason.{is_reason_text};
ghost use Rattle.mds_runs.specs.Gaps.{same_mark, goes_on as run_goes_on};
ghost use Rattle.mds_runs.specs.GapSteps.{are_parted, follows, marks_after, touches as runs_touch, end_of as last_end};
ghost use Rattle.mds_packs.specs.Body.{IsDay, body_of};
ghost use Rattle.mds_packs.specs.Unpacked.{number_at, byte_at, text_at, parts_at, run_in, runs_at, value_at, reading_at, readings_at, head_at, unpacked, PartsValue, code_in};
ghost use Rattle.mds_packs.specs.LoopSteps.{parts_value, with_front, held_front};
ghost use Rattle.mds_packs.specs.Sizes.{values_size as size_in};

use crate::layout::{NO_CODE, VERSION};
use crate::sizes::values_size;
use mds_calendar::Length;
use mds_marks::flags::NULL;
use mds_marks::{Mark, Quality, Reading, Reason};
use mds_quantity::Quantity;
use mds_runs::Run;
use std::alloc::{AllocError, Global};
use std::str;

/// The fields of a run as read. The text is borrowed.
#[derive(Clone, Copy)]
pub struct Parts<'a> {
    pub(crate) first: u16,
    pub(crate) last: u16,
    pub(crate) flag: u8,
    method: u8,
    code: u16,
    text: &'a [u8],
}

/// Unpacks the body of a day with intervals of this length: a place for each interval, with its reading if one is
/// held. `None` if these bytes aren't a body. So bytes that unpack to readings are what `pack_day` makes of them.
/// Takes memory only for bytes that have the head and the size of such a body.
pub fn unpack_day(
    alloc: Global,
    length: Length,
    body: &[u8],
) -> Result<Option<Vec<Option<Reading>>>, AllocError>
    ensures found { IfOk result (λ o. IfSome o (λ readings.
        IsDay (count_of length) readings.items × (body.now ≡ body_of readings.items))) }
    ensures only { IfOk result (λ o. (readings : List (Option ReadingValue)) → IsDay (count_of length) readings
        → body.now ≡ body_of readings → option_map (λ v. v.items) o ≡ Some readings) }
    ensures value { IfOk result (λ o. option_map (λ v. v.items) o ≡ unpacked (count_of length) body.now) }
    ensures memory { OnErr result (IsSome (size_in (count_of length) body.now)) }
{
    // decides: which bytes are a packed day? (definition: body_of in mds_packs/specs/Body.antt)
    read_all(alloc, intervals_of(length), body)
}

/// How many intervals of a length a day has.
pub(crate) fn intervals_of(length: Length) -> u16
    ensures value { result ≡ count_of length }
    ensures few { result < 2 ^ 16 }
{
    length.count() as u16
}

/// Reads all of a body, if it has the size of one.
#[tactic(auto, unfolding(crate::specs::Unpacked::unpacked))]
fn read_all(
    alloc: Global,
    count: u16,
    body: &[u8],
) -> Result<Option<Vec<Option<Reading>>>, AllocError>
    ensures value { IfOk result (λ o. option_map (λ v. v.items) o ≡ unpacked count body.now) }
    ensures memory { OnErr result (IsSome (size_in count body.now)) }
{
    if values_size(count, body).is_none() {
        return Ok(None);
    }
    let mut runs = Vec::new(alloc);
    let Some(rest) = read_head(&mut runs, count, body)? else {
        return Ok(None);
    };
    let mut readings = Vec::with_capacity(alloc, usize::from(count))?;
    let Some(rest) = read_readings(&mut readings, count, runs.as_slice(), rest)? else {
        return Ok(None);
    };
    // For the proof: the size was tested, so nothing is left.
    if !rest.is_empty() {
        return Ok(None);
    }
    Ok(Some(readings))
}

/// Reads a number of two bytes. Here and below the rest of the bytes is returned with it.
pub(crate) fn u16_at(bytes: &[u8]) -> Option<(u16, &[u8])>
    ensures { option_map (λ x. (x.0, x.1.now)) result ≡ number_at w16 bytes.now }
{
    if bytes.len() < 2 {
        return None;
    }
    let (front, rest) = bytes.split_at(2);
    Some((u16::from_be_bytes([front[0], front[1]]), rest))
}

/// Reads a number of eight bytes.
#[inline]
fn u64_at(bytes: &[u8]) -> Option<(u64, &[u8])>
    ensures { option_map (λ x. (x.0, x.1.now)) result ≡ number_at w64 bytes.now }
{
    if bytes.len() < 8 {
        return None;
    }
    let (front, rest) = bytes.split_at(8);
    let number = u64::from_be_bytes([
        front[0], front[1], front[2], front[3], front[4], front[5], front[6], front[7],
    ]);
    Some((number, rest))
}

/// Reads a byte.
pub(crate) fn u8_at(bytes: &[u8]) -> Option<(u8, &[u8])>
    ensures { option_map (λ x. (x.0, x.1.now)) result ≡ byte_at bytes.now }
{
    match bytes {
        [] => None,
        [byte, rest @ ..] => Some((*byte, rest)),
    }
}

/// Reads a text after its length.
#[tactic(auto, unfolding(crate::specs::Unpacked::text_at))]
fn bytes_at(bytes: &[u8]) -> Option<(&[u8], &[u8])>
    ensures { option_map (λ x. (x.0.now, x.1.now)) result ≡ text_at bytes.now }
{
    let (length, rest) = u16_at(bytes)?;
    if rest.len() < usize::from(length) {
        return None;
    }
    let (text, rest) = rest.split_at(usize::from(length));
    Some((text, rest))
}

/// Reads the fields of a run.
#[tactic(auto, unfolding(crate::specs::Unpacked::parts_at))]
pub(crate) fn read_parts(bytes: &[u8]) -> Option<(Parts<'_>, &[u8])>
    ensures { option_map (λ x. (parts_value x.0, x.1.now)) result ≡ parts_at bytes.now }
{
    let (first, rest) = u16_at(bytes)?;
    let (last, rest) = u16_at(rest)?;
    let (flag, rest) = u8_at(rest)?;
    let (method, rest) = u8_at(rest)?;
    let (code, rest) = u16_at(rest)?;
    let (text, rest) = bytes_at(rest)?;
    Some((
        Parts {
            first,
            last,
            flag,
            method,
            code,
            text,
        },
        rest,
    ))
}

/// The code denoted by a number.
fn code_of(number: u16) -> Option<u16>
    ensures { result ≡ code_in number }
{
    if number == NO_CODE {
        return None;
    }
    Some(number)
}

/// These bytes as a text. `None` for bytes that no reason has.
#[tactic(auto, using(mds_marks::proofs::Reasons::text_is_utf8))]
fn text_of(bytes: &[u8]) -> Option<&str>
    ensures some { IfSome result (λ text. text.now ≡ bytes.now) }
    ensures none { IfNone result (is_reason_text bytes.now ≡ false) }
{
    if bytes.is_empty() {
        return Some("");
    }
    let Ok(text) = str::from_utf8(bytes) else {
        return None;
    };
    Some(text)
}

/// The run of these fields, if they form a mark.
#[tactic(auto, unfolding(crate::specs::Unpacked::run_in))]
fn run_of(alloc: Global, parts: &Parts<'_>) -> Result<Option<Run>, AllocError>
    ensures { IfOk result (λ o. o ≡ run_in (parts_value parts.now)) }
{
    let Some(quality) = Quality::new(parts.flag, parts.method) else {
        return Ok(None);
    };
    let Some(text) = text_of(parts.text) else {
        return Ok(None);
    };
    let Some(reason) = Reason::new(alloc, code_of(parts.code), text)? else {
        return Ok(None);
    };
    Ok(Some(Run {
        first: parts.first,
        last: parts.last,
        mark: Mark { quality, reason },
    }))
}

/// Reads `number` runs, and appends them.
fn read_runs<'a>(
    runs: &mut Vec<Run>,
    number: u16,
    bytes: &'a [u8],
) -> Result<Option<&'a [u8]>, AllocError>
    ensures { IfOk result (λ o. option_map (λ rest. (runs.new.items, rest.now)) o
        ≡ with_front runs.old.items (runs_at number bytes.now)) }
{
    let alloc = *runs.allocator();
    let mut rest = bytes;
    for _ in 0..number {
        let Some((parts, after)) = read_parts(rest) else {
            return Ok(None);
        };
        let Some(run) = run_of(alloc, &parts)? else {
            return Ok(None);
        };
        runs.push(run)?;
        rest = after;
    }
    Ok(Some(rest))
}

/// Whether each run may follow the one before it, in a day of `count` intervals.
fn is_parted(count: u16, runs: &[Run]) -> bool
    ensures { result ≡ are_parted count None runs.now }
{
    let mut last = None;
    for run in runs {
        if !may_follow(count, last, run) {
            return false;
        }
        last = Some(run);
    }
    true
}

/// Whether a run may follow another, or be the first.
fn may_follow(count: u16, last: Option<&Run>, run: &Run) -> bool
    ensures { result ≡ follows count (option_map (λ l. l.now) last.entry) run.now }
{
    is_within(count, end_of(last), run) && !touches(last, run)
}

/// Whether a run begins after the interval `end`, and is within a day of `count` intervals.
fn is_within(count: u16, end: u16, run: &Run) -> bool
    ensures { result
        ≡ (nat_lt end run.now.first && nat_le run.now.first run.now.last && nat_le run.now.last count) }
{
    end < run.first && run.first <= run.last && run.last <= count
}

/// The last interval of a run, or 0 if there is no run.
fn end_of(last: Option<&Run>) -> u16
    ensures { result ≡ last_end (option_map (λ l. l.now) last.entry) }
{
    match last {
        Some(last) => last.last,
        None => 0,
    }
}

/// Whether a run begins right after another, with the same mark.
fn touches(last: Option<&Run>, run: &Run) -> bool
    ensures { result ≡ runs_touch (option_map (λ l. l.now) last.entry) run.now }
{
    match last {
        Some(last) => goes_on(last.last, &last.mark, run),
        None => false,
    }
}

/// Whether a run begins right after an interval, and has this mark.
fn goes_on(place: u16, mark: &Mark, run: &Run) -> bool
    ensures { result ≡ run_goes_on place mark.now run.now }
{
    usize::from(run.first) == usize::from(place) + 1 && is_one_mark(mark, &run.mark)
}

/// Whether both marks are the same.
fn is_one_mark(one: &Mark, other: &Mark) -> bool
    ensures { result ≡ same_mark one.now other.now }
{
    one.is_same(other)
}

/// Reads what comes before the values: the head and the runs.
#[tactic(auto, unfolding(crate::specs::Unpacked::head_at))]
pub(crate) fn read_head<'a>(
    runs: &mut Vec<Run>,
    count: u16,
    bytes: &'a [u8],
) -> Result<Option<&'a [u8]>, AllocError>
    requires { runs.old.items ≡ [] }
    ensures value { IfOk result (λ o. option_map (λ rest. (runs.new.items, rest.now)) o
        ≡ head_at count bytes.now) }
    ensures lawful { IfOk result (λ o. IfSome o (λ rest. IsTrue (are_parted count None runs.new.items))) }
{
    let Some((version, rest)) = u8_at(bytes) else {
        return Ok(None);
    };
    let Some((places, rest)) = u16_at(rest) else {
        return Ok(None);
    };
    let Some((number, rest)) = u16_at(rest) else {
        return Ok(None);
    };
    if version != VERSION || places != count || number == 0 {
        return Ok(None);
    }
    let Some(rest) = read_runs(runs, number, rest)? else {
        return Ok(None);
    };
    if !is_parted(count, runs.as_slice()) {
        return Ok(None);
    }
    Ok(Some(rest))
}

/// Reads the readings of all intervals.
fn read_readings<'a>(
    readings: &mut Vec<Option<Reading>>,
    count: u16,
    runs: &[Run],
    bytes: &'a [u8],
) -> Result<Option<&'a [u8]>, AllocError>
    requires lawful { IsTrue (are_parted count None runs.now) }
    requires empty { readings.old.items ≡ [] }
    ensures { IfOk result (λ o. option_map (λ rest. (readings.new.items, rest.now)) o
        ≡ readings_at (marks_after count 0 runs.now) bytes.now) }
{
    let mut rest = bytes;
    for run in runs {
        leave_out(readings, run.first - 1)?;
        let Some(after) = read_run(readings, run, rest)? else {
            return Ok(None);
        };
        rest = after;
    }
    leave_out(readings, count)?;
    Ok(Some(rest))
}

/// Appends places without a reading until there are `count` places.
fn leave_out(readings: &mut Vec<Option<Reading>>, count: u16) -> Result<(), AllocError>
    ensures { OnOk result (readings.new.items
        ≡ readings.old.items ++ replicate (count - list_length readings.old.items) None) }
{
    while readings.len() < usize::from(count) {
        readings.push(None)?;
    }
    Ok(())
}

/// Reads the readings of a run, and appends them.
fn read_run<'a>(
    readings: &mut Vec<Option<Reading>>,
    run: &Run,
    bytes: &'a [u8],
) -> Result<Option<&'a [u8]>, AllocError>
    requires { run.now.first ≤ run.now.last }
    ensures { IfOk result (λ o. option_map (λ rest. (readings.new.items, rest.now)) o
        ≡ held_front readings.old.items (readings_at (replicate (run.now.last + 1 - run.now.first) (Some run.now.mark)) bytes.now)) }
{
    let mut rest = bytes;
    for _ in 0..usize::from(run.last) + 1 - usize::from(run.first) {
        let Some((value, after)) = read_value(&run.mark, rest) else {
            return Ok(None);
        };
        let Some(reading) = Reading::new(run.mark.try_clone()?, value) else {
            return Ok(None);
        };
        readings.push(Some(reading))?;
        rest = after;
    }
    Ok(Some(rest))
}

/// Reads the value of a reading with this mark. N has none.
#[inline]
#[tactic(auto, unfolding(crate::specs::Unpacked::value_at))]
pub(crate) fn read_value<'a>(mark: &Mark, bytes: &'a [u8]) -> Option<(Option<Quantity>, &'a [u8])>
    ensures { option_map (λ x. (x.0, x.1.now)) result ≡ value_at mark.now.quality.flag bytes.now }
{
    if mark.quality.flag() == NULL {
        return Some((None, bytes));
    }
    let (bits, rest) = u64_at(bytes)?;
    let value = Quantity::from_millionths(bits.cast_signed())?;
    Some((Some(value), rest))
}
