//! The 300 record: a day and its values.

ghost use Rattle.std.specs.Prelude.{◌≡◌, ◌<◌, ◌≤◌, map, if◌then◌else◌, Some, None, IfOk, IfSome, IfNone, OnOk, OnSome, MatchResult, codes};
ghost use Rattle.mds_lines.specs.declared.line.Kind.{Kind};
ghost use Rattle.mds_records.specs.declared.header_name.HeaderName.{HeaderName};
ghost use Rattle.mds_records.specs.declared.record.Record.{Record};
ghost use Rattle.mds_records.specs.FieldFaults.{field_fault};
ghost use Rattle.mds_records.specs.Layouts.{has_flag};
ghost use Rattle.mds_records.specs.RecordSteps.{HasDayFields, HasWrongCount, lesser, or_else};
ghost use Rattle.mds_records.specs.Records.{GoesWith, IsIntervalData, quantity_in, values_of};

use crate::fault::{FieldFault, least_bad};
use crate::interval_values::{IntervalValues, ValueFaults};
use crate::term::{mark_parts, optional_moment};
use mds_lines::{is_blank_from, next_field};
use mds_marks::flags::{ACTUAL, ESTIMATED, FINAL, SUBSTITUTED};
use mds_terms::{Day, MarkRef, Moment, Quality};

/// A 300 record, the interval data of a day.
#[derive(Clone, Copy)]
pub struct IntervalDataRecord<'a> {
    pub date: Day,
    /// The sum of the values, in millionths. An empty value adds nothing.
    pub sum: i128,
    pub mark: MarkRef<'a>,
    /// When it was updated, if the record states it.
    pub update: Option<Moment>,
}

/// The fields of a 300 record, valid or not.
#[derive(Clone, Copy)]
struct DayFields<'a> {
    date: &'a [u8],
    /// The sum of the values, in millionths.
    sum: i128,
    quality: &'a [u8],
    reason_code: &'a [u8],
    reason_text: &'a [u8],
    update: &'a [u8],
    load: &'a [u8],
}

/// Reads a 300 record with `count` values, or returns its first fault (L4, L5). The values replace
/// those in `values`.
pub fn read_interval_data<'a>(
    text: &'a [u8],
    count: usize,
    values: &mut IntervalValues,
) -> Result<IntervalDataRecord<'a>, FieldFault>
    requires { (0 < count) × (count ≤ 288) }
    ensures read { (file : HeaderName) → MatchResult result
        (λ r. (field_fault file Kind.IntervalData count text.now ≡ None) × IsIntervalData count text.now r)
        (λ fault. field_fault file Kind.IntervalData count text.now ≡ Some fault) }
    ensures held { OnOk result (values.new ≡ map quantity_in (values_of count text.now)) }
    ensures valued { IfOk result (λ r. GoesWith values.new (Record.IntervalData r)) }
{
    let Some((fields, faults)) = split_interval_data(text, count, values) else {
        return Err(FieldFault::Count);
    };
    let date = Day::read(fields.date);
    let (quality, code, text) = (fields.quality, fields.reason_code, fields.reason_text);
    let mark = MarkRef::read(quality, code, text);
    let parts = mark_parts(&mark, quality, code, text);
    let update = optional_moment(fields.update);
    // decides: L5: a field isn't what its layout says
    let good = [
        parts.quality.is_some(),
        parts.has_code,
        parts.has_text,
        update.is_some(),
        optional_moment(fields.load).is_some(),
    ];
    let in_values = first_bad(faults, means_values(parts.quality));
    if let Some(number) = least_of(date.is_some(), in_values, least_bad(count + 3, &good)) {
        return Err(FieldFault::Bad(number));
    }
    let Some(mark) = mark else {
        unreachable!();
    };
    Ok(IntervalDataRecord {
        date: date.unwrap(),
        sum: fields.sum,
        mark,
        update: update.unwrap(),
    })
}

/// Splits a 300 record with `count` values into its fields, valid or not, and returns the faults of
/// its values. `None` if there are too few fields, or one past the last isn't empty (L4).
fn split_interval_data<'a>(
    text: &'a [u8],
    count: usize,
    values: &mut IntervalValues,
) -> Option<(DayFields<'a>, ValueFaults)>
    requires { (0 < count) × (count ≤ 288) }
    ensures none { IfNone result (HasWrongCount count text.now) }
    ensures some { IfSome result (λ day. HasDayFields count text.now day.0 day.1) }
    ensures held { OnSome result (values.new ≡ map quantity_in (values_of count text.now)) }
{
    let (_, rest) = next_field(Some(text));
    let (date, rest) = next_field(rest);
    // decides: L4: too few fields, or one past the last that isn't empty
    let day = values.read(rest?, count)?;
    let (quality, rest) = next_field(Some(day.rest));
    let (reason_code, rest) = next_field(rest);
    let (reason_text, rest) = next_field(rest);
    let (update, rest) = next_field(rest);
    let (load, rest) = next_field(rest);
    if !is_blank_from(rest) {
        return None;
    }
    let fields = DayFields {
        date,
        sum: day.sum,
        quality,
        reason_code,
        reason_text,
        update,
        load,
    };
    Some((fields, day.faults))
}

/// The number of the first bad field: the day, one of the values, or one after them (L5).
fn least_of(is_day: bool, in_values: Option<usize>, after: Option<usize>) -> Option<usize>
    ensures { result ≡ (if is_day then or_else in_values after else Some 2) }
{
    // decides: L5: a field isn't what its layout says
    if is_day { in_values.or(after) } else { Some(2) }
}

/// The field number of the first bad value (L5). It isn't a quantity, or it is empty where the
/// quality requires a value.
fn first_bad(faults: ValueFaults, must_be_there: bool) -> Option<usize>
    ensures { result ≡ lesser faults.bad (if must_be_there then faults.empty else None) }
{
    match (faults.bad, faults.empty) {
        (Some(bad), Some(empty)) if must_be_there => Some(bad.min(empty)),
        (None, Some(empty)) if must_be_there => Some(empty),
        (bad, _) => bad,
    }
}

/// Whether a quality means that there are values: A, E, F or S. N and V don't. A text that isn't a
/// quality says nothing about values.
fn means_values(quality: Option<Quality>) -> bool
    ensures { result ≡ has_flag (codes "AEFS") quality }
{
    match quality {
        Some(quality) => matches!(quality.flag(), ACTUAL | ESTIMATED | FINAL | SUBSTITUTED),
        None => false,
    }
}
