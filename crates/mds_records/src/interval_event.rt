//! The 400 record, which marks some intervals of the day before it.

ghost use Rattle.std.specs.Prelude.{◌≡◌, ◌==◌, ℕ, false, Some, None, IfOk, MatchResult};
ghost use Rattle.mds_lines.specs.declared.line.Kind.{Kind};
ghost use Rattle.mds_marks.specs.Quality.{variable};
ghost use Rattle.mds_records.specs.declared.header_name.HeaderName.{HeaderName};
ghost use Rattle.mds_records.specs.FieldFaults.{field_fault};
ghost use Rattle.mds_records.specs.RecordSteps.{HasRunFields};
ghost use Rattle.mds_records.specs.Records.{IsIntervalEvent};

use crate::fault::{FieldFault, first_fault, has_right_count};
use crate::term::{is_single_quality, mark_parts};
use mds_lines::next_field;
use mds_marks::interval_number;
use mds_terms::MarkRef;

/// A 400 record: the mark of the intervals from the first to the last, counted from 1.
#[derive(Clone, Copy)]
pub struct IntervalEventRecord<'a> {
    pub first: u16,
    pub last: u16,
    pub mark: MarkRef<'a>,
}

/// The fields of a 400 record, valid or not.
#[derive(Clone, Copy)]
struct RunFields<'a> {
    first: &'a [u8],
    last: &'a [u8],
    quality: &'a [u8],
    reason_code: &'a [u8],
    reason_text: &'a [u8],
    /// Whether there are enough fields, and all past the last are empty (L4).
    is_whole: bool,
}

/// Reads a 400 record, or returns its first fault (L4, L5).
pub fn read_interval_event(text: &[u8]) -> Result<IntervalEventRecord<'_>, FieldFault>
    ensures read { (file : HeaderName) (n : ℕ) → MatchResult result
        (λ r. (field_fault file Kind.IntervalEvent n text.now ≡ None) × IsIntervalEvent text.now r)
        (λ fault. field_fault file Kind.IntervalEvent n text.now ≡ Some fault) }
    ensures marked { IfOk result (λ r. (r.mark.quality.flag == variable) ≡ false) }
{
    let fields = split_run(text);
    let first = interval_number(fields.first);
    let last = interval_number(fields.last);
    let (quality, code, text) = (fields.quality, fields.reason_code, fields.reason_text);
    let mark = MarkRef::read(quality, code, text);
    let parts = mark_parts(&mark, quality, code, text);
    // decides: L5: a field isn't what its layout says
    let good = [
        first.is_some(),
        last.is_some(),
        is_single_quality(&parts.quality),
        parts.has_code,
        parts.has_text,
    ];
    first_fault(false, fields.is_whole, &good)?;
    let Some(mark) = mark else {
        unreachable!();
    };
    Ok(IntervalEventRecord {
        first: first.unwrap(),
        last: last.unwrap(),
        mark,
    })
}

/// The fields of a 400 record, valid or not.
fn split_run(text: &[u8]) -> RunFields<'_>
    ensures { HasRunFields text.now result }
{
    let (_, rest) = next_field(Some(text));
    let (first, rest) = next_field(rest);
    let (last, rest) = next_field(rest);
    let has_least = rest.is_some();
    let (quality, rest) = next_field(rest);
    let (reason_code, rest) = next_field(rest);
    let (reason_text, rest) = next_field(rest);
    RunFields {
        first,
        last,
        quality,
        reason_code,
        reason_text,
        is_whole: has_right_count(has_least, rest),
    }
}
