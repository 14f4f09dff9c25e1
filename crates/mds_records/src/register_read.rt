//! A read of a register, of which a 250 record has two.

ghost use Rattle.std.specs.Prelude.{◌≡◌, ◌+◌, ◌^◌, ◌<◌, ◌&&◌, ◌||◌, ◌==◌, length, drop, Some, None, MatchResult, codes, option_copied, option_map};
ghost use Rattle.mds_lines.specs.Rest.{fields_left};
ghost use Rattle.mds_records.specs.Layouts.{has_flag};
ghost use Rattle.mds_records.specs.RecordSteps.{HasReadFields, first_false, read_tests};
ghost use Rattle.mds_records.specs.Records.{IsRegisterRead};
ghost use Rattle.mds_records.specs.declared.fault.FieldFault.TheVariants.{Bad};

use crate::fault::{FieldFault, first_bad};
use crate::term::{is_single_quality, reason_parts};
use mds_lines::next_field;
use mds_terms::{Moment, PrintableText, Quality, ReasonRef};

/// A read of a register: what it showed, when, and the quality of that with its reason. MDFF
/// Specification, PreviousRegisterRead to PreviousReasonDescription, and CurrentRegisterRead to
/// CurrentReasonDescription.
#[derive(Clone, Copy)]
pub struct RegisterRead<'a> {
    /// What it showed, exactly as in the file, with its zeros. It may be empty.
    pub reading: PrintableText<'a>,
    pub moment: Moment,
    /// Any quality but V. A previous read may have none, a current read must have one.
    pub quality: Option<Quality>,
    pub reason: ReasonRef<'a>,
}

/// The fields of a read, valid or not.
#[derive(Clone, Copy)]
pub(crate) struct ReadFields<'a> {
    reading: &'a [u8],
    moment: &'a [u8],
    quality: &'a [u8],
    reason_code: &'a [u8],
    reason_text: &'a [u8],
}

/// Splits off the fields of a read, valid or not, at the start of the rest of a line. It also
/// returns what is left after them.
pub(crate) fn split_read(rest: Option<&[u8]>) -> (ReadFields<'_>, Option<&[u8]>)
    ensures fields { HasReadFields (fields_left (option_copied rest.entry)) 0 result.0 }
    ensures left { fields_left (option_copied result.1) ≡ drop 5 (fields_left (option_copied rest.entry)) }
{
    let (reading, rest) = next_field(rest);
    let (moment, rest) = next_field(rest);
    let (quality, rest) = next_field(rest);
    let (reason_code, rest) = next_field(rest);
    let (reason_text, rest) = next_field(rest);
    let fields = ReadFields {
        reading,
        moment,
        quality,
        reason_code,
        reason_text,
    };
    (fields, rest)
}

/// Reads the read that these fields spell, or returns which field is the first bad one (L5). The
/// first of them has the number `from`. Only the previous read may lack a quality.
pub(crate) fn read_register<'a>(
    fields: &ReadFields<'a>,
    from: usize,
    may_lack_quality: bool,
) -> Result<RegisterRead<'a>, FieldFault>
    requires { from + 5 < 2 ^ 64 }
    ensures { MatchResult result
        (λ r. (first_false from (read_tests may_lack_quality fields.now) ≡ None)
        × IsRegisterRead fields.now.reading.now fields.now.moment.now fields.now.quality.now
        fields.now.reason_code.now fields.now.reason_text.now r)
        (λ fault. option_map Bad (first_false from (read_tests may_lack_quality fields.now)) ≡ Some fault) }
{
    let reading = PrintableText::read(fields.reading);
    let moment = Moment::read(fields.moment);
    let quality = Quality::read(fields.quality);
    let reason = ReasonRef::read(fields.reason_code, fields.reason_text);
    let parts = reason_parts(&reason, fields.reason_code, fields.reason_text);
    // decides: L5: a field isn't what its layout says
    let good = [
        reading.is_some(),
        moment.is_some(),
        is_read_quality(fields.quality, &quality, may_lack_quality),
        parts.has_code,
        parts.has_text,
    ];
    first_bad(from, &good)?;
    Ok(RegisterRead {
        reading: reading.unwrap(),
        moment: moment.unwrap(),
        quality,
        reason: reason.unwrap(),
    })
}

/// Whether the quality of a read is valid: any but V, or absent if it may be.
fn is_read_quality(text: &[u8], quality: &Option<Quality>, may_lack: bool) -> bool
    ensures { result ≡ ((may_lack && (length text.now == 0)) || has_flag (codes "AEFNS") quality.now) }
{
    (may_lack && text.is_empty()) || is_single_quality(quality)
}
