//! The first fault of a record's fields.

ghost use Rattle.std.specs.Prelude.{◌≡◌, ◌+◌, ◌^◌, ◌<◌, ◌&&◌, Some, None, MatchResult, length, option_copied, option_map};
ghost use Rattle.mds_lines.specs.Rest.{fields_left, are_blank};
ghost use Rattle.mds_records.specs.RecordSteps.{first_false, outcome};
ghost use Rattle.mds_records.specs.declared.fault.FieldFault.TheVariants.{Bad};

use mds_lines::is_blank_from;

/// Why the fields of a line don't form a record: the first of these that applies.
#[derive(Clone, Copy, Debug)]
pub enum FieldFault {
    /// The header is that of the other kind of file (L11).
    WrongFile,
    /// There are too few fields, or a field past the last isn't empty (L4).
    Count,
    /// The field with this number, from 1, is the first that isn't what the layout says (L5).
    Bad(usize),
}

/// The first fault of a line. It is that of the other kind of file (L11), or else a wrong number of
/// fields (L4). Or else one of its fields from field 2 on isn't valid, and the first such field is
/// named (L5).
pub(crate) fn first_fault(is_other: bool, is_whole: bool, good: &[bool]) -> Result<(), FieldFault>
    requires { 2 + length good.now < 2 ^ 64 }
    ensures { MatchResult result (λ _. outcome is_other is_whole (first_false 2 good.now) ≡ None)
        (λ fault. outcome is_other is_whole (first_false 2 good.now) ≡ Some fault) }
{
    if is_other {
        return Err(FieldFault::WrongFile);
    }
    if !is_whole {
        return Err(FieldFault::Count);
    }
    first_bad(2, good)
}

/// The fault of fields that are numbered from `from` on. It names the first that isn't valid (L5).
pub(crate) fn first_bad(from: usize, good: &[bool]) -> Result<(), FieldFault>
    requires { from + length good.now < 2 ^ 64 }
    ensures { MatchResult result (λ _. first_false from good.now ≡ None)
        (λ fault. option_map Bad (first_false from good.now) ≡ Some fault) }
{
    match least_bad(from, good) {
        Some(number) => Err(FieldFault::Bad(number)),
        None => Ok(()),
    }
}

/// The number of the first field that isn't valid, where these fields are numbered from `from` on.
pub(crate) fn least_bad(from: usize, good: &[bool]) -> Option<usize>
    requires { from + length good.now < 2 ^ 64 }
    ensures { result ≡ first_false from good.now }
{
    // decides: L5: a field isn't what its layout says
    for (i, is_good) in good.iter().enumerate() {
        if !*is_good {
            return Some(from + i);
        }
    }
    None
}

/// Whether a line has its least number of fields, and any fields after the layout's are empty (L4).
pub(crate) fn has_right_count(has_least: bool, rest: Option<&[u8]>) -> bool
    ensures { result ≡ (has_least && are_blank (fields_left (option_copied rest.entry))) }
{
    // decides: L4: too few fields, or one past the last that isn't empty
    has_least && is_blank_from(rest)
}
