//! The terms that several kinds of records share.

ghost use Rattle.std.specs.Prelude.{◌≡◌, Some, None, codes, is_some, option_map};
ghost use Rattle.mds_calendar.specs.Calendar.{day_of, moment_of};
ghost use Rattle.mds_marks.specs.BorrowedMarks.{mark_value, reason_value};
ghost use Rattle.mds_marks.specs.Mark.{mark_of};
ghost use Rattle.mds_marks.specs.Quality.{quality_of};
ghost use Rattle.mds_marks.specs.Reason.{code_of, is_reason_text, reason_of};
ghost use Rattle.mds_records.specs.Layouts.{has_flag};
ghost use Rattle.mds_terms.specs.Event.{letter_of};
ghost use Rattle.mds_terms.specs.Parts.{optional};

use mds_marks::flags::{ACTUAL, ESTIMATED, FINAL, NULL, SUBSTITUTED};
use mds_terms::{Day, MarkRef, Moment, Quality, ReasonRef, TransCode};

/// Which fields of a mark are valid.
#[derive(Clone, Copy)]
pub(crate) struct MarkParts {
    /// The quality, if its field is valid.
    pub quality: Option<Quality>,
    /// Whether the field of the reason's code is valid.
    pub has_code: bool,
    /// Whether the field of the reason's text is valid.
    pub has_text: bool,
}

/// Which of the fields that a mark was read from are valid. They are read again only if there is no
/// mark.
pub(crate) fn mark_parts(
    mark: &Option<MarkRef<'_>>,
    quality: &[u8],
    code: &[u8],
    text: &[u8],
) -> MarkParts
    requires { option_map mark_value mark.now ≡ mark_of quality.now code.now text.now }
    ensures quality { result.quality ≡ quality_of quality.now }
    ensures code { result.has_code ≡ is_some (code_of code.now) }
    ensures text { result.has_text ≡ is_reason_text text.now }
{
    match mark {
        Some(mark) => MarkParts {
            quality: Some(mark.quality),
            has_code: true,
            has_text: true,
        },
        None => MarkParts {
            quality: Quality::read(quality),
            has_code: is_code(code),
            has_text: is_text(text),
        },
    }
}

/// Which fields of a reason are valid.
#[derive(Clone, Copy)]
pub(crate) struct ReasonParts {
    /// Whether the field of the code is valid.
    pub has_code: bool,
    /// Whether the field of the text is valid.
    pub has_text: bool,
}

/// Which of the fields that a reason was read from are valid. They are read again only if there is
/// no reason.
pub(crate) fn reason_parts(reason: &Option<ReasonRef<'_>>, code: &[u8], text: &[u8]) -> ReasonParts
    requires { option_map reason_value reason.now ≡ reason_of code.now text.now }
    ensures code { result.has_code ≡ is_some (code_of code.now) }
    ensures text { result.has_text ≡ is_reason_text text.now }
{
    match reason {
        Some(_) => ReasonParts {
            has_code: true,
            has_text: true,
        },
        None => ReasonParts {
            has_code: is_code(code),
            has_text: is_text(text),
        },
    }
}

/// Whether a text is empty or the code of a reason.
#[cold]
#[inline(never)]
fn is_code(code: &[u8]) -> bool
    ensures { result ≡ is_some (code_of code.now) }
{
    ReasonRef::read(code, b"").is_some()
}

/// Whether a text is empty or the text of a reason.
#[cold]
#[inline(never)]
fn is_text(text: &[u8]) -> bool
    ensures { result ≡ is_reason_text text.now }
{
    ReasonRef::read(b"", text).is_some()
}

/// Whether there is a quality of a run or of a read: any but V.
pub(crate) fn is_single_quality(quality: &Option<Quality>) -> bool
    ensures { result ≡ has_flag (codes "AEFNS") quality.now }
{
    match quality {
        Some(quality) => matches!(
            quality.flag(),
            ACTUAL | ESTIMATED | FINAL | NULL | SUBSTITUTED
        ),
        None => false,
    }
}

/// Reads a day that may be absent: the empty text is an absent day.
pub(crate) fn optional_day(text: &[u8]) -> Option<Option<Day>>
    ensures { result ≡ optional day_of text.now }
{
    if text.is_empty() {
        return Some(None);
    }
    Some(Some(Day::read(text)?))
}

/// Reads a moment that may be absent: the empty text is an absent moment.
pub(crate) fn optional_moment(text: &[u8]) -> Option<Option<Moment>>
    ensures { result ≡ optional moment_of text.now }
{
    if text.is_empty() {
        return Some(None);
    }
    Some(Some(Moment::read(text)?))
}

/// Reads a transaction code that may be absent: the empty text is an absent code.
pub(crate) fn optional_trans(text: &[u8]) -> Option<Option<TransCode>>
    ensures { result ≡ optional letter_of text.now }
{
    if text.is_empty() {
        return Some(None);
    }
    Some(Some(TransCode::read(text)?))
}
