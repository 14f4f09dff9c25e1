//! Ranges of days, first day to last day, both included.

ghost use Rattle.std.specs.Prelude.{◌↔◌, IsTrue};
ghost use Rattle.mds_ranges.specs.Ranges.{IsTooWide};

use mds_terms::Day;

/// A range is too wide if its last day is at least this many days after its first.
const MOST_BETWEEN: i64 = 400;

/// Whether a range has more than 400 days.
pub fn is_too_wide(first: Day, last: Day) -> bool
    ensures { IsTrue result ↔ IsTooWide first last }
{
    // decides: M12: more than 400 days
    last.number() - first.number() >= MOST_BETWEEN
}
