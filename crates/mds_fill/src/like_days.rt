//! The days whose values may replace those of another.

ghost use Rattle.std.specs.Prelude.{◌≡◌, ◌≢◌, ◌+◌, ◌*◌, ◌<◌, ◌≤◌, ◌≤ℤ◌, pos, ℕ, slice_get, Option, Some, IfSome, IfNone};
ghost use Rattle.std.specs.Bool.{MatchBool};
ghost use Rattle.mds_calendar.specs.Calendar.{weekday_of};
ghost use Rattle.mds_world.specs.Lists.{Member};
ghost use Rattle.mds_fill.specs.Candidates.{IsCandidate, IsSunday};

use mds_terms::Day;

/// The candidates of a day, nearest first. Those of a holiday are the four Sundays before it. Those of any other day are
/// the same weekday in the four weeks before, without holidays. A day that is left out, or would be before 1970, is
/// `None`. Takes no memory.
pub fn candidates(day: Day, holidays: &[Day]) -> [Option<Day>; 4]
    ensures each { (place : ℕ) (slot : Option ℕ) → slice_get result place ≡ Some slot
        → IfSome slot (IsCandidate (λ holiday. Member holiday holidays.now) day place) }
    ensures none { (place : ℕ) (slot : Option ℕ) → slice_get result place ≡ Some slot
        → IfNone slot ((found : ℕ) → IsCandidate (λ holiday. Member holiday holidays.now) day place found → ⊥) }
{
    let of_holiday = is_listed(day, holidays);
    [
        candidate(day, of_holiday, 0, holidays),
        candidate(day, of_holiday, 1, holidays),
        candidate(day, of_holiday, 2, holidays),
        candidate(day, of_holiday, 3, holidays),
    ]
}

/// The candidate at a position.
fn candidate(day: Day, of_holiday: bool, place: u32, holidays: &[Day]) -> Option<Day>
    requires few { place < 4 }
    requires listed { MatchBool of_holiday (Member day holidays.now) (Member day holidays.now → ⊥) }
    ensures some { IfSome result (IsCandidate (λ holiday. Member holiday holidays.now) day place) }
    ensures none { IfNone result
        ((found : ℕ) → IsCandidate (λ holiday. Member holiday holidays.now) day place found → ⊥) }
{
    // decides: which days are like days?
    if of_holiday {
        return sunday_before(day, place);
    }
    let found = day.back(7 * place + 7)?;
    if is_listed(found, holidays) {
        return None;
    }
    Some(found)
}

/// The Sunday at a position among those before a day, nearest first.
fn sunday_before(day: Day, place: u32) -> Option<Day>
    requires few { place < 4 }
    ensures some { IfSome result (λ sunday. IsSunday sunday × (sunday + 7 * place < day) × (day ≤ sunday + 7 * place + 7)) }
    ensures none { IfNone result ((sunday : ℕ) → IsSunday sunday → sunday + 7 * place < day
        → day ≤ sunday + 7 * place + 7 → ⊥) }
{
    day.back(days_since_sunday(day) + 7 * place)
}

/// How many days the nearest Sunday is before a day: from 1 for a Monday to 7 for a Sunday.
fn days_since_sunday(day: Day) -> u32
    ensures value { result ≡ weekday_of day + 1 }
    ensures week { result ≤ 7 }
{
    day.weekday().number_from_monday()
}

/// Whether a day is one of these.
fn is_listed(day: Day, days: &[Day]) -> bool
    ensures { MatchBool result (Member day days.now) (Member day days.now → ⊥) }
{
    days.iter().any(|other| other.number() == day.number())
}
