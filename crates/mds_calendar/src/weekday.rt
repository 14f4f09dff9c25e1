//! The days of the week.

ghost use Rattle.std.specs.Prelude.{◌≡◌, ◌↔◌, ◌+◌, ◌≤◌, IsTrue};
ghost use Rattle.jiff.specs.Words.{monday_zero as days_after_monday};
ghost use Rattle.mds_calendar.specs.Weekdays.{monday_zero};
ghost use Rattle.mds_calendar.specs.declared.weekday.Weekday.{Weekday as DayOfTheWeek};

use jiff::civil;

/// A weekday.
#[derive(Clone, Copy, Debug, PartialEq, Eq)]
pub enum Weekday {
    Monday,
    Tuesday,
    Wednesday,
    Thursday,
    Friday,
    Saturday,
    Sunday,
}

impl Weekday {
    /// Its number from 1 for Monday to 7 for Sunday, as in ISO 8601.
    pub fn number_from_monday(self) -> u32
        ensures value { result ≡ monday_zero self + 1 }
        ensures range { (1 ≤ result) × (result ≤ 7) }
        ensures equal { (other : DayOfTheWeek) → IsTrue (⟦<Weekday as PartialEq>⟧.eq self other) ↔ (self ≡ other) }
    {
        match self {
            Weekday::Monday => 1,
            Weekday::Tuesday => 2,
            Weekday::Wednesday => 3,
            Weekday::Thursday => 4,
            Weekday::Friday => 5,
            Weekday::Saturday => 6,
            Weekday::Sunday => 7,
        }
    }
}

/// The weekday for one of the calendar library. The library's own type stays out of this crate's public signatures: with it, each
/// crate above would carry the library's contracts.
pub(crate) fn weekday_of(weekday: civil::Weekday) -> Weekday
    ensures { monday_zero result ≡ days_after_monday weekday }
{
    match weekday {
        civil::Weekday::Monday => Weekday::Monday,
        civil::Weekday::Tuesday => Weekday::Tuesday,
        civil::Weekday::Wednesday => Weekday::Wednesday,
        civil::Weekday::Thursday => Weekday::Thursday,
        civil::Weekday::Friday => Weekday::Friday,
        civil::Weekday::Saturday => Weekday::Saturday,
        civil::Weekday::Sunday => Weekday::Sunday,
    }
}
