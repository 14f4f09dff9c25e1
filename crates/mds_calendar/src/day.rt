//! A day of market time.

ghost use Rattle.std.specs.Prelude.{codes, ◌≡◌, ◌↔◌, ℕ, ◌+◌, ◌-◌, ◌/◌, ◌%◌, ◌<◌, ◌≤◌, if◌then◌else◌, IfSome, IsTrue, List, set, length, pos, unsigned_abs, ◌≤ℤ◌, SomeIff, OnOk, OnErr, Some, None, string_bytes, string_capacity, string_len, ◌++◌};
ghost use Rattle.std.specs.Ordering.{nat_cmp};
ghost use Rattle.mds_calendar.specs.Calendar.{is_date, day_number, day_of, last_day, weekday_of};
ghost use Rattle.mds_calendar.specs.CalendarSteps.{digit};
ghost use Rattle.jiff.specs.Words.{epoch_day};
ghost use Rattle.mds_calendar.specs.Weekdays.{monday_zero};
ghost use Rattle.mds_calendar.specs.declared.weekday.Weekday.TheVariants.{Thursday};
ghost use Rattle.std.specs.Char.{is_ascii_digit};
ghost use Rattle.std.specs.List.{list_all};
ghost use Rattle.std.specs.Str.Parse.{digits_value};

use crate::weekday::{Weekday, weekday_of as own_weekday};
use jiff::civil::{self, Date};
use std::alloc::AllocError;
use std::marker::Model;
use std::str;
use std::time::Duration;

/// A day from 1 January 1970 to 31 December 9999, by its number from 0.
#[derive(Clone, Copy, Debug, PartialEq, Eq, PartialOrd, Ord)]
pub struct Day {
    number: u32,
}

impl Model for Day {
    ghost use Rattle.std.specs.Prelude.{ℕ, ◌≤◌};
    ghost use Rattle.mds_calendar.specs.Calendar.{last_day};

    ghost Value = { ℕ };

    ghost view = { λ day. day.number };

    ghost invariant = { λ day. day.number ≤ last_day };

    ghost inverse = { λ number. record { number = number } };
}

/// The number of 31 December 9999.
const LAST: u32 = 2_932_896;

/// The year of the first day.
const FIRST_YEAR: u32 = 1970;

/// The hours of a day.
const HOURS: i64 = 24;

/// The seconds of a day.
const SECONDS: u64 = 86_400;

impl Day {
    /// The day of a number, from 0 for 1 January 1970 to 2,932,896 for 31 December 9999.
    pub fn from_number(number: i64) -> Option<Day>
        ensures { SomeIff result ((pos 0 ≤ℤ number) × (number ≤ℤ pos last_day))
            (unsigned_abs number) }
    {
        if (0..=i64::from(LAST)).contains(&number) {
            Some(Day {
                number: number as u32,
            })
        } else {
            None
        }
    }

    /// Its number: the days from 1 January 1970.
    pub fn number(self) -> i64
        ensures value { result ≡ pos self }
        ensures last { self ≤ last_day }
        ensures equal { (other : ℕ) → IsTrue (⟦<Day as PartialEq>⟧.eq self other) ↔ (self ≡ other) }
        ensures order { (other : ℕ) → ⟦<Day as Ord>⟧.cmp self other ≡ nat_cmp self other }
    {
        i64::from(self.number)
    }

    /// Its weekday.
    pub fn weekday(self) -> Weekday
        ensures { monday_zero result ≡ weekday_of self }
    {
        own_weekday(self.date().weekday())
    }

    /// The day `days` days earlier, or `None` if that is before 1 January 1970.
    pub fn back(self, days: u32) -> Option<Day>
        ensures { SomeIff result (days ≤ self) (self - days) }
    {
        if days > self.number {
            return None;
        }
        let number = self.number - days;
        Some(Day { number })
    }

    /// The next day, or `None` after 31 December 9999.
    pub fn next(self) -> Option<Day>
        ensures { SomeIff result (self + 1 ≤ last_day) (self + 1) }
    {
        if self.number >= LAST {
            return None;
        }
        let number = self.number + 1;
        Some(Day { number })
    }

    /// Reads a day from its text, CCYYMMDD (MDFF Specification, Date(8)). `None` if the calendar
    /// has no such day, or if it is before 1970.
    pub fn read(text: &[u8]) -> Option<Day>
        ensures { result ≡ day_of text.now }
    {
        if text.len() != 8 {
            return None;
        }
        let year = number_in(&text[..4])?;
        let month = number_in(&text[4..6])?;
        let day = number_in(&text[6..8])?;
        let number = number_of(year, month, day)?;
        Some(Day { number })
    }

    /// Appends its one text, CCYYMMDD, which reads back (`one_day_text`). After an error nothing is
    /// appended.
    pub fn write_to(self, out: &mut String) -> Result<(), AllocError>
        ensures done { OnOk result ((text : List ℕ) × (day_of text ≡ Some self)
            × (string_bytes out.new ≡ string_bytes out.old ++ text)) }
        ensures kept { OnErr result (string_bytes out.new ≡ string_bytes out.old) }
        ensures full { OnErr result (string_capacity out.old < string_len out.old + 8) }
    {
        out.push_str(str::from_utf8(&self.digits()).unwrap())
    }

    /// The digits of its text, CCYYMMDD.
    pub fn digits(self) -> [u8; 8]
        ensures { day_of result ≡ Some self }
    {
        let date = self.date();
        let year = date.year().unsigned_abs();
        let mut digits = [b'0'; 8];
        write_pair(&mut digits, 0, (year / 100) as u8);
        write_pair(&mut digits, 2, (year % 100) as u8);
        write_pair(&mut digits, 4, date.month() as u8);
        write_pair(&mut digits, 6, date.day() as u8);
        digits
    }

    /// Its year, month and day.
    fn date(self) -> Date
        ensures { epoch_day result ≡ pos self }
    {
        first_date() + Duration::from_secs(u64::from(self.number) * SECONDS)
    }
}

/// The numbers of the first and the last day: 1 January 1970 and 31 December 9999.
pub fn first_and_last_day()
    ensures first { day_of (codes "19700101") ≡ Some 0 }
    ensures last { day_of (codes "99991231") ≡ Some last_day }
{}

/// A day has one text: two that read as the same day are the same.
pub fn one_day_text()
    ensures { (a b : List ℕ) (day : ℕ) → day_of a ≡ Some day → day_of b ≡ Some day → a ≡ b }
{}

/// The laws of weekdays. Day 0, 1 January 1970, is a Thursday. Each day has the weekday after that
/// of the day before. After a week the weekday repeats.
pub fn weekdays_go_on()
    ensures first { weekday_of 0 ≡ monday_zero Thursday }
    ensures next { (day : ℕ) → weekday_of (day + 1) ≡ (weekday_of day + 1) % 7 }
    ensures week { (day : ℕ) → weekday_of (day + 7) ≡ weekday_of day }
{}

/// The number of a date, if the calendar has it and it is in 1970 or later.
fn number_of(year: u32, month: u32, day: u32) -> Option<u32>
    requires year { year < 10_000 }
    requires month { month < 100 }
    requires day { day < 100 }
    ensures value { result ≡ (if is_date year month day
        then Some (day_number year month day) else None) }
    ensures last { IfSome result (λ n. n ≤ last_day) }
{
    if year < FIRST_YEAR {
        return None;
    }
    let Ok(date) = Date::new(year as i16, month as i8, day as i8) else {
        return None;
    };
    Some(days_to(date) as u32)
}

/// The days from 1 January 1970 to a date.
fn days_to(date: Date) -> i64
    ensures { result ≡ epoch_day date }
{
    date.duration_since(first_date()).as_hours() / HOURS
}

/// 1 January 1970.
fn first_date() -> Date
    ensures { epoch_day result ≡ pos 0 }
{
    civil::date(1970, 1, 1)
}

/// The number spelled by the digits, or `None` if some byte isn't a digit.
pub(crate) fn number_in(text: &[u8]) -> Option<u32>
    requires { length text.now ≤ 4 }
    ensures value { result ≡ (if list_all is_ascii_digit text.now
        then Some (digits_value 10 text.now) else None) }
    ensures two { length text.now ≡ 2 → IfSome result (λ n. n < 100) }
    ensures four { IfSome result (λ n. n < 10_000) }
{
    let mut number = 0;
    for byte in text {
        if !byte.is_ascii_digit() {
            return None;
        }
        number = number * 10 + u32::from(*byte - b'0');
    }
    Some(number)
}

/// Writes a number below 100 as two digits at a place.
pub(crate) fn write_pair(digits: &mut [u8], at: usize, number: u8)
    requires fits { at + 2 ≤ length digits.old }
    requires below { number < 100 }
    ensures { digits.new
        ≡ set (set digits.old at (digit (number / 10))) (at + 1) (digit (number % 10)) }
{
    digits[at] = b'0' + number / 10;
    digits[at + 1] = b'0' + number % 10;
}
