//! A moment of market time.

ghost use Rattle.std.specs.Prelude.{◌≡◌, ◌↔◌, IsTrue, ℕ, ◌*◌, ◌+◌, ◌<◌, List, pos, unsigned_abs, ◌≤ℤ◌, ◌<ℤ◌, SomeIff, OnOk, OnErr, Some, None, string_bytes, string_capacity, string_len, ◌++◌};
ghost use Rattle.std.specs.Ordering.{nat_cmp};
ghost use Rattle.mds_calendar.specs.Calendar.{moment_of, date_time_of, last_day, day_seconds};

use crate::day::{Day, number_in, write_pair};
use std::alloc::AllocError;
use std::marker::Model;
use std::str;

/// A moment, in seconds from the midnight that begins 1 January 1970. The greatest is the last
/// second of 31 December 9999.
#[derive(Clone, Copy, Debug, PartialEq, Eq, PartialOrd, Ord)]
pub struct Moment {
    seconds: u64,
}

impl Model for Moment {
    ghost use Rattle.std.specs.Prelude.{ℕ, ◌<◌, ◌+◌, ◌*◌};
    ghost use Rattle.mds_calendar.specs.Calendar.{last_day, day_seconds};

    ghost Value = { ℕ };

    ghost view = { λ moment. moment.seconds };

    ghost invariant = { λ moment. moment.seconds < (last_day + 1) * day_seconds };

    ghost inverse = { λ seconds. record { seconds = seconds } };
}

/// The seconds of a day.
const DAY: u64 = 86_400;

/// The seconds from 1970 to the end of 9999.
const END: i64 = 2_932_897 * 86_400;

impl Moment {
    /// The moment this many seconds after the midnight that begins 1 January 1970, up to the end of
    /// 9999.
    pub fn from_seconds(seconds: i64) -> Option<Moment>
        ensures { SomeIff result
            ((pos 0 ≤ℤ seconds) × (seconds <ℤ pos ((last_day + 1) * day_seconds)))
            (unsigned_abs seconds) }
    {
        if (0..END).contains(&seconds) {
            Some(Moment {
                seconds: seconds as u64,
            })
        } else {
            None
        }
    }

    /// Its seconds from the midnight that begins 1 January 1970.
    pub fn seconds(self) -> i64
        ensures value { result ≡ pos self }
        ensures last { self < (last_day + 1) * day_seconds }
        ensures equal { (other : ℕ)
            → IsTrue (⟦<Moment as PartialEq>⟧.eq self other) ↔ (self ≡ other) }
        ensures order { (other : ℕ) → ⟦<Moment as Ord>⟧.cmp self other ≡ nat_cmp self other }
    {
        self.seconds as i64
    }

    /// Reads a moment from its text, CCYYMMDDhhmmss (MDFF Specification, DateTime(14)). `None` if
    /// the calendar has no such day from 1970 on, or the day has no such time.
    pub fn read(text: &[u8]) -> Option<Moment>
        ensures { result ≡ moment_of text.now }
    {
        if text.len() != 14 {
            return None;
        }
        let day = Day::read(&text[..8])?;
        let hour = number_in(&text[8..10])?;
        let minute = number_in(&text[10..12])?;
        let second = number_in(&text[12..14])?;
        if hour > 23 || minute > 59 || second > 59 {
            return None;
        }
        let seconds = u64::from(hour * 3600 + minute * 60 + second);
        Some(Moment {
            seconds: day.number() as u64 * DAY + seconds,
        })
    }

    /// Reads the DateTime of a 100 record (MDFF Specification): CCYYMMDDhhmmss, or CCYYMMDDhhmm
    /// with seconds 00.
    pub fn read_date_time(text: &[u8]) -> Option<Moment>
        ensures { result ≡ date_time_of text.now }
    {
        if text.len() != 12 {
            return Moment::read(text);
        }
        let mut digits = [b'0'; 14];
        digits[..12].copy_from_slice(text);
        Moment::read(&digits)
    }

    /// Appends its one text of 14 digits, CCYYMMDDhhmmss, which reads back (`one_moment_text`).
    /// After an error nothing is appended.
    pub fn write_to(self, out: &mut String) -> Result<(), AllocError>
        ensures done { OnOk result ((text : List ℕ) × (moment_of text ≡ Some self)
            × (string_bytes out.new ≡ string_bytes out.old ++ text)) }
        ensures kept { OnErr result (string_bytes out.new ≡ string_bytes out.old) }
        ensures full { OnErr result (string_capacity out.old < string_len out.old + 14) }
    {
        out.push_str(str::from_utf8(&self.digits()).unwrap())
    }

    /// The digits of its text, CCYYMMDDhhmmss.
    pub fn digits(self) -> [u8; 14]
        ensures { moment_of result ≡ Some self }
    {
        let day = Day::from_number((self.seconds / DAY) as i64).unwrap();
        let seconds = (self.seconds % DAY) as u32;
        let mut digits = [b'0'; 14];
        write_pair(&mut digits, 8, (seconds / 3600) as u8);
        write_pair(&mut digits, 10, (seconds / 60 % 60) as u8);
        write_pair(&mut digits, 12, (seconds % 60) as u8);
        digits[..8].copy_from_slice(&day.digits());
        digits
    }
}

/// A moment has one text of 14 digits: two that read as the same moment are the same.
pub fn one_moment_text()
    ensures { (a b : List ℕ) (moment : ℕ)
        → moment_of a ≡ Some moment → moment_of b ≡ Some moment → a ≡ b }
{}
