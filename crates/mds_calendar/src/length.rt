//! The length of an interval.

ghost use Rattle.std.specs.Ordering.{nat_cmp};
ghost use Rattle.std.specs.Prelude.{◌≡◌, ◌↔◌, ℕ, ◌*◌, length as text_length, pos, unsigned_abs, SomeIff, OnOk, OnErr, Some, None, IsTrue, string_bytes, string_capacity, string_len, decimal, ◌+◌, ◌<◌, ◌≤ℤ◌, ◌++◌};
ghost use Rattle.mds_calendar.specs.Length.{is_length, length_of, count_of};

use std::alloc::AllocError;
use std::marker::Model;

/// The length of an interval: 5, 15 or 30 minutes.
#[derive(Clone, Copy, Debug, PartialEq, Eq, PartialOrd, Ord)]
pub struct Length {
    minutes: u16,
}

impl Model for Length {
    ghost use Rattle.std.specs.Prelude.{ℕ, IsTrue};
    ghost use Rattle.mds_calendar.specs.Length.{is_length};

    ghost Value = { ℕ };

    ghost view = { λ length. length.minutes };

    ghost invariant = { λ length. IsTrue (is_length length.minutes) };

    ghost inverse = { λ minutes. record { minutes = minutes } };
}

impl Length {
    /// The length of this many minutes, if that is 5, 15 or 30.
    pub fn from_minutes(minutes: i64) -> Option<Length>
        ensures { SomeIff result ((pos 0 ≤ℤ minutes) × IsTrue (is_length (unsigned_abs minutes)))
            (unsigned_abs minutes) }
    {
        match minutes {
            5 | 15 | 30 => Some(Length {
                minutes: minutes as u16,
            }),
            _ => None,
        }
    }

    /// Its number of minutes.
    pub fn minutes(self) -> i64
        ensures value { result ≡ pos self }
        ensures known { IsTrue (is_length self) }
        ensures equal { (other : ℕ)
            → IsTrue (⟦<Length as PartialEq>⟧.eq self other) ↔ (self ≡ other) }
        ensures order { (other : ℕ) → ⟦<Length as Ord>⟧.cmp self other ≡ nat_cmp self other }
    {
        i64::from(self.minutes)
    }

    /// How many intervals of this length a day has.
    pub fn count(self) -> usize
        ensures value { result ≡ count_of self }
        ensures whole { result * self ≡ 1440 }
    {
        usize::from(1440 / self.minutes)
    }

    /// Reads a length from its text: `5`, `15` or `30` (MDFF Specification, IntervalLength), or
    /// `05` (profile).
    pub fn read(text: &[u8]) -> Option<Length>
        ensures { result ≡ length_of text.now }
    {
        match text {
            b"5" | b"05" => Some(Length { minutes: 5 }),
            b"15" => Some(Length { minutes: 15 }),
            b"30" => Some(Length { minutes: 30 }),
            _ => None,
        }
    }

    /// Appends its one written text, `5`, `15` or `30`, which reads back (`lengths_read_back`).
    /// After an error nothing is appended.
    pub fn write_to(self, out: &mut String) -> Result<(), AllocError>
        ensures done { OnOk result (string_bytes out.new ≡ string_bytes out.old ++ decimal self) }
        ensures kept { OnErr result (string_bytes out.new ≡ string_bytes out.old) }
        ensures full { OnErr result
            (string_capacity out.old < string_len out.old + text_length (decimal self)) }
    {
        out.push_str(self.text())
    }

    /// Its one written text.
    fn text(self) -> &'static str
        ensures { result.now ≡ decimal self }
    {
        match self.minutes {
            5 => "5",
            15 => "15",
            _ => "30",
        }
    }
}

/// The written text of each length reads back.
pub fn lengths_read_back()
    ensures { (minutes : ℕ)
        → IsTrue (is_length minutes) → length_of (decimal minutes) ≡ Some minutes }
{}
