//! Why the machine refuses a request.

ghost use Rattle.std.specs.Prelude.{◌≡◌, ◌↔◌, IsTrue, Some};
ghost use Rattle.mds_keeper.specs.Refusals.{code_text, refusal_text};

use std::fmt;

/// The rule that is broken, or what is missing. Each is printed as its code.
#[derive(Clone, Copy, Debug, PartialEq, Eq)]
pub enum RefusalCode {
    /// M1: a day has another length of intervals.
    LengthConflict,
    /// M2: a day has another unit.
    UnitConflict,
    /// M3: an interval has another reading under the same update.
    VersionConflict,
    /// M4: another substitution job has the id.
    JobReused,
    /// M5: an interval to be filled in has an actual or a final reading.
    Protected,
    /// M6: an interval to be filled in has a version that isn't older.
    StaleUpdate,
    /// M7: no like day has the values that are needed.
    NoLikeDay,
    /// M8: interpolation would fill in more than two hours.
    TooLong,
    /// M9: a value next to the gap is missing for the interpolation.
    NoAnchor,
    /// M10: the day isn't known, or it has no such interval.
    UnknownDay,
    /// M11: no store can do the substitution job.
    BadJob,
    /// M12: a range has more than 400 days, or an export more than eight suffixes.
    RangeTooWide,
}

impl RefusalCode {
    ghost use Rattle.mds_keeper.specs.declared.refusal.RefusalCode.{RefusalCode as ARefusalCode};

    /// A law: `==` says whether two codes are the same.
    pub fn one_equality()
        ensures { (a b : ARefusalCode) → IsTrue (⟦<RefusalCode as PartialEq>⟧.eq a b) ↔ (a ≡ b) }
    {}

    /// Its code, such as `M3`.
    pub fn text(self) -> &'static str
        ensures { result.now ≡ code_text self }
    {
        match self {
            RefusalCode::LengthConflict => "M1",
            RefusalCode::UnitConflict => "M2",
            RefusalCode::VersionConflict => "M3",
            RefusalCode::JobReused => "M4",
            RefusalCode::Protected => "M5",
            RefusalCode::StaleUpdate => "M6",
            RefusalCode::NoLikeDay => "M7",
            RefusalCode::TooLong => "M8",
            RefusalCode::NoAnchor => "M9",
            RefusalCode::UnknownDay => "M10",
            RefusalCode::BadJob => "M11",
            RefusalCode::RangeTooWide => "M12",
        }
    }
}

impl fmt::Display for RefusalCode {
    ghost output = { λ code. Some (code_text code) };

    fn fmt<W: fmt::Write>(&self, f: &mut fmt::Formatter<W>) -> fmt::Result {
        f.write_str(self.text())
    }
}

/// A refusal, and where it is. A number that doesn't apply is 0.
#[derive(Clone, Copy, Debug, PartialEq, Eq)]
pub struct Refusal {
    pub code: RefusalCode,
    /// The line of the file, from 1.
    pub line: u64,
    /// The field of the line, from 1.
    pub field: u64,
    /// The interval, from 1.
    pub interval: u16,
}

impl Refusal {
    ghost use Rattle.mds_keeper.specs.declared.refusal.Refusal.{Refusal as ARefusal};

    /// A law: `==` says whether two refusals are the same.
    pub fn one_equality()
        ensures { (a b : ARefusal) → IsTrue (⟦<Refusal as PartialEq>⟧.eq a b) ↔ (a ≡ b) }
    {}

    /// A refusal of a request as a whole.
    pub const fn of_request(code: RefusalCode) -> Refusal
        ensures { result ≡ record { code = code; line = 0; field = 0; interval = 0 } }
    {
        Refusal {
            code,
            line: 0,
            field: 0,
            interval: 0,
        }
    }

    /// A refusal of a line, not of one of its intervals.
    pub const fn at_line(code: RefusalCode, line: u64) -> Refusal
        ensures { result ≡ record { code = code; line = line; field = 0; interval = 0 } }
    {
        Refusal {
            code,
            line,
            field: 0,
            interval: 0,
        }
    }

    /// A refusal at an interval that no line states.
    pub const fn at_interval(code: RefusalCode, interval: u16) -> Refusal
        ensures { result ≡ record { code = code; line = 0; field = 0; interval = interval } }
    {
        Refusal {
            code,
            line: 0,
            field: 0,
            interval,
        }
    }

    /// A refusal of a line at one of its intervals.
    pub const fn at_place(code: RefusalCode, line: u64, interval: u16) -> Refusal
        ensures { result ≡ record { code = code; line = line; field = 0; interval = interval } }
    {
        Refusal {
            code,
            line,
            field: 0,
            interval,
        }
    }
}

impl fmt::Display for Refusal {
    ghost output = { λ refusal. Some (refusal_text refusal) };

    fn fmt<W: fmt::Write>(&self, f: &mut fmt::Formatter<W>) -> fmt::Result {
        f.write_str(self.code.text())?;
        if self.line != 0 {
            write!(f, " line {}", self.line)?;
        }
        if self.field != 0 {
            write!(f, " field {}", self.field)?;
        }
        if self.interval != 0 {
            write!(f, " interval {}", self.interval)?;
        }
        Ok(())
    }
}
