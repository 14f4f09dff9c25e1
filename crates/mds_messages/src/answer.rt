//! The answers of the machine.

ghost use Rattle.std.specs.Prelude.{◌≡◌, false, Some, None, IfErr, IfOk, MatchOption};
ghost use Rattle.mds_messages.specs.Answers.{TextKind, has_list, has_text, text_of};

use mds_keeper::{Refusal, Version};
use mds_quantity::Unit;
use mds_records::FileFault;
use mds_statements::Period;
use mds_terms::{Day, Details, Event, Length, Moment, Reading, Stream};

/// An answer of the machine.
#[derive(Drop)]
pub enum Answer {
    /// The file is imported. `added` of its versions and accumulations are new, and `known` were there before.
    Imported { added: u64, known: u64 },
    /// The job is done, and fills in `count` intervals.
    Substituted { count: u64 },
    /// The job was done before, and filled in `count` intervals then. Nothing has changed.
    Known { count: u64 },
    /// All the days are listed now. `added` of them are new, and `known` were listed before. A day that comes twice
    /// counts once.
    HolidaysAdded { added: u64, known: u64 },
    Day(DayAnswer),
    Versions(VersionsAnswer),
    Period(PeriodAnswer),
    /// The known streams, in the order of their bytes.
    Streams(Vec<StreamAnswer>),
    /// The register of gaps, a CSV text.
    Gaps(Vec<u8>),
    /// The register of finals, a CSV text.
    Finals(Vec<u8>),
    /// The gaps of all streams, a CSV text.
    Missing(Vec<u8>),
    /// The current readings of a stream, a CSV text.
    Readings(Vec<u8>),
    /// The NEM12 file.
    Exported(Vec<u8>),
    /// The file isn't well formed (L1 to L12). Nothing has changed.
    File(FileFault),
    /// A rule is broken (M1 to M12). Nothing has changed.
    Refused(Refusal),
    /// There is no answer now, as memory or the store failed (U1). Nothing has changed.
    Unavailable,
}

impl Answer {
    /// The text that it is: a register, or a NEM12 file. `None` for an answer that is written as JSON.
    pub fn text(&self) -> Option<&[u8]>
        ensures { MatchOption result (text_of self.now ≡ None) (λ text. (kind : TextKind) × (text_of self.now ≡ Some (kind, text.now))) }
    {
        match self {
            Answer::Gaps(text)
            | Answer::Finals(text)
            | Answer::Missing(text)
            | Answer::Readings(text)
            | Answer::Exported(text) => Some(text),
            _ => None,
        }
    }

    /// The same text without a copy, or the answer itself if it is none.
    pub fn into_text(self) -> Result<Vec<u8>, Answer>
        ensures text { IfOk result (λ text. (kind : TextKind) × (text_of self ≡ Some (kind, text.items))) }
        ensures other { IfErr result (λ other. (other ≡ self) × (has_text other ≡ false)) }
    {
        match self {
            Answer::Gaps(text)
            | Answer::Finals(text)
            | Answer::Missing(text)
            | Answer::Readings(text)
            | Answer::Exported(text) => Ok(text),
            other => Err(other),
        }
    }

    /// Whether it has a list in it. Its JSON text takes memory then.
    pub fn has_list(&self) -> bool
        ensures { result ≡ has_list self.now }
    {
        matches!(
            self,
            Answer::Day(_) | Answer::Versions(_) | Answer::Period(_) | Answer::Streams(_)
        )
    }
}

/// A known day.
#[derive(Drop)]
pub struct DayAnswer {
    pub stream: Stream,
    pub day: Day,
    pub length: Length,
    pub unit: Unit,
    /// The greatest update among the readings.
    pub update: Moment,
    /// The current reading of each interval, in order: bare N if it has none.
    pub readings: Vec<Reading>,
    /// The events of the day, each once, in the order of their texts.
    pub events: Vec<Event>,
}

/// All versions of an interval.
#[derive(Drop)]
pub struct VersionsAnswer {
    pub stream: Stream,
    pub day: Day,
    pub interval: u16,
    /// In ascending order of their updates.
    pub versions: Vec<Version>,
}

/// All accumulations of a stream. There may be none.
#[derive(Drop)]
pub struct PeriodAnswer {
    pub stream: Stream,
    /// Ordered by register, previous read, current read and update.
    pub periods: Vec<Period>,
}

/// A known stream.
#[derive(Drop)]
pub struct StreamAnswer {
    pub stream: Stream,
    /// The details of its last known day, or five empty ones if it has no known day.
    pub details: Details,
}
