//! A substitution job.

ghost use Rattle.std.specs.Prelude.{◌≡◌, ◌↔◌, IsTrue, IfOk, OnErr, ◌<◌, length as text_length};
ghost use Rattle.std.specs.Bool.{MatchBool};
ghost use Rattle.mds_world.specs.Lists.{Member};
ghost use Rattle.mds_jobs.specs.Jobs.{HasPlaceOf, IsBad, content_of, flags, job_of_parts};

use crate::job_id::JobId;
use crate::method::Method;
use mds_marks::flags::{ESTIMATED, FINAL, SUBSTITUTED};
use mds_quantity::Unit;
use mds_terms::{Day, Length, Moment, Reason, Stream};
use std::alloc::AllocError;

/// The intervals to fill in: `first` to `last`, counted from 1, of a day of a stream. They have this length and unit.
#[derive(Drop)]
pub struct Job {
    pub id: JobId,
    pub stream: Stream,
    pub day: Day,
    pub first: u16,
    pub last: u16,
    pub length: Length,
    pub unit: Unit,
    /// The code of its method ([`Method`]). A job with any other code is bad.
    pub method: u8,
    /// The quality flag of what is filled in: E, F or S (`mds_marks::flags`). A job with any other byte is bad.
    pub flag: u8,
    pub reason: Reason,
    /// The update of the new readings.
    pub update: Moment,
}

/// The intervals that a job fills: a part of a [`Job`].
#[derive(Clone, Copy)]
pub struct JobPlace {
    pub stream: Stream,
    pub day: Day,
    pub first: u16,
    pub last: u16,
}

/// How a job fills them, except for the reason: a part of a [`Job`].
#[derive(Clone, Copy)]
pub struct JobManner {
    pub length: Length,
    pub unit: Unit,
    pub method: u8,
    pub flag: u8,
    pub update: Moment,
}

impl Job {
    /// The job of these parts, which may be bad.
    pub fn new(id: JobId, place: JobPlace, manner: JobManner, reason: Reason) -> Job
        ensures { result ≡ job_of_parts id place manner reason }
    {
        Job {
            id,
            stream: place.stream,
            day: place.day,
            first: place.first,
            last: place.last,
            length: manner.length,
            unit: manner.unit,
            method: manner.method,
            flag: manner.flag,
            reason,
            update: manner.update,
        }
    }

    /// Whether no store can do it (M11). Either its intervals aren't those of a day: `first` is 0, or `last` is below
    /// `first` or above the count of the length. Or it has no [`Method`], or its flag isn't E, F or S.
    pub fn is_bad(&self) -> bool
        ensures { MatchBool result (IsBad (content_of self.now)) (IsBad (content_of self.now) → ⊥) }
    {
        // decides: check 1 of a job, M11: the job is bad
        let is_within = self.first >= 1
            && self.first <= self.last
            && usize::from(self.last) <= self.length.count();
        !is_within || Method::of_code(self.method).is_none() || !is_flag(self.flag)
    }

    /// Whether both are the same in all their parts.
    pub fn is_same(&self, other: &Job) -> bool
        ensures { IsTrue result ↔ (self.now ≡ other.now) }
    {
        self.id.text() == other.id.text()
            && self.has_place_of(other)
            && self.length == other.length
            && self.unit == other.unit
            && self.method == other.method
            && self.flag == other.flag
            && self.reason.is_same(&other.reason)
            && self.update == other.update
    }

    /// Whether both fill the same intervals.
    fn has_place_of(&self, other: &Job) -> bool
        ensures { IsTrue result ↔ HasPlaceOf self.now other.now }
    {
        self.stream == other.stream
            && self.day == other.day
            && self.first == other.first
            && self.last == other.last
    }

    /// A copy of it. An empty reason's text takes no memory.
    pub fn try_clone(&self) -> Result<Job, AllocError>
        ensures value { IfOk result (λ job. job ≡ self.now) }
        ensures only { OnErr result (0 < text_length self.now.reason.text) }
    {
        let reason = self.reason.try_clone()?;
        Ok(Job {
            id: self.id,
            stream: self.stream,
            day: self.day,
            first: self.first,
            last: self.last,
            length: self.length,
            unit: self.unit,
            method: self.method,
            flag: self.flag,
            reason,
            update: self.update,
        })
    }
}

/// Whether a job may have a flag.
fn is_flag(flag: u8) -> bool
    ensures { MatchBool result (Member flag flags) (Member flag flags → ⊥) }
{
    matches!(flag, ESTIMATED | FINAL | SUBSTITUTED)
}
