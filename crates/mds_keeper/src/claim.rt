//! What a line claims about a day.

ghost use Rattle.std.specs.Prelude.{◌≡◌, ◌<◌, IfOk, OnErr, length as size};
ghost use Rattle.mds_calendar.specs.Length.{count_of};

use mds_quantity::Unit;
use mds_runs::DayReadings;
use mds_terms::{Length, Moment};
use std::alloc::{AllocError, Global};

/// What a line of a file claims about a day of a stream. It has the day's unit, and under an update
/// the length of intervals and the reading of each.
#[derive(Drop)]
pub struct Claim {
    /// The number of the line, from 1.
    pub line: u64,
    pub length: Length,
    pub unit: Unit,
    pub update: Moment,
    /// One for each interval, in order.
    pub readings: DayReadings,
    pub ghost whole: { size readings ≡ count_of length },
}

impl Claim {
    /// A copy of the claim. Takes memory only if there are readings.
    pub fn try_clone(&self, alloc: Global) -> Result<Claim, AllocError>
        ensures value { IfOk result (λ claim. (claim.line ≡ self.now.line) × (claim.length ≡ self.now.length)
            × (claim.unit ≡ self.now.unit) × (claim.update ≡ self.now.update)
            × (claim.readings ≡ self.now.readings)) }
        ensures memory { OnErr result (0 < size self.now.readings) }
    {
        Ok(Claim {
            line: self.line,
            length: self.length,
            unit: self.unit,
            update: self.update,
            readings: self.readings.try_clone(alloc)?,
        })
    }
}
