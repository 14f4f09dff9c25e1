//! What is added to a World.

ghost use Rattle.std.specs.Prelude.{◌≡◌, ◌++◌, ◌<◌, ℕ, IfOk, OnErr, OnOk, length as size, take};
ghost use Rattle.mds_keeper.specs.BookRows.{IsMade};
ghost use Rattle.mds_keeper.specs.Content.{rows_of, whole_rows};

use crate::day_book::{DayBook, Version};
use mds_jobs::Job;
use mds_quantity::Unit;
use mds_runs::DayReadings;
use mds_statements::Period;
use mds_terms::{Day, Details, Event, Length, Moment, Stream};
use mds_world::Head;
use std::alloc::{AllocError, Global};

/// Versions of a day of a stream.
#[derive(Drop)]
pub struct DayVersions {
    pub stream: Stream,
    pub day: Day,
    pub rows: VersionRows,
}

/// The versions of a day, each with the number of its interval.
pub enum VersionRows {
    /// These, in any order.
    Each(Vec<(u16, Version)>),
    /// One for each interval of a length, from 1 on, all under one update. A file states a day like this, and its readings are moved
    /// here unchanged. A merge and a plan add no others (`AreWellFormed`).
    Whole(Length, Moment, DayReadings),
}

// Written out, so that code that drops a day's versions makes one call.
impl Drop for VersionRows {
    fn drop(self) {
        match self {
            VersionRows::Each(rows) => drop(rows),
            VersionRows::Whole(_, _, readings) => drop(readings),
        }
    }
}

impl VersionRows {
    /// Moves them to the end of these versions. Readings of a whole day are copied one by one: each takes the room of a version, and
    /// that of its reason's text. Takes memory only if there are versions. After an error a prefix of them may be there.
    pub fn append_to(self, rows: &mut Vec<(u16, Version)>) -> Result<(), AllocError>
        ensures done { OnOk result (rows.new.items ≡ rows.old.items ++ rows_of self) }
        ensures kept { OnErr result ((n : ℕ) × (rows.new.items ≡ rows.old.items ++ take n (rows_of self))) }
        ensures memory { OnErr result (0 < size (rows_of self)) }
    {
        match self {
            VersionRows::Each(more) => append_each(rows, more),
            VersionRows::Whole(length, update, readings) => {
                append_whole(rows, length, update, &readings)
            }
        }
    }

    /// The book of a day with these versions, and with this unit if it is known.
    pub(crate) fn into_book(
        self,
        alloc: Global,
        stream: Stream,
        day: Day,
        unit: Option<Unit>,
    ) -> Result<Option<DayBook>, AllocError>
        ensures { IfOk result (IsMade (record { stream = stream; day = day; unit = unit; rows = rows_of self })) }
    {
        match self {
            VersionRows::Each(versions) => Ok(DayBook::new(stream, day, unit, versions)),
            VersionRows::Whole(length, update, readings) => {
                DayBook::of_readings(alloc, stream, day, unit, length, update, readings)
            }
        }
    }
}

/// Moves versions to the end of others. If there are no others, it takes no memory.
fn append_each(rows: &mut Vec<(u16, Version)>, more: Vec<(u16, Version)>) -> Result<(), AllocError>
    ensures done { OnOk result (rows.new.items ≡ rows.old.items ++ more.items) }
    ensures kept { OnErr result ((n : ℕ) × (rows.new.items ≡ rows.old.items ++ take n more.items)) }
    ensures memory { OnErr result (0 < size more.items) }
{
    if rows.is_empty() {
        *rows = more;
        return Ok(());
    }
    for row in more {
        rows.push(row)?;
    }
    Ok(())
}

/// A copy of each reading as a version, from interval 1 of a length on and under one update. Takes memory only if there are readings.
pub(crate) fn whole_versions(
    alloc: Global,
    length: Length,
    update: Moment,
    readings: &DayReadings,
) -> Result<Vec<(u16, Version)>, AllocError>
    ensures value { IfOk result (λ rows. rows.items ≡ whole_rows length update 1 readings.now) }
    ensures memory { OnErr result (0 < size (whole_rows length update 1 readings.now)) }
{
    let mut rows = Vec::new(alloc);
    append_whole(&mut rows, length, update, readings)?;
    Ok(rows)
}

/// Appends a copy of each reading to versions, from interval 1 of a length on and under one update.
fn append_whole(
    rows: &mut Vec<(u16, Version)>,
    length: Length,
    update: Moment,
    readings: &DayReadings,
) -> Result<(), AllocError>
    ensures done { OnOk result (rows.new.items ≡ rows.old.items ++ whole_rows length update 1 readings.now) }
    ensures kept { OnErr result ((n : ℕ) × (rows.new.items ≡ rows.old.items ++ take n (whole_rows length update 1 readings.now))) }
    ensures memory { OnErr result (0 < size (whole_rows length update 1 readings.now)) }
{
    rows.reserve(readings.len())?;
    for i in 0..readings.len() {
        let reading = readings.reading(i)?;
        let version = Version {
            update,
            length,
            reading,
        };
        rows.push(((i + 1) as u16, version))?;
    }
    Ok(())
}

/// Details that days of a stream have under the moment of one header.
#[derive(Drop)]
pub struct DetailDays {
    pub stream: Stream,
    pub moment: Moment,
    pub details: Details,
    pub days: Vec<Day>,
}

/// What a change adds to a World, by kinds of facts.
#[derive(Drop)]
pub struct Additions {
    /// The first head of each day that wasn't known.
    pub new_days: Vec<Head>,
    /// The heads of further updates.
    pub heads: Vec<Head>,
    /// The versions. A day may occur more than once.
    pub days: Vec<DayVersions>,
    /// The details of days. A stream may occur more than once.
    pub details: Vec<DetailDays>,
    pub events: Vec<Event>,
    pub periods: Vec<Period>,
    pub holidays: Vec<Day>,
    /// The substitution jobs, each with the count of the readings that it made.
    pub jobs: Vec<(Job, u64)>,
}

impl Additions {
    ghost use Rattle.std.specs.Prelude.{◌≡◌, []};
    ghost use Rattle.mds_keeper.specs.BookRows.{IsMade};
    ghost use Rattle.mds_keeper.specs.Content.{content_facts};

    /// Nothing: each list is empty.
    pub fn new(alloc: Global) -> Additions
        ensures facts { content_facts result ≡ [] }
        ensures lists { (result.days.items ≡ []) × (result.details.items ≡ []) }
    {
        Additions {
            new_days: Vec::new(alloc),
            heads: Vec::new(alloc),
            days: Vec::new(alloc),
            details: Vec::new(alloc),
            events: Vec::new(alloc),
            periods: Vec::new(alloc),
            holidays: Vec::new(alloc),
            jobs: Vec::new(alloc),
        }
    }
}
