//! The rows of a book, which its copies may share.

ghost use Rattle.std.specs.Prelude.{◌≡◌, ◌≢◌, ◌<◌, ℕ, length, length as size, IfOk, OnErr, Some};
ghost use Rattle.mds_keeper.specs.Content.{whole_rows};
ghost use Rattle.mds_keeper.specs.KeptRows.{kept_rows, kept_whole, lent_rows, lent_whole};

use crate::day_book::Version;
use mds_runs::DayReadings;
use mds_terms::{Length, Moment};
use std::alloc::{AllocError, Global};
use std::rc::Rc;

/// Versions, each with the number of its interval. They never change, so a keeper in memory shares them between copies. Asking for
/// a day then takes no memory.
pub(crate) enum BookRows {
    /// Each copy has its own.
    Own(Vec<(u16, Version)>),
    /// Copies share them.
    Shared(Rc<Vec<(u16, Version)>>),
    /// One for each interval of a length, from 1 on, all under one update. Its readings are kept as a file stated them, and copies
    /// share them.
    Whole(Length, Moment, Rc<DayReadings>),
}

// Written out, so that code that drops a book makes one call.
impl Drop for BookRows {
    fn drop(self) {
        match self {
            BookRows::Own(rows) => drop(rows),
            BookRows::Shared(rows) => drop(rows),
            BookRows::Whole(_, _, readings) => drop(readings),
        }
    }
}

/// The borrowed rows of a book, in the form in which it keeps them.
#[derive(Clone, Copy)]
pub(crate) enum LentRows<'a> {
    /// These.
    Each(&'a [(u16, Version)]),
    /// One for each interval of a length, from 1 on, all under one update.
    Whole(Length, Moment, &'a DayReadings),
}

impl BookRows {
    /// One for each interval of a length under an update, kept as `DayReadings`.
    pub(crate) fn whole(
        alloc: Global,
        length: Length,
        update: Moment,
        readings: DayReadings,
    ) -> Result<BookRows, AllocError>
        ensures { IfOk result (λ rows. (kept_rows rows ≡ whole_rows length update 1 readings)
            × (kept_whole rows ≡ Some (length, size readings))) }
    {
        let readings = Rc::new(alloc, readings)?;
        Ok(BookRows::Whole(length, update, readings))
    }

    /// The rows, in the form in which they are kept.
    pub(crate) fn lent(&self) -> LentRows<'_>
        ensures rows { lent_rows result ≡ kept_rows self.now }
        ensures whole { lent_whole result ≡ kept_whole self.now }
    {
        match self {
            BookRows::Own(rows) => LentRows::Each(rows.as_slice()),
            BookRows::Shared(rows) => LentRows::Each(rows.as_ref().as_slice()),
            BookRows::Whole(length, update, readings) => {
                LentRows::Whole(*length, *update, readings.as_ref())
            }
        }
    }

    /// The same rows, shared between copies from now on.
    pub(crate) fn into_shared(self, alloc: Global) -> Result<BookRows, AllocError>
        ensures { IfOk result (λ rows. (kept_rows rows ≡ kept_rows self) × (kept_whole rows ≡ kept_whole self)) }
    {
        match self {
            BookRows::Own(rows) => {
                let rows = Rc::new(alloc, rows)?;
                Ok(BookRows::Shared(rows))
            }
            BookRows::Shared(rows) => Ok(BookRows::Shared(rows)),
            BookRows::Whole(length, update, readings) => {
                Ok(BookRows::Whole(length, update, readings))
            }
        }
    }

    /// A copy. Takes memory only if there are rows. If the rows are shared it takes none, but no clause says so.
    pub(crate) fn try_clone(&self, alloc: Global) -> Result<BookRows, AllocError>
        requires { (minutes : ℕ) → kept_whole self.now ≢ Some (minutes, 0) }
        ensures value { IfOk result (λ rows. (kept_rows rows ≡ kept_rows self.now)
            × (kept_whole rows ≡ kept_whole self.now)) }
        ensures memory { OnErr result (0 < length (kept_rows self.now)) }
    {
        match self {
            BookRows::Own(rows) => Ok(BookRows::Own(copied(alloc, rows.as_slice())?)),
            BookRows::Shared(rows) => {
                if rows.as_ref().is_empty() {
                    return Ok(BookRows::Own(Vec::new(alloc)));
                }
                Ok(BookRows::Shared(rows.clone()?))
            }
            BookRows::Whole(length, update, readings) => {
                Ok(BookRows::Whole(*length, *update, readings.clone()?))
            }
        }
    }
}

/// A copy of versions. Takes memory only if there are any.
pub(crate) fn copied(
    alloc: Global,
    rows: &[(u16, Version)],
) -> Result<Vec<(u16, Version)>, AllocError>
    ensures value { IfOk result (λ copy. copy.items ≡ rows.now) }
    ensures memory { OnErr result (0 < length rows.now) }
{
    let mut copy = Vec::with_capacity(alloc, rows.len())?;
    for (interval, version) in rows {
        let reading = version.reading.try_clone()?;
        copy.push((
            *interval,
            Version {
                update: version.update,
                length: version.length,
                reading,
            },
        ))?;
    }
    Ok(copy)
}
