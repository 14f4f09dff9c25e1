//! The current readings of a day.

ghost use Rattle.std.specs.Prelude.{◌≡◌, ◌<◌, ◌+◌, ◌^◌, ◌++◌, ◌∷◌, [], ℕ, IfOk, OnOk, length as size};
ghost use Rattle.mds_calendar.specs.Length.{count_of};
ghost use Rattle.mds_marks.specs.Reading.{ReadingValue};
ghost use Rattle.mds_world.specs.Current.{IsDayReading};
ghost use Rattle.mds_world.specs.World.{World};
ghost use Rattle.mds_keeper.specs.Books.{IsDay, book_world};
ghost use Rattle.mds_ranges.specs.Readings.{AreReadings};

use mds_keeper::DayBook;
use mds_runs::DayReadings;
use mds_terms::{Length, Mark};
use std::alloc::{AllocError, Global};

/// The current readings of a day with this current length: one for each interval of the day, in order. Each is a copy of the
/// interval's reading of that length with the greatest update. Without a version it is bare N, quality N without a value.
pub fn current_readings(
    alloc: Global,
    book: &DayBook,
    length: Length,
) -> Result<DayReadings, AllocError>
    ensures { (w : World) → IsDay w book.now → IfOk result (λ readings. AreReadings
        w book.now.stream book.now.day (count_of length) readings) }
{
    let count = length.count();
    // Most days keep their readings together.
    if let Some(readings) = book.whole_readings() {
        if readings.len() == count {
            return readings.try_clone(alloc);
        }
    }
    let mut readings = DayReadings::with_capacity(alloc, count)?;
    for i in 0..count {
        put_current(&mut readings, book, i as u16 + 1)?;
    }
    Ok(readings)
}

/// Appends the current reading of an interval, or bare N if it has no version.
fn put_current(readings: &mut DayReadings, book: &DayBook, interval: u16) -> Result<(), AllocError>
    requires { size readings.old + 1 < 2 ^ 16 }
    ensures { OnOk result ((reading : ReadingValue) × (readings.new ≡ readings.old ++ reading ∷ [])
        × IsDayReading (book_world book.now) book.now.stream book.now.day interval reading) }
{
    // decides: which reading does an interval without a version have?
    let Some(version) = book.current(interval) else {
        return readings.push(&Mark::bare_null(), None);
    };
    readings.push(version.mark, version.value)
}
