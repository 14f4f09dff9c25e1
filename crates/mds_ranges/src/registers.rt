//! The gaps and the finals of a range of days.

ghost use Rattle.std.specs.Prelude.{◌≡◌, ◌+◌, ◌-◌, ◌≤◌, ℕ, IfOk, OnOk, SomeIff, ◌++◌};
ghost use Rattle.mds_calendar.specs.Calendar.{last_day};
ghost use Rattle.mds_names.specs.declared.stream.Stream.{Stream};
ghost use Rattle.mds_world.specs.World.{World};
ghost use Rattle.mds_keeper.specs.Kept.{Asks};
ghost use Rattle.mds_keeper.specs.Queries.{AreDaysOf};
ghost use Rattle.mds_ranges.specs.Ranges.{AreFinalRows, AreGapRows};
ghost use Rattle.mds_ranges.specs.RangesSteps.{AddsFinals, AddsGaps, whole_days};

use mds_keeper::{DayBook, Keeper, Unavailable};
use mds_registers::{FinalRow, Gap, GapRow, finals, gaps};
use mds_terms::{Day, Stream};
use std::alloc::{AllocError, Global};

/// The gap of a day that isn't known.
const WHOLE_DAY: Gap = Gap { first: 0, last: 0 };

/// The gaps of a range of days of a stream, ascending by day and then by first interval. A day that isn't known is the
/// gap 0 to 0.
pub fn gaps_of<K: Keeper>(
    alloc: Global,
    keeper: &mut K,
    stream: Stream,
    first: Day,
    last: Day,
) -> Result<Vec<GapRow>, Unavailable>
    ensures { Asks (K.kept keeper.old) (K.kept keeper.new) result (λ w rows. AreGapRows w stream first last rows.items) }
{
    let books = keeper.days(stream, first, last)?;
    Ok(gap_rows(alloc, &books, first, last)?)
}

/// The finals of a range of days of a stream, ascending by day and then by first interval.
pub fn finals_of<K: Keeper>(
    alloc: Global,
    keeper: &mut K,
    stream: Stream,
    first: Day,
    last: Day,
) -> Result<Vec<FinalRow>, Unavailable>
    ensures { Asks (K.kept keeper.old) (K.kept keeper.new) result (λ w rows. AreFinalRows w stream first last rows.items) }
{
    let books = keeper.days(stream, first, last)?;
    Ok(final_rows(alloc, &books)?)
}

/// The gaps of the days of a range, where `books` are those of the known ones.
fn gap_rows(
    alloc: Global,
    books: &[DayBook],
    first: Day,
    last: Day,
) -> Result<Vec<GapRow>, AllocError>
    ensures { (w : World) (stream : Stream) → AreDaysOf w stream first last books.now
        → IfOk result (λ rows. AreGapRows w stream first last rows.items) }
{
    // decides: which rows do the gaps and finals of a range have?
    let mut rows = Vec::new(alloc);
    let mut from = number_of(first);
    for book in books {
        let day = number_of(book.day());
        add_unknown(&mut rows, from, day)?;
        add_gaps(alloc, &mut rows, book)?;
        from = day + 1;
    }
    add_unknown(&mut rows, from, number_of(last) + 1)?;
    Ok(rows)
}

/// The finals of the days of a range, where `books` are those of the known ones.
fn final_rows(alloc: Global, books: &[DayBook]) -> Result<Vec<FinalRow>, AllocError>
    ensures { (w : World) (stream : Stream) (first last : ℕ) → AreDaysOf w stream first last books.now
        → IfOk result (λ rows. AreFinalRows w stream first last rows.items) }
{
    // decides: which rows do the gaps and finals of a range have?
    let mut rows = Vec::new(alloc);
    for book in books {
        add_finals(alloc, &mut rows, book)?;
    }
    Ok(rows)
}

/// Appends the gaps of a day to rows.
fn add_gaps(alloc: Global, rows: &mut Vec<GapRow>, book: &DayBook) -> Result<(), AllocError>
    ensures { OnOk result (AddsGaps book.now rows.old.items rows.new.items) }
{
    let day = book.day();
    for gap in &gaps(alloc, book)? {
        rows.push(GapRow { day, gap: *gap })?;
    }
    Ok(())
}

/// Appends the finals of a day to rows.
fn add_finals(alloc: Global, rows: &mut Vec<FinalRow>, book: &DayBook) -> Result<(), AllocError>
    ensures { OnOk result (AddsFinals book.now rows.old.items rows.new.items) }
{
    let day = book.day();
    for stretch in finals(alloc, book)? {
        rows.push(FinalRow { day, stretch })?;
    }
    Ok(())
}

/// Appends a whole day to rows for each day from `first` on and before `end`.
fn add_unknown(rows: &mut Vec<GapRow>, first: u32, end: u32) -> Result<(), AllocError>
    requires { end ≤ last_day + 1 }
    ensures { OnOk result (rows.new.items ≡ rows.old.items ++ whole_days first (end - first)) }
{
    for number in first..end {
        let Some(day) = day_of(number) else {
            unreachable!();
        };
        rows.push(GapRow {
            day,
            gap: WHOLE_DAY,
        })?;
    }
    Ok(())
}

/// The day of a number, if there is one.
fn day_of(number: u32) -> Option<Day>
    ensures { SomeIff result (number ≤ last_day) number }
{
    Day::from_number(i64::from(number))
}

/// The number of a day.
fn number_of(day: Day) -> u32
    ensures value { result ≡ day }
    ensures last { day ≤ last_day }
{
    day.number() as u32
}
