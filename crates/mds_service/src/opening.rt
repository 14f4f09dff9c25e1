//! The merges of days, opened before a line claims anything of them.
//!
//! A keeper answers for many days at once nearly as fast as for one. So consecutive days of a block are asked for at
//! once, and their merges opened. A claim then finds the merge of its day, and asks nobody. A merge says nothing until a
//! line claims something of its day, so opening one changes no fact.

ghost use Rattle.std.specs.Prelude.{◌≡◌, ◌<◌, ◌≤◌, ◌++◌, ◌∷◌, List, [], ℕ, false, map, IfErr, IfOk, IsTrue, MatchOption, OnOk};
ghost use Rattle.std.specs.List.{All};
ghost use Rattle.std.specs.FinSet as set;
ghost use Rattle.mds_calendar.specs.Calendar.{last_day};
ghost use Rattle.mds_world.specs.World.{IsLawful, World};
ghost use Rattle.mds_keeper.specs.Books.{IsDay, book_world};
ghost use Rattle.mds_keeper.specs.Kept.{OfKept, Stays};
ghost use Rattle.mds_keeper.specs.Queries.{AreDaysOf};
ghost use Rattle.mds_keeper.specs.declared.day_merge.Stop.TheVariants.{Memory};
ghost use Rattle.mds_service.specs.Imports.{AreMerges};
ghost use Rattle.mds_service.specs.Asking.{AreDays, AreOfDates, AsksOnly};
ghost use Rattle.mds_service.specs.OpeningSteps.{AreUnknown, IsOfDates};

use crate::asking::ImportKeeper;
use mds_keeper::{DayBook, DayMerge, Stop, StreamDay};
use mds_statements::DeliveredDay;
use mds_terms::{Day, Stream};
use std::alloc::{AllocError, Global};
use std::collections::BTreeMap;

/// A keeper is asked for at most this many days at once, since its rows of all of them are in memory while it answers.
const MOST_AHEAD: u32 = 64;

/// Consecutive days, from a first to a last one, both included.
#[derive(Clone, Copy)]
pub(crate) struct Stretch {
    first: Day,
    last: Day,
}

/// The stretches of a block's days, in their order: a plan of what to ask for at once. Each has only dates that the block
/// has, so that no day is read that the file doesn't state.
pub(crate) fn stretches(alloc: Global, days: &[DeliveredDay]) -> Result<Vec<Stretch>, AllocError>
    ensures { IfOk result (λ found. All (IsOfDates (map (λ day. day.date) days.now)) found.items) }
{
    let mut found: Vec<Stretch> = Vec::new(alloc);
    for day in days {
        if !goes_on(&mut found, day.date) {
            found.push(Stretch {
                first: day.date,
                last: day.date,
            })?;
        }
    }
    Ok(found)
}

/// Adds a date to the last of these stretches, if it is its last day or the one after. Returns whether it did.
fn goes_on(found: &mut Vec<Stretch>, date: Day) -> bool
    ensures stays { result ≡ false → found.new.items ≡ found.old.items }
    ensures taken { IsTrue result → (dates : List ℕ) → All (IsOfDates dates) found.old.items
        → All (IsOfDates (dates ++ date ∷ [])) found.new.items }
{
    let Some(stretch) = found.last_mut() else {
        return false;
    };
    let first = number_of(stretch.first);
    let last = number_of(stretch.last);
    let number = number_of(date);
    if number == last {
        return true;
    }
    if number != last + 1 || number >= first + MOST_AHEAD {
        return false;
    }
    stretch.last = date;
    true
}

/// Opens the merges of the next stretch, if it begins at this date.
pub(crate) fn open_ahead<K: ImportKeeper>(
    alloc: Global,
    keeper: &mut K,
    merges: &mut BTreeMap<StreamDay, DayMerge>,
    stream: &Stream,
    ahead: &[Stretch],
    next: &mut usize,
    date: Day,
) -> Result<(), Stop>
    ensures stays { Stays (K.kept keeper.old) (K.kept keeper.new) }
    ensures opened { OfKept (K.kept keeper.old) (K.kept keeper.new)
        (λ w. IsLawful w → OnOk result ((facts : World) → AreMerges ⟦<StreamDay as Ord>⟧.cmp w facts merges.old
        → AreMerges ⟦<StreamDay as Ord>⟧.cmp w facts merges.new)) }
    ensures memory { IfErr result (λ stop. stop ≡ Memory) }

    // It asks for no days except those of the stretches.
    ensures asked { (dates : List ℕ) → All (IsOfDates dates) ahead.now
        → AsksOnly K.asks K.others (AreOfDates stream.now dates) keeper.old keeper.new }
{
    let Some(stretch) = ahead.get(*next) else {
        return Ok(());
    };
    if stretch.first != date {
        return Ok(());
    }
    *next += 1;
    open_stretch(alloc, keeper, merges, stream, stretch.first, stretch.last)
}

/// Opens the merges of a stream's days in a range that have none yet. A single day is left to its claim.
fn open_stretch<K: ImportKeeper>(
    alloc: Global,
    keeper: &mut K,
    merges: &mut BTreeMap<StreamDay, DayMerge>,
    stream: &Stream,
    first: Day,
    last: Day,
) -> Result<(), Stop>
    ensures stays { Stays (K.kept keeper.old) (K.kept keeper.new) }

    // Whatever facts the merges hold so far, they hold just those.
    ensures opened { OfKept (K.kept keeper.old) (K.kept keeper.new)
        (λ w. IsLawful w → OnOk result ((facts : World) → AreMerges ⟦<StreamDay as Ord>⟧.cmp w facts merges.old
        → AreMerges ⟦<StreamDay as Ord>⟧.cmp w facts merges.new)) }
    ensures memory { IfErr result (λ stop. stop ≡ Memory) }
    ensures asked { AsksOnly K.asks K.others (AreDays stream.now first last) keeper.old keeper.new }
{
    if first == last {
        return Ok(());
    }
    let books = keeper.days(*stream, first, last)?;
    open_days(alloc, merges, stream, first, last, books)?;
    Ok(())
}

/// Opens the merges of the days of a range that have none yet. These are the books of its known days.
fn open_days(
    alloc: Global,
    merges: &mut BTreeMap<StreamDay, DayMerge>,
    stream: &Stream,
    first: Day,
    last: Day,
    books: Vec<DayBook>,
) -> Result<(), AllocError>
    ensures { OnOk result ((w facts : World) → IsLawful w → AreDaysOf w stream.now first last books.items
        → AreMerges ⟦<StreamDay as Ord>⟧.cmp w facts merges.old
        → AreMerges ⟦<StreamDay as Ord>⟧.cmp w facts merges.new) }
{
    let mut from = number_of(first);
    for book in books {
        let day = number_of(book.day());
        open_unknown(alloc, merges, stream, from, day)?;
        open_day(alloc, merges, book)?;
        from = day + 1;
    }
    open_unknown(alloc, merges, stream, from, number_of(last) + 1)?;
    Ok(())
}

/// Opens the merges of days that have none yet, from a first one to just before an end. Nothing is known of these days.
fn open_unknown(
    alloc: Global,
    merges: &mut BTreeMap<StreamDay, DayMerge>,
    stream: &Stream,
    first: u32,
    end: u32,
) -> Result<(), AllocError>
    ensures { OnOk result ((w facts : World) → AreUnknown w stream.now first end
        → AreMerges ⟦<StreamDay as Ord>⟧.cmp w facts merges.old
        → AreMerges ⟦<StreamDay as Ord>⟧.cmp w facts merges.new) }
{
    for number in first..end {
        let Some(book) = unknown_day(alloc, stream, number) else {
            continue;
        };
        open_day(alloc, merges, book)?;
    }
    Ok(())
}

/// Opens the merge of a book's day, unless there is one.
fn open_day(
    alloc: Global,
    merges: &mut BTreeMap<StreamDay, DayMerge>,
    book: DayBook,
) -> Result<(), AllocError>
    ensures { OnOk result ((w facts : World) → IsDay w book
        → AreMerges ⟦<StreamDay as Ord>⟧.cmp w facts merges.old
        → AreMerges ⟦<StreamDay as Ord>⟧.cmp w facts merges.new) }
{
    let key = StreamDay {
        stream: book.stream(),
        day: book.day(),
    };
    if merges.contains_key(&key) {
        return Ok(());
    }
    // For the proof: what a book says is a lawful World.
    book.is_lawful();
    merges.insert(key, DayMerge::new(alloc, book))?;
    Ok(())
}

/// The book of a day, by its number, of which nothing is known. `None` if there is no such day.
fn unknown_day(alloc: Global, stream: &Stream, number: u32) -> Option<DayBook>
    ensures { MatchOption result (last_day < number) (λ book. (book.stream ≡ stream.now) × (book.day ≡ number)
        × (book_world book ≡ set.empty)) }
{
    let day = Day::from_number(i64::from(number))?;
    Some(DayBook::unknown(alloc, *stream, day))
}

/// The number of a day.
fn number_of(day: Day) -> u32
    ensures value { result ≡ day }
    ensures last { day ≤ last_day }
{
    day.number() as u32
}
