//! What an export selects: streams of one NMI with their days in a range.

ghost use Rattle.std.specs.Prelude.{◌≡◌, ◌<◌, ◌≤◌, ℕ, List, [], IfOk, IfNone, IfSome, OnOk, length};
ghost use Rattle.mds_world.specs.Current.{IsCurrentDetails};
ghost use Rattle.mds_world.specs.World.{IsKnownDay, World};
ghost use Rattle.mds_keeper.specs.Books.{IsDay, book_world};
ghost use Rattle.mds_keeper.specs.Kept.{Asks, Stays};
ghost use Rattle.mds_keeper.specs.Queries.{AreDaysOf, AreDetailsBetween};
ghost use Rattle.mds_names.specs.declared.stream.Stream.{Stream};
ghost use Rattle.mds_ranges.specs.Ranges.{IsTooWide};
ghost use Rattle.mds_ranges.specs.Selections.{AreSelectedDays, Ascend, IsSelectedDay, IsSelectedStream, IsSelection};

use crate::readings::current_readings;
use mds_keeper::{DayBook, Keeper, Unavailable};
use mds_statements::{SelectedDay, SelectedStream, Selection};
use mds_terms::{Day, Details, Nmi, Stream, Suffix};
use std::alloc::{AllocError, Global};

/// What an export of the days of a range selects: the streams of an NMI with one of these suffixes. Each has its known
/// days, which may be none, and each day has its current details and its current readings.
pub fn selection_of<K: Keeper>(
    alloc: Global,
    keeper: &mut K,
    nmi: Nmi,
    suffixes: &[Suffix],
    first: Day,
    last: Day,
) -> Result<Selection, Unavailable>
    requires narrow { IsTooWide first last → ⊥ }
    requires few { length suffixes.now ≤ 8 }
    requires ascend { Ascend suffixes.now }
    ensures stays { Stays (K.kept keeper.old) (K.kept keeper.new) }
    ensures opens { (K.kept keeper.new).honest → 0 < length suffixes.now → OnOk result (K.kept keeper.new).sound }
    ensures selection { (K.kept keeper.new).sound → IfOk result
        (λ selection. IsSelection (K.kept keeper.old).world nmi suffixes.now first last selection.streams.items) }
    ensures unasked { length suffixes.now ≡ 0 → IfOk result (λ selection. selection.streams.items ≡ []) }
{
    // decides: what does an export select?
    let streams = selected_streams(alloc, keeper, nmi, suffixes, first, last)?;
    // These are a selection if the keeper is sound.
    made_of(streams).ok_or(Unavailable)
}

/// Streams as a selection. `None` if they can't be those of at most 400 days and at most eight suffixes.
fn made_of(streams: Vec<SelectedStream>) -> Option<Selection>
    ensures some { IfSome result (λ selection. selection.streams ≡ streams) }
    ensures none { IfNone result ((w : World) (nmi : List ℕ) (suffixes : List (List ℕ)) (first last : ℕ)
        → (IsTooWide first last → ⊥) → length suffixes ≤ 8
        → IsSelection w nmi suffixes first last streams.items → ⊥) }
{
    Selection::new(streams)
}

/// The streams of an NMI with one of these suffixes.
fn selected_streams<K: Keeper>(
    alloc: Global,
    keeper: &mut K,
    nmi: Nmi,
    suffixes: &[Suffix],
    first: Day,
    last: Day,
) -> Result<Vec<SelectedStream>, Unavailable>
    requires { Ascend suffixes.now }
    ensures stays { Stays (K.kept keeper.old) (K.kept keeper.new) }
    ensures opens { (K.kept keeper.new).honest → 0 < length suffixes.now → OnOk result (K.kept keeper.new).sound }
    ensures streams { (K.kept keeper.new).sound → IfOk result
        (λ streams. IsSelection (K.kept keeper.old).world nmi suffixes.now first last streams.items) }
    ensures unasked { length suffixes.now ≡ 0 → IfOk result (λ streams. streams.items ≡ []) }
{
    let mut streams = Vec::new(alloc);
    for suffix in suffixes {
        let stream = Stream {
            nmi,
            suffix: *suffix,
        };
        let selected = selected_stream(alloc, keeper, &stream, first, last)?;
        streams.push(selected)?;
    }
    Ok(streams)
}

/// A stream with its days in a range.
fn selected_stream<K: Keeper>(
    alloc: Global,
    keeper: &mut K,
    stream: &Stream,
    first: Day,
    last: Day,
) -> Result<SelectedStream, Unavailable>
    ensures name { IfOk result (λ selected. selected.stream ≡ stream.now) }
    ensures selected { Asks (K.kept keeper.old) (K.kept keeper.new) result (λ w. IsSelectedStream w first last) }
{
    let books = keeper.days(*stream, first, last)?;
    if books.is_empty() {
        return Ok(SelectedStream {
            stream: *stream,
            days: Vec::new(alloc),
        });
    }
    // Details change only at the days of these rows, so no other day is asked for.
    let at_first = keeper.details(*stream, first)?;
    let rows = keeper.details_between(*stream, first, last)?;
    let days = selected_days(alloc, &books, &at_first, &rows)?;
    Ok(SelectedStream {
        stream: *stream,
        days,
    })
}

/// The days of books, each with its details. These are those of the range's first day, until a row has others.
fn selected_days(
    alloc: Global,
    books: &[DayBook],
    at_first: &Details,
    rows: &[(Day, Details)],
) -> Result<Vec<SelectedDay>, AllocError>
    ensures { (w : World) (stream : Stream) (first last : ℕ) → AreDaysOf w stream first last books.now
        → IsCurrentDetails w stream first at_first.now → AreDetailsBetween w stream first last rows.now
        → IfOk result (λ days. AreSelectedDays w stream first last days.items) }
{
    let mut days = Vec::new(alloc);
    for book in books {
        let details = details_on(at_first, rows, book.day())?;
        let Some(day) = selected_day(alloc, book, details)? else {
            continue;
        };
        days.push(day)?;
    }
    Ok(days)
}

/// The details of a day of a range: those of the last row up to it, or else those of the range's first day.
fn details_on(at_first: &Details, rows: &[(Day, Details)], day: Day) -> Result<Details, AllocError>
    ensures { (w : World) (stream : Stream) (first last : ℕ) → first ≤ day → day ≤ last
        → IsCurrentDetails w stream first at_first.now → AreDetailsBetween w stream first last rows.now
        → IfOk result (IsCurrentDetails w stream day) }
{
    match rows_upto(rows, day).last() {
        Some(row) => row.1.try_clone(),
        None => at_first.try_clone(),
    }
}

/// The rows of a range up to one of its days.
fn rows_upto(rows: &[(Day, Details)], day: Day) -> &[(Day, Details)]
    ensures { (w : World) (stream : Stream) (first last : ℕ) → day ≤ last → AreDetailsBetween w stream first last rows.now
        → AreDetailsBetween w stream first day result.now }
{
    &rows[..rows.partition_point(|row| row.0 <= day)]
}

/// A day with its details and its current readings. `None` if it isn't known.
fn selected_day(
    alloc: Global,
    book: &DayBook,
    details: Details,
) -> Result<Option<SelectedDay>, AllocError>
    ensures some { (w : World) → IsDay w book.now → IsCurrentDetails w book.now.stream book.now.day details
        → IfOk result (λ day. IfSome day (IsSelectedDay w book.now.stream)) }
    ensures date { IfOk result (λ day. IfSome day (λ day. day.date ≡ book.now.day)) }
    ensures none { IfOk result (λ day. IfNone day (IsKnownDay (book_world book.now) book.now.stream book.now.day → ⊥)) }
{
    let Some(form) = book.form() else {
        return Ok(None);
    };
    let (length, unit) = form;
    let Some(update) = book.latest_update() else {
        unreachable!();
    };
    let readings = current_readings(alloc, book, length)?;
    Ok(Some(SelectedDay {
        date: book.day(),
        length,
        unit,
        details,
        update,
        readings,
    }))
}
