//! Queries about details of days. A store that can't answer is unavailable (U1), and so is one with a row that it didn't write.

ghost use Rattle.std.specs.Prelude.{◌≡◌, ◌≢◌, ◌↔◌, ◌<◌, ◌≤◌, ◌^◌, ℕ, List, [], ◌∷◌, false, All, IfNone, IfOk, IfSome, IsTrue, OnErr, OnOk, Some};
ghost use Rattle.std.specs.Bool.{OnFalse};
ghost use Rattle.std.specs.BTreeSet.{IsFromIterResult};
ghost use Rattle.sqlite.specs.Held.{state};
ghost use Rattle.sqlite_value.specs.Order.{Row as RowValue, column};
ghost use Rattle.mds_terms.specs.Details.{DetailsValue};
ghost use Rattle.mds_world.specs.Current.{IsCurrentDetails};
ghost use Rattle.mds_world.specs.Lists.{Member};
ghost use Rattle.mds_keeper.specs.Queries.{AreDaysWithout, AreDetailsBetween};
ghost use Rattle.mds_tables.specs.Cells.{number_cell};
ghost use Rattle.mds_tables.specs.Queries.{Answers};
ghost use Rattle.mds_tables.specs.Stores.{HoldsOf};
ghost use Rattle.mds_tables.specs.Shown.{SaysDay};
ghost use Rattle.mds_tables.specs.Written.{IsDay};
ghost use Rattle.mds_pack_rows.specs.Current.{current_layout, current_world};
ghost use Rattle.mds_commit.specs.Shown.{AreByDay, AreLeft, EndsOn, IsDetailRow, IsRowOf, IsWritten, TellsDays, TellsFirst, TellsRow, text_length};

use crate::rows::{days_with_rows, details_rows, nearest_rows, range_rows};
use crate::terms::{details_at, is_detail_row};
use mds_keeper::{DetailDays, Unavailable};
use mds_tables::{day_at, in_order, or_unavailable, ready, told};
use mds_terms::{Day, Details, Stream};
use mds_world::empty_details;
use sqlite::{Alter, Connection, Row};
use std::alloc::{AllocError, Global};
use std::collections::BTreeSet;

/// The current details of a day of a stream: its own, or those of the nearest earlier day that has some. The day need not be known.
/// Most days have details of their own, so these are asked for first.
/// All rows of that one day are read. A query with a LIMIT would return a single row, and hide another one that the store didn't
/// write.
pub fn current_details<S: Alter>(
    alloc: Global,
    conn: &mut Connection<S>,
    stream: &Stream,
    day: Day,
) -> Result<Details, Unavailable>
    requires { conn.old.in_transaction ≡ false }
    ensures { Answers (HoldsOf current_layout) (state S.Store conn.old) (state S.Store conn.new) result
        (λ trees. IsCurrentDetails (current_world trees) stream.now day) }
{
    or_unavailable(ready(conn))?;
    // For the proof: a day's number is at most that of the last day.
    let _ = day.number();
    let own = or_unavailable(details_rows(conn, stream, day))?;
    // decides: which details of a day are current? (definition: IsCurrentDetails in mds_world/specs/Current.antt)
    if !own.is_empty() {
        return first_details(alloc, &own);
    }
    let found = or_unavailable(nearest_rows(conn, stream, day))?;
    let nearest = first_day(&found)?;
    let Some(of) = nearest else {
        return Ok(empty_details(alloc));
    };
    let rows = or_unavailable(details_rows(conn, stream, of))?;
    first_details(alloc, &rows)
}

/// The day of the first row. `None` if there is no row.
fn first_day(rows: &[Row]) -> Result<Option<Day>, Unavailable>
    ensures ok { IfOk result (SaysDay rows.now) }
    ensures err { OnErr result ((row : RowValue) × (later : List RowValue) × (rows.now ≡ row ∷ later)
        × ((day : ℕ) → IsDay day → column row 0 ≢ number_cell day)) }
{
    match rows {
        [first, ..] => Ok(Some(told(day_at(first, 0))?)),
        [] => Ok(None),
    }
}

/// The details of the first row, if the store can have written all of the rows.
fn first_details(alloc: Global, rows: &[Row]) -> Result<Details, Unavailable>
    ensures first { IfOk result (TellsFirst rows.now) }
    ensures all { IfOk result (λ details. All (λ row. IsDetailRow row) rows.now) }
    ensures err { OnErr result (All IsWritten rows.now → rows.now ≢ [] → (row : RowValue) × (later : List RowValue) × (rows.now ≡ row ∷ later)
        × ((moment : ℕ) (details : DetailsValue) → IsRowOf row moment details → 0 < text_length details)) }
{
    test_detail_rows(rows)?;
    match rows {
        [first, ..] => details_at(alloc, first),
        // The query before has shown that the day has details.
        [] => Err(Unavailable),
    }
}

/// Tests that all rows are details that the store can have written.
fn test_detail_rows(rows: &[Row]) -> Result<(), Unavailable>
    ensures ok { OnOk result (All (λ row. IsDetailRow row) rows.now) }
    ensures err { OnErr result (¬ All IsWritten rows.now) }
{
    let are_lawful = are_detail_rows(rows);
    if !are_lawful {
        return Err(Unavailable);
    }
    Ok(())
}

/// Whether all rows are details that the store can have written.
pub fn are_detail_rows(rows: &[Row]) -> bool
    ensures yes { IsTrue result → All (λ row. IsDetailRow row) rows.now }
    ensures no { OnFalse result (¬ All IsWritten rows.now) }
{
    for i in 0..rows.len() {
        let is_lawful = is_detail_row(&rows[i]);
        if !is_lawful {
            return false;
        }
    }
    true
}

/// The current details of each day of a range that has details of its own, ascending, each day once. This is one query, whatever the
/// count of days.
/// All rows of these days are read, and tested to be ones that the store can have written. So a row that it didn't write hides
/// nothing.
pub fn details_between<S: Alter>(
    alloc: Global,
    conn: &mut Connection<S>,
    stream: &Stream,
    first: Day,
    last: Day,
) -> Result<Vec<(Day, Details)>, Unavailable>
    requires { conn.old.in_transaction ≡ false }
    ensures { Answers (HoldsOf current_layout) (state S.Store conn.old) (state S.Store conn.new) result
        (λ trees rows. AreDetailsBetween (current_world trees) stream.now first last rows.items) }
{
    or_unavailable(ready(conn))?;
    // For the proof: a day's number is at most that of the last day.
    let _ = last.number();
    let rows = or_unavailable(range_rows(conn, stream, first, last))?;
    tell_days(alloc, &rows)
}

/// The details of the first row of each day, if the store can have written all of the rows. The rows are ordered by day.
fn tell_days(alloc: Global, rows: &[Row]) -> Result<Vec<(Day, Details)>, Unavailable>
    ensures told { IfOk result (λ told. AreByDay rows.now → TellsDays rows.now told.items) }
    ensures all { IfOk result (λ told. All (λ row. IsDetailRow row) rows.now) }
{
    test_detail_rows(rows)?;
    let mut days = Vec::new(alloc);
    for i in 0..rows.len() {
        tell_row(alloc, &mut days, &rows[i])?;
    }
    Ok(days)
}

/// Adds the day of a row with its details, unless the last entry is of that day.
fn tell_row(alloc: Global, days: &mut Vec<(Day, Details)>, row: &Row) -> Result<(), Unavailable>
    ensures { OnOk result (TellsRow days.old.items row.now days.new.items) }
{
    let day = told(day_at(row, 6))?;
    if ends_on(days, day) {
        return Ok(());
    }
    let details = details_at(alloc, row)?;
    days.push((day, details))?;
    Ok(())
}

/// Whether the last entry is of the day.
fn ends_on(days: &[(Day, Details)], day: Day) -> bool
    ensures { IsTrue result ↔ EndsOn day days.now }
{
    match days.last() {
        Some(entry) => entry.0 == day,
        None => false,
    }
}

/// The days among these that don't have these details yet, current or not, ascending, each once. This is one query, whatever the count
/// of days.
pub fn days_without<S: Alter>(
    alloc: Global,
    conn: &mut Connection<S>,
    details: &DetailDays,
) -> Result<Vec<Day>, Unavailable>
    requires { conn.old.in_transaction ≡ false }
    ensures { Answers (HoldsOf current_layout) (state S.Store conn.old) (state S.Store conn.new) result
        (λ trees days. AreDaysWithout (current_world trees) details.now days.items) }
{
    or_unavailable(ready(conn))?;
    let mut left = set_of(alloc, &details.days)?;
    let Some(ends) = ends_of(&left) else {
        return Ok(Vec::new(alloc));
    };
    let (first, last) = ends;
    let rows = or_unavailable(days_with_rows(conn, details, first, last))?;
    // For the proof: a day's number is at most that of the last day, and the other numbers are below 2^63.
    let _ = last.number();
    are_small(details);
    take_shown(&mut left, &rows)?;
    in_order(alloc, left)
}

/// The days, each once.
fn set_of(alloc: Global, days: &[Day]) -> Result<BTreeSet<Day>, AllocError>
    ensures { IfOk result (IsFromIterResult ⟦<Day as Ord>⟧.cmp days.now) }
{
    days.iter().copied().collect(alloc)
}

/// The least and the greatest of the days.
fn ends_of(days: &BTreeSet<Day>) -> Option<(Day, Day)>
    ensures some { IfSome result (λ ends. (day : ℕ) → Member day days.now.keys → (ends.0 ≤ day) × (day ≤ ends.1)) }
    ensures none { IfNone result (days.now.keys ≡ []) }
{
    Some((*days.first()?, *days.last()?))
}

/// The numbers in details are far below the greatest that a column can hold. The function does nothing.
fn are_small(details: &DetailDays)
    ensures moment { details.now.moment < 2 ^ 63 }
    ensures next { (n : ℕ) → details.now.details.next ≡ Some n → n < 2 ^ 63 }
{
    // For the proof: the seconds of a moment are below those of all possible days.
    let _ = details.moment.seconds();
    is_small_day(details.details.next());
}

/// The number of a day is far below the greatest that a column can hold.
fn is_small_day(day: Option<Day>)
    ensures { (n : ℕ) → day ≡ Some n → n < 2 ^ 63 }
{
    if let Some(day) = day {
        // For the proof: a day's number is at most that of the last day.
        let _ = day.number();
    }
}

/// Removes the days that rows say from a set.
fn take_shown(left: &mut BTreeSet<Day>, rows: &[Row]) -> Result<(), Unavailable>
    ensures { OnOk result (AreLeft left.old.keys rows.now left.new.keys) }
{
    for i in 0..rows.len() {
        take_day(left, &rows[i])?;
    }
    Ok(())
}

/// Removes the day that a row says from a set.
fn take_day(left: &mut BTreeSet<Day>, row: &Row) -> Result<(), Unavailable>
    ensures { OnOk result (AreLeft left.old.keys (row.now ∷ []) left.new.keys) }
{
    let day = told(day_at(row, 0))?;
    left.remove(&day);
    Ok(())
}
