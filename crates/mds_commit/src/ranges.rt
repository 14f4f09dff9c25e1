//! The days of a range, found by three queries, whatever the length of the range. A store that can't answer is unavailable (U1),
//! and so is one with a row that it didn't write.

ghost use Rattle.std.specs.Prelude.{◌≡◌, ◌≢◌, ◌≤◌, ◌↔◌, List, [], ◌∷◌, drop, false, length, map, take, IfOk, IfSome, IsTrue, OnOk};
ghost use Rattle.std.specs.Bool.{OnFalse};
ghost use Rattle.sqlite.specs.Held.{state};
ghost use Rattle.sqlite_value.specs.Order.{Row as RowValue, column};
ghost use Rattle.mds_keeper.specs.Queries.{AreDaysOf};
ghost use Rattle.mds_tables.specs.Cells.{number_cell};
ghost use Rattle.mds_tables.specs.Queries.{Answers};
ghost use Rattle.mds_tables.specs.RowFacts.{natural_at};
ghost use Rattle.mds_tables.specs.Stores.{HoldsOf};
ghost use Rattle.mds_pack_rows.specs.Current.{current_layout, current_world};
ghost use Rattle.mds_commit.specs.Cuts.{AddsDay, AreCut, DaysAscend, day_unit};
ghost use Rattle.mds_commit.specs.Ranges.{AreOfDay};

use crate::books::book_of;
use crate::statements::{form_range_rows, head_range_rows, pack_range_rows};
use mds_keeper::{DayBook, Unavailable};
use mds_quantity::Unit;
use mds_tables::{day_at, or_unavailable, ready, told, unit_at};
use mds_terms::{Day, Stream};
use sqlite::{Alter, Connection, Row};
use std::alloc::Global;

/// The known days of a stream in a range, ascending, each with all its heads and versions.
pub fn days_of<S: Alter>(
    alloc: Global,
    conn: &mut Connection<S>,
    stream: &Stream,
    first: Day,
    last: Day,
) -> Result<Vec<DayBook>, Unavailable>
    requires { conn.old.in_transaction ≡ false }
    ensures { Answers (HoldsOf current_layout) (state S.Store conn.old) (state S.Store conn.new) result
        (λ trees books. AreDaysOf (current_world trees) stream.now first last books.items) }
{
    or_unavailable(ready(conn))?;
    let heads = or_unavailable(head_range_rows(conn, stream, first, last))?;
    let forms = or_unavailable(form_range_rows(conn, stream, first, last))?;
    let packs = or_unavailable(pack_range_rows(conn, stream, first, last))?;
    // For the proof: a day's number is at most that of the last day.
    let _ = last.number();
    all_books(alloc, stream, &heads, &forms, &packs)
}

/// The books of the days that rows of mds_head say, without the days that aren't known.
fn all_books(
    alloc: Global,
    stream: &Stream,
    heads: &[Row],
    forms: &[Row],
    packs: &[Row],
) -> Result<Vec<DayBook>, Unavailable>
    ensures each { IfOk result (λ books. AreCut stream.now (map day_unit heads.now) forms.now packs.now books.items) }
    ensures ascending { IfOk result (λ _. DaysAscend (map day_unit heads.now)) }
{
    let days = days_in(alloc, heads)?;
    // The query returns them in this order, and each day has one row.
    if !do_ascend(&days) {
        return Err(Unavailable);
    }
    cut_by_day(alloc, stream, &days, forms, packs)
}

/// The day and the unit of each row of mds_head.
fn days_in(alloc: Global, rows: &[Row]) -> Result<Vec<(Day, Unit)>, Unavailable>
    ensures { IfOk result (λ days. days.items ≡ map day_unit rows.now) }
{
    let mut days = Vec::with_capacity(alloc, rows.len())?;
    for row in rows {
        let day = told(day_in(row))?;
        days.push(day)?;
    }
    Ok(days)
}

/// The day and the unit of a row of mds_head.
fn day_in(row: &Row) -> Option<(Day, Unit)>
    ensures { IfSome result (λ day. day ≡ day_unit row.now) }
{
    Some((day_at(row, 0)?, unit_at(row, 1)?))
}

/// Whether each day is before the next one.
fn do_ascend(days: &[(Day, Unit)]) -> bool
    ensures { IsTrue result ↔ DaysAscend days.now }
{
    days.is_sorted_by(|a, b| a.0 < b.0)
}

/// A book for each known day. Its rows are cut off the front of those that are left, and none may be left at the end.
fn cut_by_day(
    alloc: Global,
    stream: &Stream,
    days: &[(Day, Unit)],
    forms: &[Row],
    packs: &[Row],
) -> Result<Vec<DayBook>, Unavailable>
    requires { DaysAscend days.now }
    ensures { IfOk result (λ books. AreCut stream.now days.now forms.now packs.now books.items) }
{
    let mut books = Vec::with_capacity(alloc, days.len())?;
    let mut forms_left = forms;
    let mut packs_left = packs;
    for i in 0..days.len() {
        let (day, unit) = days[i];
        let (own_forms, later_forms) = forms_left.split_at(count_of_day(forms_left, day));
        let (own_packs, later_packs) = packs_left.split_at(count_of_day(packs_left, day));
        add_day(alloc, stream, day, unit, own_forms, own_packs, &mut books)?;
        forms_left = later_forms;
        packs_left = later_packs;
    }
    if !are_none(forms_left, packs_left) {
        return Err(Unavailable);
    }
    Ok(books)
}

/// Whether neither table has a row.
pub(crate) fn are_none(forms: &[Row], packs: &[Row]) -> bool
    ensures { IsTrue result ↔ ((forms.now ≡ []) × (packs.now ≡ [])) }
{
    forms.is_empty() && packs.is_empty()
}

/// Adds the book of a day. A day without a row in either table isn't known, and has no book.
fn add_day(
    alloc: Global,
    stream: &Stream,
    day: Day,
    unit: Unit,
    forms: &[Row],
    packs: &[Row],
    books: &mut Vec<DayBook>,
) -> Result<(), Unavailable>
    ensures { OnOk result (AddsDay stream.now day unit forms.now packs.now books.old.items books.new.items) }
{
    if are_none(forms, packs) {
        return Ok(());
    }
    let book = book_of(alloc, stream, day, unit, forms, packs)?;
    books.push(book)?;
    Ok(())
}

/// How many rows at the front are of a day.
fn count_of_day(rows: &[Row], day: Day) -> usize
    ensures few { result ≤ length rows.now }
    ensures alike { AreOfDay day (take result rows.now) }
    ensures next { (row : RowValue) (later : List RowValue) → drop result rows.now ≡ row ∷ later → column row 2 ≢ number_cell day }
{
    for i in 0..rows.len() {
        let is_alike = is_of_day(&rows[i], day);
        if !is_alike {
            return i;
        }
    }
    rows.len()
}

/// Whether a row is of a day.
fn is_of_day(row: &Row, day: Day) -> bool
    ensures yes { IsTrue result → natural_at row.now 2 ≡ day }
    ensures no { OnFalse result (column row.now 2 ≢ number_cell day) }
{
    // For the proof: a day's number is at most that of the last day.
    let _ = day.number();
    match day_at(row, 2) {
        Some(found) => found == day,
        None => false,
    }
}
