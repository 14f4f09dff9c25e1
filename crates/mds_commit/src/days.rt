//! Reads a day of a store. A store that can't answer is unavailable (U1), and so is one with a row that it didn't write.

ghost use Rattle.std.specs.Prelude.{◌≡◌, ◌∷◌, [], false, IfOk};
ghost use Rattle.sqlite.specs.Held.{state};
ghost use Rattle.sqlite_value.specs.Order.{Row as RowValue};
ghost use Rattle.mds_quantity.specs.declared.unit.Unit.{Unit as MeasureUnit};
ghost use Rattle.mds_keeper.specs.Books.{IsDay};
ghost use Rattle.mds_tables.specs.Queries.{Answers};
ghost use Rattle.mds_tables.specs.RowFacts.{text_at, unit_named};
ghost use Rattle.mds_tables.specs.Stores.{HoldsOf};
ghost use Rattle.mds_pack_rows.specs.Current.{current_layout, current_world};
ghost use Rattle.mds_commit.specs.FormRows.{IsBookOf};

use crate::books::book_of;
use crate::ranges::are_none;
use crate::statements::{form_rows, pack_rows, unit_rows};
use mds_keeper::{DayBook, Unavailable};
use mds_tables::{or_unavailable, ready, told, unit_at};
use mds_terms::{Day, Stream};
use sqlite::{Alter, Connection, Row};
use std::alloc::Global;

/// A day of a stream with all its heads and versions. It is known if mds_form has a row of it.
pub fn day_of<S: Alter>(
    alloc: Global,
    conn: &mut Connection<S>,
    stream: &Stream,
    day: Day,
) -> Result<DayBook, Unavailable>
    requires { conn.old.in_transaction ≡ false }
    ensures book { Answers (HoldsOf current_layout) (state S.Store conn.old) (state S.Store conn.new) result
        (λ trees book. IsDay (current_world trees) book) }
    ensures of_day { IfOk result (λ book. (book.stream ≡ stream.now) × (book.day ≡ day)) }
{
    or_unavailable(ready(conn))?;
    let forms = or_unavailable(form_rows(conn, stream, day))?;
    let packs = or_unavailable(pack_rows(conn, stream, day))?;
    // For the proof: a day's number is at most that of the last day.
    let _ = day.number();
    if are_none(&forms, &packs) {
        return Ok(unknown_day(alloc, stream, day));
    }
    let units = or_unavailable(unit_rows(conn, stream, day))?;
    known_day(alloc, stream, day, &units, &forms, &packs)
}

/// The book of a day without a row of either table.
fn unknown_day(alloc: Global, stream: &Stream, day: Day) -> DayBook
    ensures { (unit : MeasureUnit) → IsBookOf stream.now day unit [] [] result }
{
    DayBook::unknown(alloc, *stream, day)
}

/// The book of a day with these rows. Its unit is that of the only row of mds_head, and a day without just one such row is
/// unavailable.
fn known_day(
    alloc: Global,
    stream: &Stream,
    day: Day,
    units: &[Row],
    forms: &[Row],
    packs: &[Row],
) -> Result<DayBook, Unavailable>
    ensures { IfOk result (λ book. (row : RowValue) × (units.now ≡ row ∷ [])
        × IsBookOf stream.now day (unit_named (text_at row 0)) forms.now packs.now book) }
{
    let [row] = units else {
        return Err(Unavailable);
    };
    let unit = told(unit_at(row, 0))?;
    book_of(alloc, stream, day, unit, forms, packs)
}
