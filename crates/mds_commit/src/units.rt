//! The units of days, read from mds_head.

ghost use Rattle.std.specs.Prelude.{◌≡◌, ◌<◌, ◌^◌, IsTrue, false};
ghost use Rattle.std.specs.List.{AllByRecursion};
ghost use Rattle.sqlite.specs.Held.{state};
ghost use Rattle.sqlite_sql.specs.Ops.{is_null};
ghost use Rattle.sqlite_value.specs.Order.{Row as Columns, column};
ghost use Rattle.mds_world.specs.Lists.{Member};
ghost use Rattle.mds_tables.specs.RowFacts.{text_at, unit_named};
ghost use Rattle.mds_commit.specs.FormPutting.{SayUnits};
ghost use Rattle.mds_commit.specs.Units.{AsksThere, HaveRowids, IsLike, SayUnit, ShowUnits, TellRowids};

use mds_keeper::Unavailable;
use mds_quantity::Unit;
use mds_tables::{TOGETHER, int_at, or_unavailable, range_cells, unit_at};
use mds_terms::{Day, Stream};
use mds_world::Head;
use sqlite::{Alter, Row, Transaction};

/// Heads of one stream are asked for at once if fewer than this many days are between them. Each row of these days is read.
const MOST_APART: i64 = 64;

/// Unavailable unless each row of mds_head on the day of one of these heads says the head's unit.
///
/// Heads of a stream are adjacent, by day. So a batch of them is asked for at once, if they have one unit and are near each other.
pub(crate) fn have_units<S: Alter>(
    tx: &mut Transaction<'_, S>,
    heads: &[Head],
) -> Result<(), Unavailable>
    ensures same_reference { tx.new.conn.ghost_name ≡ tx.old.conn.ghost_name }
    ensures asks { AsksThere (state S.Store tx.old.conn.now) (state S.Store tx.new.conn.now) result (λ _. SayUnits heads.now) }
{
    // decides: which unit does a row of `mds_form` have? (definition: unit_in in mds_pack_rows/specs/FormLayout.antt)
    let (batches, rest) = heads.as_chunks::<TOGETHER>();
    for batch in batches {
        have_batch(tx, batch)?;
    }
    have_each(tx, rest)
}

/// The same of a batch of heads.
fn have_batch<S: Alter>(
    tx: &mut Transaction<'_, S>,
    heads: &[Head; TOGETHER],
) -> Result<(), Unavailable>
    ensures same_reference { tx.new.conn.ghost_name ≡ tx.old.conn.ghost_name }
    ensures asks { AsksThere (state S.Store tx.old.conn.now) (state S.Store tx.new.conn.now) result (λ _. SayUnits heads.now) }
{
    let first = &heads[0];
    let last = heads[TOGETHER - 1].day;
    if last.number() >= first.day.number() + MOST_APART || !are_like(heads, first, last) {
        return have_each(tx, heads);
    }
    if has_only(tx, first, last)? {
        return Ok(());
    }
    // Another day between theirs may have another unit.
    have_each(tx, heads)
}

/// The same of heads one by one.
fn have_each<S: Alter>(tx: &mut Transaction<'_, S>, heads: &[Head]) -> Result<(), Unavailable>
    ensures same_reference { tx.new.conn.ghost_name ≡ tx.old.conn.ghost_name }
    ensures asks { AsksThere (state S.Store tx.old.conn.now) (state S.Store tx.new.conn.now) result (λ _. SayUnits heads.now) }
{
    for head in heads {
        let is_its = has_only(tx, head, head.day)?;
        if !is_its {
            return Err(Unavailable);
        }
    }
    Ok(())
}

/// Whether these heads have the stream and the unit of one head, on days from that head's to a last one.
fn are_like(heads: &[Head], first: &Head, last: Day) -> bool
    ensures { IsTrue result → AllByRecursion (IsLike first.now last) heads.now }
{
    match heads {
        [] => true,
        [head, rest @ ..] => is_like(head, first, last) && are_like(rest, first, last),
    }
}

/// Whether a head has the stream and the unit of another, on a day from that head's to a last one.
fn is_like(head: &Head, first: &Head, last: Day) -> bool
    ensures { IsTrue result → IsLike first.now last head.now }
{
    head.stream == first.stream
        && head.unit == first.unit
        && first.day.number() <= head.day.number()
        && head.day.number() <= last.number()
}

/// Unavailable unless each row of mds_head has a rowid. The tables wouldn't see that a row without one has the key of another row.
pub(crate) fn have_rowids<S: Alter>(tx: &mut Transaction<'_, S>) -> Result<(), Unavailable>
    ensures same_reference { tx.new.conn.ghost_name ≡ tx.old.conn.ghost_name }
    ensures asks { AsksThere (state S.Store tx.old.conn.now) (state S.Store tx.new.conn.now) result (λ _. HaveRowids) }
{
    let rows = least_rowid(tx)?;
    if !are_numbered(&rows) {
        return Err(Unavailable);
    }
    Ok(())
}

/// Whether each of these rows, of one column, has a number.
fn are_numbered(rows: &[Row]) -> bool
    ensures { IsTrue result → AllByRecursion (λ row. is_null (column row 0) ≡ false) rows.now }
{
    match rows {
        [] => true,
        [row] => is_numbered(row),
        _ => false,
    }
}

/// Whether a row of one column has a number.
#[tactic(auto, using(crate::proofs::RowidAsking::some_value))]
fn is_numbered(row: &Row) -> bool
    ensures { IsTrue result → is_null (column row.now 0) ≡ false }
{
    match int_at(row, 0) {
        Some(_) => true,
        None => false,
    }
}

/// The least rowid of mds_head. NULL is less than any number.
fn least_rowid<S: Alter>(tx: &mut Transaction<'_, S>) -> Result<Vec<Row>, Unavailable>
    ensures same_reference { tx.new.conn.ghost_name ≡ tx.old.conn.ghost_name }
    ensures asks { AsksThere (state S.Store tx.old.conn.now) (state S.Store tx.new.conn.now) result (λ rows. TellRowids rows.items) }
{
    or_unavailable(tx.query_all("SELECT rowid FROM mds_head ORDER BY rowid LIMIT 1", &[]))
}

/// For the proof: the day of each of these heads is at most the last possible one.
pub(crate) fn are_days(heads: &[Head])
    ensures { AllByRecursion (λ head. head.day < 2 ^ 63) heads.now }
{
    for head in heads {
        let _ = head.day.number();
    }
}

/// Whether each row of mds_head of a head's stream, from the head's day to a last one, says the head's unit.
fn has_only<S: Alter>(
    tx: &mut Transaction<'_, S>,
    first: &Head,
    last: Day,
) -> Result<bool, Unavailable>
    ensures same_reference { tx.new.conn.ghost_name ≡ tx.old.conn.ghost_name }
    ensures asks { AsksThere (state S.Store tx.old.conn.now) (state S.Store tx.new.conn.now) result
        (λ has trees. IsTrue has → SayUnit first.now.stream first.now.day last first.now.unit trees) }
{
    let rows = units_in_range(tx, &first.stream, first.day, last)?;
    Ok(say_only(&rows, first.unit))
}

/// Whether each of these rows, of one column, says this unit.
fn say_only(rows: &[Row], unit: Unit) -> bool
    ensures { IsTrue result → (row : Columns) → Member row rows.now → unit_named (text_at row 0) ≡ unit }
{
    for row in rows {
        if !says(row, unit) {
            return false;
        }
    }
    true
}

/// Whether a row of one column says this unit.
fn says(row: &Row, unit: Unit) -> bool
    ensures { IsTrue result → unit_named (text_at row.now 0) ≡ unit }
{
    match unit_at(row, 0) {
        Some(found) => found == unit,
        None => false,
    }
}

/// The units that mds_head says of the days of a stream in a range.
fn units_in_range<S: Alter>(
    tx: &mut Transaction<'_, S>,
    stream: &Stream,
    first: Day,
    last: Day,
) -> Result<Vec<Row>, Unavailable>
    ensures same_reference { tx.new.conn.ghost_name ≡ tx.old.conn.ghost_name }
    ensures asks { AsksThere (state S.Store tx.old.conn.now) (state S.Store tx.new.conn.now) result (λ rows. ShowUnits stream.now first last rows.items) }
{
    // For the proof: a day's number is at most that of the last possible day.
    let _ = last.number();
    or_unavailable(tx.query_all(
        "SELECT unit FROM mds_head WHERE nmi = ?1 AND suffix = ?2 AND day >= ?3 AND day <= ?4",
        &range_cells(stream, first, last),
    ))
}
