//! Rows that are put into a table, whatever it is, in a transaction.

ghost use Rattle.std.specs.Prelude.{◌≡◌, ◌<◌, [], ◌∷◌, ◌++◌, IfOk, OnOk, length};
ghost use Rattle.std.specs.List.{flat_map};
ghost use Rattle.sqlite.specs.Held.{state};
ghost use Rattle.sqlite.specs.Values.{bound};
ghost use Rattle.mds_tables.specs.Tables.{More, schema_with};
ghost use Rattle.mds_tables.specs.Parts.{in_turn, singly, statements_of};
ghost use Rattle.mds_tables.specs.Tabling.{IsInsert, IsTabled, Tabling, part_in};
ghost use Rattle.mds_tables.specs.Writing.{PutsEach};

use sqlite::types::ValueRef;
use sqlite::{Alter, Error, Transaction};
use std::alloc::{AllocError, Global};
use std::slice::from_ref;

/// How many rows one statement puts, if enough are left. A statement of one row spends half of its time on other things than
/// the row.
pub const TOGETHER: usize = 16;

/// The most columns that a row of a table has. So many are made room for at once.
const MOST_COLUMNS: usize = 9;

/// A table in which things `A` are rows. All rows that are put at once may share something, `W`.
pub trait Tabled<W, A> {
    /// The table, as data.
    ghost tabling: { W → Tabling A };

    /// The text that puts one row.
    fn one() -> &'static str
        ensures { (w : W) → result.now ≡ (tabling w).one };

    /// The text that puts several rows.
    fn many() -> &'static str
        ensures { (w : W) → result.now ≡ (tabling w).many };

    /// Adds the columns of a row.
    fn add_cells<'a>(
        item: &'a A,
        with: &'a W,
        cells: &mut Vec<ValueRef<'a>>,
    ) -> Result<(), AllocError>
        ensures { OnOk result (bound cells.new.items ≡ bound cells.old.items ++ (tabling with.now).cells item.now) };

    /// What is said of the table is so.
    ghost is: { (w : W) (rest : More) → IsTabled (tabling w) rest };
}

/// The columns of rows.
fn cells_of<'a, W, A, T: Tabled<W, A>>(
    alloc: Global,
    with: &'a W,
    items: &'a [A],
) -> Result<Vec<ValueRef<'a>>, AllocError>
    ensures { IfOk result (λ cells. bound cells.items ≡ flat_map (T.tabling with.now).cells items.now) }
{
    let mut cells = Vec::with_capacity(alloc, items.len().saturating_mul(MOST_COLUMNS))?;
    for item in items {
        T::add_cells(item, with, &mut cells)?;
    }
    Ok(cells)
}

/// Puts rows with one statement, whose text puts so many. If there is no memory for their columns, the error is that of a store
/// without memory.
fn put_some<W, A, T: Tabled<W, A>, S: Alter>(
    alloc: Global,
    tx: &mut Transaction<'_, S>,
    text: &str,
    with: &W,
    items: &[A],
) -> Result<(), Error>
    requires some { 0 < length items.now }
    ensures same_reference { tx.new.conn.ghost_name ≡ tx.old.conn.ghost_name }
    ensures puts { (rest : More) → IsInsert ((T.tabling with.now).behind rest) (T.tabling with.now).place (T.tabling with.now).width (length items.now) text.now
        → PutsEach (schema_with ((T.tabling with.now).behind rest)) (part_in (T.tabling with.now)) (statements_of (part_in (T.tabling with.now)) (items.now ∷ [])) (state S.Store tx.old.conn.now) (state S.Store tx.new.conn.now) result items.now }
{
    let cells = cells_of::<W, A, T>(alloc, with, items)?;
    tx.execute(text, cells.as_slice())?;
    Ok(())
}

/// Puts rows one by one.
pub fn put_each<W, A, T: Tabled<W, A>, S: Alter>(
    alloc: Global,
    tx: &mut Transaction<'_, S>,
    with: &W,
    items: &[A],
) -> Result<(), Error>
    ensures same_reference { tx.new.conn.ghost_name ≡ tx.old.conn.ghost_name }
    ensures puts { (rest : More) → PutsEach (schema_with ((T.tabling with.now).behind rest)) (part_in (T.tabling with.now)) (singly (part_in (T.tabling with.now)) items.now) (state S.Store tx.old.conn.now) (state S.Store tx.new.conn.now) result items.now }
{
    for item in items {
        put_some::<W, A, T, S>(alloc, tx, T::one(), with, from_ref(item))?;
    }
    Ok(())
}

/// Puts rows, so many in turn with one statement.
pub fn put_all<W, A, T: Tabled<W, A>, S: Alter>(
    alloc: Global,
    tx: &mut Transaction<'_, S>,
    with: &W,
    items: &[A],
) -> Result<(), Error>
    ensures same_reference { tx.new.conn.ghost_name ≡ tx.old.conn.ghost_name }
    ensures puts { (rest : More) → PutsEach (schema_with ((T.tabling with.now).behind rest)) (part_in (T.tabling with.now)) (in_turn (part_in (T.tabling with.now)) items.now) (state S.Store tx.old.conn.now) (state S.Store tx.new.conn.now) result items.now }
{
    let count = items.len() / TOGETHER;
    for k in 0..count {
        put_some::<W, A, T, S>(
            alloc,
            tx,
            T::many(),
            with,
            &items[k * TOGETHER..(k + 1) * TOGETHER],
        )?;
    }
    put_each::<W, A, T, S>(alloc, tx, with, &items[count * TOGETHER..])
}
