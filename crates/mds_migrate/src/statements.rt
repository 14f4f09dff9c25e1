//! The statements that end a schema.

ghost use Rattle.std.specs.Prelude.{◌≡◌, ◌≢◌, [], ◌∷◌, OnErr, OnOk};
ghost use Rattle.sqlite.specs.Held.{state};
ghost use Rattle.sqlite.specs.State.{HasCleanDisk, KeepsCommit, Survives};
ghost use Rattle.sqlite.specs.Values.{bound};
ghost use Rattle.sqlite.specs.declared.types.Value.TheVariants.{Int};
ghost use Rattle.mds_tables.specs.Tables.{detail_tree, schema_with, version_tree};
ghost use Rattle.mds_tables.specs.Frames.{Frames};
ghost use Rattle.mds_migrate.specs.Migrating.{Clears, ClearsLengths, Raises, RaisesRow};
ghost use Rattle.mds_pack_rows.specs.DailyTables.{schema_3};
ghost use Rattle.mds_pack_rows.specs.FormTables.{schema_4};
ghost use Rattle.mds_pack_rows.specs.PackTables.{Behind, packs_then, schema_2};
ghost use Rattle.mds_pack_rows.specs.Putting.{GoesOn, IsThere};

use mds_keeper::Unavailable;
use mds_tables::{int_at, or_unavailable, told};
use sqlite::types::ValueRef;
use sqlite::{Alter, Row, Transaction};

/// Removes all rows of mds_version. Unavailable if one is left.
pub(crate) fn clear_versions<S: Alter>(tx: &mut Transaction<'_, S>) -> Result<(), Unavailable>
    ensures same_reference { tx.new.conn.ghost_name ≡ tx.old.conn.ghost_name }
    ensures frames { Frames schema_2 (λ _. Clears version_tree (state S.Store tx.old.conn.now) (state S.Store tx.new.conn.now)) (state S.Store tx.old.conn.now) (state S.Store tx.new.conn.now) result }
{
    or_unavailable(tx.execute("DELETE FROM mds_version", &[]))?;
    let left = or_unavailable(tx.query_all("SELECT slot FROM mds_version", &[]))?;
    none_left(&left)
}

/// Removes all rows of mds_detail. Unavailable if one is left.
pub(crate) fn clear_details<S: Alter>(tx: &mut Transaction<'_, S>) -> Result<(), Unavailable>
    ensures same_reference { tx.new.conn.ghost_name ≡ tx.old.conn.ghost_name }
    ensures frames { Frames schema_3 (λ _. Clears detail_tree (state S.Store tx.old.conn.now) (state S.Store tx.new.conn.now)) (state S.Store tx.old.conn.now) (state S.Store tx.new.conn.now) result }
{
    or_unavailable(tx.execute("DELETE FROM mds_detail", &[]))?;
    let left = or_unavailable(tx.query_all("SELECT moment FROM mds_detail", &[]))?;
    none_left(&left)
}

/// Unavailable if a row is left.
fn none_left(rows: &[Row]) -> Result<(), Unavailable>
    ensures ok { OnOk result (rows.now ≡ []) }
    ensures err { OnErr result (rows.now ≢ []) }
{
    if rows.is_empty() {
        Ok(())
    } else {
        Err(Unavailable)
    }
}

/// Sets the length in each row of mds_head to 0.
pub(crate) fn clear_lengths<S: Alter>(tx: &mut Transaction<'_, S>) -> Result<(), Unavailable>
    ensures same_reference { tx.new.conn.ghost_name ≡ tx.old.conn.ghost_name }
    ensures frames { Frames schema_4 (λ _. ClearsLengths (state S.Store tx.old.conn.now) (state S.Store tx.new.conn.now)) (state S.Store tx.old.conn.now) (state S.Store tx.new.conn.now) result }
{
    or_unavailable(tx.execute("UPDATE mds_head SET length = 0", &[]))?;
    Ok(())
}

/// Makes mds_schema say this number. Unavailable unless it has just one row.
pub(crate) fn raise_version<S: Alter>(
    tx: &mut Transaction<'_, S>,
    number: i64,
) -> Result<(), Unavailable>
    ensures same_reference { tx.new.conn.ghost_name ≡ tx.old.conn.ghost_name }
    ensures frames { (rest : Behind) → Frames (schema_with (packs_then rest.more)) (λ _. Raises number (state S.Store tx.old.conn.now) (state S.Store tx.new.conn.now)) (state S.Store tx.old.conn.now) (state S.Store tx.new.conn.now) result }
{
    let rows = or_unavailable(tx.query_all("SELECT rowid FROM mds_schema", &[]))?;
    match rows.as_slice() {
        [row] => replace_version(tx, row, number),
        _ => Err(Unavailable),
    }
}

/// A rowid, and a number.
fn id_cells<'a>(id: i64, number: i64) -> [ValueRef<'a>; 2]
    ensures { bound result ≡ Int id ∷ Int number ∷ [] }
{
    [ValueRef::Int(id), ValueRef::Int(number)]
}

/// Sets the number in the row of mds_schema whose rowid is shown. Unavailable unless there is just one.
fn replace_version<S: Alter>(
    tx: &mut Transaction<'_, S>,
    shown: &Row,
    number: i64,
) -> Result<(), Unavailable>
    ensures same_reference { tx.new.conn.ghost_name ≡ tx.old.conn.ghost_name }
    ensures goes_on { OnOk result (GoesOn (state S.Store tx.old.conn.now) (state S.Store tx.new.conn.now)) }
    ensures ok { OnOk result (IsThere (state S.Store tx.old.conn.now) (state S.Store tx.new.conn.now)
        → RaisesRow number (state S.Store tx.old.conn.now) (state S.Store tx.new.conn.now) shown.now) }
    ensures kept { HasCleanDisk (state S.Store tx.new.conn.now) → KeepsCommit (state S.Store tx.old.conn.now) (state S.Store tx.new.conn.now) }
    ensures survives { Survives (state S.Store tx.old.conn.now) (state S.Store tx.new.conn.now) (λ _. ⊥) }
{
    let id = told(int_at(shown, 0))?;
    let count = or_unavailable(tx.execute(
        "UPDATE mds_schema SET version = ?2 WHERE rowid = ?1",
        &id_cells(id, number),
    ))?;
    let is_replaced = count == 1;
    if !is_replaced {
        return Err(Unavailable);
    }
    Ok(())
}
