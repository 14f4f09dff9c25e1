//! The step from schema 1 to schema 2: the versions of all days are packed.

ghost use Rattle.std.specs.Prelude.{◌≡◌, [], ◌∷◌};
ghost use Rattle.sqlite.specs.Held.{state};
ghost use Rattle.sqlite.specs.State.{IsUnchanged};
ghost use Rattle.mds_tables.specs.Cells.{day_cells as day_columns};
ghost use Rattle.mds_tables.specs.Stores.{Selects};
ghost use Rattle.mds_tables.specs.Tables.{More, head_columns, head_tree, schema_with, version_columns, version_tree};
ghost use Rattle.mds_tables.specs.Frames.{Frames};
ghost use Rattle.mds_migrate.specs.Migrated.{packing};
ghost use Rattle.mds_migrate.specs.Migrating.{Packs};
ghost use Rattle.mds_migrate.specs.Packing.{PacksDays};
ghost use Rattle.mds_pack_rows.specs.PackTables.{pack_tree, packs_then, schema_2};

use crate::statements::{clear_versions, raise_version};
use crate::step::Stage;
use mds_keeper::{DayVersions, Unavailable, VersionRows};
use mds_pack_rows::{make_table, put_day};
use mds_tables::{all_versions, day_cells, head_in, or_unavailable, told};
use mds_terms::{Day, Stream};
use sqlite::{Alter, Row, Transaction};
use std::alloc::Global;

/// From a row for each version to packed days.
pub(crate) struct Packing;

impl Stage for Packing {
    ghost step = { packing };

    fn take_on<S: Alter>(alloc: Global, tx: &mut Transaction<'_, S>) -> Result<(), Unavailable> {
        // decides: what does a step of a migration do?
        or_unavailable(make_table(tx, 8))?;
        pack_days(alloc, tx)?;
        clear_versions(tx)?;
        raise_version(tx, 2)
    }
}

/// Packs the versions of all days, if no day is packed yet. Each version takes the length of its day's head. Unavailable if a day has
/// a version of an interval that its length doesn't have, or a row that the store didn't write.
pub(crate) fn pack_days<S: Alter>(
    alloc: Global,
    tx: &mut Transaction<'_, S>,
) -> Result<(), Unavailable>
    ensures same_reference { tx.new.conn.ghost_name ≡ tx.old.conn.ghost_name }
    ensures frames { Frames schema_2 (λ _. (state S.Store tx.old.conn.now).now.trees pack_tree ≡ [] → Packs (state S.Store tx.old.conn.now) (state S.Store tx.new.conn.now)) (state S.Store tx.old.conn.now) (state S.Store tx.new.conn.now) result }
{
    let heads = all_heads(tx)?;
    for row in heads.as_slice() {
        pack_day_of(alloc, tx, row)?;
    }
    Ok(())
}

/// All heads, in the order of their days, stream by stream.
pub(crate) fn all_heads<S: Alter>(tx: &mut Transaction<'_, S>) -> Result<Vec<Row>, Unavailable>
    ensures same_reference { tx.new.conn.ghost_name ≡ tx.old.conn.ghost_name }
    ensures frames { (more : More) → Frames (schema_with (packs_then more)) (λ rows. IsUnchanged (state S.Store tx.old.conn.now) (state S.Store tx.new.conn.now)
        × Selects head_tree [] head_columns (state S.Store tx.old.conn.now).now.trees rows.items) (state S.Store tx.old.conn.now) (state S.Store tx.new.conn.now) result }
{
    or_unavailable(tx.query_all(
        "SELECT nmi, suffix, day, length, unit FROM mds_head ORDER BY nmi, suffix, day",
        &[],
    ))
}

/// The versions of a day, as rows of mds_version. Those of one update are adjacent, so that they are packed at once.
fn version_rows<S: Alter>(
    tx: &mut Transaction<'_, S>,
    stream: &Stream,
    day: Day,
) -> Result<Vec<Row>, Unavailable>
    ensures same_reference { tx.new.conn.ghost_name ≡ tx.old.conn.ghost_name }
    ensures frames { Frames schema_2 (λ rows. IsUnchanged (state S.Store tx.old.conn.now) (state S.Store tx.new.conn.now)
        × Selects version_tree (day_columns stream.now day) version_columns (state S.Store tx.old.conn.now).now.trees rows.items) (state S.Store tx.old.conn.now) (state S.Store tx.new.conn.now) result }
{
    or_unavailable(tx.query_all(
        "SELECT nmi, suffix, day, slot, moment, quality, code, note, amount FROM mds_version WHERE nmi = ?1 AND suffix = ?2 AND day = ?3 ORDER BY moment",
        &day_cells(stream, day),
    ))
}

/// Packs the versions of the day whose head is shown. They have its length.
fn pack_day_of<S: Alter>(
    alloc: Global,
    tx: &mut Transaction<'_, S>,
    row: &Row,
) -> Result<(), Unavailable>
    ensures same_reference { tx.new.conn.ghost_name ≡ tx.old.conn.ghost_name }
    ensures frames { Frames schema_2 (λ _. PacksDays (state S.Store tx.old.conn.now) (state S.Store tx.new.conn.now) (row.now ∷ [])) (state S.Store tx.old.conn.now) (state S.Store tx.new.conn.now) result }
{
    let head = told(head_in(row))?;
    let rows = version_rows(tx, &head.stream, head.day)?;
    let added = DayVersions {
        stream: head.stream,
        day: head.day,
        rows: VersionRows::Each(all_versions(alloc, head.length, rows.as_slice())?),
    };
    // For the proof: a day's number is at most that of the last day.
    let _ = head.day.number();
    put_day(alloc, tx, &added)
}
