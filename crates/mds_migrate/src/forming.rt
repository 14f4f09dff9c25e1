//! The step from schema 3 to schema 4: each update of a day that has a version gets a head of its own.

ghost use Rattle.std.specs.Prelude.{◌≡◌, ◌∷◌, [], IfOk, IsTrue, OnOk};
ghost use Rattle.std.specs.List.{AllPairs};
ghost use Rattle.sqlite.specs.Held.{state};
ghost use Rattle.mds_tables.specs.Frames.{Frames};
ghost use Rattle.mds_pack_rows.specs.FormTables.{schema_4};
ghost use Rattle.mds_migrate.specs.Forming.{Forms, FormsDays, IsBefore, PutsForms, SaysForm, form_of};
ghost use Rattle.mds_migrate.specs.Migrated.{forming};

use crate::packing::all_heads;
use crate::statements::{clear_lengths, raise_version};
use crate::step::Stage;
use mds_commit::FormTable;
use mds_keeper::{Head, StreamDay, Unavailable};
use mds_pack_rows::{make_table, packs_of_day, readings_for};
use mds_tables::{head_in, moment_at, or_unavailable, put_each, told};
use sqlite::{Alter, Row, Transaction};
use std::alloc::Global;
use std::slice::from_ref;

/// From a head of each day to one of each update of it.
pub(crate) struct Forming;

impl Stage for Forming {
    ghost step = { forming };

    fn take_on<S: Alter>(alloc: Global, tx: &mut Transaction<'_, S>) -> Result<(), Unavailable> {
        // decides: what does a step of a migration do?
        or_unavailable(make_table(tx, 10))?;
        form_days(alloc, tx)?;
        clear_lengths(tx)?;
        raise_version(tx, 4)
    }
}

/// Puts the heads of all days. Unavailable if there is a row that the store didn't write. Two heads of one day are such rows, and so is
/// a body that isn't one of its day's length with a reading.
fn form_days<S: Alter>(alloc: Global, tx: &mut Transaction<'_, S>) -> Result<(), Unavailable>
    ensures same_reference { tx.new.conn.ghost_name ≡ tx.old.conn.ghost_name }
    ensures frames { Frames schema_4 (λ _. Forms (state S.Store tx.old.conn.now) (state S.Store tx.new.conn.now)) (state S.Store tx.old.conn.now) (state S.Store tx.new.conn.now) result }
{
    let days = all_heads(tx)?;
    let are_sorted = are_in_order(days.as_slice());
    if !are_sorted {
        return Err(Unavailable);
    }
    for row in days.as_slice() {
        form_day(alloc, tx, row)?;
    }
    Ok(())
}

/// Whether the row of a head shows an earlier day than another, by stream and then by day.
fn is_before(a: &Row, b: &Row) -> bool
    ensures { IsTrue result → IsBefore a.now b.now }
{
    let Some(a) = head_in(a) else {
        return false;
    };
    let Some(b) = head_in(b) else {
        return false;
    };
    let a = StreamDay {
        stream: a.stream,
        day: a.day,
    };
    let b = StreamDay {
        stream: b.stream,
        day: b.day,
    };
    a.cmp(&b).is_lt()
}

/// Whether rows of heads show their days in order, each once.
fn are_in_order(rows: &[Row]) -> bool
    ensures { IsTrue result → AllPairs IsBefore rows.now }
{
    for k in 1..rows.len() {
        let is_next = is_before(&rows[k - 1], &rows[k]);
        if !is_next {
            return false;
        }
    }
    true
}

/// Puts the heads of the day whose head is shown.
fn form_day<S: Alter>(
    alloc: Global,
    tx: &mut Transaction<'_, S>,
    row: &Row,
) -> Result<(), Unavailable>
    ensures same_reference { tx.new.conn.ghost_name ≡ tx.old.conn.ghost_name }
    ensures frames { Frames schema_4 (λ _. FormsDays (state S.Store tx.old.conn.now) (state S.Store tx.new.conn.now) (row.now ∷ [])) (state S.Store tx.old.conn.now) (state S.Store tx.new.conn.now) result }
{
    let head = told(head_in(row))?;
    let packs = packs_of_day(tx, &head.stream, head.day)?;
    // For the proof: a day's number is at most that of the last day.
    let _ = head.day.number();
    form_each(alloc, tx, &head, packs.as_slice())
}

/// Puts a head of a day for each of its rows of mds_pack.
fn form_each<S: Alter>(
    alloc: Global,
    tx: &mut Transaction<'_, S>,
    head: &Head,
    packs: &[Row],
) -> Result<(), Unavailable>
    ensures same_reference { tx.new.conn.ghost_name ≡ tx.old.conn.ghost_name }
    ensures frames { Frames schema_4 (λ _. PutsForms (state S.Store tx.old.conn.now) (state S.Store tx.new.conn.now) head.now packs.now) (state S.Store tx.old.conn.now) (state S.Store tx.new.conn.now) result }
{
    for pack in packs {
        let form = form_in(alloc, head, pack)?;
        or_unavailable(put_each::<(), Head, FormTable, S>(alloc, tx, &(), from_ref(&form)))?;
    }
    Ok(())
}

/// The head of a day under the update that a row of mds_pack shows. Unavailable if the body isn't one of a day of that length, or has
/// no reading.
fn form_in(alloc: Global, head: &Head, pack: &Row) -> Result<Head, Unavailable>
    ensures is { IfOk result (λ form. form ≡ form_of head.now pack.now) }
    ensures says { OnOk result (SaysForm head.now pack.now) }
{
    // decides: which length does a migration give an update? (definition: IsFormedOf in mds_migrate/specs/OldHeads.antt)
    let update = told(moment_at(pack, 0))?;
    told(readings_for(alloc, head.length, pack, 1)?)?;
    Ok(Head {
        stream: head.stream,
        day: head.day,
        update,
        length: head.length,
        unit: head.unit,
    })
}
