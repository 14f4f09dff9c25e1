//! Commits additions to a store of the current schema.

ghost use Rattle.std.specs.Prelude.{◌≡◌, false, OnErr, OnOk};
ghost use Rattle.sqlite.specs.Held.{state};
ghost use Rattle.sqlite.specs.State.{HasCleanDisk, KeepsCommit, Survives};
ghost use Rattle.mds_keeper.specs.Content.{heads_of};
ghost use Rattle.mds_tables.specs.Stores.{AreRowsOf, CommitsOf, HoldsOf, LeavesAddedOf};
ghost use Rattle.mds_tables.specs.Frames.{Frames, IsAt};
ghost use Rattle.mds_tables.specs.MadeRows.{IsRowOfJob, IsRowOfPeriod};
ghost use Rattle.mds_tables.specs.Writing.{HasAddedOf, LeavesWrittenOf, Puts, PutsOwn, WritesOf};
ghost use Rattle.mds_pack_rows.specs.Current.{current_layout, current_schema};
ghost use Rattle.mds_commit.specs.Committing.{PutsDays};
ghost use Rattle.mds_commit.specs.FormPutting.{GainsForms, form_part};

use crate::forms::FormTable;
use crate::units::{are_days, have_rowids, have_units};
use mds_keeper::{Additions, Unavailable};
use mds_pack_rows::{put_days, put_details};
use mds_tables::{HeadTable, JobRow, PeriodRow, or_unavailable, put_all, put_rest, ready};
use mds_world::Head;
use sqlite::{Alter, Connection, Transaction};
use std::alloc::Global;

/// Puts the rows of new days, and tests that mds_head says the unit of each other head. So the earlier heads keep their units. The
/// row of a new day says its unit, as no other row has its key.
fn put_new_days<S: Alter>(
    alloc: Global,
    tx: &mut Transaction<'_, S>,
    additions: &Additions,
) -> Result<(), Unavailable>
    ensures same_reference { tx.new.conn.ghost_name ≡ tx.old.conn.ghost_name }
    ensures frames { Frames current_schema (λ _. PutsDays (state S.Store tx.old.conn.now) (state S.Store tx.new.conn.now) additions.now) (state S.Store tx.old.conn.now) (state S.Store tx.new.conn.now) result }
{
    or_unavailable(put_all::<(), Head, HeadTable, S>(alloc, tx, &(), &additions.new_days))?;
    have_rowids(tx)?;
    are_days(&additions.new_days);
    have_units(tx, &additions.heads)
}

/// Puts a row for each head. Its versions are there already, since the row refers to theirs.
fn put_all_forms<S: Alter>(
    alloc: Global,
    tx: &mut Transaction<'_, S>,
    additions: &Additions,
) -> Result<(), Unavailable>
    ensures same_reference { tx.new.conn.ghost_name ≡ tx.old.conn.ghost_name }
    ensures frames { Frames current_schema (λ _. Puts current_schema form_part (state S.Store tx.old.conn.now) (state S.Store tx.new.conn.now) (heads_of additions.now)) (state S.Store tx.old.conn.now) (state S.Store tx.new.conn.now) result }
{
    let new_days = &additions.new_days;
    let heads = &additions.heads;
    or_unavailable(put_all::<(), Head, FormTable, S>(alloc, tx, &(), new_days))?;
    or_unavailable(put_all::<(), Head, FormTable, S>(alloc, tx, &(), heads))
}

/// Puts heads, versions and details of days. New days come first, since rows of mds_pack and mds_daydetail refer to them.
fn put_own<S: Alter>(
    alloc: Global,
    tx: &mut Transaction<'_, S>,
    additions: &Additions,
) -> Result<(), Unavailable>
    ensures same_reference { tx.new.conn.ghost_name ≡ tx.old.conn.ghost_name }
    ensures frames { Frames current_schema (λ _. PutsOwn current_layout GainsForms (state S.Store tx.old.conn.now) (state S.Store tx.new.conn.now) additions.now) (state S.Store tx.old.conn.now) (state S.Store tx.new.conn.now) result }
{
    put_new_days(alloc, tx, additions)?;
    put_days(
        alloc,
        tx,
        &additions.new_days,
        &additions.heads,
        &additions.days,
    )?;
    put_all_forms(alloc, tx, additions)?;
    put_details(alloc, tx, &additions.details)
}

/// Puts all additions.
fn put_additions<S: Alter>(
    alloc: Global,
    tx: &mut Transaction<'_, S>,
    additions: &Additions,
    periods: &[PeriodRow],
    jobs: &[JobRow],
) -> Result<(), Unavailable>
    requires periods { AreRowsOf IsRowOfPeriod additions.now.periods.items periods.now }
    requires jobs { AreRowsOf IsRowOfJob additions.now.jobs.items jobs.now }
    ensures same_reference { tx.new.conn.ghost_name ≡ tx.old.conn.ghost_name }
    ensures frames { Frames current_schema (λ _. HasAddedOf current_layout GainsForms additions.now (state S.Store tx.old.conn.now).now.trees (state S.Store tx.new.conn.now).now.trees) (state S.Store tx.old.conn.now) (state S.Store tx.new.conn.now) result }
{
    put_own(alloc, tx, additions)?;
    or_unavailable(put_rest(alloc, tx, additions, periods, jobs))
}

/// Puts all additions in a transaction of its own.
fn write<S: Alter>(
    alloc: Global,
    conn: &mut Connection<S>,
    additions: &Additions,
    periods: &[PeriodRow],
    jobs: &[JobRow],
) -> Result<(), Unavailable>
    requires mode { conn.old.in_transaction ≡ false }
    requires periods { AreRowsOf IsRowOfPeriod additions.now.periods.items periods.now }
    requires jobs { AreRowsOf IsRowOfJob additions.now.jobs.items jobs.now }
    ensures ok { HasCleanDisk (state S.Store conn.new) → OnOk result (WritesOf current_layout GainsForms (state S.Store conn.old) (state S.Store conn.new) additions.now) }
    ensures err { HasCleanDisk (state S.Store conn.new) → IsAt current_schema (state S.Store conn.old)
        → OnErr result (KeepsCommit (state S.Store conn.old) (state S.Store conn.new)) }
    ensures mode { conn.new.in_transaction ≡ false }
    ensures survives { Survives (state S.Store conn.old) (state S.Store conn.new) (LeavesWrittenOf current_layout GainsForms (state S.Store conn.old) additions.now) }
{
    let mut tx = conn.transaction();
    put_additions(alloc, &mut tx, additions, periods, jobs)?;
    or_unavailable(tx.commit())?;
    Ok(())
}

/// Commits additions to the World that a store of the current schema keeps: all of them, or nothing. A crash leaves what was kept,
/// or that with all of them. The caller passes the rows of accumulations and jobs (`period_rows`, `job_rows` of `mds_tables`). Also
/// unavailable if mds_head says another unit of the day of a head.
pub fn commit<S: Alter>(
    alloc: Global,
    conn: &mut Connection<S>,
    additions: &Additions,
    periods: &[PeriodRow],
    jobs: &[JobRow],
) -> Result<(), Unavailable>
    requires mode { conn.old.in_transaction ≡ false }
    requires periods { AreRowsOf IsRowOfPeriod additions.now.periods.items periods.now }
    requires jobs { AreRowsOf IsRowOfJob additions.now.jobs.items jobs.now }
    ensures ok { HasCleanDisk (state S.Store conn.new) → HoldsOf current_layout (state S.Store conn.old)
        → OnOk result (CommitsOf current_layout GainsForms (state S.Store conn.old) (state S.Store conn.new) additions.now) }
    ensures err { HasCleanDisk (state S.Store conn.new) → HoldsOf current_layout (state S.Store conn.old)
        → OnErr result (KeepsCommit (state S.Store conn.old) (state S.Store conn.new)) }
    ensures mode { conn.new.in_transaction ≡ false }
    ensures survives { HoldsOf current_layout (state S.Store conn.old)
        → Survives (state S.Store conn.old) (state S.Store conn.new) (LeavesAddedOf current_layout GainsForms (state S.Store conn.old) additions.now) }
{
    or_unavailable(ready(conn))?;
    write(alloc, conn, additions, periods, jobs)
}
