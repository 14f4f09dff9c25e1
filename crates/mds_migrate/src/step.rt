//! A step of a migration, in one transaction.

ghost use Rattle.std.specs.Prelude.{◌≡◌, false, IfErr, IfOk, IsTrue, OnErr, OnOk};
ghost use Rattle.sqlite.specs.Held.{state};
ghost use Rattle.sqlite.specs.State.{HasCleanDisk, KeepsCommit, Survives};
ghost use Rattle.mds_migrate.specs.Migrated.{HoldsFrom, IsFor, IsTaken, LeavesTaken, LeavesWritten, Step, TakesOn, Writes};

use crate::outcome::{MigrateFault, Migrated};
use mds_keeper::Unavailable;
use mds_tables::{or_unavailable, ready};
use sqlite::{Alter, Connection, Transaction};
use std::alloc::Global;

/// A step of a migration.
pub(crate) trait Stage {
    /// From which stores it leads to which, and what becomes of their tables.
    ghost step: { Step };

    /// Does all parts of it in a transaction.
    fn take_on<S: Alter>(alloc: Global, tx: &mut Transaction<'_, S>) -> Result<(), Unavailable>
        ensures same_reference { tx.new.conn.ghost_name ≡ tx.old.conn.ghost_name }
        ensures moves { TakesOn step (state S.Store tx.old.conn.now) (state S.Store tx.new.conn.now) result };
}

/// Does it in a transaction of its own.
fn write<T: Stage, S: Alter>(alloc: Global, conn: &mut Connection<S>) -> Result<(), Unavailable>
    requires mode { conn.old.in_transaction ≡ false }
    ensures ok { HasCleanDisk (state S.Store conn.new) → OnOk result (Writes T.step (state S.Store conn.old) (state S.Store conn.new)) }
    ensures err { HasCleanDisk (state S.Store conn.new) → IsTrue (state S.Store conn.old).is_open → IsFor T.step (state S.Store conn.old).now
        → OnErr result (KeepsCommit (state S.Store conn.old) (state S.Store conn.new)) }
    ensures mode { conn.new.in_transaction ≡ false }
    ensures survives { Survives (state S.Store conn.old) (state S.Store conn.new) (LeavesWritten T.step (state S.Store conn.old)) }
{
    let mut tx = conn.transaction();
    T::take_on(alloc, &mut tx)?;
    or_unavailable(tx.commit())?;
    Ok(())
}

/// Does it to a store that it is for. It is done whole, or nothing is changed.
pub(crate) fn take_step<T: Stage, S: Alter>(
    alloc: Global,
    conn: &mut Connection<S>,
) -> Result<Migrated, MigrateFault>
    requires mode { conn.old.in_transaction ≡ false }
    ensures done { IfOk result (λ it. HasCleanDisk (state S.Store conn.new) → HoldsFrom T.step (state S.Store conn.old)
        → (it ≡ Migrated.Done) × IsTaken T.step (state S.Store conn.old) (state S.Store conn.new)) }
    ensures err { IfErr result (λ e. HasCleanDisk (state S.Store conn.new) → HoldsFrom T.step (state S.Store conn.old)
        → (e ≡ MigrateFault.Unavailable) × KeepsCommit (state S.Store conn.old) (state S.Store conn.new)) }
    ensures mode { conn.new.in_transaction ≡ false }
    ensures survives { HoldsFrom T.step (state S.Store conn.old)
        → Survives (state S.Store conn.old) (state S.Store conn.new) (LeavesTaken T.step (state S.Store conn.old)) }
{
    // decides: U1: a migration fails
    ready(conn)?;
    write::<T, S>(alloc, conn)?;
    Ok(Migrated::Done)
}
