//! The migration, step by step.

ghost use Rattle.std.specs.Prelude.{◌≡◌, ◌⊎◌, false, IfErr, IfOk, IsTrue};
ghost use Rattle.sqlite.specs.Held.{state};
ghost use Rattle.sqlite.specs.State.{HasCleanDisk, KeepsCommit, Survives};
ghost use Rattle.mds_tables.specs.Tables.{schema_1};
ghost use Rattle.mds_pack_rows.specs.Current.{current_schema};
ghost use Rattle.mds_pack_rows.specs.DailyTables.{schema_3};
ghost use Rattle.mds_pack_rows.specs.PackTables.{schema_2};
ghost use Rattle.mds_store.specs.CurrentStore.{IsCurrentStore};
ghost use Rattle.mds_migrate.specs.Migrated.{Answered, IsRefused, LeavesMigrated, LeavesSteps, TakesOne, TakesSteps, TakesTwo};

use crate::dating::Dating;
use crate::forming::Forming;
use crate::observing::{StepObserver, Unobserved};
use crate::outcome::{MigrateFault, Migrated};
use crate::packing::Packing;
use crate::step::take_step;
use mds_pack_rows::{CURRENT, has_schema};
use mds_store::{are_current, are_daily, are_packed};
use mds_tables::is_version;
use sqlite::{Alter, Connection};
use std::alloc::Global;

/// Takes a store to the current schema, one step after another. A refused step ends it, and the earlier steps stay done. If a step was done before a
/// failure, the answer is U1. A crash leaves the store as it was, or what some of the steps make of it, whole. Each step
/// begins with a call of the observer.
pub fn migrate_all<S: Alter, O: StepObserver>(
    alloc: Global,
    conn: &mut Connection<S>,
    observer: &mut O,
) -> Result<Migrated, MigrateFault>
    ensures current { IfOk result (λ it. HasCleanDisk (state S.Store conn.new) → IsCurrentStore (state S.Store conn.new).committed) }
    ensures same { IfOk result (λ it. it ≡ Migrated.AlreadyCurrent → HasCleanDisk (state S.Store conn.new)
        → IsCurrentStore (state S.Store conn.old).committed × KeepsCommit (state S.Store conn.old) (state S.Store conn.new)) }
    ensures taken { IfOk result (λ it. it ≡ Migrated.Done → HasCleanDisk (state S.Store conn.new)
        → TakesSteps (state S.Store conn.old).committed (state S.Store conn.new).committed.trees) }
    ensures stopped { IfErr result (λ e. HasCleanDisk (state S.Store conn.new) → IsRefused (state S.Store conn.old) (state S.Store conn.new) e
        ⊎ ((e ≡ MigrateFault.Unavailable) × (IsTrue (state S.Store conn.new).is_open
        → TakesOne (state S.Store conn.old).committed (state S.Store conn.new).committed.trees
        ⊎ TakesTwo (state S.Store conn.old).committed (state S.Store conn.new).committed.trees))) }
    ensures mode { conn.new.in_transaction ≡ conn.old.in_transaction }
    ensures survives { Survives (state S.Store conn.old) (state S.Store conn.new) (LeavesSteps (state S.Store conn.old)) }
{
    match next_step(alloc, conn, observer) {
        Ok(Migrated::Done) => match next_step(alloc, conn, observer) {
            // There are at most three steps.
            Ok(Migrated::Done) => match next_step(alloc, conn, observer) {
                Ok(_) => Ok(Migrated::Done),
                Err(fault) => Err(fault),
            },
            Ok(Migrated::AlreadyCurrent) => Ok(Migrated::Done),
            Err(fault) => Err(fault),
        },
        Ok(Migrated::AlreadyCurrent) => Ok(Migrated::AlreadyCurrent),
        Err(fault) => Err(fault),
    }
}

/// Takes a store one step further. From schema 1 it goes to packed days (schema 2), with all versions. From schema 2 it goes to details of
/// days (schema 3): each known day has the details that its stream had. From schema 3 it goes to heads of updates (schema 4): each update
/// that has versions has a head, with its day's length and unit.
///
/// The step is whole, or nothing is changed. A crash leaves the store as it was, or that of the next schema. All heads of days are held in
/// memory, and the versions of one day at a time. A connection in a transaction stays as it is (U1).
pub fn migrate<S: Alter>(alloc: Global, conn: &mut Connection<S>) -> Result<Migrated, MigrateFault>
    ensures done { IfOk result (λ it. HasCleanDisk (state S.Store conn.new) → Answered (state S.Store conn.old) (state S.Store conn.new) it) }
    ensures err { IfErr result (λ e. HasCleanDisk (state S.Store conn.new) → IsRefused (state S.Store conn.old) (state S.Store conn.new) e) }
    ensures settled { IfErr result (λ e. e ≡ MigrateFault.OtherSchema → IsTrue (state S.Store conn.old).is_open
        → (state S.Store conn.old).now ≡ (state S.Store conn.old).committed) }
    ensures mode { conn.new.in_transaction ≡ conn.old.in_transaction }
    ensures survives { Survives (state S.Store conn.old) (state S.Store conn.new) (LeavesMigrated (state S.Store conn.old)) }
{
    next_step(alloc, conn, &mut Unobserved)
}

/// Takes a store one step further, as `migrate`, and calls an observer before the step. There is no such call if the store is current, or
/// isn't one of these schemas.
fn next_step<S: Alter, O: StepObserver>(
    alloc: Global,
    conn: &mut Connection<S>,
    observer: &mut O,
) -> Result<Migrated, MigrateFault>
    ensures done { IfOk result (λ it. HasCleanDisk (state S.Store conn.new) → Answered (state S.Store conn.old) (state S.Store conn.new) it) }
    ensures err { IfErr result (λ e. HasCleanDisk (state S.Store conn.new) → IsRefused (state S.Store conn.old) (state S.Store conn.new) e) }
    ensures settled { IfErr result (λ e. e ≡ MigrateFault.OtherSchema → IsTrue (state S.Store conn.old).is_open
        → (state S.Store conn.old).now ≡ (state S.Store conn.old).committed) }
    ensures mode { conn.new.in_transaction ≡ conn.old.in_transaction }
    ensures survives { Survives (state S.Store conn.old) (state S.Store conn.new) (LeavesMigrated (state S.Store conn.old)) }
{
    // decides: U1: a migration fails
    if !conn.is_autocommit() {
        return Err(MigrateFault::Unavailable);
    }
    // decides: which step does a migration take?
    let is_current = has_schema(conn.schema(), CURRENT);
    if is_current {
        return if_current(conn);
    }
    let is_third = has_schema(conn.schema(), 3);
    if is_third {
        return if_daily(alloc, conn, observer);
    }
    let is_second = has_schema(conn.schema(), 2);
    if is_second {
        return if_packed(alloc, conn, observer);
    }
    // decides: U3: a database to migrate is of none of the schemas
    let is_first = has_schema(conn.schema(), 1);
    if !is_first {
        return Err(MigrateFault::OtherSchema);
    }
    if_first(alloc, conn, observer)
}

/// The answer if the tables are those of the current schema: the store is current, or it is no store (U3).
fn if_current<S: Alter>(conn: &mut Connection<S>) -> Result<Migrated, MigrateFault>
    requires mode { conn.old.in_transaction ≡ false }
    requires settled { IsTrue (state S.Store conn.old).is_open → (state S.Store conn.old).now ≡ (state S.Store conn.old).committed }
    requires schema { (state S.Store conn.old).now.schema ≡ current_schema }
    ensures done { IfOk result (λ it. HasCleanDisk (state S.Store conn.new) → Answered (state S.Store conn.old) (state S.Store conn.new) it) }
    ensures err { IfErr result (λ e. HasCleanDisk (state S.Store conn.new) → IsRefused (state S.Store conn.old) (state S.Store conn.new) e) }
    ensures mode { conn.new.in_transaction ≡ false }
    ensures survives { Survives (state S.Store conn.old) (state S.Store conn.new) (λ _. ⊥) }
{
    // decides: U3: a database to migrate is of none of the schemas
    let is_current = are_current(conn)?;
    if !is_current {
        return Err(MigrateFault::OtherSchema);
    }
    Ok(Migrated::AlreadyCurrent)
}

/// The answer if the tables are those of schema 3: its updates get heads, or it is no store (U3).
fn if_daily<S: Alter, O: StepObserver>(
    alloc: Global,
    conn: &mut Connection<S>,
    observer: &mut O,
) -> Result<Migrated, MigrateFault>
    requires mode { conn.old.in_transaction ≡ false }
    requires settled { IsTrue (state S.Store conn.old).is_open → (state S.Store conn.old).now ≡ (state S.Store conn.old).committed }
    requires schema { (state S.Store conn.old).now.schema ≡ schema_3 }
    ensures done { IfOk result (λ it. HasCleanDisk (state S.Store conn.new) → Answered (state S.Store conn.old) (state S.Store conn.new) it) }
    ensures err { IfErr result (λ e. HasCleanDisk (state S.Store conn.new) → IsRefused (state S.Store conn.old) (state S.Store conn.new) e) }
    ensures mode { conn.new.in_transaction ≡ false }
    ensures survives { Survives (state S.Store conn.old) (state S.Store conn.new) (LeavesMigrated (state S.Store conn.old)) }
{
    // decides: U3: a database to migrate is of none of the schemas
    let is_daily = are_daily(conn)?;
    if !is_daily {
        return Err(MigrateFault::OtherSchema);
    }
    observer.begin(4);
    take_step::<Forming, S>(alloc, conn)
}

/// The answer if the tables are those of schema 2: its days get details, or it is no store (U3).
fn if_packed<S: Alter, O: StepObserver>(
    alloc: Global,
    conn: &mut Connection<S>,
    observer: &mut O,
) -> Result<Migrated, MigrateFault>
    requires mode { conn.old.in_transaction ≡ false }
    requires settled { IsTrue (state S.Store conn.old).is_open → (state S.Store conn.old).now ≡ (state S.Store conn.old).committed }
    requires schema { (state S.Store conn.old).now.schema ≡ schema_2 }
    ensures done { IfOk result (λ it. HasCleanDisk (state S.Store conn.new) → Answered (state S.Store conn.old) (state S.Store conn.new) it) }
    ensures err { IfErr result (λ e. HasCleanDisk (state S.Store conn.new) → IsRefused (state S.Store conn.old) (state S.Store conn.new) e) }
    ensures mode { conn.new.in_transaction ≡ false }
    ensures survives { Survives (state S.Store conn.old) (state S.Store conn.new) (LeavesMigrated (state S.Store conn.old)) }
{
    // decides: U3: a database to migrate is of none of the schemas
    let is_packed = are_packed(conn)?;
    if !is_packed {
        return Err(MigrateFault::OtherSchema);
    }
    observer.begin(3);
    take_step::<Dating, S>(alloc, conn)
}

/// The answer if the tables are those of schema 1: its days are packed, or mds_schema says something else (U3).
fn if_first<S: Alter, O: StepObserver>(
    alloc: Global,
    conn: &mut Connection<S>,
    observer: &mut O,
) -> Result<Migrated, MigrateFault>
    requires mode { conn.old.in_transaction ≡ false }
    requires settled { IsTrue (state S.Store conn.old).is_open → (state S.Store conn.old).now ≡ (state S.Store conn.old).committed }
    requires schema { (state S.Store conn.old).now.schema ≡ schema_1 }
    ensures done { IfOk result (λ it. HasCleanDisk (state S.Store conn.new) → Answered (state S.Store conn.old) (state S.Store conn.new) it) }
    ensures err { IfErr result (λ e. HasCleanDisk (state S.Store conn.new) → IsRefused (state S.Store conn.old) (state S.Store conn.new) e) }
    ensures mode { conn.new.in_transaction ≡ false }
    ensures survives { Survives (state S.Store conn.old) (state S.Store conn.new) (LeavesMigrated (state S.Store conn.old)) }
{
    // decides: U3: a database to migrate is of none of the schemas
    let is_first = is_version(conn, 1)?;
    if !is_first {
        return Err(MigrateFault::OtherSchema);
    }
    observer.begin(2);
    take_step::<Packing, S>(alloc, conn)
}
