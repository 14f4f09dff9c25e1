//! Makes a store of packed days in a database, or recognizes one.

ghost use Rattle.std.specs.Prelude.{◌≡◌, ◌≢◌, [], false, true, IfErr, IfOk, IsTrue, MatchResult};
ghost use Rattle.std.specs.Bool.{MatchBool};
ghost use Rattle.sqlite.specs.Held.{state};
ghost use Rattle.sqlite.specs.State.{HasCleanDisk, Survives};
ghost use Rattle.mds_tables.specs.Causes.{HasFailed};
ghost use Rattle.mds_tables.specs.Making.{LeavesMadeOf};
ghost use Rattle.mds_tables.specs.Queries.{Answers};
ghost use Rattle.mds_tables.specs.Layouts.{Layout};
ghost use Rattle.mds_tables.specs.Stores.{HoldsTablesOf};
ghost use Rattle.mds_tables.specs.Tables.{detail_tree, no_schema, schema_1, version_tree};
ghost use Rattle.mds_pack_rows.specs.Current.{current_layout};
ghost use Rattle.mds_pack_rows.specs.DailyLayout.{daily_layout};
ghost use Rattle.mds_pack_rows.specs.DailyTables.{schema_3};
ghost use Rattle.mds_pack_rows.specs.PackTables.{schema_2};
ghost use Rattle.mds_pack_rows.specs.PacksLayout.{packs_layout};
ghost use Rattle.mds_store.specs.Starting.{IsCreated, IsRefused};
ghost use Rattle.mds_store.specs.Daily.{AreBare, AreDaily};
ghost use Rattle.mds_store.specs.CurrentStore.{AreCurrent, IsEarlierStore, IsCurrentAdopted, IsCurrentStore};
ghost use Rattle.mds_store.specs.Packed.{ArePacked};

use crate::fault::{StoreFault, is_empty};
use crate::old_rows::{detail_rows, slot_rows};
use crate::pack_keeper::PackKeeper;
use mds_commit::make_tables;
use mds_pack_rows::{CURRENT, CURRENT_VERSION, has_schema};
use mds_tables::{is_version, ready};
use sqlite::{Alter, Connection, Error, Row};
use std::alloc::Global;

/// Makes a store, which keeps nothing, in an empty database. On a refusal the connection is returned, and nothing was changed. One
/// that was in a transaction comes back as it was, and any other is in none. Unavailable only if the store failed or the limit of
/// steps was reached, with that error (U1). The limit stays. A crash leaves what was there, or the store that keeps nothing.
pub fn create<S: Alter>(
    alloc: Global,
    conn: Connection<S>,
) -> Result<PackKeeper<S>, (StoreFault, Connection<S>)>
    ensures ok { IfOk result (λ keeper. HasCleanDisk (state S.Store keeper.conn)
        → IsCreated current_layout (state S.Store conn) (state S.Store keeper.conn)) }
    ensures err { IfErr result (λ e. HasCleanDisk (state S.Store e.1)
        → IsRefused ((state S.Store conn).now.schema ≡ no_schema) ⊥ (state S.Store conn) (state S.Store e.1) e.0) }
    ensures busy { conn.in_transaction ≡ true
        → MatchResult result (λ keeper. ⊥) (λ e. (e.0 ≡ StoreFault.InTransaction) × (e.1 ≡ conn)) }
    ensures limit { MatchResult result (λ keeper. keeper.conn.step_limit ≡ conn.step_limit) (λ e. e.1.step_limit ≡ conn.step_limit) }
    ensures mode { IfErr result (λ e. e.1.in_transaction ≡ conn.in_transaction) }
    ensures survives { MatchResult result
        (λ keeper. Survives (state S.Store conn) (state S.Store keeper.conn) (LeavesMadeOf current_layout (state S.Store conn)))
        (λ e. Survives (state S.Store conn) (state S.Store e.1) (LeavesMadeOf current_layout (state S.Store conn))) }
{
    let mut conn = conn;
    if !conn.is_autocommit() {
        return Err((StoreFault::InTransaction, conn));
    }
    // decides: U3: a database to make a store in isn't empty
    if !is_empty(conn.schema()) {
        return Err((StoreFault::OtherSchema, conn));
    }
    // decides: U1: a store can't be made or adopted
    match make_tables(&mut conn) {
        Ok(()) => Ok(PackKeeper::over(alloc, conn)),
        Err(error) => Err((StoreFault::from(error), conn)),
    }
}

/// Adopts a database that is a store of the current schema. It keeps the World that its rows name, no matter who wrote them. A database with
/// rows in mds_version or mds_detail is refused, since they would go unseen (U3). A store of an earlier schema has to be migrated
/// first (U2). On a refusal the connection is returned, and nothing was changed. One that was in a transaction comes back as it was,
/// and any other is in none. Unavailable only if the store failed or the limit of steps was reached, with that error (U1). The limit
/// stays. A crash leaves what was there.
pub fn adopt<S: Alter>(
    alloc: Global,
    conn: Connection<S>,
) -> Result<PackKeeper<S>, (StoreFault, Connection<S>)>
    ensures ok { IfOk result (λ keeper. HasCleanDisk (state S.Store keeper.conn)
        → IsCurrentAdopted (state S.Store conn) (state S.Store keeper.conn)) }
    ensures err { IfErr result (λ e. HasCleanDisk (state S.Store e.1)
        → IsRefused (IsCurrentStore (state S.Store conn).now) (IsEarlierStore (state S.Store conn).now) (state S.Store conn) (state S.Store e.1) e.0) }
    ensures busy { conn.in_transaction ≡ true
        → MatchResult result (λ keeper. ⊥) (λ e. (e.0 ≡ StoreFault.InTransaction) × (e.1 ≡ conn)) }
    ensures limit { MatchResult result (λ keeper. keeper.conn.step_limit ≡ conn.step_limit) (λ e. e.1.step_limit ≡ conn.step_limit) }
    ensures mode { IfErr result (λ e. e.1.in_transaction ≡ conn.in_transaction) }
    ensures survives { MatchResult result
        (λ keeper. Survives (state S.Store conn) (state S.Store keeper.conn) (λ _. ⊥))
        (λ e. Survives (state S.Store conn) (state S.Store e.1) (λ _. ⊥)) }
{
    let mut conn = conn;
    if !conn.is_autocommit() {
        return Err((StoreFault::InTransaction, conn));
    }
    let is_first = has_schema(conn.schema(), 1);
    if is_first {
        return Err(refusal_of_first(conn));
    }
    let is_second = has_schema(conn.schema(), 2);
    if is_second {
        return Err(refusal_of_second(conn));
    }
    let is_third = has_schema(conn.schema(), 3);
    if is_third {
        return Err(refusal_of_third(conn));
    }
    // decides: U3: a database is no store
    let is_current = has_schema(conn.schema(), CURRENT);
    if !is_current {
        return Err((StoreFault::OtherSchema, conn));
    }
    // decides: U1: a store can't be made or adopted
    match are_current(&mut conn) {
        Ok(true) => Ok(PackKeeper::over(alloc, conn)),
        Ok(false) => Err((StoreFault::OtherSchema, conn)),
        Err(error) => Err((StoreFault::from(error), conn)),
    }
}

/// Whether mds_schema says the number of the current schema and nothing else. Nor may a version or details of a stream have a row of
/// their own. An error is the library's: the store failed with a cause, or the limit of steps was reached.
pub fn are_current<S: Alter>(conn: &mut Connection<S>) -> Result<bool, Error>
    requires { conn.old.in_transaction ≡ false }
    ensures answers { Answers (HoldsTablesOf current_layout) (state S.Store conn.old) (state S.Store conn.new) result
        (λ trees are. MatchBool are (AreCurrent trees) (AreCurrent trees → ⊥)) }
    ensures cause { HasCleanDisk (state S.Store conn.new) → HoldsTablesOf current_layout (state S.Store conn.old)
        → IfErr result (HasFailed (state S.Store conn.old) (state S.Store conn.new)) }
{
    // decides: U3: a database is no store
    let says_current = is_version(conn, CURRENT_VERSION)?;
    if !says_current {
        return Ok(false);
    }
    are_bare(conn)
}

/// Whether mds_schema says 3 and nothing else, and neither a version nor details of a stream have a row of their own. An error is
/// the library's: the store failed with a cause, or the limit of steps was reached.
pub fn are_daily<S: Alter>(conn: &mut Connection<S>) -> Result<bool, Error>
    requires { conn.old.in_transaction ≡ false }
    ensures answers { Answers (HoldsTablesOf daily_layout) (state S.Store conn.old) (state S.Store conn.new) result
        (λ trees are. MatchBool are (AreDaily trees) (AreDaily trees → ⊥)) }
    ensures cause { HasCleanDisk (state S.Store conn.new) → HoldsTablesOf daily_layout (state S.Store conn.old)
        → IfErr result (HasFailed (state S.Store conn.old) (state S.Store conn.new)) }
{
    let says_3 = is_version(conn, 3)?;
    if !says_3 {
        return Ok(false);
    }
    are_bare(conn)
}

/// Whether mds_schema says 2 and nothing else, and no version has a row of its own. An error is the library's: the store failed with
/// a cause, or the limit of steps was reached.
pub fn are_packed<S: Alter>(conn: &mut Connection<S>) -> Result<bool, Error>
    requires { conn.old.in_transaction ≡ false }
    ensures answers { Answers (HoldsTablesOf packs_layout) (state S.Store conn.old) (state S.Store conn.new) result
        (λ trees are. MatchBool are (ArePacked trees) (ArePacked trees → ⊥)) }
    ensures cause { HasCleanDisk (state S.Store conn.new) → HoldsTablesOf packs_layout (state S.Store conn.old)
        → IfErr result (HasFailed (state S.Store conn.old) (state S.Store conn.new)) }
{
    let says_2 = is_version(conn, 2)?;
    if !says_2 {
        return Ok(false);
    }
    is_unversioned(conn)
}

/// Whether neither mds_version nor mds_detail has a row, whatever tables follow those that every schema has.
fn are_bare<S: Alter>(conn: &mut Connection<S>) -> Result<bool, Error>
    requires { conn.old.in_transaction ≡ false }
    ensures answers { (layout : Layout) → Answers (HoldsTablesOf layout) (state S.Store conn.old) (state S.Store conn.new) result
        (λ trees none. MatchBool none (AreBare trees) (AreBare trees → ⊥)) }
    ensures cause { (layout : Layout) → HasCleanDisk (state S.Store conn.new) → HoldsTablesOf layout (state S.Store conn.old)
        → IfErr result (HasFailed (state S.Store conn.old) (state S.Store conn.new)) }
{
    let no_version = is_unversioned(conn)?;
    if !no_version {
        return Ok(false);
    }
    is_undated(conn)
}

/// Whether mds_version has no row, whatever tables follow those that every schema has.
fn is_unversioned<S: Alter>(conn: &mut Connection<S>) -> Result<bool, Error>
    requires { conn.old.in_transaction ≡ false }
    ensures answers { (layout : Layout) → Answers (HoldsTablesOf layout) (state S.Store conn.old) (state S.Store conn.new) result
        (λ trees none. MatchBool none (trees version_tree ≡ []) (trees version_tree ≢ [])) }
    ensures cause { (layout : Layout) → HasCleanDisk (state S.Store conn.new) → HoldsTablesOf layout (state S.Store conn.old)
        → IfErr result (HasFailed (state S.Store conn.old) (state S.Store conn.new)) }
{
    // decides: U3: `mds_version` or `mds_detail` has rows in a schema that leaves it empty
    ready(conn)?;
    let rows = slot_rows(conn)?;
    Ok(are_none(&rows))
}

/// Whether mds_detail has no row, whatever tables follow those that every schema has.
fn is_undated<S: Alter>(conn: &mut Connection<S>) -> Result<bool, Error>
    requires { conn.old.in_transaction ≡ false }
    ensures answers { (layout : Layout) → Answers (HoldsTablesOf layout) (state S.Store conn.old) (state S.Store conn.new) result
        (λ trees none. MatchBool none (trees detail_tree ≡ []) (trees detail_tree ≢ [])) }
    ensures cause { (layout : Layout) → HasCleanDisk (state S.Store conn.new) → HoldsTablesOf layout (state S.Store conn.old)
        → IfErr result (HasFailed (state S.Store conn.old) (state S.Store conn.new)) }
{
    // decides: U3: `mds_version` or `mds_detail` has rows in a schema that leaves it empty
    ready(conn)?;
    let moments = detail_rows(conn)?;
    Ok(are_none(&moments))
}

/// Whether there is no row.
fn are_none(rows: &[Row]) -> bool
    ensures { MatchBool result (rows.now ≡ []) (rows.now ≢ []) }
{
    rows.is_empty()
}

/// Why a database with the tables of schema 1 is refused. It is a store of schema 1 (U2), or its mds_schema says something else
/// (U3).
fn refusal_of_first<S: Alter>(conn: Connection<S>) -> (StoreFault, Connection<S>)
    requires mode { conn.in_transaction ≡ false }
    requires settled { IsTrue (state S.Store conn).is_open → (state S.Store conn).now ≡ (state S.Store conn).committed }
    requires schema { (state S.Store conn).now.schema ≡ schema_1 }
    ensures err { HasCleanDisk (state S.Store result.1)
        → IsRefused (IsCurrentStore (state S.Store conn).now) (IsEarlierStore (state S.Store conn).now) (state S.Store conn) (state S.Store result.1) result.0 }
    ensures limit { result.1.step_limit ≡ conn.step_limit }
    ensures mode { result.1.in_transaction ≡ false }
    ensures survives { Survives (state S.Store conn) (state S.Store result.1) (λ _. ⊥) }
{
    let mut conn = conn;
    // decides: U2: a store of an earlier schema
    match is_version(&mut conn, 1) {
        Ok(true) => (StoreFault::EarlierSchema, conn),
        Ok(false) => (StoreFault::OtherSchema, conn),
        Err(error) => (StoreFault::from(error), conn),
    }
}

/// The same for a database with the tables of schema 2.
fn refusal_of_second<S: Alter>(conn: Connection<S>) -> (StoreFault, Connection<S>)
    requires mode { conn.in_transaction ≡ false }
    requires settled { IsTrue (state S.Store conn).is_open → (state S.Store conn).now ≡ (state S.Store conn).committed }
    requires schema { (state S.Store conn).now.schema ≡ schema_2 }
    ensures err { HasCleanDisk (state S.Store result.1)
        → IsRefused (IsCurrentStore (state S.Store conn).now) (IsEarlierStore (state S.Store conn).now) (state S.Store conn) (state S.Store result.1) result.0 }
    ensures limit { result.1.step_limit ≡ conn.step_limit }
    ensures mode { result.1.in_transaction ≡ false }
    ensures survives { Survives (state S.Store conn) (state S.Store result.1) (λ _. ⊥) }
{
    let mut conn = conn;
    // decides: U2: a store of an earlier schema
    match are_packed(&mut conn) {
        Ok(true) => (StoreFault::EarlierSchema, conn),
        Ok(false) => (StoreFault::OtherSchema, conn),
        Err(error) => (StoreFault::from(error), conn),
    }
}

/// The same for a database with the tables of schema 3.
fn refusal_of_third<S: Alter>(conn: Connection<S>) -> (StoreFault, Connection<S>)
    requires mode { conn.in_transaction ≡ false }
    requires settled { IsTrue (state S.Store conn).is_open → (state S.Store conn).now ≡ (state S.Store conn).committed }
    requires schema { (state S.Store conn).now.schema ≡ schema_3 }
    ensures err { HasCleanDisk (state S.Store result.1)
        → IsRefused (IsCurrentStore (state S.Store conn).now) (IsEarlierStore (state S.Store conn).now) (state S.Store conn) (state S.Store result.1) result.0 }
    ensures limit { result.1.step_limit ≡ conn.step_limit }
    ensures mode { result.1.in_transaction ≡ false }
    ensures survives { Survives (state S.Store conn) (state S.Store result.1) (λ _. ⊥) }
{
    let mut conn = conn;
    // decides: U2: a store of an earlier schema
    match are_daily(&mut conn) {
        Ok(true) => (StoreFault::EarlierSchema, conn),
        Ok(false) => (StoreFault::OtherSchema, conn),
        Err(error) => (StoreFault::from(error), conn),
    }
}
