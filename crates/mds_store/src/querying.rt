//! The holidays and the jobs of a store. A store that can't answer is unavailable (U1), and so is one with a row that
//! it didn't write.

ghost use Rattle.std.specs.Prelude.{◌≡◌, ◌<◌, false, pos, IfOk, IfSome, OnOk};
ghost use Rattle.std.specs.List.{AllPairs};
ghost use Rattle.sqlite.specs.declared.types.Value.TheVariants.{Int};
ghost use Rattle.sqlite.specs.Held.{state};
ghost use Rattle.sqlite.specs.Order.{column};
ghost use Rattle.mds_keeper.specs.Queries.{AreHolidays, IsJobOf};
ghost use Rattle.mds_tables.specs.Layouts.{Layout, world_with};
ghost use Rattle.mds_tables.specs.Queries.{Answers};
ghost use Rattle.mds_tables.specs.Stores.{HoldsOf};
ghost use Rattle.mds_tables.specs.Added.{AreAdded, IsAdded};
ghost use Rattle.mds_store.specs.Said.{AreHolidaysIn, IsOnlyJob, SaysHoliday, SaysJob};

use crate::rows::{holiday_rows, job_rows, only_row};
use mds_jobs::{Job, JobId};
use mds_keeper::Unavailable;
use mds_tables::{day_at, in_order, int_at, or_unavailable, put, ready, text_at, told};
use mds_terms::Day;
use sqlite::{Alter, Connection, Row};
use std::alloc::Global;
use std::collections::BTreeSet;

/// The listed holidays, ascending, each once.
pub fn holidays_of<S: Alter>(
    alloc: Global,
    conn: &mut Connection<S>,
) -> Result<Vec<Day>, Unavailable>
    requires { conn.old.in_transaction ≡ false }
    ensures { (layout : Layout) → Answers (HoldsOf layout) (state S.Store conn.old) (state S.Store conn.new) result
        (λ trees days. AreHolidays (world_with layout trees) days.items) }
{
    or_unavailable(ready(conn))?;
    let rows = or_unavailable(holiday_rows(conn))?;
    all_holidays(alloc, &rows)
}

/// The holidays of rows, ascending, each once.
fn all_holidays(alloc: Global, rows: &[Row]) -> Result<Vec<Day>, Unavailable>
    ensures each { IfOk result (λ days. AreHolidaysIn rows.now days.items) }
    ensures ascending { IfOk result (λ days. AllPairs (λ a b. a < b) days.items) }
{
    let mut found = BTreeSet::new(alloc);
    add_holidays(&mut found, rows)?;
    in_order(alloc, found)
}

/// Adds the holidays of rows.
fn add_holidays(found: &mut BTreeSet<Day>, rows: &[Row]) -> Result<(), Unavailable>
    ensures { OnOk result (AreAdded SaysHoliday found.old.keys rows.now found.new.keys) }
{
    for i in 0..rows.len() {
        add_holiday(found, &rows[i])?;
    }
    Ok(())
}

/// Adds the holiday of a row.
fn add_holiday(found: &mut BTreeSet<Day>, row: &Row) -> Result<(), Unavailable>
    ensures { OnOk result (IsAdded SaysHoliday found.old.keys row.now found.new.keys) }
{
    let day = told(day_at(row, 0))?;
    put(found, day)
}

/// The job with this id, and the count of the readings that it made, if there is one.
pub fn job_of<S: Alter>(
    alloc: Global,
    conn: &mut Connection<S>,
    id: JobId,
) -> Result<Option<(Job, u64)>, Unavailable>
    requires { conn.old.in_transaction ≡ false }
    ensures { (layout : Layout) → Answers (HoldsOf layout) (state S.Store conn.old) (state S.Store conn.new) result
        (λ trees. IsJobOf (world_with layout trees) id) }
{
    or_unavailable(ready(conn))?;
    let rows = or_unavailable(job_rows(conn, &id))?;
    only_job(alloc, id, &rows)
}

/// The job in the only row.
fn only_job(alloc: Global, id: JobId, rows: &[Row]) -> Result<Option<(Job, u64)>, Unavailable>
    ensures { IfOk result (IsOnlyJob id rows.now) }
{
    let Some(row) = only_row(rows)? else {
        return Ok(None);
    };
    let job = job_in(alloc, id, row)?;
    Ok(Some(job))
}

/// The job with this id that a row says, and its count.
fn job_in(alloc: Global, id: JobId, row: &Row) -> Result<(Job, u64), Unavailable>
    ensures { IfOk result (SaysJob id row.now) }
{
    let body = told(text_at(row, 0))?;
    let count = told(count_at(row, 1))?;
    let job = told(Job::from_body(alloc, id, body)?)?;
    Ok((job, count))
}

/// The count in a column.
fn count_at(row: &Row, at: usize) -> Option<u64>
    ensures { IfSome result (λ count. column row.now at ≡ Int (pos count)) }
{
    u64::try_from(int_at(row, at)?).ok()
}
