//! Versions of days, with several new rows put at once.

ghost use Rattle.std.specs.Prelude.{◌≡◌, ◌≢◌, [], IfOk, IfSome, IsTrue, OnOk, false, length as list_length, map};
ghost use Rattle.sqlite.specs.Held.{state};
ghost use Rattle.sqlite.specs.State.{HasCleanDisk, KeepsCommit, Survives};
ghost use Rattle.std.specs.FinSet as set;
ghost use Rattle.mds_world.specs.FactOrder.{fact_cmp};
ghost use Rattle.mds_keeper.specs.Books.{row_fact};
ghost use Rattle.mds_keeper.specs.Content.{version_fact, versions_of, whole_rows};
ghost use Rattle.mds_pack_rows.specs.Batches.{SayDays, SaySome, SaysDay, said_by};
ghost use Rattle.mds_pack_rows.specs.Putting.{IsThere, PutsFacts};

use crate::bodies::has_some;
use crate::grouping::{put_each_day, readings_by_interval};
use crate::statements::{PackRow, insert_batch};
use mds_keeper::{DayVersions, Unavailable, Version, VersionRows};
use mds_packs::{pack_day, pack_readings};
use mds_runs::DayReadings;
use mds_tables::TOGETHER;
use mds_terms::{Day, Length, Moment, Stream};
use mds_world::Head;
use sqlite::{Alter, Transaction};
use std::alloc::{AllocError, Global};
use std::cmp::Ordering;

/// Puts versions of days, each of which has its row in mds_head. Adjacent versions of one day and update go into one row at once.
/// Unavailable if a version is kept already, or if one has an interval that its length doesn't have. Also if those of one day and
/// update have two lengths.
///
/// An update of a day is new if its head is among `new_days` or `further`. Both lists are ordered by stream and day. A batch of adjacent
/// days that are new in this way goes in with one statement.
pub fn put_days<S: Alter>(
    alloc: Global,
    tx: &mut Transaction<'_, S>,
    new_days: &[Head],
    further: &[Head],
    days: &[DayVersions],
) -> Result<(), Unavailable>
    ensures same_reference { tx.new.conn.ghost_name ≡ tx.old.conn.ghost_name }
    ensures ok { OnOk result (PutsFacts (state S.Store tx.old.conn.now) (state S.Store tx.new.conn.now) (map version_fact (versions_of days.now))) }
    ensures kept { IsThere (state S.Store tx.old.conn.now) (state S.Store tx.new.conn.now) → KeepsCommit (state S.Store tx.old.conn.now) (state S.Store tx.new.conn.now) }
    ensures survives { Survives (state S.Store tx.old.conn.now) (state S.Store tx.new.conn.now) (λ _. ⊥) }
{
    let (batches, rest) = days.as_chunks::<TOGETHER>();
    for batch in batches {
        put_batch(alloc, tx, new_days, further, batch)?;
    }
    put_each_day(alloc, tx, rest)
}

/// Puts versions of a batch of days: with one statement if possible, or else day by day.
fn put_batch<S: Alter>(
    alloc: Global,
    tx: &mut Transaction<'_, S>,
    new_days: &[Head],
    further: &[Head],
    days: &[DayVersions; TOGETHER],
) -> Result<(), Unavailable>
    ensures same_reference { tx.new.conn.ghost_name ≡ tx.old.conn.ghost_name }
    ensures ok { OnOk result (PutsFacts (state S.Store tx.old.conn.now) (state S.Store tx.new.conn.now) (map version_fact (versions_of days.now))) }
    ensures kept { IsThere (state S.Store tx.old.conn.now) (state S.Store tx.new.conn.now) → KeepsCommit (state S.Store tx.old.conn.now) (state S.Store tx.new.conn.now) }
    ensures survives { Survives (state S.Store tx.old.conn.now) (state S.Store tx.new.conn.now) (λ _. ⊥) }
{
    if put_at_once(alloc, tx, new_days, further, days)? {
        return Ok(());
    }
    put_each_day(alloc, tx, days)
}

/// Puts versions of a batch of days with one statement, and returns whether it did. It puts nothing if those of one day aren't a new row,
/// or if the tables refuse a row.
fn put_at_once<S: Alter>(
    alloc: Global,
    tx: &mut Transaction<'_, S>,
    new_days: &[Head],
    further: &[Head],
    days: &[DayVersions; TOGETHER],
) -> Result<bool, Unavailable>
    ensures same_reference { tx.new.conn.ghost_name ≡ tx.old.conn.ghost_name }
    ensures put { IfOk result (λ put. IsTrue put → PutsFacts (state S.Store tx.old.conn.now) (state S.Store tx.new.conn.now) (map version_fact (versions_of days.now))) }
    ensures none { IfOk result (λ put. put ≡ false → PutsFacts (state S.Store tx.old.conn.now) (state S.Store tx.new.conn.now) []) }
    ensures kept { HasCleanDisk (state S.Store tx.new.conn.now) → KeepsCommit (state S.Store tx.old.conn.now) (state S.Store tx.new.conn.now) }
    ensures survives { Survives (state S.Store tx.old.conn.now) (state S.Store tx.new.conn.now) (λ _. ⊥) }
{
    let Some(rows) = pack_new_days(alloc, new_days, further, days)? else {
        return Ok(false);
    };
    insert_batch(alloc, tx, rows.as_slice())
}

/// The row of each day. `None` if the versions of one aren't a new row.
fn pack_new_days(
    alloc: Global,
    new_days: &[Head],
    further: &[Head],
    days: &[DayVersions],
) -> Result<Option<Vec<PackRow>>, AllocError>
    ensures len { IfOk result (λ o. IfSome o (λ rows. list_length rows.items ≡ list_length days.now)) }
    ensures says { IfOk result (λ o. IfSome o (λ rows. SayDays rows.items days.now)) }
    ensures some { IfOk result (λ o. IfSome o (λ rows. SaySome rows.items)) }
{
    let mut rows = Vec::with_capacity(alloc, days.len())?;
    for added in days {
        let Some(row) = pack_new_day(alloc, new_days, further, added)? else {
            return Ok(None);
        };
        rows.push(row)?;
    }
    Ok(Some(rows))
}

/// The row of a day. `None` if its update isn't new, or if its versions aren't those of one length and one update, each at an interval
/// of its own.
fn pack_new_day(
    alloc: Global,
    new_days: &[Head],
    further: &[Head],
    added: &DayVersions,
) -> Result<Option<PackRow>, AllocError>
    ensures says { IfOk result (λ o. IfSome o (λ row. SaysDay row added.now)) }
    ensures some { IfOk result (λ o. IfSome o (λ row. said_by row ≢ [])) }
{
    match &added.rows {
        VersionRows::Each(rows) => pack_listed(
            alloc,
            new_days,
            further,
            &added.stream,
            added.day,
            rows.as_slice(),
        ),
        VersionRows::Whole(length, update, readings) => {
            if !is_new(new_days, further, &added.stream, added.day, *update) {
                return Ok(None);
            }
            pack_whole(alloc, *length, &added.stream, added.day, *update, readings)
        }
    }
}

/// The row of listed versions of a day. `None` if the update of the first isn't new. Also if another one has another length or update,
/// or an interval that an earlier one has.
fn pack_listed(
    alloc: Global,
    new_days: &[Head],
    further: &[Head],
    stream: &Stream,
    day: Day,
    rows: &[(u16, Version)],
) -> Result<Option<PackRow>, AllocError>
    ensures says { IfOk result (λ o. IfSome o (λ row. set.from_list {R = fact_cmp} (said_by row) ≡ set.from_list (map (row_fact stream.now day) rows.now))) }
    ensures some { IfOk result (λ o. IfSome o (λ row. said_by row ≢ [])) }
{
    let Some(first) = rows.first() else {
        return Ok(None);
    };
    let update = first.1.update;
    if !is_new(new_days, further, stream, day, update) {
        return Ok(None);
    }
    let Some(readings) = readings_by_interval(alloc, first.1.length, update, rows)? else {
        return Ok(None);
    };
    if !has_some(readings.as_slice()) {
        return Ok(None);
    }
    let body = pack_day(alloc, readings.as_slice())?;
    Ok(Some(PackRow {
        stream: *stream,
        day,
        update,
        body,
    }))
}

/// The row of a day's readings, of all its intervals of a length and under one update. They are packed without being spread. `None` if
/// they are more or fewer than the day has intervals.
fn pack_whole(
    alloc: Global,
    length: Length,
    stream: &Stream,
    day: Day,
    update: Moment,
    readings: &DayReadings,
) -> Result<Option<PackRow>, AllocError>
    ensures says { IfOk result (λ o. IfSome o (λ row. set.from_list {R = fact_cmp} (said_by row) ≡ set.from_list (map (row_fact stream.now day) (whole_rows length update 1 readings.now)))) }
    ensures some { IfOk result (λ o. IfSome o (λ row. said_by row ≢ [])) }
{
    // For the proof: a length is 5, 15 or 30 minutes.
    let _ = length.minutes();
    if readings.len() != length.count() || readings.len() == 0 {
        return Ok(None);
    }
    let body = pack_readings(alloc, readings)?;
    Ok(Some(PackRow {
        stream: *stream,
        day,
        update,
        body,
    }))
}

/// Whether an update of a day has its head among these.
fn is_new(new_days: &[Head], further: &[Head], stream: &Stream, day: Day, update: Moment) -> bool {
    has_head(new_days, stream, day, update) || has_head(further, stream, day, update)
}

/// Whether these heads have one of a day and an update. They must ascend by stream and day: in another order it may be missed. Those
/// of one day may come in any order.
fn has_head(heads: &[Head], stream: &Stream, day: Day, update: Moment) -> bool {
    let at = heads.partition_point(|head| is_before(head, stream, day));
    let (_, behind) = heads.split_at(at);
    for head in behind {
        if head.stream != *stream || head.day != day {
            return false;
        }
        if head.update == update {
            return true;
        }
    }
    false
}

/// Whether a head comes before those of a day.
fn is_before(head: &Head, stream: &Stream, day: Day) -> bool {
    match head.stream.cmp(stream) {
        Ordering::Less => true,
        Ordering::Equal => head.day < day,
        Ordering::Greater => false,
    }
}
