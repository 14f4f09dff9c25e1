//! Puts the versions of days update by update.

ghost use Rattle.std.specs.Prelude.{◌≡◌, ◌<◌, ◌≤◌, ◌^◌, IfOk, IfSome, IsTrue, None, OnOk, Some, length as list_length, map, replicate};
ghost use Rattle.sqlite.specs.Held.{state};
ghost use Rattle.sqlite.specs.State.{KeepsCommit, Survives};
ghost use Rattle.mds_keeper.specs.Books.{row_fact};
ghost use Rattle.mds_keeper.specs.Content.{day_versions, version_fact, versions_of, whole_rows};
ghost use Rattle.mds_pack_rows.specs.PackFacts.{minutes_of};
ghost use Rattle.mds_pack_rows.specs.Putting.{IsThere, PutsFacts, SayMore, SayRows};

use crate::putting::put_readings;
use mds_keeper::{DayVersions, Unavailable, Version, VersionRows};
use mds_runs::DayReadings;
use mds_terms::{Day, Length, Moment, Reading, Stream};
use sqlite::{Alter, Transaction};
use std::alloc::{AllocError, Global};

/// Puts versions of days day by day, as `put_day` does.
pub(crate) fn put_each_day<S: Alter>(
    alloc: Global,
    tx: &mut Transaction<'_, S>,
    days: &[DayVersions],
) -> Result<(), Unavailable>
    ensures same_reference { tx.new.conn.ghost_name ≡ tx.old.conn.ghost_name }
    ensures ok { OnOk result (PutsFacts (state S.Store tx.old.conn.now) (state S.Store tx.new.conn.now) (map version_fact (versions_of days.now))) }
    ensures kept { IsThere (state S.Store tx.old.conn.now) (state S.Store tx.new.conn.now) → KeepsCommit (state S.Store tx.old.conn.now) (state S.Store tx.new.conn.now) }
    ensures survives { Survives (state S.Store tx.old.conn.now) (state S.Store tx.new.conn.now) (λ _. ⊥) }
{
    for added in days {
        put_day(alloc, tx, added)?;
    }
    Ok(())
}

/// Puts versions of a day. Adjacent versions of one update go into its row at once.
///
/// No clause says when it is unavailable. In fact it refuses a version that is kept already, and one with an interval that its
/// length doesn't have. It also refuses two lengths under one update.
pub fn put_day<S: Alter>(
    alloc: Global,
    tx: &mut Transaction<'_, S>,
    added: &DayVersions,
) -> Result<(), Unavailable>
    ensures same_reference { tx.new.conn.ghost_name ≡ tx.old.conn.ghost_name }
    ensures ok { OnOk result (PutsFacts (state S.Store tx.old.conn.now) (state S.Store tx.new.conn.now) (map version_fact (day_versions added.now))) }
    ensures kept { IsThere (state S.Store tx.old.conn.now) (state S.Store tx.new.conn.now) → KeepsCommit (state S.Store tx.old.conn.now) (state S.Store tx.new.conn.now) }
    ensures survives { Survives (state S.Store tx.old.conn.now) (state S.Store tx.new.conn.now) (λ _. ⊥) }
{
    // decides: which versions go into one row?
    match &added.rows {
        VersionRows::Each(rows) => {
            put_listed(alloc, tx, &added.stream, added.day, rows.as_slice())
        }
        VersionRows::Whole(length, update, readings) => put_whole(
            alloc,
            tx,
            *length,
            &added.stream,
            added.day,
            *update,
            readings,
        ),
    }
}

/// Puts versions of a day, adjacent ones of one update at once.
fn put_listed<S: Alter>(
    alloc: Global,
    tx: &mut Transaction<'_, S>,
    stream: &Stream,
    day: Day,
    rows: &[(u16, Version)],
) -> Result<(), Unavailable>
    ensures same_reference { tx.new.conn.ghost_name ≡ tx.old.conn.ghost_name }
    ensures ok { OnOk result (PutsFacts (state S.Store tx.old.conn.now) (state S.Store tx.new.conn.now) (map (row_fact stream.now day) rows.now)) }
    ensures kept { IsThere (state S.Store tx.old.conn.now) (state S.Store tx.new.conn.now) → KeepsCommit (state S.Store tx.old.conn.now) (state S.Store tx.new.conn.now) }
    ensures survives { Survives (state S.Store tx.old.conn.now) (state S.Store tx.new.conn.now) (λ _. ⊥) }
{
    let mut left = rows;
    while let [first, ..] = left {
        let update = first.1.update;
        let length = first.1.length;
        let end = end_of_run(left);
        let (run, rest) = left.split_at(end);
        put_run(alloc, tx, length, stream, day, update, run)?;
        left = rest;
    }
    Ok(())
}

/// Puts the readings of all intervals of a day, with this length and under an update.
fn put_whole<S: Alter>(
    alloc: Global,
    tx: &mut Transaction<'_, S>,
    length: Length,
    stream: &Stream,
    day: Day,
    update: Moment,
    readings: &DayReadings,
) -> Result<(), Unavailable>
    ensures same_reference { tx.new.conn.ghost_name ≡ tx.old.conn.ghost_name }
    ensures ok { OnOk result (PutsFacts (state S.Store tx.old.conn.now) (state S.Store tx.new.conn.now) (map (row_fact stream.now day) (whole_rows length update 1 readings.now))) }
    ensures kept { IsThere (state S.Store tx.old.conn.now) (state S.Store tx.new.conn.now) → KeepsCommit (state S.Store tx.old.conn.now) (state S.Store tx.new.conn.now) }
    ensures survives { Survives (state S.Store tx.old.conn.now) (state S.Store tx.new.conn.now) (λ _. ⊥) }
{
    // For the proof: a length is 5, 15 or 30 minutes.
    let _ = length.minutes();
    if readings.len() != length.count() {
        return Err(Unavailable);
    }
    let places = places_of(alloc, readings)?;
    put_readings(alloc, tx, stream, day, update, places.as_slice())
}

/// A copy of each reading, at its interval.
fn places_of(alloc: Global, readings: &DayReadings) -> Result<Vec<Option<Reading>>, AllocError>
    ensures { IfOk result (λ places. places.items ≡ map (λ reading. Some reading) readings.now) }
{
    let mut places = Vec::with_capacity(alloc, readings.len())?;
    for i in 0..readings.len() {
        places.push(Some(readings.reading(i)?))?;
    }
    Ok(places)
}

/// How many versions at the front have one update.
fn end_of_run(rows: &[(u16, Version)]) -> usize
    requires { 0 < list_length rows.now }
    ensures { (0 < result) × (result ≤ list_length rows.now) }
{
    let update = rows[0].1.update.seconds();
    // decides: which versions go into one row?
    for end in 1..rows.len() {
        if rows[end].1.update.seconds() != update {
            return end;
        }
    }
    rows.len()
}

/// Puts versions of one update. Unavailable if one doesn't have this length.
fn put_run<S: Alter>(
    alloc: Global,
    tx: &mut Transaction<'_, S>,
    length: Length,
    stream: &Stream,
    day: Day,
    update: Moment,
    rows: &[(u16, Version)],
) -> Result<(), Unavailable>
    ensures same_reference { tx.new.conn.ghost_name ≡ tx.old.conn.ghost_name }
    ensures ok { OnOk result (PutsFacts (state S.Store tx.old.conn.now) (state S.Store tx.new.conn.now) (map (row_fact stream.now day) rows.now)) }
    ensures kept { IsThere (state S.Store tx.old.conn.now) (state S.Store tx.new.conn.now) → KeepsCommit (state S.Store tx.old.conn.now) (state S.Store tx.new.conn.now) }
    ensures survives { Survives (state S.Store tx.old.conn.now) (state S.Store tx.new.conn.now) (λ _. ⊥) }
{
    let Some(readings) = readings_by_interval(alloc, length, update, rows)? else {
        return Err(Unavailable);
    };
    put_readings(alloc, tx, stream, day, update, readings.as_slice())
}

/// The readings of versions of one length and update, each at its interval. `None` if a version has another length or update, an
/// interval that the day doesn't have, or the interval of an earlier one.
pub(crate) fn readings_by_interval(
    alloc: Global,
    length: Length,
    update: Moment,
    rows: &[(u16, Version)],
) -> Result<Option<Vec<Option<Reading>>>, AllocError>
    ensures few { IfOk result (λ o. IfSome o (λ readings. list_length readings.items < 2 ^ 16)) }
    ensures says { IfOk result (λ o. IfSome o (λ readings. SayRows update readings.items rows.now)) }
{
    let mut readings = no_readings(alloc, length)?;
    for row in rows {
        if !set_reading(&mut readings, length, update, row)? {
            return Ok(None);
        }
    }
    Ok(Some(readings))
}

/// A place for each interval, without a reading.
fn no_readings(alloc: Global, length: Length) -> Result<Vec<Option<Reading>>, AllocError>
    ensures { IfOk result (λ readings. (list_length readings.items < 2 ^ 16) × (readings.items ≡ replicate (list_length readings.items) None)
        × (minutes_of (list_length readings.items) ≡ length)) }
{
    // For the proof: a length is 5, 15 or 30 minutes.
    let _ = length.minutes();
    let mut readings = Vec::with_capacity(alloc, length.count())?;
    for _ in 0..length.count() {
        readings.push(None)?;
    }
    Ok(readings)
}

/// Sets the reading of a version's interval. Returns whether there was none, and the version has this length and update.
fn set_reading(
    readings: &mut Vec<Option<Reading>>,
    length: Length,
    update: Moment,
    row: &(u16, Version),
) -> Result<bool, AllocError>
    requires { minutes_of (list_length readings.old.items) ≡ length }
    ensures len { OnOk result (list_length readings.new.items ≡ list_length readings.old.items) }
    ensures more { IfOk result (λ set. IsTrue set → SayMore update readings.old.items readings.new.items row.now) }
{
    if row.1.update.seconds() != update.seconds() || row.0 == 0 {
        return Ok(false);
    }
    if row.1.length.minutes() != length.minutes() {
        return Ok(false);
    }
    let place = usize::from(row.0) - 1;
    if place >= readings.len() {
        return Ok(false);
    }
    if readings[place].is_some() {
        return Ok(false);
    }
    readings[place] = Some(row.1.reading.try_clone()?);
    Ok(true)
}
