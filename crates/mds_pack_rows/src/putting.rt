//! Puts readings of one update into the row of their day.

ghost use Rattle.std.specs.Prelude.{◌≡◌, ◌<◌, ◌^◌, IsTrue, OnOk, is_some, length};
ghost use Rattle.std.specs.List.{list_any};
ghost use Rattle.sqlite.specs.Held.{state};
ghost use Rattle.sqlite.specs.State.{HasCleanDisk, KeepsCommit, Survives};
ghost use Rattle.mds_pack_rows.specs.PackFacts.{readings_facts};
ghost use Rattle.mds_pack_rows.specs.Putting.{IsThere, PutsBeside, PutsFacts};

use crate::bodies::{has_some, readings_at};
use crate::laying::lay;
use crate::statements::{body_rows, insert_body, replace_body};
use mds_keeper::Unavailable;
use mds_packs::pack_day;
use mds_tables::{int_at, told};
use mds_terms::{Day, Moment, Reading, Stream};
use sqlite::{Alter, Row, Transaction};
use std::alloc::Global;

/// Puts a day's readings of one update, with one place for each interval. If there is no reading, nothing is put. If the day has a
/// row of this update, they join the readings of that row. Unavailable if an interval has a reading there already, the row has
/// another count of intervals, or its bytes are no body of a day. Also if the day has two rows of this update.
pub(crate) fn put_readings<S: Alter>(
    alloc: Global,
    tx: &mut Transaction<'_, S>,
    stream: &Stream,
    day: Day,
    update: Moment,
    readings: &[Option<Reading>],
) -> Result<(), Unavailable>
    requires few { length readings.now < 2 ^ 16 }
    ensures same_reference { tx.new.conn.ghost_name ≡ tx.old.conn.ghost_name }
    ensures ok { OnOk result (PutsFacts (state S.Store tx.old.conn.now) (state S.Store tx.new.conn.now) (readings_facts stream.now day update readings.now)) }
    ensures kept { IsThere (state S.Store tx.old.conn.now) (state S.Store tx.new.conn.now) → KeepsCommit (state S.Store tx.old.conn.now) (state S.Store tx.new.conn.now) }
    ensures survives { Survives (state S.Store tx.old.conn.now) (state S.Store tx.new.conn.now) (λ _. ⊥) }
{
    if !has_some(readings) {
        return Ok(());
    }
    let rows = body_rows(tx, stream, day, update)?;
    // decides: when is a row replaced, and which?
    match rows.as_slice() {
        [] => add_row(alloc, tx, stream, day, update, readings),
        [row] => lay_over(alloc, tx, row, readings),
        _ => Err(Unavailable),
    }
}

/// Puts a row of these readings.
fn add_row<S: Alter>(
    alloc: Global,
    tx: &mut Transaction<'_, S>,
    stream: &Stream,
    day: Day,
    update: Moment,
    readings: &[Option<Reading>],
) -> Result<(), Unavailable>
    requires few { length readings.now < 2 ^ 16 }
    requires some { IsTrue (list_any (λ reading. is_some reading) readings.now) }
    ensures same_reference { tx.new.conn.ghost_name ≡ tx.old.conn.ghost_name }
    ensures ok { OnOk result (PutsFacts (state S.Store tx.old.conn.now) (state S.Store tx.new.conn.now) (readings_facts stream.now day update readings.now)) }
    ensures kept { HasCleanDisk (state S.Store tx.new.conn.now) → KeepsCommit (state S.Store tx.old.conn.now) (state S.Store tx.new.conn.now) }
    ensures survives { Survives (state S.Store tx.old.conn.now) (state S.Store tx.new.conn.now) (λ _. ⊥) }
{
    let body = pack_day(alloc, readings)?;
    insert_body(tx, stream, day, update, body.as_slice())
}

/// Adds readings to those of a row. Its rowid and its body are shown.
fn lay_over<S: Alter>(
    alloc: Global,
    tx: &mut Transaction<'_, S>,
    shown: &Row,
    readings: &[Option<Reading>],
) -> Result<(), Unavailable>
    requires few { length readings.now < 2 ^ 16 }
    requires some { IsTrue (list_any (λ reading. is_some reading) readings.now) }
    ensures same_reference { tx.new.conn.ghost_name ≡ tx.old.conn.ghost_name }
    ensures ok { OnOk result (PutsBeside (state S.Store tx.old.conn.now) (state S.Store tx.new.conn.now) shown.now readings.now) }
    ensures kept { HasCleanDisk (state S.Store tx.new.conn.now) → KeepsCommit (state S.Store tx.old.conn.now) (state S.Store tx.new.conn.now) }
    ensures survives { Survives (state S.Store tx.old.conn.now) (state S.Store tx.new.conn.now) (λ _. ⊥) }
{
    let id = told(int_at(shown, 0))?;
    let olds = told(readings_at(alloc, shown, 1)?)?;
    let Some(all) = lay(alloc, olds.as_slice(), readings)? else {
        return Err(Unavailable);
    };
    let body = pack_day(alloc, all.as_slice())?;
    replace_body(tx, id, body.as_slice())
}
