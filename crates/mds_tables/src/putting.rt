//! Puts what follows heads, versions and details into the tables that every schema has, in a transaction.

ghost use Rattle.std.specs.Prelude.{◌≡◌, [], ◌∷◌};
ghost use Rattle.sqlite.specs.Held.{state};
ghost use Rattle.mds_tables.specs.Tables.{More, schema_with};
ghost use Rattle.mds_tables.specs.Parts.{event_part, rest_in, singly};
ghost use Rattle.mds_tables.specs.Writing.{Changes, PutsEach, PutsRestThere};

use crate::cells::{event_cells, letter_of};
use crate::jobs::JobRow;
use crate::periods::PeriodRow;
use crate::rows::put_all;
use crate::tables::{HolidayTable, JobTable, PeriodTable};
use mds_keeper::Additions;
use mds_terms::{Day, Event};
use sqlite::{Alter, Error, Transaction};
use std::alloc::Global;

/// Puts the rows that follow heads, versions and details, whatever tables follow those that every schema has.
pub fn put_rest<S: Alter>(
    alloc: Global,
    tx: &mut Transaction<'_, S>,
    additions: &Additions,
    periods: &[PeriodRow],
    jobs: &[JobRow],
) -> Result<(), Error>
    ensures same_reference { tx.new.conn.ghost_name ≡ tx.old.conn.ghost_name }
    ensures puts { (more : More) → Changes (schema_with more)
        (PutsRestThere (schema_with more) (state S.Store tx.old.conn.now) (state S.Store tx.new.conn.now) additions.now periods.now jobs.now)
        (rest_in additions.now periods.now jobs.now) (state S.Store tx.old.conn.now) (state S.Store tx.new.conn.now) result }
{
    put_events(tx, &additions.events)?;
    put_all::<(), PeriodRow, PeriodTable, S>(alloc, tx, &(), periods)?;
    put_all::<(), Day, HolidayTable, S>(alloc, tx, &(), &additions.holidays)?;
    put_all::<(), JobRow, JobTable, S>(alloc, tx, &(), jobs)
}

/// Puts the row of each event, whatever tables follow those that every schema has.
fn put_events<S: Alter>(tx: &mut Transaction<'_, S>, events: &[Event]) -> Result<(), Error>
    ensures same_reference { tx.new.conn.ghost_name ≡ tx.old.conn.ghost_name }
    ensures puts { (more : More) → PutsEach (schema_with more) event_part (singly event_part events.now) (state S.Store tx.old.conn.now) (state S.Store tx.new.conn.now) result events.now }
{
    for event in events {
        put_event(tx, event)?;
    }
    Ok(())
}

/// Puts the row of an event. Some of its columns borrow from what this function makes. So the table isn't data, as the others are.
fn put_event<S: Alter>(tx: &mut Transaction<'_, S>, event: &Event) -> Result<(), Error>
    ensures same_reference { tx.new.conn.ghost_name ≡ tx.old.conn.ghost_name }
    ensures puts { (more : More) → PutsEach (schema_with more) event_part (singly event_part (event.now ∷ [])) (state S.Store tx.old.conn.now) (state S.Store tx.new.conn.now) result (event.now ∷ []) }
{
    let (nmi, suffix) = (event.nmi(), event.suffix());
    let (letter, count) = letter_of(event);
    tx.execute(
        "INSERT INTO mds_event (nmi, suffix, day, trans, ticket, moment, reading) VALUES (?1, ?2, ?3, ?4, ?5, ?6, ?7)",
        &event_cells(
            event,
            nmi.text().as_bytes(),
            suffix.text().as_bytes(),
            &letter[..count],
        ),
    )?;
    Ok(())
}
