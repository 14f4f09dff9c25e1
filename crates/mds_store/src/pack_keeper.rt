//! The keeper over tables, with packed days.

ghost use Rattle.std.specs.Prelude.{◌≡◌, IsTrue, false};
ghost use Rattle.sqlite.specs.Held.{state};
ghost use Rattle.sqlite.specs.State.{HasCleanDisk};
ghost use Rattle.mds_pack_rows.specs.Current.{current_layout};
ghost use Rattle.mds_store.specs.KeptRows.{kept_in};
ghost use Rattle.mds_store.specs.Props.{settles};
ghost use Rattle.mds_store.specs.CurrentStore.{HoldsCurrent, IsCurrentStore};
ghost use Rattle.mds_store.specs.CurrentProps.{HoldsCurrent-prop};

use crate::periods::{content_of_period, periods_of};
use crate::querying::{holidays_of, job_of};
use mds_commit::{
    commit, current_details, day_of, days_of, days_without, details_between, last_day, streams,
};
use mds_jobs::{Job, JobId};
use mds_keeper::{Additions, DayBook, DetailDays, Keeper, Unavailable};
use mds_statements::{Period, PeriodContent, PeriodKey};
use mds_tables::{events_of, has_event, job_rows, period_rows};
use mds_terms::{Day, Details, Event, Stream};
use sqlite::{Alter, Connection};
use std::alloc::Global;

/// Keeps a World in the tables of the current schema. The versions of a day that have one update are one row, and any other fact is one row. Only
/// the unit of a day's heads has a row of its own.
#[derive(Drop)]
pub struct PackKeeper<S: Alter> {
    alloc: Global,
    conn: Connection<S>,
    // It is in no transaction.
    pub ghost autocommit: { conn.in_transaction ≡ false },
    // While the disk is honest, what is committed is a store that `adopt` takes. So is what a crash may leave.
    pub ghost holds: { HoldsCurrent (state S.Store conn) } by { HoldsCurrent-prop (state S.Store conn) },
}

impl<S: Alter> PackKeeper<S> {
    /// A keeper over an open connection that is in no transaction and holds a store that `adopt` takes.
    pub(crate) fn over(alloc: Global, conn: Connection<S>) -> PackKeeper<S>
        requires autocommit { conn.in_transaction ≡ false }
        requires holds { HasCleanDisk (state S.Store conn) → IsTrue (state S.Store conn).is_open × IsCurrentStore (state S.Store conn).committed }
        ensures { result.conn ≡ conn }
    {
        // For the proof: what is committed obeys its schema.
        let _ = conn.schema();
        PackKeeper { alloc, conn }
    }

    /// Returns the connection, in no transaction and with the same tables. They are those of a store that `adopt` takes.
    pub fn into_connection(self) -> Connection<S>
        ensures same { result ≡ self.conn }
        ensures autocommit { result.in_transaction ≡ false }
        ensures holds { HoldsCurrent (state S.Store result) }
    {
        let PackKeeper { alloc: _, conn } = self;
        conn
    }
}

impl<S: Alter> Keeper for PackKeeper<S> {
    ghost kept = { λ k. kept_in current_layout (state S.Store k.conn) };

    ghost sound_honest = { λ _ sound. sound.0 };

    ghost settled = { λ k sound left may. settles current_layout _ _ (λ trees. S.Store.settled k.conn.store trees sound.1) left may };

    fn day(&mut self, stream: Stream, day: Day) -> Result<DayBook, Unavailable> {
        day_of(self.alloc, &mut self.conn, &stream, day)
    }

    // Three queries, whatever the length of the range.
    fn days(&mut self, stream: Stream, first: Day, last: Day) -> Result<Vec<DayBook>, Unavailable> {
        days_of(self.alloc, &mut self.conn, &stream, first, last)
    }

    fn streams(&mut self) -> Result<Vec<Stream>, Unavailable> {
        streams(self.alloc, &mut self.conn)
    }

    fn last_day(&mut self, stream: Stream) -> Result<Option<Day>, Unavailable> {
        last_day(&mut self.conn, &stream)
    }

    fn details(&mut self, stream: Stream, day: Day) -> Result<Details, Unavailable> {
        current_details(self.alloc, &mut self.conn, &stream, day)
    }

    // One query, whatever the length of the range.
    fn details_between(
        &mut self,
        stream: Stream,
        first: Day,
        last: Day,
    ) -> Result<Vec<(Day, Details)>, Unavailable> {
        details_between(self.alloc, &mut self.conn, &stream, first, last)
    }

    fn days_without(&mut self, details: &DetailDays) -> Result<Vec<Day>, Unavailable> {
        days_without(self.alloc, &mut self.conn, details)
    }

    fn events(&mut self, stream: Stream, day: Day) -> Result<Vec<Event>, Unavailable> {
        events_of(self.alloc, &mut self.conn, &stream, day)
    }

    fn has_event(&mut self, event: &Event) -> Result<bool, Unavailable> {
        has_event(&mut self.conn, event)
    }

    fn period(&mut self, stream: Stream) -> Result<Vec<Period>, Unavailable> {
        periods_of(self.alloc, &mut self.conn, &stream)
    }

    fn content(&mut self, key: &PeriodKey) -> Result<Option<PeriodContent>, Unavailable> {
        content_of_period(self.alloc, &mut self.conn, key)
    }

    fn holidays(&mut self) -> Result<Vec<Day>, Unavailable> {
        holidays_of(self.alloc, &mut self.conn)
    }

    fn job(&mut self, id: JobId) -> Result<Option<(Job, u64)>, Unavailable> {
        job_of(self.alloc, &mut self.conn, id)
    }

    fn commit(&mut self, additions: Additions) -> Result<(), Unavailable> {
        let periods = period_rows(self.alloc, &additions.periods)?;
        let jobs = job_rows(self.alloc, &additions.jobs)?;
        commit(self.alloc, &mut self.conn, &additions, &periods, &jobs)
    }
}
