//! The queries, and the rows that they return.

ghost use Rattle.std.specs.Prelude.{◌≡◌};
ghost use Rattle.sqlite.specs.Held.{state};
ghost use Rattle.sqlite.specs.Values.{bound};
ghost use Rattle.sqlite.specs.declared.types.Value.TheVariants.{Int};
ghost use Rattle.mds_tables.specs.Cells as row;
ghost use Rattle.mds_tables.specs.Queries.{QueriesOf};
ghost use Rattle.mds_pack_rows.specs.Current.{current_layout};
ghost use Rattle.mds_commit.specs.Shown.{ShowsDaysWith, ShowsDetails, ShowsNearest, ShowsRange, days_cells};

use mds_keeper::DetailDays;
use mds_tables::{day_cells, range_cells};
use mds_terms::{Day, Stream};
use sqlite::types::ValueRef;
use sqlite::{Alter, Connection, Error, Row};

/// The nearest day, up to and including this one, that has details of the stream.
pub(crate) fn nearest_rows<S: Alter>(
    conn: &mut Connection<S>,
    stream: &Stream,
    day: Day,
) -> Result<Vec<Row>, Error>
    ensures { QueriesOf current_layout (state S.Store conn.old) (state S.Store conn.new) result (ShowsNearest stream.now day) }
{
    conn.query_all(
        "SELECT day FROM mds_daydetail WHERE nmi = ?1 AND suffix = ?2 AND day <= ?3 ORDER BY day DESC LIMIT 1",
        &day_cells(stream, day),
    )
}

/// The details of a day: those of the latest header first, and for one header the greatest first.
pub(crate) fn details_rows<S: Alter>(
    conn: &mut Connection<S>,
    stream: &Stream,
    day: Day,
) -> Result<Vec<Row>, Error>
    ensures { QueriesOf current_layout (state S.Store conn.old) (state S.Store conn.new) result (ShowsDetails stream.now day) }
{
    // decides: which details of a day are current? (definition: IsCurrentDetails in mds_world/specs/Current.antt)
    conn.query_all(
        "SELECT moment, configuration, register, datastream, meter, next FROM mds_daydetail WHERE nmi = ?1 AND suffix = ?2 AND day = ?3 ORDER BY moment DESC, configuration DESC, register DESC, datastream DESC, meter DESC, next DESC",
        &day_cells(stream, day),
    )
}

/// The details of the days of a range, each with its day. They are ordered by day, and then as the details
/// of one day are.
pub(crate) fn range_rows<S: Alter>(
    conn: &mut Connection<S>,
    stream: &Stream,
    first: Day,
    last: Day,
) -> Result<Vec<Row>, Error>
    ensures { QueriesOf current_layout (state S.Store conn.old) (state S.Store conn.new) result (ShowsRange stream.now first last) }
{
    conn.query_all(
        "SELECT moment, configuration, register, datastream, meter, next, day FROM mds_daydetail WHERE nmi = ?1 AND suffix = ?2 AND day >= ?3 AND day <= ?4 ORDER BY day, moment DESC, configuration DESC, register DESC, datastream DESC, meter DESC, next DESC",
        &range_cells(stream, first, last),
    )
}

/// The days of a range that have these details.
pub(crate) fn days_with_rows<S: Alter>(
    conn: &mut Connection<S>,
    details: &DetailDays,
    first: Day,
    last: Day,
) -> Result<Vec<Row>, Error>
    ensures { QueriesOf current_layout (state S.Store conn.old) (state S.Store conn.new) result (ShowsDaysWith details.now first last) }
{
    conn.query_all(
        "SELECT day FROM mds_daydetail WHERE nmi = ?1 AND suffix = ?2 AND day >= ?3 AND day <= ?4 AND moment = ?5 AND configuration = ?6 AND register = ?7 AND datastream = ?8 AND meter = ?9 AND next = ?10",
        &asked_cells(details, first, last),
    )
}

/// The columns of details, with the first and the last day of a range instead of their day.
fn asked_cells<'a>(details: &'a DetailDays, first: Day, last: Day) -> [ValueRef<'a>; 10]
    ensures { bound result ≡ days_cells details.now first last }
{
    [
        ValueRef::Text(details.stream.nmi.text().as_bytes()),
        ValueRef::Text(details.stream.suffix.text().as_bytes()),
        ValueRef::Int(first.number()),
        ValueRef::Int(last.number()),
        ValueRef::Int(details.moment.seconds()),
        ValueRef::Text(details.details.configuration().as_bytes()),
        ValueRef::Text(details.details.register().as_bytes()),
        ValueRef::Text(details.details.datastream().as_bytes()),
        ValueRef::Text(details.details.meter().as_bytes()),
        ValueRef::Int(next_cell(details.details.next())),
    ]
}

/// The number of a day, or -1 if it is absent.
fn next_cell(day: Option<Day>) -> i64
    ensures { Int result ≡ row.optional_cell day }
{
    match day {
        Some(day) => day.number(),
        None => -1,
    }
}
