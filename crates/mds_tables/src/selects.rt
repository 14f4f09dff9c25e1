//! The queries, and the rows that they return, whatever tables follow those that every schema has.

ghost use Rattle.std.specs.Prelude.{◌≡◌, [], ◌∷◌, IfErr};
ghost use Rattle.sqlite.specs.Held.{state};
ghost use Rattle.sqlite.specs.State.{HasCleanDisk};
ghost use Rattle.mds_tables.specs.Causes.{HasFailed};
ghost use Rattle.mds_tables.specs.Cells as row;
ghost use Rattle.mds_tables.specs.Layouts.{Layout};
ghost use Rattle.mds_tables.specs.Queries.{QueriesOf};
ghost use Rattle.mds_tables.specs.Stores.{Selects, SelectsAll};
ghost use Rattle.mds_tables.specs.Tables.{event_columns, event_nmi, event_tree, schema_tree, schema_version, schema_with};

use crate::cells::{day_cells, event_cells};
use mds_terms::{Day, Event, Stream};
use sqlite::{Alter, Connection, Error, Row};

/// The numbers that mds_schema says.
pub(crate) fn version_numbers<S: Alter>(conn: &mut Connection<S>) -> Result<Vec<Row>, Error>
    ensures asked { (layout : Layout) → QueriesOf layout (state S.Store conn.old) (state S.Store conn.new) result (SelectsAll schema_tree (schema_version ∷ [])) }
    ensures cause { (layout : Layout) → HasCleanDisk (state S.Store conn.new) → (state S.Store conn.old).now.schema ≡ schema_with layout.more
        → IfErr result (HasFailed (state S.Store conn.old) (state S.Store conn.new)) }
{
    conn.query_all("SELECT version FROM mds_schema", &[])
}

/// The events of a day.
pub(crate) fn event_rows<S: Alter>(
    conn: &mut Connection<S>,
    stream: &Stream,
    day: Day,
) -> Result<Vec<Row>, Error>
    ensures { (layout : Layout) → QueriesOf layout (state S.Store conn.old) (state S.Store conn.new) result (Selects event_tree (row.day_cells stream.now day) event_columns) }
{
    conn.query_all(
        "SELECT nmi, suffix, day, trans, ticket, moment, reading FROM mds_event WHERE nmi = ?1 AND suffix = ?2 AND day = ?3",
        &day_cells(stream, day),
    )
}

/// A row where this event is kept.
pub(crate) fn same_event_rows<S: Alter>(
    conn: &mut Connection<S>,
    event: &Event,
    nmi: &[u8],
    suffix: &[u8],
    letter: &[u8],
) -> Result<Vec<Row>, Error>
    requires nmi { nmi.now ≡ event.now.nmi }
    requires suffix { suffix.now ≡ event.now.suffix }
    requires letter { letter.now ≡ row.letter_text event.now.trans }
    ensures { (layout : Layout) → QueriesOf layout (state S.Store conn.old) (state S.Store conn.new) result (Selects event_tree (row.event_cells event.now) (event_nmi ∷ [])) }
{
    conn.query_all(
        "SELECT nmi FROM mds_event WHERE nmi = ?1 AND suffix = ?2 AND day = ?3 AND trans = ?4 AND ticket = ?5 AND moment = ?6 AND reading = ?7",
        &event_cells(event, nmi, suffix, letter),
    )
}
