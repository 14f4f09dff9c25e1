//! The queries, and the rows that they return.

ghost use Rattle.std.specs.Prelude.{[]};
ghost use Rattle.sqlite.specs.Held.{state};
ghost use Rattle.mds_tables.specs.Cells as row;
ghost use Rattle.mds_tables.specs.Queries.{QueriesOf};
ghost use Rattle.mds_tables.specs.Stores.{Selects};
ghost use Rattle.mds_tables.specs.Tables.{form_tree, head_tree, period_tree, stream_columns};
ghost use Rattle.mds_tables.specs.Shown.{SelectsFirst, falling, rising};
ghost use Rattle.mds_pack_rows.specs.Current.{current_layout};
ghost use Rattle.mds_pack_rows.specs.PackTables.{pack_tree, update_columns};
ghost use Rattle.mds_commit.specs.Cuts.{day_columns, range_columns};
ghost use Rattle.mds_commit.specs.FormRows.{form_columns, form_day, unit_columns};
ghost use Rattle.mds_commit.specs.Ranges.{SelectsRange};

use mds_tables::{day_cells, range_cells, stream_cells};
use mds_terms::{Day, Stream};
use sqlite::{Alter, Connection, Error, Row};

/// The first day among the heads of a stream.
pub(crate) fn first_day_rows<S: Alter>(
    conn: &mut Connection<S>,
    stream: &Stream,
) -> Result<Vec<Row>, Error>
    ensures { QueriesOf current_layout (state S.Store conn.old) (state S.Store conn.new) result (SelectsFirst rising form_tree (row.stream_cells stream.now) form_day) }
{
    conn.query_all(
        "SELECT day FROM mds_form WHERE nmi = ?1 AND suffix = ?2 ORDER BY day LIMIT 1",
        &stream_cells(stream),
    )
}

/// The last day among the heads of a stream.
pub(crate) fn last_day_rows<S: Alter>(
    conn: &mut Connection<S>,
    stream: &Stream,
) -> Result<Vec<Row>, Error>
    ensures { QueriesOf current_layout (state S.Store conn.old) (state S.Store conn.new) result (SelectsFirst falling form_tree (row.stream_cells stream.now) form_day) }
{
    conn.query_all(
        "SELECT day FROM mds_form WHERE nmi = ?1 AND suffix = ?2 ORDER BY day DESC LIMIT 1",
        &stream_cells(stream),
    )
}

/// The streams of all heads.
pub(crate) fn form_stream_rows<S: Alter>(conn: &mut Connection<S>) -> Result<Vec<Row>, Error>
    ensures { QueriesOf current_layout (state S.Store conn.old) (state S.Store conn.new) result (Selects form_tree [] stream_columns) }
{
    conn.query_all("SELECT nmi, suffix FROM mds_form", &[])
}

/// The streams of all periods.
pub(crate) fn period_stream_rows<S: Alter>(conn: &mut Connection<S>) -> Result<Vec<Row>, Error>
    ensures { QueriesOf current_layout (state S.Store conn.old) (state S.Store conn.new) result (Selects period_tree [] stream_columns) }
{
    conn.query_all("SELECT nmi, suffix FROM mds_period", &[])
}

/// The updates of a day, each with its length.
pub(crate) fn form_rows<S: Alter>(
    conn: &mut Connection<S>,
    stream: &Stream,
    day: Day,
) -> Result<Vec<Row>, Error>
    ensures { QueriesOf current_layout (state S.Store conn.old) (state S.Store conn.new) result (Selects form_tree (row.day_cells stream.now day) form_columns) }
{
    conn.query_all(
        "SELECT moment, length FROM mds_form WHERE nmi = ?1 AND suffix = ?2 AND day = ?3",
        &day_cells(stream, day),
    )
}

/// The updates of a day, each with its body.
pub(crate) fn pack_rows<S: Alter>(
    conn: &mut Connection<S>,
    stream: &Stream,
    day: Day,
) -> Result<Vec<Row>, Error>
    ensures { QueriesOf current_layout (state S.Store conn.old) (state S.Store conn.new) result (Selects pack_tree (row.day_cells stream.now day) update_columns) }
{
    conn.query_all(
        "SELECT moment, body FROM mds_pack WHERE nmi = ?1 AND suffix = ?2 AND day = ?3",
        &day_cells(stream, day),
    )
}

/// The unit of a day.
pub(crate) fn unit_rows<S: Alter>(
    conn: &mut Connection<S>,
    stream: &Stream,
    day: Day,
) -> Result<Vec<Row>, Error>
    ensures { QueriesOf current_layout (state S.Store conn.old) (state S.Store conn.new) result (Selects head_tree (row.day_cells stream.now day) unit_columns) }
{
    conn.query_all(
        "SELECT unit FROM mds_head WHERE nmi = ?1 AND suffix = ?2 AND day = ?3",
        &day_cells(stream, day),
    )
}

/// The updates and the lengths of a range of days, each with its day, by day.
pub(crate) fn form_range_rows<S: Alter>(
    conn: &mut Connection<S>,
    stream: &Stream,
    first: Day,
    last: Day,
) -> Result<Vec<Row>, Error>
    ensures { QueriesOf current_layout (state S.Store conn.old) (state S.Store conn.new) result (SelectsRange form_tree stream.now first last range_columns) }
{
    conn.query_all(
        "SELECT moment, length, day FROM mds_form WHERE nmi = ?1 AND suffix = ?2 AND day >= ?3 AND day <= ?4 ORDER BY day",
        &range_cells(stream, first, last),
    )
}

/// The updates and the bodies of a range of days, each with its day, by day.
pub(crate) fn pack_range_rows<S: Alter>(
    conn: &mut Connection<S>,
    stream: &Stream,
    first: Day,
    last: Day,
) -> Result<Vec<Row>, Error>
    ensures { QueriesOf current_layout (state S.Store conn.old) (state S.Store conn.new) result (SelectsRange pack_tree stream.now first last range_columns) }
{
    conn.query_all(
        "SELECT moment, body, day FROM mds_pack WHERE nmi = ?1 AND suffix = ?2 AND day >= ?3 AND day <= ?4 ORDER BY day",
        &range_cells(stream, first, last),
    )
}

/// The days of a range, each with its unit, by day.
pub(crate) fn head_range_rows<S: Alter>(
    conn: &mut Connection<S>,
    stream: &Stream,
    first: Day,
    last: Day,
) -> Result<Vec<Row>, Error>
    ensures { QueriesOf current_layout (state S.Store conn.old) (state S.Store conn.new) result (SelectsRange head_tree stream.now first last day_columns) }
{
    conn.query_all(
        "SELECT day, unit FROM mds_head WHERE nmi = ?1 AND suffix = ?2 AND day >= ?3 AND day <= ?4 ORDER BY day",
        &range_cells(stream, first, last),
    )
}
