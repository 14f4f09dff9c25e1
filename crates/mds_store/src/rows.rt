//! The queries, and the rows that they return, whatever tables follow those that every schema has.

ghost use Rattle.std.specs.Prelude.{◌≡◌, ◌<◌, [], ◌∷◌, IfOk, MatchOption, OnErr, length};
ghost use Rattle.sqlite.specs.Held.{state};
ghost use Rattle.sqlite.specs.declared.types.Value.TheVariants.{Text};
ghost use Rattle.mds_tables.specs.Cells as row;
ghost use Rattle.mds_tables.specs.Layouts.{Layout};
ghost use Rattle.mds_tables.specs.Queries.{QueriesOf};
ghost use Rattle.mds_tables.specs.Stores.{Selects};
ghost use Rattle.mds_tables.specs.Tables.{holiday_day, holiday_tree, job_body, job_total, job_tree, period_body, period_columns, period_tree};

use mds_jobs::JobId;
use mds_keeper::Unavailable;
use mds_statements::PeriodKey;
use mds_tables::{id_cells, period_key_cells, stream_cells};
use mds_terms::Stream;
use sqlite::{Alter, Connection, Error, Row};

/// All holidays.
pub(crate) fn holiday_rows<S: Alter>(conn: &mut Connection<S>) -> Result<Vec<Row>, Error>
    ensures { (layout : Layout) → QueriesOf layout (state S.Store conn.old) (state S.Store conn.new) result (Selects holiday_tree [] (holiday_day ∷ [])) }
{
    conn.query_all("SELECT day FROM mds_holiday", &[])
}

/// The body and the count of a job.
pub(crate) fn job_rows<S: Alter>(conn: &mut Connection<S>, id: &JobId) -> Result<Vec<Row>, Error>
    ensures { (layout : Layout) → QueriesOf layout (state S.Store conn.old) (state S.Store conn.new) result (Selects job_tree (Text id.now ∷ []) (job_body ∷ job_total ∷ [])) }
{
    conn.query_all(
        "SELECT body, total FROM mds_job WHERE id = ?1",
        &id_cells(id),
    )
}

/// The accumulations of a stream, by register, previous read, current read and update.
pub(crate) fn period_rows<S: Alter>(
    conn: &mut Connection<S>,
    stream: &Stream,
) -> Result<Vec<Row>, Error>
    ensures { (layout : Layout) → QueriesOf layout (state S.Store conn.old) (state S.Store conn.new) result (Selects period_tree (row.stream_cells stream.now) period_columns) }
{
    conn.query_all(
        "SELECT nmi, suffix, register, start, finish, moment, body FROM mds_period WHERE nmi = ?1 AND suffix = ?2 ORDER BY register, start, finish, moment",
        &stream_cells(stream),
    )
}

/// The body of the accumulation of a key.
pub(crate) fn content_rows<S: Alter>(
    conn: &mut Connection<S>,
    key: &PeriodKey,
) -> Result<Vec<Row>, Error>
    ensures { (layout : Layout) → QueriesOf layout (state S.Store conn.old) (state S.Store conn.new) result (Selects period_tree (row.period_key_cells key.now) (period_body ∷ [])) }
{
    conn.query_all(
        "SELECT body FROM mds_period WHERE nmi = ?1 AND suffix = ?2 AND register = ?3 AND start = ?4 AND finish = ?5 AND moment = ?6",
        &period_key_cells(key),
    )
}

/// The only row. `None` if there is no row. No key has two rows.
pub(crate) fn only_row<'a>(rows: &'a [Row]) -> Result<Option<&'a Row>, Unavailable>
    ensures ok { IfOk result (λ only. MatchOption only (rows.now ≡ []) (λ row. rows.now ≡ row.now ∷ [])) }
    ensures err { OnErr result (1 < length rows.now) }
{
    match rows {
        [] => Ok(None),
        [row] => Ok(Some(row)),
        _ => Err(Unavailable),
    }
}
