//! The known streams and their last days. A day is known if mds_form has a row of it. A store that can't answer is unavailable
//! (U1), and so is one with a row that it didn't write.

ghost use Rattle.std.specs.Prelude.{◌≡◌, ◌≢◌, ℕ, List, ◌∷◌, false, IfOk, OnErr, OnOk, Option};
ghost use Rattle.std.specs.List.{AllPairs};
ghost use Rattle.std.specs.declared.cmp.Ordering.TheVariants.{Less};
ghost use Rattle.sqlite.specs.Held.{state};
ghost use Rattle.sqlite_value.specs.Order.{Row as RowValue, column};
ghost use Rattle.mds_keeper.specs.Queries.{AreKnownStreams, IsLastDayOf, stream_cmp};
ghost use Rattle.mds_tables.specs.Cells.{number_cell};
ghost use Rattle.mds_tables.specs.Queries.{Answers};
ghost use Rattle.mds_tables.specs.Stores.{HoldsOf};
ghost use Rattle.mds_tables.specs.Added.{AreAdded, IsAdded};
ghost use Rattle.mds_tables.specs.Shown.{SaysDay};
ghost use Rattle.mds_tables.specs.Written.{IsDay};
ghost use Rattle.mds_pack_rows.specs.Current.{current_layout, current_world};
ghost use Rattle.mds_commit.specs.StreamRows.{AreStreamsIn, SaysStream};

use crate::statements::{first_day_rows, form_stream_rows, last_day_rows, period_stream_rows};
use mds_keeper::Unavailable;
use mds_tables::{day_at, in_order, or_unavailable, put, ready, stream_in, told};
use mds_terms::{Day, Stream};
use sqlite::{Alter, Connection, Row};
use std::alloc::Global;
use std::collections::BTreeSet;

/// The last known day of a stream. `None` if it has none.
pub fn last_day<S: Alter>(
    conn: &mut Connection<S>,
    stream: &Stream,
) -> Result<Option<Day>, Unavailable>
    requires { conn.old.in_transaction ≡ false }
    ensures { Answers (HoldsOf current_layout) (state S.Store conn.old) (state S.Store conn.new) result
        (λ trees. IsLastDayOf (current_world trees) stream.now) }
{
    or_unavailable(ready(conn))?;
    let first = or_unavailable(first_day_rows(conn, stream))?;
    let last = or_unavailable(last_day_rows(conn, stream))?;
    last_of(&first, &last)
}

/// The day of the last row. If the first row says a day too, no day of the stream is below 0.
fn last_of(first: &[Row], last: &[Row]) -> Result<Option<Day>, Unavailable>
    ensures first { IfOk result (λ _. (day : Option ℕ) × SaysDay first.now day) }
    ensures last { IfOk result (SaysDay last.now) }
{
    first_day(first)?;
    first_day(last)
}

/// The day of the first row. `None` if there is no row.
fn first_day(rows: &[Row]) -> Result<Option<Day>, Unavailable>
    ensures ok { IfOk result (SaysDay rows.now) }
    ensures err { OnErr result ((row : RowValue) × (later : List RowValue) × (rows.now ≡ row ∷ later)
        × ((day : ℕ) → IsDay day → column row 0 ≢ number_cell day)) }
{
    match rows {
        [first, ..] => Ok(Some(told(day_at(first, 0))?)),
        [] => Ok(None),
    }
}

/// The known streams, in the order of their bytes, each once.
pub fn streams<S: Alter>(
    alloc: Global,
    conn: &mut Connection<S>,
) -> Result<Vec<Stream>, Unavailable>
    requires { conn.old.in_transaction ≡ false }
    ensures { Answers (HoldsOf current_layout) (state S.Store conn.old) (state S.Store conn.new) result
        (λ trees streams. AreKnownStreams (current_world trees) streams.items) }
{
    or_unavailable(ready(conn))?;
    let heads = or_unavailable(form_stream_rows(conn))?;
    let periods = or_unavailable(period_stream_rows(conn))?;
    all_streams(alloc, &heads, &periods)
}

/// The streams of two lists of rows, ascending, each once.
fn all_streams(alloc: Global, heads: &[Row], periods: &[Row]) -> Result<Vec<Stream>, Unavailable>
    ensures each { IfOk result (λ streams. AreStreamsIn heads.now periods.now streams.items) }
    ensures ascending { IfOk result (λ streams. AllPairs (λ a b. stream_cmp a b ≡ Less) streams.items) }
{
    let mut found = BTreeSet::new(alloc);
    add_streams(&mut found, heads)?;
    add_streams(&mut found, periods)?;
    in_order(alloc, found)
}

/// Adds the streams of rows.
fn add_streams(found: &mut BTreeSet<Stream>, rows: &[Row]) -> Result<(), Unavailable>
    ensures { OnOk result (AreAdded SaysStream found.old.keys rows.now found.new.keys) }
{
    for i in 0..rows.len() {
        add_stream(found, &rows[i])?;
    }
    Ok(())
}

/// Adds the stream of a row.
fn add_stream(found: &mut BTreeSet<Stream>, row: &Row) -> Result<(), Unavailable>
    ensures { OnOk result (IsAdded SaysStream found.old.keys row.now found.new.keys) }
{
    let stream = told(stream_in(row))?;
    put(found, stream)
}
