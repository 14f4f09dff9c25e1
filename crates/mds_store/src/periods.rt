//! The accumulations of a store. A store that can't answer is unavailable (U1), and so is one with a row whose columns aren't those
//! of an accumulation. The count of fields in a body isn't checked.

ghost use Rattle.std.specs.Prelude.{◌≡◌, ◌<◌, ◌^◌, ◌↔◌, ℕ, List, false, length, IfOk, IsTrue, OnErr};
ghost use Rattle.std.specs.List.{AllPairs};
ghost use Rattle.std.specs.declared.cmp.Ordering.TheVariants.{Less};
ghost use Rattle.sqlite.specs.declared.types.Value.TheVariants.{Text};
ghost use Rattle.sqlite.specs.Held.{state};
ghost use Rattle.sqlite.specs.Order.{column};
ghost use Rattle.mds_terms.specs.Printable.{is_printable};
ghost use Rattle.mds_statements.specs.Contents.{text_of};
ghost use Rattle.mds_statements.specs.declared.periods.Period.{Period as PeriodValue};
ghost use Rattle.mds_keeper.specs.Queries.{ArePeriodsOf, IsContentOf, period_cmp};
ghost use Rattle.mds_tables.specs.Layouts.{Layout, world_with};
ghost use Rattle.mds_tables.specs.Queries.{Answers};
ghost use Rattle.mds_tables.specs.Stores.{HoldsOf};
ghost use Rattle.mds_store.specs.Periods.{ArePeriodsIn, IsBodyAt, IsOnlyContent, IsRowOfPeriod, SaysContent, SaysPeriod, shown_key, text_length};

use crate::rows::{content_rows, only_row, period_rows};
use mds_keeper::Unavailable;
use mds_statements::{Period, PeriodContent, PeriodKey};
use mds_tables::{moment_at, or_unavailable, ready, str_at, stream_in, text_at, told};
use mds_terms::{PrintableString, Stream};
use sqlite::{Alter, Connection, Row};
use std::alloc::Global;
use std::cmp::Ordering;

/// The accumulations of a stream, by register, previous read, current read and update, each once.
pub fn periods_of<S: Alter>(
    alloc: Global,
    conn: &mut Connection<S>,
    stream: &Stream,
) -> Result<Vec<Period>, Unavailable>
    requires { conn.old.in_transaction ≡ false }
    ensures { (layout : Layout) → Answers (HoldsOf layout) (state S.Store conn.old) (state S.Store conn.new) result
        (λ trees periods. ArePeriodsOf (world_with layout trees) stream.now periods.items) }
{
    or_unavailable(ready(conn))?;
    let rows = or_unavailable(period_rows(conn, stream))?;
    all_periods(alloc, &rows)
}

/// The accumulations of rows, in ascending order.
fn all_periods(alloc: Global, rows: &[Row]) -> Result<Vec<Period>, Unavailable>
    ensures each { IfOk result (λ periods. ArePeriodsIn rows.now periods.items) }
    ensures ascending { IfOk result (λ periods. AllPairs (λ a b. period_cmp a.key b.key ≡ Less) periods.items) }
{
    let periods = read_periods(alloc, rows)?;
    // The query returns them in this order, and each key has one row.
    if do_ascend(&periods) {
        Ok(periods)
    } else {
        Err(Unavailable)
    }
}

/// Each row's accumulation.
fn read_periods(alloc: Global, rows: &[Row]) -> Result<Vec<Period>, Unavailable>
    ensures { IfOk result (λ periods. ArePeriodsIn rows.now periods.items) }
{
    let mut periods = Vec::with_capacity(alloc, rows.len())?;
    for i in 0..rows.len() {
        let period = period_in(alloc, &rows[i])?;
        periods.push(period)?;
    }
    Ok(periods)
}

/// Whether each accumulation is before the next.
fn do_ascend(periods: &[Period]) -> bool
    ensures { IsTrue result ↔ AllPairs (λ a b. period_cmp a.key b.key ≡ Less) periods.now }
{
    periods.is_sorted_by(|a, b| order_of(a, b).is_lt())
}

/// The order of two accumulations of a stream.
fn order_of(a: &Period, b: &Period) -> Ordering
    ensures { result ≡ period_cmp a.now.key b.now.key }
{
    let (a, b) = (&a.key, &b.key);
    let updates = a.update.cmp(&b.update);
    let finishes = a.finish.cmp(&b.finish).then(updates);
    a.register
        .cmp(&b.register)
        .then(a.start.cmp(&b.start).then(finishes))
}

/// The accumulation of a row. It takes memory only for its texts.
fn period_in(alloc: Global, row: &Row) -> Result<Period, Unavailable>
    ensures ok { IfOk result (SaysPeriod row.now) }
    ensures err { OnErr result ((period : PeriodValue) → IsRowOfPeriod row.now period → 0 < text_length period) }
{
    let key = key_in(alloc, row)?;
    let content = content_at(alloc, row, 6)?;
    Ok(Period { key, content })
}

/// The key of the accumulation of a row. It takes memory only for the register.
fn key_in(alloc: Global, row: &Row) -> Result<PeriodKey, Unavailable>
    ensures ok { IfOk result (λ key. key ≡ shown_key row.now) }
    ensures err { OnErr result ((period : PeriodValue) → IsRowOfPeriod row.now period → 0 < length period.key.register) }
{
    let stream = told(stream_in(row))?;
    let start = told(moment_at(row, 3))?;
    let finish = told(moment_at(row, 4))?;
    let update = told(moment_at(row, 5))?;
    let register = register_at(alloc, row, 2)?;
    Ok(PeriodKey {
        stream,
        register,
        start,
        finish,
        update,
    })
}

/// The printable text in a column. An empty one takes no memory.
fn register_at(alloc: Global, row: &Row, at: usize) -> Result<PrintableString, Unavailable>
    ensures ok { IfOk result (λ register. column row.now at ≡ Text register) }
    ensures err { OnErr result ((register : List ℕ) → IsTrue (is_printable register) → column row.now at ≡ Text register → 0 < length register) }
{
    let text = told(text_at(row, at))?;
    told(PrintableString::read(alloc, text)?)
}

/// The content of the body in a column. An empty one takes no memory.
fn content_at(alloc: Global, row: &Row, at: usize) -> Result<PeriodContent, Unavailable>
    ensures ok { IfOk result (SaysContent row.now at) }
    ensures err { OnErr result ((period : PeriodValue) → IsBodyAt row.now at period → 0 < length (text_of period.content)) }
{
    let body = told(str_at(row, at))?;
    // The store never writes a body with a single field, which has no content.
    told(PeriodContent::from_body(alloc, body)?)
}

/// What is kept of the accumulation with this key. `None` if no such accumulation is kept.
pub fn content_of_period<S: Alter>(
    alloc: Global,
    conn: &mut Connection<S>,
    key: &PeriodKey,
) -> Result<Option<PeriodContent>, Unavailable>
    requires { conn.old.in_transaction ≡ false }
    ensures { (layout : Layout) → Answers (HoldsOf layout) (state S.Store conn.old) (state S.Store conn.new) result
        (λ trees. IsContentOf (world_with layout trees) key.now) }
{
    or_unavailable(ready(conn))?;
    let rows = or_unavailable(content_rows(conn, key))?;
    // For the proof: its moments are below 2^63.
    has_small_moments(key);
    only_content(alloc, &rows)
}

/// The content in the only row.
fn only_content(alloc: Global, rows: &[Row]) -> Result<Option<PeriodContent>, Unavailable>
    ensures { IfOk result (IsOnlyContent rows.now) }
{
    let Some(row) = only_row(rows)? else {
        return Ok(None);
    };
    let content = content_at(alloc, row, 0)?;
    Ok(Some(content))
}

/// The moments of a key are far below the greatest number that a column can hold. The function does nothing.
fn has_small_moments(key: &PeriodKey)
    ensures start { key.now.start < 2 ^ 63 }
    ensures finish { key.now.finish < 2 ^ 63 }
    ensures update { key.now.update < 2 ^ 63 }
{
    // For the proof: the seconds of a moment are below those of all possible days.
    let _ = (
        key.start.seconds(),
        key.finish.seconds(),
        key.update.seconds(),
    );
}
