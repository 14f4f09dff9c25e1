//! The rows of accumulations.

ghost use Rattle.std.specs.Prelude.{◌<◌, IfOk, OnErr, length, string_bytes};
ghost use Rattle.mds_statements.specs.Bodies.{IsPeriodBody};
ghost use Rattle.mds_tables.specs.Stores.{AreRowsOf};
ghost use Rattle.mds_tables.specs.MadeRows.{IsRowOfPeriod};

use mds_keeper::Unavailable;
use mds_statements::{Period, PeriodKey};
use std::alloc::Global;

/// What the row of an accumulation holds: its key, and its body.
#[derive(Drop)]
pub struct PeriodRow {
    pub(crate) key: PeriodKey,
    pub(crate) body: String,
}

/// The row of each accumulation, in their order. Unavailable (U1) if there is no memory for their texts.
pub fn period_rows(alloc: Global, periods: &[Period]) -> Result<Vec<PeriodRow>, Unavailable>
    ensures rows { IfOk result (λ rows. AreRowsOf IsRowOfPeriod periods.now rows.items) }
    ensures none { OnErr result (0 < length periods.now) }
{
    let mut rows = Vec::with_capacity(alloc, periods.len())?;
    for i in 0..periods.len() {
        let row = period_row(alloc, &periods[i])?;
        rows.push(row)?;
    }
    Ok(rows)
}

/// The row of an accumulation.
fn period_row(alloc: Global, period: &Period) -> Result<PeriodRow, Unavailable>
    ensures { IfOk result (IsRowOfPeriod period.now) }
{
    let key = period.key.try_clone()?;
    let body = body_of(alloc, period)?;
    Ok(PeriodRow { key, body })
}

/// The body of an accumulation.
fn body_of(alloc: Global, period: &Period) -> Result<String, Unavailable>
    ensures { IfOk result (λ body. IsPeriodBody period.now (string_bytes body)) }
{
    let mut body = String::new(alloc);
    period.write_body(&mut body)?;
    Ok(body)
}
