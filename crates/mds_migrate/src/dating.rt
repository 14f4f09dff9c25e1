//! The step from schema 2 to schema 3: each known day gets the details that its stream has.

ghost use Rattle.std.specs.Prelude.{◌≡◌, [], ◌∷◌, IfOk, IsTrue};
ghost use Rattle.sqlite.specs.Held.{state};
ghost use Rattle.sqlite.specs.State.{IsUnchanged};
ghost use Rattle.mds_tables.specs.Frames.{Frames};
ghost use Rattle.mds_tables.specs.Parts.{detail_part};
ghost use Rattle.mds_tables.specs.Writing.{Puts};
ghost use Rattle.mds_pack_rows.specs.DailyTables.{schema_3};
ghost use Rattle.mds_migrate.specs.Dating.{Dates, DatesDays, IsLatest, IsOf, Knows, SaysDetails, SaysFirst, ShowsDetailsOf, known_on};
ghost use Rattle.mds_migrate.specs.Migrated.{dating};

use crate::packing::all_heads;
use crate::statements::{clear_details, raise_version};
use crate::step::Stage;
use mds_commit::{are_detail_rows, details_at};
use mds_keeper::{DetailDays, Unavailable};
use mds_pack_rows::{DetailTable, make_table};
use mds_tables::{head_in, moment_at, or_unavailable, put_each, stream_cells, told};
use mds_terms::{Day, Stream};
use sqlite::{Alter, Row, Transaction};
use std::alloc::Global;
use std::slice::from_ref;

/// From details of streams to those of days.
pub(crate) struct Dating;

impl Stage for Dating {
    ghost step = { dating };

    fn take_on<S: Alter>(alloc: Global, tx: &mut Transaction<'_, S>) -> Result<(), Unavailable> {
        // decides: what does a step of a migration do?
        or_unavailable(make_table(tx, 9))?;
        date_days(alloc, tx)?;
        clear_details(tx)?;
        raise_version(tx, 3)
    }
}

/// Puts the details of all days. Unavailable if there is a row that the store didn't write.
fn date_days<S: Alter>(alloc: Global, tx: &mut Transaction<'_, S>) -> Result<(), Unavailable>
    ensures same_reference { tx.new.conn.ghost_name ≡ tx.old.conn.ghost_name }
    ensures frames { Frames schema_3 (λ _. Dates (state S.Store tx.old.conn.now) (state S.Store tx.new.conn.now)) (state S.Store tx.old.conn.now) (state S.Store tx.new.conn.now) result }
{
    let heads = all_heads(tx)?;
    let mut known = None;
    for row in heads.as_slice() {
        date_day(alloc, tx, &mut known, row)?;
    }
    Ok(())
}

/// The greatest details of a stream, whatever the day, without a day of their own yet. `None` if it has no details.
#[derive(Drop)]
struct Latest {
    stream: Stream,
    details: Option<DetailDays>,
}

/// Puts the details of the day whose head is shown. What is known of the previous head's stream is used again, if it is the same
/// stream.
fn date_day<S: Alter>(
    alloc: Global,
    tx: &mut Transaction<'_, S>,
    known: &mut Option<Latest>,
    row: &Row,
) -> Result<(), Unavailable>
    ensures same_reference { tx.new.conn.ghost_name ≡ tx.old.conn.ghost_name }
    ensures frames { Frames schema_3 (λ _. DatesDays (state S.Store tx.old.conn.now) (state S.Store tx.new.conn.now) known.old known.new (row.now ∷ [])) (state S.Store tx.old.conn.now) (state S.Store tx.new.conn.now) result }
{
    // decides: which details does a migration give a day? (definition: Becomes in mds_migrate/specs/OldDetails.antt)
    let head = told(head_in(row))?;
    know(alloc, tx, known, head.stream)?;
    put_known(alloc, tx, known, head.day)
}

/// Whether what is known is of this stream.
fn is_of(known: &Option<Latest>, stream: &Stream) -> bool
    ensures { IsTrue result → IsOf known.now stream.now }
{
    match known {
        Some(latest) => latest.stream == *stream,
        None => false,
    }
}

/// Makes the greatest details of a stream known. They are asked for unless the previous stream is the same.
fn know<S: Alter>(
    alloc: Global,
    tx: &mut Transaction<'_, S>,
    known: &mut Option<Latest>,
    stream: Stream,
) -> Result<(), Unavailable>
    ensures same_reference { tx.new.conn.ghost_name ≡ tx.old.conn.ghost_name }
    ensures frames { Frames schema_3 (λ _. Knows (state S.Store tx.old.conn.now) (state S.Store tx.new.conn.now) known.old known.new stream) (state S.Store tx.old.conn.now) (state S.Store tx.new.conn.now) result }
{
    if is_of(known, &stream) {
        return Ok(());
    }
    let latest = greatest_of(alloc, tx, stream)?;
    *known = Some(latest);
    Ok(())
}

/// Puts what is known on a day.
fn put_known<S: Alter>(
    alloc: Global,
    tx: &mut Transaction<'_, S>,
    known: &Option<Latest>,
    day: Day,
) -> Result<(), Unavailable>
    ensures same_reference { tx.new.conn.ghost_name ≡ tx.old.conn.ghost_name }
    ensures frames { Frames schema_3 (λ _. Puts schema_3 detail_part (state S.Store tx.old.conn.now) (state S.Store tx.new.conn.now) (known_on known.now day)) (state S.Store tx.old.conn.now) (state S.Store tx.new.conn.now) result }
{
    match known {
        Some(latest) => match &latest.details {
            Some(details) => or_unavailable(put_each::<DetailDays, Day, DetailTable, S>(
                alloc,
                tx,
                details,
                from_ref(&day),
            )),
            None => Ok(()),
        },
        None => Ok(()),
    }
}

/// The greatest details of a stream.
fn greatest_of<S: Alter>(
    alloc: Global,
    tx: &mut Transaction<'_, S>,
    stream: Stream,
) -> Result<Latest, Unavailable>
    ensures same_reference { tx.new.conn.ghost_name ≡ tx.old.conn.ghost_name }
    ensures of { IfOk result (λ latest. latest.stream ≡ stream) }
    ensures frames { Frames schema_3 (λ latest. IsUnchanged (state S.Store tx.old.conn.now) (state S.Store tx.new.conn.now) × IsLatest (state S.Store tx.old.conn.now).now.trees latest) (state S.Store tx.old.conn.now) (state S.Store tx.new.conn.now) result }
{
    let rows = details_rows(tx, &stream)?;
    if !are_detail_rows(rows.as_slice()) {
        return Err(Unavailable);
    }
    let details = first_of(alloc, rows.as_slice(), stream)?;
    Ok(Latest { stream, details })
}

/// The details that the first row shows, of a stream and without a day.
fn first_of(alloc: Global, rows: &[Row], stream: Stream) -> Result<Option<DetailDays>, Unavailable>
    ensures { IfOk result (λ details. SaysFirst rows.now stream details) }
{
    match rows {
        [] => Ok(None),
        [first, ..] => Ok(Some(details_in(alloc, first, stream)?)),
    }
}

/// All details of a stream, each after its moment. Those of the latest header come first, and for one header the greatest.
fn details_rows<S: Alter>(
    tx: &mut Transaction<'_, S>,
    stream: &Stream,
) -> Result<Vec<Row>, Unavailable>
    ensures same_reference { tx.new.conn.ghost_name ≡ tx.old.conn.ghost_name }
    ensures frames { Frames schema_3 (λ rows. IsUnchanged (state S.Store tx.old.conn.now) (state S.Store tx.new.conn.now) × ShowsDetailsOf stream.now (state S.Store tx.old.conn.now).now.trees rows.items)
        (state S.Store tx.old.conn.now) (state S.Store tx.new.conn.now) result }
{
    or_unavailable(tx.query_all(
        "SELECT moment, configuration, register, datastream, meter, next FROM mds_detail WHERE nmi = ?1 AND suffix = ?2 ORDER BY moment DESC, configuration DESC, register DESC, datastream DESC, meter DESC, next DESC",
        &stream_cells(stream),
    ))
}

/// The details that a row shows, of a stream and without a day.
fn details_in(alloc: Global, shown: &Row, stream: Stream) -> Result<DetailDays, Unavailable>
    ensures { IfOk result (SaysDetails shown.now stream) }
{
    let moment = told(moment_at(shown, 0))?;
    let details = details_at(alloc, shown)?;
    Ok(DetailDays {
        stream,
        moment,
        details,
        days: Vec::new(alloc),
    })
}
