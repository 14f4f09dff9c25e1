//! The accumulations that are kept in memory.

ghost use Rattle.std.specs.Prelude.{◌≡◌, IfOk, OnOk, map};
ghost use Rattle.std.specs.BTreeMap.{IsOrdered};
ghost use Rattle.std.specs.FinSet as set;
ghost use Rattle.mds_world.specs.World.{Agrees, union};
ghost use Rattle.mds_keeper.specs.Content.{period_fact};
ghost use Rattle.mds_keeper.specs.Queries.{ArePeriodsOf, IsContentOf};
ghost use Rattle.mds_memory.specs.Stored.{ArePeriodStreams, HasKeys, key_cmp, periods_world};
ghost use Rattle.mds_memory.specs.StoredPeriods.{first_key_of};

use crate::stored_notes::push_new;
use mds_statements::{Period, PeriodContent, PeriodKey};
use mds_terms::{Moment, PrintableString, Stream};
use std::alloc::{AllocError, Global};
use std::collections::BTreeMap;

/// What is kept of the accumulation with this key. `None` if no such accumulation is kept.
pub(crate) fn content_of(
    periods: &BTreeMap<PeriodKey, Option<PeriodContent>>,
    key: &PeriodKey,
) -> Result<Option<PeriodContent>, AllocError>
    requires { IsOrdered key_cmp periods.now }
    ensures { IfOk result (IsContentOf (periods_world periods.now) key.now) }
{
    match periods.get(key) {
        Some(kept) => copied(kept),
        None => Ok(None),
    }
}

/// A copy of what a place holds.
fn copied(kept: &Option<PeriodContent>) -> Result<Option<PeriodContent>, AllocError>
    ensures { IfOk result (λ copy. copy ≡ kept.now) }
{
    match kept {
        Some(content) => Ok(Some(content.try_clone()?)),
        None => Ok(None),
    }
}

/// The accumulations of a stream, in the order of their keys.
pub(crate) fn periods_of(
    alloc: Global,
    periods: &BTreeMap<PeriodKey, Option<PeriodContent>>,
    stream: Stream,
) -> Result<Vec<Period>, AllocError>
    ensures { IfOk result (λ found. ArePeriodsOf (periods_world periods.now) stream found.items) }
{
    let mut found = Vec::new(alloc);
    for (key, kept) in periods.range(first_key(alloc, &stream)..) {
        if key.stream != stream {
            break;
        }
        let Some(content) = kept else {
            continue;
        };
        found.push(Period {
            key: key.try_clone()?,
            content: content.try_clone()?,
        })?;
    }
    Ok(found)
}

/// A key that sorts before all others of a stream. It takes no memory.
fn first_key(alloc: Global, stream: &Stream) -> PeriodKey
    ensures { result ≡ first_key_of stream.now }
{
    PeriodKey {
        stream: *stream,
        register: PrintableString::read(alloc, b"").unwrap().unwrap(),
        start: Moment::from_seconds(0).unwrap(),
        finish: Moment::from_seconds(0).unwrap(),
        update: Moment::from_seconds(0).unwrap(),
    }
}

/// The streams that have an accumulation, ascending, each once.
pub(crate) fn period_streams(
    alloc: Global,
    periods: &BTreeMap<PeriodKey, Option<PeriodContent>>,
) -> Result<Vec<Stream>, AllocError>
    requires { IsOrdered key_cmp periods.now }
    ensures { IfOk result (λ streams. ArePeriodStreams (periods_world periods.now) streams.items) }
{
    let mut streams = Vec::new(alloc);
    for (key, kept) in periods {
        if kept.is_some() {
            push_new(&mut streams, &key.stream)?;
        }
    }
    Ok(streams)
}

/// Reserves a place for each accumulation. What is kept stays as it is.
pub(crate) fn make_keys(
    periods: &mut BTreeMap<PeriodKey, Option<PeriodContent>>,
    more: &[Period],
) -> Result<(), AllocError>
    ensures same { periods_world periods.new ≡ periods_world periods.old }
    ensures ordered { IsOrdered key_cmp periods.old → IsOrdered key_cmp periods.new }
    ensures room { OnOk result (HasKeys periods.new more.now) }
{
    for period in more {
        if !periods.contains_key(&period.key) {
            periods.insert(period.key.try_clone()?, None)?;
        }
    }
    Ok(())
}

/// Adds accumulations to those that are kept. There are places for them.
pub(crate) fn put_periods(
    periods: &mut BTreeMap<PeriodKey, Option<PeriodContent>>,
    more: Vec<Period>,
)
    requires room { HasKeys periods.old more.items }
    requires ordered { IsOrdered key_cmp periods.old }
    requires agrees { Agrees (union (periods_world periods.old) (set.from_list (map period_fact more.items))) }
    ensures ordered { IsOrdered key_cmp periods.new }
    ensures put { periods_world periods.new
        ≡ union (periods_world periods.old) (set.from_list (map period_fact more.items)) }
{
    for period in more {
        // Inserting under a key that exists needs no memory.
        let Ok(_) = periods.insert(period.key, Some(period.content)) else {
            unreachable!();
        };
    }
}
