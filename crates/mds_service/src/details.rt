//! The details of a file that aren't kept yet.

ghost use Rattle.std.specs.Prelude.{◌↔◌, ◌⊎◌, IfOk, OnOk};
ghost use Rattle.mds_world.specs.declared.facts.Detail.{Detail};
ghost use Rattle.mds_world.specs.Facts.Fact.{DetailIs};
ghost use Rattle.mds_world.specs.Lists.{Apart, Member};
ghost use Rattle.mds_world.specs.Sets.{◌∈◌};
ghost use Rattle.mds_keeper.specs.Content.{details_of, details_on};
ghost use Rattle.mds_keeper.specs.Kept.{OfKept, Stays};
ghost use Rattle.mds_service.specs.Asking.{AsksOnly, IsNone};
ghost use Rattle.mds_service.specs.SharedDays.{HasDetail};

use crate::asking::ImportKeeper;
use mds_keeper::{DetailDays, Unavailable};
use mds_terms::{Day, Details, Moment, Stream};
use std::alloc::{AllocError, Global};
use std::collections::BTreeMap;

/// Details that days of a stream share, under one moment.
#[derive(PartialEq, Eq, PartialOrd, Ord, Drop)]
struct SharedDetails {
    stream: Stream,
    moment: Moment,
    details: Details,
}

/// The details among these that aren't kept yet, each once. Days of one stream with equal details are asked for at once.
pub(crate) fn new_details<K: ImportKeeper>(
    alloc: Global,
    keeper: &mut K,
    details: Vec<DetailDays>,
) -> Result<Vec<DetailDays>, Unavailable>
    ensures stays { Stays (K.kept keeper.old) (K.kept keeper.new) }
    ensures asked { AsksOnly K.asks K.others IsNone keeper.old keeper.new }
    ensures apart { (K.kept keeper.new).honest → IfOk result (λ new. Apart (details_of new.items)) }
    ensures just { OfKept (K.kept keeper.old) (K.kept keeper.new)
        (λ w. IfOk result (λ new. (detail : Detail) → Member detail (details_of new.items)
        ↔ (Member detail (details_of details.items) × (DetailIs detail ∈ w → ⊥)))) }
{
    // A file may state details before each day, and go back and forth between its streams.
    let together = put_together(alloc, details)?;
    ask_all(alloc, keeper, together)
}

/// The days that share details, ordered by these details.
fn put_together(
    alloc: Global,
    details: Vec<DetailDays>,
) -> Result<BTreeMap<SharedDetails, Vec<Day>>, AllocError>
    ensures { IfOk result (λ together. (detail : Detail)
        → HasDetail ⟦<SharedDetails as Ord>⟧.cmp together detail ↔ Member detail (details_of details.items)) }
{
    let mut together = BTreeMap::new(alloc);
    for group in details {
        put_group(&mut together, group)?;
    }
    Ok(together)
}

/// Adds days to the earlier ones that have the same details.
fn put_group(
    together: &mut BTreeMap<SharedDetails, Vec<Day>>,
    group: DetailDays,
) -> Result<(), AllocError>
    ensures { OnOk result ((detail : Detail) → HasDetail ⟦<SharedDetails as Ord>⟧.cmp together.new detail
        ↔ (HasDetail ⟦<SharedDetails as Ord>⟧.cmp together.old detail ⊎ Member detail (details_on group))) }
{
    let DetailDays {
        stream,
        moment,
        details,
        mut days,
    } = group;
    let shared = SharedDetails {
        stream,
        moment,
        details,
    };
    if let Some(known) = together.get_mut(&shared) {
        known.append(&mut days)?;
        return Ok(());
    }
    together.insert(shared, days)?;
    Ok(())
}

/// Asks which of the days that share details don't have them yet. Each of these is returned once.
fn ask_all<K: ImportKeeper>(
    alloc: Global,
    keeper: &mut K,
    together: BTreeMap<SharedDetails, Vec<Day>>,
) -> Result<Vec<DetailDays>, Unavailable>
    ensures stays { Stays (K.kept keeper.old) (K.kept keeper.new) }
    ensures asked { AsksOnly K.asks K.others IsNone keeper.old keeper.new }
    ensures apart { (K.kept keeper.new).honest → IfOk result (λ new. Apart (details_of new.items)) }
    ensures just { OfKept (K.kept keeper.old) (K.kept keeper.new)
        (λ w. IfOk result (λ new. (detail : Detail) → Member detail (details_of new.items)
        ↔ (HasDetail ⟦<SharedDetails as Ord>⟧.cmp together detail × (DetailIs detail ∈ w → ⊥)))) }
{
    let mut new = Vec::new(alloc);
    for (shared, days) in together {
        let SharedDetails {
            stream,
            moment,
            details,
        } = shared;
        let mut group = DetailDays {
            stream,
            moment,
            details,
            days,
        };
        // decides: which details does a file give a day?
        let days = keeper.days_without(&group)?;
        if !days.is_empty() {
            group.days = days;
            new.push(group)?;
        }
    }
    Ok(new)
}
