//! What lines claim about a day, by updates.

ghost use Rattle.std.specs.Prelude.{◌≡◌, [], IfNone, IfSome, None, OnErr, OnOk};
ghost use Rattle.mds_world.specs.Lists.{Member};
ghost use Rattle.mds_keeper.specs.ClaimedUpdates.{ComesBeside, entries_of};
ghost use Rattle.mds_keeper.specs.declared.claimed.ClaimedReadings.{ClaimedReadings as ClaimedReadingsValue};

use mds_runs::DayReadings;
use mds_terms::{Length, Moment};
use std::alloc::{AllocError, Global};
use std::collections::BTreeMap;
use std::marker::Model;

/// What is kept of each update claimed for a day. Nearly every day is claimed under one update, which is stored here and takes no
/// memory.
#[derive(Drop)]
pub(crate) struct ClaimedUpdates {
    first: Option<ClaimedUpdate>,
    others: BTreeMap<Moment, ClaimedReadings>,
}

/// An update that was claimed.
#[derive(Drop)]
pub(crate) struct ClaimedUpdate {
    pub(crate) update: Moment,
    pub(crate) kept: ClaimedReadings,
}

/// What is kept of the readings of an update: their length, and a reading for each interval. `readings` is `None` if the day's book
/// has all of them.
#[derive(Drop)]
pub(crate) struct ClaimedReadings {
    pub(crate) length: Length,
    pub(crate) readings: Option<DayReadings>,
}

impl Model for ClaimedUpdates {
    ghost use Rattle.std.specs.Prelude.{◌≡◌, ℕ, List, [], None};
    ghost use Rattle.mds_keeper.specs.ClaimedUpdates.{entries_of};
    ghost use Rattle.mds_keeper.specs.declared.claimed.ClaimedReadings.{ClaimedReadings as ClaimedReadingsValue};

    ghost Value = { List (ℕ × ClaimedReadingsValue) };

    ghost view = { λ c. entries_of c.first c.others.entries };

    ghost invariant = { λ c. c.first ≡ None → c.others.entries ≡ [] };
}

impl ClaimedUpdates {
    /// None yet.
    pub(crate) fn new(alloc: Global) -> ClaimedUpdates
        ensures { result ≡ [] }
    {
        ClaimedUpdates {
            first: None,
            others: BTreeMap::new(alloc),
        }
    }

    /// What is kept of the readings claimed under an update. `None` if nothing was claimed under it.
    pub(crate) fn get(&self, update: Moment) -> Option<&ClaimedReadings>
        ensures some { IfSome result (λ kept. Member (update, kept.now) self.now) }
        ensures none { IfNone result ((kept : ClaimedReadingsValue) → Member (update, kept) self.now → ⊥) }
    {
        if let Some(first) = &self.first {
            if first.update == update {
                return Some(&first.kept);
            }
        }
        // For the proof: the order of updates is total, so the map finds this one.
        update.seconds();
        self.others.get(&update)
    }

    /// Keeps this for an update, under which nothing was claimed yet. After an error nothing has changed.
    pub(crate) fn insert(&mut self, update: Moment, kept: ClaimedReadings) -> Result<(), AllocError>
        requires { (other : ClaimedReadingsValue) → Member (update, other) self.old → ⊥ }
        ensures done { OnOk result (ComesBeside self.old self.new (update, kept)) }
        ensures stays { OnErr result (self.new ≡ self.old) }
    {
        if self.first.is_none() {
            self.first = Some(ClaimedUpdate { update, kept });
            return Ok(());
        }
        // For the proof: the order of updates is total, so the map finds this one.
        update.seconds();
        self.others.insert(update, kept)?;
        Ok(())
    }

    /// The first update, and the others. Without a first one there are no others.
    pub(crate) fn into_parts(self) -> (Option<ClaimedUpdate>, BTreeMap<Moment, ClaimedReadings>)
        ensures value { entries_of result.0 result.1.entries ≡ self }
        ensures none { result.0 ≡ None → self ≡ [] }
    {
        let ClaimedUpdates { first, others } = self;
        (first, others)
    }
}
