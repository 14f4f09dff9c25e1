//! The keeper in memory: what it holds, its queries and its commit.

ghost use Rattle.std.specs.Prelude.{◌≡◌, ◌↔◌, ◌⊎◌, IfOk, OnErr, OnOk, map};
ghost use Rattle.std.specs.FinSet as set;
ghost use Rattle.std.specs.List.{AllPairs};
ghost use Rattle.std.specs.declared.cmp.Ordering.TheVariants.{Less};
ghost use Rattle.mds_names.specs.declared.stream.Stream.{Stream as AStream};
ghost use Rattle.mds_world.specs.Facts.Fact.{DetailIs};
ghost use Rattle.mds_world.specs.Lists.{Apart, Member};
ghost use Rattle.mds_world.specs.Sets.{◌∈◌};
ghost use Rattle.mds_world.specs.World.{IsLawful, union};
ghost use Rattle.mds_world.specs.declared.facts.Detail.{Detail};
ghost use Rattle.mds_keeper.specs.Queries.{stream_cmp};
ghost use Rattle.mds_memory.specs.Stored.{AreHeadStreams, AreOfTheirDays, days_world, note_fact, notes_world};
ghost use Rattle.mds_memory.specs.StoredDetails.{all_details, details_world};
ghost use Rattle.mds_memory.specs.declared.stored_notes.Note.{Note as ANote};

use crate::stored_days::{
    changed_days, day_of, days_of, has_head, heads_in, last_day, make_room, put_days,
};
use crate::stored_details::{
    MeterDays, MeterDetails, current_details, days_without, details_between, insert_details,
    meters_of,
};
use crate::stored_jobs::{job_of, make_places, put_jobs};
use crate::stored_notes::{
    Note, events_of, has_event, holidays_of, insert_notes, notes_of, push_new, take_out,
};
use crate::stored_periods::{content_of, make_keys, period_streams, periods_of, put_periods};
use mds_jobs::{Job, JobId};
use mds_keeper::{Additions, DayBook, DetailDays, Keeper, Unavailable};
use mds_statements::{Period, PeriodContent, PeriodKey};
use mds_terms::{Day, Details, Event, Stream};
use mds_world::StreamDay;
use std::alloc::{AllocError, Global};
use std::cmp::Ordering;
use std::collections::{BTreeMap, BTreeSet};
use std::marker::Model;

/// Keeps a World in memory.
#[derive(Drop)]
pub struct MemoryKeeper {
    alloc: Global,
    /// The days by stream and date. A book without a version holds no fact.
    days: BTreeMap<StreamDay, DayBook>,
    /// The details of meters, each with the days that have them. Details without a day hold no fact.
    details: BTreeMap<MeterDetails, BTreeSet<Day>>,
    /// All events and holidays.
    notes: BTreeSet<Note>,
    /// The substitution jobs by their ids. A place without a job holds no fact.
    jobs: BTreeMap<JobId, Option<(Job, u64)>>,
    /// The accumulations by their keys. A place without content holds no fact.
    periods: BTreeMap<PeriodKey, Option<PeriodContent>>,
}

impl Model for MemoryKeeper {
    ghost use Rattle.std.specs.FinSet.{code};
    ghost use Rattle.mds_world.specs.FactCodes.{coded_fact};
    ghost use Rattle.mds_world.specs.World.{World};
    ghost use Rattle.mds_memory.specs.Stored.{IsStored, stored_world};

    ghost Value = { World };

    ghost coded = { code coded_fact };

    ghost view = { λ k. stored_world k.days k.details k.notes k.jobs k.periods };

    ghost invariant = { λ k. IsStored k.days k.details k.notes k.jobs k.periods };
}

impl MemoryKeeper {
    /// A keeper that keeps nothing yet. An empty World breaks no law.
    pub fn new(alloc: Global) -> MemoryKeeper
        ensures nothing { result ≡ set.empty }
        ensures lawful { IsLawful result }
    {
        MemoryKeeper {
            alloc,
            days: BTreeMap::new(alloc),
            details: BTreeMap::new(alloc),
            notes: BTreeSet::new(alloc),
            jobs: BTreeMap::new(alloc),
            periods: BTreeMap::new(alloc),
        }
    }
}

impl Keeper for MemoryKeeper {
    // Nothing outside the program affects it, and no fault shuts it. What it may leave is its World,
    // unchanged.
    ghost kept = { λ w. record { world = w; honest = Unit {0}; sound = Unit {0}; may_leave = λ left. left ≡ w } };

    ghost sound_honest = { λ _ _. tt };

    ghost settled = { λ _ _ _ is. is };

    fn day(&mut self, stream: Stream, day: Day) -> Result<DayBook, Unavailable> {
        Ok(day_of(self.alloc, &self.days, stream, day)?)
    }

    fn days(&mut self, stream: Stream, first: Day, last: Day) -> Result<Vec<DayBook>, Unavailable> {
        Ok(days_of(self.alloc, &self.days, stream, first, last)?)
    }

    fn streams(&mut self) -> Result<Vec<Stream>, Unavailable> {
        let of_days = head_streams(self.alloc, &self.days)?;
        let of_periods = period_streams(self.alloc, &self.periods)?;
        let streams = merged(self.alloc, &of_days, &of_periods)?;
        Ok(streams)
    }

    fn last_day(&mut self, stream: Stream) -> Result<Option<Day>, Unavailable> {
        Ok(last_day(&self.days, stream))
    }

    fn details(&mut self, stream: Stream, day: Day) -> Result<Details, Unavailable> {
        Ok(current_details(self.alloc, &self.details, stream, day)?)
    }

    fn details_between(
        &mut self,
        stream: Stream,
        first: Day,
        last: Day,
    ) -> Result<Vec<(Day, Details)>, Unavailable> {
        Ok(details_between(self.alloc, &self.details, &stream, first, last)?)
    }

    fn days_without(&mut self, details: &DetailDays) -> Result<Vec<Day>, Unavailable> {
        Ok(days_without(self.alloc, &self.details, details)?)
    }

    fn events(&mut self, stream: Stream, day: Day) -> Result<Vec<Event>, Unavailable> {
        Ok(events_of(self.alloc, &self.notes, stream, day)?)
    }

    fn has_event(&mut self, event: &Event) -> Result<bool, Unavailable> {
        Ok(has_event(&self.notes, event)?)
    }

    fn period(&mut self, stream: Stream) -> Result<Vec<Period>, Unavailable> {
        Ok(periods_of(self.alloc, &self.periods, stream)?)
    }

    fn content(&mut self, key: &PeriodKey) -> Result<Option<PeriodContent>, Unavailable> {
        Ok(content_of(&self.periods, key)?)
    }

    fn holidays(&mut self) -> Result<Vec<Day>, Unavailable> {
        Ok(holidays_of(self.alloc, &self.notes)?)
    }

    fn job(&mut self, id: JobId) -> Result<Option<(Job, u64)>, Unavailable> {
        Ok(job_of(&self.jobs, &id)?)
    }

    // Everything that needs memory is done before the first change that shows, or is undone.
    fn commit(&mut self, additions: Additions) -> Result<(), Unavailable> {
        let Additions {
            new_days,
            heads,
            days,
            details,
            events,
            periods,
            holidays,
            jobs,
        } = additions;
        let meters = meters_of(self.alloc, details)?;
        let notes = notes_of(self.alloc, events, holidays)?;
        let all_heads = heads_in(new_days, heads)?;
        let changed = changed_days(self.alloc, &self.days, all_heads, days)?;
        make_room(self.alloc, &mut self.days, &changed)?;
        make_places(&mut self.jobs, &jobs)?;
        make_keys(&mut self.periods, &periods)?;
        insert_both(
            self.alloc,
            &mut self.details,
            &meters,
            &mut self.notes,
            &notes,
        )?;
        put_days(&mut self.days, changed);
        put_jobs(&mut self.jobs, jobs);
        put_periods(&mut self.periods, periods);
        Ok(())
    }
}

/// Adds details and notes that aren't there yet: all of them, or none if there is no memory.
fn insert_both(
    alloc: Global,
    details: &mut BTreeMap<MeterDetails, BTreeSet<Day>>,
    meters: &[MeterDays],
    notes: &mut BTreeSet<Note>,
    more: &[Note],
) -> Result<(), AllocError>
    requires details { Apart (all_details meters.now)
        × ((detail : Detail) → Member detail (all_details meters.now) → DetailIs detail ∈ details_world details.old → ⊥) }
    requires notes { Apart (map note_fact more.now)
        × ((note : ANote) → Member note more.now → note_fact note ∈ notes_world notes.old → ⊥) }
    ensures ok_details { OnOk result (details_world details.new
        ≡ union (details_world details.old) (set.from_list (map DetailIs (all_details meters.now)))) }
    ensures ok_notes { OnOk result
        (notes_world notes.new ≡ union (notes_world notes.old) (set.from_list (map note_fact more.now))) }
    ensures err { OnErr result ((details_world details.new ≡ details_world details.old) × (notes_world notes.new ≡ notes_world notes.old)) }
{
    insert_notes(notes, more)?;
    let Ok(_) = insert_details(alloc, details, meters) else {
        take_out(notes, more);
        return Err(AllocError);
    };
    Ok(())
}

/// The streams that have a head, ascending, each once.
fn head_streams(
    alloc: Global,
    days: &BTreeMap<StreamDay, DayBook>,
) -> Result<Vec<Stream>, AllocError>
    requires { AreOfTheirDays days.now }
    ensures { IfOk result (λ streams. AreHeadStreams (days_world days.now) streams.items) }
{
    let mut streams = Vec::new(alloc);
    for (place, book) in days {
        // The days of a stream are adjacent.
        if has_head(book) {
            push_new(&mut streams, &place.stream)?;
        }
    }
    Ok(streams)
}

/// Merges two ascending lists of streams. The result ascends, and has each stream once.
fn merged(alloc: Global, a: &[Stream], b: &[Stream]) -> Result<Vec<Stream>, AllocError>
    requires { AllPairs (λ x y. stream_cmp x y ≡ Less) a.now × AllPairs (λ x y. stream_cmp x y ≡ Less) b.now }
    ensures each { IfOk result (λ streams. (stream : AStream)
        → Member stream streams.items ↔ (Member stream a.now ⊎ Member stream b.now)) }
    ensures ascending { IfOk result (λ streams. AllPairs (λ x y. stream_cmp x y ≡ Less) streams.items) }
{
    let mut streams = Vec::new(alloc);
    let (mut left_a, mut left_b) = (a, b);
    'streams: while let [x, rest_a @ ..] = left_a {
        let [y, rest_b @ ..] = left_b else {
            streams.extend_from_slice(left_a)?;
            return Ok(streams);
        };
        match x.cmp(y) {
            Ordering::Less => {
                streams.push(*x)?;
                left_a = rest_a;
            }
            Ordering::Greater => {
                streams.push(*y)?;
                left_b = rest_b;
            }
            Ordering::Equal => {
                streams.push(*x)?;
                left_a = rest_a;
                left_b = rest_b;
            }
        }
    }
    streams.extend_from_slice(left_b)?;
    Ok(streams)
}
