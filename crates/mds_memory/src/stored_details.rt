//! The details of meters that are kept in memory, by day.

ghost use Rattle.std.specs.Prelude.{◌≡◌, ◌↔◌, ◌⊎◌, ◌≤◌, [], IfNone, IfOk, IfSome, OnErr, OnOk, SomeIff, ℕ, map};
ghost use Rattle.std.specs.FinSet as set;
ghost use Rattle.std.specs.BTreeSet.{IsFromIterResult, difference};
ghost use Rattle.mds_world.specs.Current.{IsCurrentDetails, IsGreatestDetail, IsUpto};
ghost use Rattle.mds_world.specs.Facts.Fact.{DetailIs};
ghost use Rattle.mds_world.specs.Lists.{Apart, Member};
ghost use Rattle.mds_world.specs.Sets.{◌∈◌};
ghost use Rattle.mds_world.specs.World.{union};
ghost use Rattle.mds_world.specs.declared.facts.Detail.{Detail};
ghost use Rattle.mds_keeper.specs.Content.{detail_on, details_of, details_on};
ghost use Rattle.mds_keeper.specs.Queries.{AreDaysWithout, AreDetailsBetween};
ghost use Rattle.mds_memory.specs.Stored.{last_number};
ghost use Rattle.mds_memory.specs.StoredDetails.{Gains, IsLastFrom, Loses, NoneFrom, all_details, details_world, first_meter_of, meter_details, meter_on};

use mds_keeper::DetailDays;
use mds_terms::{Day, Details, Moment, Stream};
use mds_world::empty_details;
use std::alloc::{AllocError, Global};
use std::collections::{BTreeMap, BTreeSet};

/// The details of a stream's meter, and the moment of the header that they came under. Ordered by stream, then by moment, and
/// then by details.
#[derive(PartialEq, Eq, PartialOrd, Ord, Drop)]
pub(crate) struct MeterDetails {
    stream: Stream,
    moment: Moment,
    details: Details,
}

impl MeterDetails {
    /// A copy.
    fn try_clone(&self) -> Result<MeterDetails, AllocError>
        ensures { IfOk result (λ copy. copy ≡ self.now) }
    {
        Ok(MeterDetails {
            stream: self.stream,
            moment: self.moment,
            details: self.details.try_clone()?,
        })
    }
}

/// Details with the days that get them.
#[derive(Drop)]
pub(crate) struct MeterDays {
    meter: MeterDetails,
    days: Vec<Day>,
}

/// The details among additions, in the form in which they are kept. No text is copied.
pub(crate) fn meters_of(
    alloc: Global,
    details: Vec<DetailDays>,
) -> Result<Vec<MeterDays>, AllocError>
    ensures { IfOk result (λ meters. all_details meters.items ≡ details_of details.items) }
{
    let mut meters = Vec::with_capacity(alloc, details.len())?;
    for group in details {
        meters.push(with_meter(group))?;
    }
    Ok(meters)
}

/// The details of some days, in the form in which they are kept.
fn with_meter(group: DetailDays) -> MeterDays
    ensures { meter_details result ≡ details_on group }
{
    let DetailDays {
        stream,
        moment,
        details,
        days,
    } = group;
    let meter = MeterDetails {
        stream,
        moment,
        details,
    };
    MeterDays { meter, days }
}

/// Adds details that aren't there yet: all of them, or none if there is no memory.
pub(crate) fn insert_details(
    alloc: Global,
    kept: &mut BTreeMap<MeterDetails, BTreeSet<Day>>,
    more: &[MeterDays],
) -> Result<(), AllocError>
    requires apart { Apart (all_details more.now) }
    requires absent { (detail : Detail) → Member detail (all_details more.now) → DetailIs detail ∈ details_world kept.old → ⊥ }
    ensures ok { OnOk result (details_world kept.new
        ≡ union (details_world kept.old) (set.from_list (map DetailIs (all_details more.now)))) }
    ensures err { OnErr result (details_world kept.new ≡ details_world kept.old) }
{
    for i in 0..more.len() {
        let Ok(_) = insert_days(alloc, kept, &more[i]) else {
            take_out(kept, &more[..i]);
            return Err(AllocError);
        };
    }
    Ok(())
}

/// Adds the details of some days that don't have them yet: all of them, or none if there is no memory.
fn insert_days(
    alloc: Global,
    kept: &mut BTreeMap<MeterDetails, BTreeSet<Day>>,
    more: &MeterDays,
) -> Result<(), AllocError>
    requires { (detail : Detail) → Member detail (meter_details more.now) → DetailIs detail ∈ details_world kept.old → ⊥ }
    ensures ok { OnOk result (Gains kept.old (meter_details more.now) kept.new) }
    ensures err { OnErr result (Gains kept.old [] kept.new) }
{
    if let Some(days) = kept.get_mut(&more.meter) {
        return add_days(days, &more.days);
    }
    let meter = more.meter.try_clone()?;
    let days = in_order(alloc, &more.days)?;
    kept.insert(meter, days)?;
    Ok(())
}

/// Adds days that aren't there yet: all of them, or none if there is no memory.
fn add_days(days: &mut BTreeSet<Day>, more: &[Day]) -> Result<(), AllocError>
    requires { (day : ℕ) → Member day more.now → Member day days.old.keys → ⊥ }
    ensures ok { OnOk result ((day : ℕ) → Member day days.new.keys ↔ (Member day days.old.keys ⊎ Member day more.now)) }
    ensures err { OnErr result ((day : ℕ) → Member day days.new.keys ↔ Member day days.old.keys) }
{
    for i in 0..more.len() {
        let Ok(_) = days.insert(more[i]) else {
            remove_days(days, &more[..i]);
            return Err(AllocError);
        };
    }
    Ok(())
}

/// Removes days, which needs no memory.
fn remove_days(days: &mut BTreeSet<Day>, some: &[Day])
    ensures { (day : ℕ) → Member day days.new.keys ↔ (Member day days.old.keys × (Member day some.now → ⊥)) }
{
    for day in some {
        days.remove(day);
    }
}

/// The days in their order, each once.
fn in_order(alloc: Global, days: &[Day]) -> Result<BTreeSet<Day>, AllocError>
    ensures { IfOk result (IsFromIterResult ⟦<Day as Ord>⟧.cmp days.now) }
{
    days.iter().copied().collect(alloc)
}

/// Removes details, which needs no memory. An entry that is left without a day says nothing.
fn take_out(kept: &mut BTreeMap<MeterDetails, BTreeSet<Day>>, some: &[MeterDays])
    ensures { Loses kept.old (all_details some.now) kept.new }
{
    for group in some {
        take_days(kept, group);
    }
}

/// Removes the details of some days.
fn take_days(kept: &mut BTreeMap<MeterDetails, BTreeSet<Day>>, some: &MeterDays)
    ensures { Loses kept.old (meter_details some.now) kept.new }
{
    if let Some(days) = kept.get_mut(&some.meter) {
        remove_days(days, &some.days);
    }
}

/// The current details of a day of a stream.
pub(crate) fn current_details(
    alloc: Global,
    kept: &BTreeMap<MeterDetails, BTreeSet<Day>>,
    stream: Stream,
    day: Day,
) -> Result<Details, AllocError>
    ensures { IfOk result (IsCurrentDetails (details_world kept.now) stream day) }
{
    match nearest(alloc, kept, &stream, day) {
        Some(meter) => meter.details.try_clone(),
        None => Ok(empty_details(alloc)),
    }
}

/// The current details of each day of a range, ascending. If the last day is before the first, the list is empty.
pub(crate) fn details_between(
    alloc: Global,
    kept: &BTreeMap<MeterDetails, BTreeSet<Day>>,
    stream: &Stream,
    first: Day,
    last: Day,
) -> Result<Vec<(Day, Details)>, AllocError>
    ensures { IfOk result (λ rows. AreDetailsBetween (details_world kept.now) stream.now first last rows.items) }
{
    let mut rows = Vec::new(alloc);
    for number in number_of(first)..number_of(last) + 1 {
        let Some(day) = day_of(number) else {
            unreachable!();
        };
        let details = current_details(alloc, kept, *stream, day)?;
        rows.push((day, details))?;
    }
    Ok(rows)
}

/// The day of a number, if there is one.
fn day_of(number: u32) -> Option<Day>
    ensures { SomeIff result (number ≤ last_number) number }
{
    Day::from_number(i64::from(number))
}

/// The number of a day.
fn number_of(day: Day) -> u32
    ensures value { result ≡ day }
    ensures last { day ≤ last_number }
{
    day.number() as u32
}

/// The greatest details of the nearest day that has some, up to and including this one.
fn nearest<'a>(
    alloc: Global,
    kept: &'a BTreeMap<MeterDetails, BTreeSet<Day>>,
    stream: &Stream,
    day: Day,
) -> Option<&'a MeterDetails>
    ensures some { IfSome result (λ meter. (of : ℕ)
        × IsGreatestDetail (details_world kept.now) stream.now day (meter_on meter.now of)) }
    ensures none { IfNone result ((other : Detail) → IsUpto (details_world kept.now) stream.now day other → ⊥) }
{
    // decides: which details of a day are current? (definition: IsCurrentDetails in mds_world/specs/Current.antt)
    let mut last = None;
    let mut from = Day::from_number(0).unwrap();
    for (meter, days) in kept.range(first_meter(alloc, stream)..) {
        if meter.stream != *stream {
            break;
        }
        // A nearer day wins. On the same day, whatever comes later is greater.
        let Some(of) = last_from(days, from, day) else {
            continue;
        };
        from = of;
        last = Some(meter);
    }
    last
}

/// Details that sort before all others of a stream. They take no memory.
fn first_meter(alloc: Global, stream: &Stream) -> MeterDetails
    ensures { result ≡ first_meter_of stream.now }
{
    MeterDetails {
        stream: *stream,
        moment: Moment::from_seconds(0).unwrap(),
        details: empty_details(alloc),
    }
}

/// The last of the days that are in a range.
fn last_from(days: &BTreeSet<Day>, first: Day, last: Day) -> Option<Day>
    requires { first ≤ last }
    ensures some { IfSome result (IsLastFrom days.now.keys first last) }
    ensures none { IfNone result (NoneFrom days.now.keys first last) }
{
    let mut range = days.range(first..=last);
    match range.next_back() {
        Some(day) => Some(*day),
        None => None,
    }
}

/// The days among these that don't have these details yet, ascending.
pub(crate) fn days_without(
    alloc: Global,
    kept: &BTreeMap<MeterDetails, BTreeSet<Day>>,
    group: &DetailDays,
) -> Result<Vec<Day>, AllocError>
    ensures { IfOk result (λ days. AreDaysWithout (details_world kept.now) group.now days.items) }
{
    let asked = in_order(alloc, &group.days)?;
    let meter = meter_of(group)?;
    // For the proof: no details have two entries.
    let _ = kept.len();
    match kept.get(&meter) {
        Some(days) => days_not_in(alloc, &asked, days),
        None => days_not_in(alloc, &asked, &BTreeSet::new(alloc)),
    }
}

/// A copy of the details of days.
fn meter_of(group: &DetailDays) -> Result<MeterDetails, AllocError>
    ensures { IfOk result (λ meter. (day : ℕ) → meter_on meter day ≡ detail_on group.now day) }
{
    Ok(MeterDetails {
        stream: group.stream,
        moment: group.moment,
        details: group.details.try_clone()?,
    })
}

/// The days that aren't among others, ascending.
fn days_not_in(
    alloc: Global,
    days: &BTreeSet<Day>,
    others: &BTreeSet<Day>,
) -> Result<Vec<Day>, AllocError>
    ensures { IfOk result (λ left. left.items ≡ difference ⟦<Day as Ord>⟧.cmp days.now others.now) }
{
    days.difference(others).copied().collect(alloc)
}
