//! A day of the store with what the lines so far claim about it.

ghost use Rattle.std.specs.Prelude.{◌≡◌, ◌≢◌, ◌+◌, ◌<◌, ◌≤◌, ℕ, ◌++◌, cond, false, length, Err, IsTrue, IfOk, IfErr, IfSome, IfNone, IsNone, None, OnErr, OnOk, Some, []};
ghost use Rattle.std.specs.List.{AllPairs, slice_get};
ghost use Rattle.std.specs.FinSet as set;
ghost use Rattle.mds_calendar.specs.Length.{count_of};
ghost use Rattle.mds_quantity.specs.declared.unit.Unit.{Unit as MeasureUnit};
ghost use Rattle.mds_marks.specs.Reading.{ReadingValue};
ghost use Rattle.mds_world.specs.Counts.{countable};
ghost use Rattle.mds_world.specs.Facts.Fact.{VersionIs};
ghost use Rattle.mds_world.specs.Lists.{Member};
ghost use Rattle.mds_world.specs.Sets.{◌∈◌};
ghost use Rattle.mds_world.specs.World.{Agrees, union};
ghost use Rattle.mds_keeper.specs.Books.{book_world};
ghost use Rattle.mds_keeper.specs.BookRows.{IsBefore};
ghost use Rattle.mds_keeper.specs.Content.{AreMoreDays, versions_of, whole_rows};
ghost use Rattle.mds_keeper.specs.declared.day_merge.Stop.TheVariants.{Memory, Refused};
ghost use Rattle.mds_keeper.specs.declared.refusal.RefusalCode.TheVariants.{VersionConflict};
ghost use Rattle.mds_keeper.specs.DayMerges.{DayMergeValue, AreAscending, GoesOn, IfRefused, IsPlan, Settles};
ghost use Rattle.mds_keeper.specs.Claims.{AreComplete, IsFirst, BreaksHead, SuitsHead, fresh_all, fresh_versions, held_all, held_count, is_held, key_of};
ghost use Rattle.mds_keeper.specs.DayMergeSteps.{AreAsMany, AreCounts, AreHeld, AreInBook, AreOfLength, Gains, HaveReadings, IsFrom, IsInBook, IsKnownLength, claimed_entries, claimed_readings, fresh_head, new_heads, readings_under, row_of};
ghost use Rattle.mds_keeper.specs.Merge.{Breaks, IsRefusal, claim_world, claims_upto, claims_world};

use crate::additions::{Additions, DayVersions, VersionRows};
use crate::book_rows::LentRows;
use crate::claim::Claim;
use crate::claimed::{ClaimedReadings, ClaimedUpdate, ClaimedUpdates};
use crate::day_book::{DayBook, Version};
use crate::keeper::Unavailable;
use crate::refusal::{Refusal, RefusalCode};
use mds_quantity::Unit;
use mds_runs::DayReadings;
use mds_terms::{Length, Moment, Reading};
use mds_world::Head;
use std::alloc::{AllocError, AllocFailed, Global};
use std::collections::BTreeMap;
use std::marker::Model;

/// Why a claim is refused.
#[derive(Clone, Copy, Debug)]
pub enum Stop {
    /// It breaks a rule.
    Refused(Refusal),
    /// Out of memory, or the keeper can't answer.
    Memory,
}

impl From<AllocError> for Stop {
    ghost from_gives = { λ _ stop. stop ≡ Memory };

    fn from(_: AllocError) -> Stop {
        Stop::Memory
    }
}

impl<T: Drop> From<AllocFailed<T>> for Stop {
    ghost from_gives = { λ _ stop. stop ≡ Memory };

    fn from(_: AllocFailed<T>) -> Stop {
        Stop::Memory
    }
}

impl From<Unavailable> for Stop {
    ghost from_gives = { λ _ stop. stop ≡ Memory };

    fn from(_: Unavailable) -> Stop {
        Stop::Memory
    }
}

/// How many of the versions claimed for a day are missing in its book, and so added, and how many the book has.
#[derive(Clone, Copy)]
pub struct MergeCounts {
    pub added: u64,
    pub known: u64,
}

/// A day's book, and what lines claim about the day in addition.
#[derive(Drop)]
pub struct DayMerge {
    book: DayBook,
    /// The unit of the book, or of the first claim.
    unit: Option<Unit>,
    claimed: ClaimedUpdates,
    /// How many of the claimed readings the book has.
    held: u64,
    /// How many of them it doesn't have.
    fresh: u64,
}

impl Model for DayMerge {
    ghost use Rattle.mds_keeper.specs.DayMerges.{DayMergeValue};
    ghost use Rattle.mds_keeper.specs.DayMergeSteps.{AreCounts, AreInBook, IsDayMerge, claimed_entries, coded_merge, merge_value};

    ghost Value = { DayMergeValue };

    ghost coded = { coded_merge };

    ghost view = { λ d. merge_value d.book d.unit (claimed_entries d.book d.claimed) };

    ghost invariant = { λ d. IsDayMerge d.book d.unit (claimed_entries d.book d.claimed)
        × AreInBook d.book d.claimed
        × AreCounts d.book (claimed_entries d.book d.claimed) d.held d.fresh };
}

/// The rule that a length and a unit break (M1, M2). The length is compared with the one known under its update, and then the unit
/// with the day's.
pub fn head_conflict(
    known: Option<Length>,
    of_day: Option<Unit>,
    length: Length,
    unit: Unit,
) -> Option<RefusalCode>
    ensures some { IfSome result (BreaksHead known of_day length unit) }
    ensures none { IfNone result (SuitsHead known of_day length unit) }
{
    // decides: check 4 of a job, M1, M2: another length under its update, another unit
    // decides: M1, M2 of a file: another length under the update, another unit
    if let Some(other) = known {
        if other != length {
            return Some(RefusalCode::LengthConflict);
        }
    }
    if let Some(other) = of_day {
        if other != unit {
            return Some(RefusalCode::UnitConflict);
        }
    }
    None
}

/// The refusal of a line with another reading of an interval than the one known under its update (M3).
fn conflict(line: u64, interval: u16) -> Stop
    ensures { result ≡ Refused (record { code = VersionConflict; line = line; field = 0; interval = interval }) }
{
    Stop::Refused(Refusal::at_place(RefusalCode::VersionConflict, line, interval))
}

/// Whether a book has this reading of an interval of a length under an update.
fn has_reading(
    book: &DayBook,
    length: Length,
    interval: u16,
    update: Moment,
    reading: &Reading,
) -> bool
    ensures { result ≡ is_held book.now length update interval reading.now }
{
    // For the proof: the facts of a book are a lawful World.
    book.is_lawful();
    match book.under(interval, update) {
        Some(held) => {
            if held.length != length {
                return false;
            }
            held.is_of(reading)
        }
        None => false,
    }
}

/// The rows without those at the start whose intervals come before this one.
fn rows_from(rows: &[(u16, Version)], interval: u16) -> &[(u16, Version)]
    requires { AllPairs IsBefore rows.now }
    ensures { IsFrom rows.now interval result.now }
{
    let mut left = rows;
    while let [row, rest @ ..] = left {
        if interval <= row.0 {
            return left;
        }
        left = rest;
    }
    left
}

/// The reading of this interval under an update, among rows from an interval on.
fn reading_at(rows: &[(u16, Version)], interval: u16, update: Moment) -> Option<&Reading>
    requires { IsFrom rows.now interval rows.now }
    ensures some { IfSome result (λ reading. (minutes : ℕ) × Member (row_of minutes interval update reading.now) rows.now) }
    ensures none { IfNone result ((minutes : ℕ) (reading : ReadingValue)
        → Member (row_of minutes interval update reading) rows.now → ⊥) }
{
    let mut left = rows;
    while let [row, rest @ ..] = left {
        if row.0 != interval {
            return None;
        }
        if row.1.update == update {
            return Some(&row.1.reading);
        }
        left = rest;
    }
    None
}

/// 1 if a book has the reading at this index under an update, and 0 if it has none of the interval. `None` if it has another. It
/// looks at the book's rows from the interval on, whose number is the index plus one.
fn count_at(
    book: &DayBook,
    rows: &[(u16, Version)],
    update: Moment,
    readings: &DayReadings,
    at: usize,
) -> Option<u64>
    requires within { at < length readings.now }
    requires few { length readings.now ≤ 1440 }
    requires from { IsFrom book.now.rows (at + 1) rows.now }
    ensures some { IfSome result (λ count. (minutes : ℕ) (reading : ReadingValue) → AreOfLength book.now minutes update
        → slice_get readings.now at ≡ Some reading
        → (count ≡ cond (is_held book.now minutes update (at + 1) reading) 1 0)
        × ((other : ReadingValue) → VersionIs (key_of book.now minutes (at + 1) update) other ∈ book_world book.now
        → other ≡ reading)) }
    ensures small { IfSome result (λ count. count ≤ 1) }
    ensures none { IfNone result ((minutes : ℕ) (reading : ReadingValue) → AreOfLength book.now minutes update
        → slice_get readings.now at ≡ Some reading
        → (other : ReadingValue) × (VersionIs (key_of book.now minutes (at + 1) update) other ∈ book_world book.now)
        × (other ≢ reading)) }
{
    // For the proof: the facts of a book are a lawful World.
    book.is_lawful();
    let Some(kept) = reading_at(rows, (at + 1) as u16, update) else {
        return Some(0);
    };
    if readings.is_at(at, kept) {
        Some(1)
    } else {
        None
    }
}

/// How many of the readings a book has under the update, or the first interval for which it has another reading. Its rows under the
/// update have the readings' length.
fn count_held(book: &DayBook, update: Moment, readings: &DayReadings) -> Result<u64, u16>
    requires few { length readings.now ≤ 1440 }
    requires whole { AreAsMany book.now update (length readings.now) }
    ensures { (minutes : ℕ) → AreOfLength book.now minutes update → AreHeld book.now minutes update readings.now result }
{
    // decides: M3 of an interval: another reading under the same update
    match book.lent_rows() {
        LentRows::Each(rows) => count_in_rows(book, rows, update, readings),
        LentRows::Whole(length, of_all, known) => {
            if of_all != update {
                return Ok(0);
            }
            count_in_whole(book, length, update, known, readings)
        }
    }
}

/// The same for a book that has these readings, one for each interval of a length under the update, and no others.
fn count_in_whole(
    book: &DayBook,
    of_known: Length,
    update: Moment,
    known: &DayReadings,
    readings: &DayReadings,
) -> Result<u64, u16>
    requires known { book.now.rows ≡ whole_rows of_known update 1 known.now }
    requires some { 0 < length known.now }
    requires as_many { length known.now ≡ length readings.now }
    requires few { length readings.now ≤ 1440 }
    ensures { (minutes : ℕ) → AreOfLength book.now minutes update → AreHeld book.now minutes update readings.now result }
{
    match difference_between(known, readings) {
        Some(interval) => Err(interval),
        None => Ok(readings.len() as u64),
    }
}

/// The same for a book with these rows. It walks over the rows and the readings in parallel.
fn count_in_rows(
    book: &DayBook,
    rows: &[(u16, Version)],
    update: Moment,
    readings: &DayReadings,
) -> Result<u64, u16>
    requires rows { rows.now ≡ book.now.rows }
    requires ascending { AllPairs IsBefore rows.now }
    requires few { length readings.now ≤ 1440 }
    ensures { (minutes : ℕ) → AreOfLength book.now minutes update → AreHeld book.now minutes update readings.now result }
{
    if rows.is_empty() {
        return Ok(0);
    }
    let mut left = rows;
    let mut held: u64 = 0;
    for i in 0..readings.len() {
        let interval = (i + 1) as u16;
        left = rows_from(left, interval);
        let Some(count) = count_at(book, left, update, readings, i) else {
            return Err(interval);
        };
        held += count;
    }
    Ok(held)
}

/// The first interval where a claim's reading differs from that of an earlier claim under the same update. The book has all
/// readings of the earlier one.
fn difference_in(book: &DayBook, update: Moment, readings: &DayReadings) -> Option<u16>
    requires as_many { length (readings_under update book.now.rows) ≡ length readings.now }
    requires few { length readings.now ≤ 1440 }
    requires whole { AreAsMany book.now update (length readings.now) }
    requires kept { (minutes : ℕ) × AreOfLength book.now minutes update × IsInBook book.now minutes update }
    ensures some { IfSome result (IsFirst (λ k. slice_get (readings_under update book.now.rows) k ≢ slice_get readings.now k)
        (λ k. slice_get (readings_under update book.now.rows) k ≡ slice_get readings.now k)) }
    ensures none { IfNone result ((k : ℕ)
        → slice_get (readings_under update book.now.rows) k ≡ slice_get readings.now k) }
{
    // For the proof: the facts of a book are a lawful World.
    book.is_lawful();
    match count_held(book, update, readings) {
        Ok(_) => None,
        Err(interval) => Some(interval),
    }
}

/// The first interval with different readings in two claims under one update.
fn difference_between(claimed: &DayReadings, readings: &DayReadings) -> Option<u16>
    requires as_many { length claimed.now ≡ length readings.now }
    requires few { length readings.now ≤ 1440 }
    ensures some { IfSome result (IsFirst (λ k. slice_get claimed.now k ≢ slice_get readings.now k)
        (λ k. slice_get claimed.now k ≡ slice_get readings.now k)) }
    ensures none { IfNone result ((k : ℕ) → slice_get claimed.now k ≡ slice_get readings.now k) }
{
    match claimed.first_difference(readings) {
        Some(at) => Some((at + 1) as u16),
        None => None,
    }
}

/// The first interval where a claim's reading differs from that of an earlier claim, by what is kept of the earlier one. Both are
/// under the same update.
fn difference(
    book: &DayBook,
    update: Moment,
    claimed: &Option<DayReadings>,
    readings: &DayReadings,
) -> Option<u16>
    requires as_many { length (claimed_readings book.now update claimed.now) ≡ length readings.now }
    requires few { length readings.now ≤ 1440 }
    requires whole { AreAsMany book.now update (length readings.now) }
    requires kept { IsNone claimed.now → (minutes : ℕ) × AreOfLength book.now minutes update × IsInBook book.now minutes update }
    ensures some { IfSome result
        (IsFirst (λ k. slice_get (claimed_readings book.now update claimed.now) k ≢ slice_get readings.now k)
        (λ k. slice_get (claimed_readings book.now update claimed.now) k ≡ slice_get readings.now k)) }
    ensures none { IfNone result ((k : ℕ)
        → slice_get (claimed_readings book.now update claimed.now) k ≡ slice_get readings.now k) }
{
    // decides: M3 of an interval: another reading under the same update
    match claimed {
        Some(claimed) => difference_between(claimed, readings),
        None => difference_in(book, update, readings),
    }
}

/// What is kept of a claim's readings, `held` of which are in the book: nothing if it has all.
fn kept_of(book: &DayBook, update: Moment, held: u64, readings: DayReadings) -> Option<DayReadings>
    requires held { (minutes : ℕ) → AreOfLength book.now minutes update → held ≡ held_count book.now minutes update 1 readings }
    requires whole { AreAsMany book.now update (length readings) }
    ensures same { (minutes : ℕ) → AreOfLength book.now minutes update → claimed_readings book.now update result ≡ readings }
    ensures kept { (minutes : ℕ) → AreOfLength book.now minutes update → IsNone result → IsInBook book.now minutes update }
{
    // For the proof: the facts of a book are a lawful World, and its rows ascend.
    book.is_lawful();
    book.lent_rows();
    let has_all = held == readings.len() as u64;
    if has_all {
        return None;
    }
    Some(readings)
}

/// Appends the head of an update to the heads to be added, if a book has no row of it. The first head of a day that isn't known
/// goes to those of new days.
fn settle_head(
    book: &DayBook,
    unit: Unit,
    is_new_day: bool,
    update: Moment,
    length: Length,
    additions: &mut Additions,
) -> Result<(), AllocError>
    ensures ok { OnOk result (Gains additions.old additions.new is_new_day (fresh_head book.now unit update length) []) }
    ensures kept { OnErr result (GoesOn additions.old additions.new) }
{
    if book.length_under(update).is_some() {
        return Ok(());
    }
    let head = Head {
        stream: book.stream(),
        day: book.day(),
        update,
        length,
        unit,
    };
    // decides: is a head the first of its day?
    if is_new_day {
        additions.new_days.push(head)?;
        return Ok(());
    }
    additions.heads.push(head)?;
    Ok(())
}

/// Appends the readings of an update, unchanged, to the days to be added. A book has none of them. There is one for each interval
/// of their length.
fn settle_whole(
    book: &DayBook,
    minutes: Length,
    update: Moment,
    readings: DayReadings,
    days: &mut Vec<DayVersions>,
) -> Result<(), AllocError>
    requires new { held_count book.now minutes update 1 readings ≡ 0 }
    requires whole { length readings ≡ count_of minutes }
    ensures ok { OnOk result ((versions_of days.new.items
        ≡ versions_of days.old.items ++ fresh_versions book.now minutes update 1 readings)
        × AreMoreDays days.old.items days.new.items) }
    ensures kept { OnErr result (days.new.items ≡ days.old.items) }
{
    days.push(DayVersions {
        stream: book.stream(),
        day: book.day(),
        rows: VersionRows::Whole(minutes, update, readings),
    })?;
    Ok(())
}

/// Appends copies of those readings of an update that a book doesn't have to the days to be added, if there are any.
fn settle_some(
    alloc: Global,
    book: &DayBook,
    minutes: Length,
    update: Moment,
    readings: &DayReadings,
    days: &mut Vec<DayVersions>,
) -> Result<(), AllocError>
    requires few { length readings.now ≤ 1440 }
    ensures ok { OnOk result ((versions_of days.new.items
        ≡ versions_of days.old.items ++ fresh_versions book.now minutes update 1 readings.now)
        × AreMoreDays days.old.items days.new.items) }
    ensures kept { OnErr result (days.new.items ≡ days.old.items) }
{
    let mut rows = Vec::new(alloc);
    for i in 0..readings.len() {
        let interval = (i + 1) as u16;
        let reading = readings.reading(i)?;
        if has_reading(book, minutes, interval, update, &reading) {
            continue;
        }
        let version = Version {
            update,
            length: minutes,
            reading,
        };
        rows.push((interval, version))?;
    }
    if rows.is_empty() {
        return Ok(());
    }
    days.push(DayVersions {
        stream: book.stream(),
        day: book.day(),
        rows: VersionRows::Each(rows),
    })?;
    Ok(())
}

/// Appends the head of an update and those of its readings that a book doesn't have to the additions. If no readings are kept, the
/// book has them all, and the head. If all that was claimed is new, nothing is looked up or copied.
fn settle_update(
    alloc: Global,
    book: &DayBook,
    unit: Unit,
    is_new_day: bool,
    are_new: bool,
    update: Moment,
    kept: ClaimedReadings,
    additions: &mut Additions,
) -> Result<(), AllocError>
    requires whole { length (claimed_readings book.now update kept.readings) ≡ count_of kept.length }
    requires some { 1 ≤ length (claimed_readings book.now update kept.readings) }
    requires kept { IsNone kept.readings → IsInBook book.now kept.length update }
    requires new { IsTrue are_new → held_count book.now kept.length update 1 (claimed_readings book.now update kept.readings) ≡ 0 }
    ensures ok { OnOk result (Gains additions.old additions.new is_new_day (fresh_head book.now unit update kept.length)
        (fresh_versions book.now kept.length update 1 (claimed_readings book.now update kept.readings))) }
    ensures kept { OnErr result (GoesOn additions.old additions.new) }
{
    let ClaimedReadings { length, readings } = kept;
    let Some(readings) = readings else {
        return Ok(());
    };
    settle_head(book, unit, is_new_day, update, length, additions)?;
    if are_new {
        settle_whole(book, length, update, readings, &mut additions.days)?;
        return Ok(());
    }
    settle_some(alloc, book, length, update, &readings, &mut additions.days)?;
    Ok(())
}

/// The same for updates in a map, none of which is the first of a day that isn't known.
fn settle_others(
    alloc: Global,
    book: &DayBook,
    unit: Unit,
    are_new: bool,
    claimed: BTreeMap<Moment, ClaimedReadings>,
    additions: &mut Additions,
) -> Result<(), AllocError>
    requires whole { AreComplete (claimed_entries book.now claimed.entries) }
    requires some { HaveReadings (claimed_entries book.now claimed.entries) }
    requires kept { AreInBook book.now claimed.entries }
    requires new { IsTrue are_new → held_all book.now (claimed_entries book.now claimed.entries) ≡ 0 }
    ensures ok { OnOk result (Gains additions.old additions.new false (new_heads book.now (Some unit) (claimed_entries book.now claimed.entries))
        (fresh_all book.now (claimed_entries book.now claimed.entries))) }
    ensures kept { OnErr result (GoesOn additions.old additions.new) }
{
    for (update, kept) in claimed {
        settle_update(alloc, book, unit, false, are_new, update, kept, additions)?;
    }
    Ok(())
}

/// Appends the claimed heads and readings that a book doesn't have to the additions. `held` readings are in the book and `fresh`
/// ones aren't: if all are in it, nothing is looked at. If something is claimed there is a unit. A new day's book has no rows.
fn settle_fresh(
    alloc: Global,
    book: &DayBook,
    unit: Option<Unit>,
    is_new_day: bool,
    claimed: ClaimedUpdates,
    held: u64,
    fresh: u64,
    additions: &mut Additions,
) -> Result<(), AllocError>
    requires whole { AreComplete (claimed_entries book.now claimed) }
    requires some { HaveReadings (claimed_entries book.now claimed) }
    requires kept { AreInBook book.now claimed }
    requires counts { AreCounts book.now (claimed_entries book.now claimed) held fresh }
    requires none { unit ≡ None → claimed_entries book.now claimed ≡ [] }
    requires new_day { IsTrue is_new_day → book.now.rows ≡ [] }
    ensures ok { OnOk result (Gains additions.old additions.new is_new_day (new_heads book.now unit (claimed_entries book.now claimed))
        (fresh_all book.now (claimed_entries book.now claimed))) }
    ensures kept { OnErr result (GoesOn additions.old additions.new) }
    ensures memory { OnErr result (0 < length (fresh_all book.now (claimed_entries book.now claimed))) }
{
    if fresh == 0 {
        return Ok(());
    }
    let Some(unit) = unit else {
        return Ok(());
    };
    let are_new = held == 0;
    let (first, others) = claimed.into_parts();
    let Some(first) = first else {
        return Ok(());
    };
    let ClaimedUpdate { update, kept } = first;
    settle_update(
        alloc, book, unit, is_new_day, are_new, update, kept, additions,
    )?;
    settle_others(alloc, book, unit, are_new, others, additions)?;
    Ok(())
}

/// The length under an update: that of what was claimed under it, or of the book's rows.
fn known_length(book: &DayBook, claimed: &ClaimedUpdates, update: Moment) -> Option<Length>
    ensures { IsKnownLength book.now (claimed_entries book.now claimed.now) update result }
{
    match claimed.get(update) {
        Some(kept) => Some(kept.length),
        None => book.length_under(update),
    }
}

impl DayMerge {
    /// A day of the store, for which nothing was claimed yet.
    pub fn new(alloc: Global, book: DayBook) -> DayMerge
        ensures { result ≡ record { book = book; said = set.empty } }
    {
        // For the proof: the facts of a book are a lawful World, and a book with a unit has a row.
        book.is_lawful();
        book.form();
        let unit = book.unit();
        DayMerge {
            book,
            unit,
            claimed: ClaimedUpdates::new(alloc),
            held: 0,
            fresh: 0,
        }
    }

    /// Takes what a line claims about the day in addition to the lines before it, or returns the first rule that it breaks.
    pub fn take(&mut self, claim: Claim) -> Result<(), Stop>
        ensures ok { OnOk result ((self.new.book ≡ self.old.book)
            × (self.new.said ≡ union self.old.said (claim_world self.old.book.stream self.old.book.day claim))
            × Agrees (union (book_world self.new.book) self.new.said)) }
        ensures refused { IfErr result (λ stop. IfRefused stop (λ refusal.
            (refusal.line ≡ claim.line) × (refusal.field ≡ 0)
            × Breaks (union (book_world self.old.book) (union self.old.said
            (claim_world self.old.book.stream self.old.book.day claim))) refusal.code refusal.interval)) }
        ensures kept { IfErr result (λ stop. self.new ≡ self.old) }

        // Memory may run out only for a claim that breaks no rule, and for whose update nothing was claimed.
        ensures agrees { result ≡ Err Stop.Memory → Agrees (union (book_world self.old.book) (union self.old.said
            (claim_world self.old.book.stream self.old.book.day claim))) }
        ensures unsaid { result ≡ Err Stop.Memory → (minutes interval : ℕ) (reading : ReadingValue)
            → VersionIs (key_of self.old.book minutes interval claim.update) reading ∈ self.old.said → ⊥ }
    {
        let Claim {
            line,
            length,
            unit,
            update,
            readings,
        } = claim;
        // For the proof: the facts of a book are a lawful World, and a day has intervals of each length.
        self.book.is_lawful();
        length.count();
        // decides: M1, M2 of a file: another length under the update, another unit
        let known = known_length(&self.book, &self.claimed, update);
        if let Some(code) = head_conflict(known, self.unit, length, unit) {
            return Err(Stop::Refused(Refusal::at_line(code, line)));
        }
        if let Some(kept) = self.claimed.get(update) {
            if let Some(interval) = difference(&self.book, update, &kept.readings, &readings) {
                return Err(conflict(line, interval));
            }
            return Ok(());
        }
        let held = match count_held(&self.book, update, &readings) {
            Ok(held) => held,
            Err(interval) => return Err(conflict(line, interval)),
        };
        // decides: what counts as added, and what as known?
        let fresh = readings.len() as u64 - held;
        // A file has fewer than 2^64 readings.
        let Some(all_held) = self.held.checked_add(held) else {
            return Err(Stop::Memory);
        };
        let Some(all_fresh) = self.fresh.checked_add(fresh) else {
            return Err(Stop::Memory);
        };
        let readings = kept_of(&self.book, update, held, readings);
        self.claimed
            .insert(update, ClaimedReadings { length, readings })?;
        self.unit = Some(unit);
        self.held = all_held;
        self.fresh = all_fresh;
        Ok(())
    }

    /// Appends what is claimed and isn't in the book to the additions. Takes memory only if a version is new. After an error a part
    /// of it may be there.
    pub fn settle(self, alloc: Global, additions: &mut Additions) -> Result<MergeCounts, AllocError>
        ensures ok { IfOk result (Settles self additions.old additions.new) }
        ensures kept { OnErr result (GoesOn additions.old additions.new) }
        ensures memory { OnErr result (0 < set.len (set.difference (countable self.said) (countable (book_world self.book)))) }
    {
        let DayMerge {
            book,
            unit,
            claimed,
            held,
            fresh,
        } = self;
        // For the proof: the facts of a book are a lawful World.
        book.is_lawful();
        let is_new_day = book.form().is_none();
        settle_fresh(
            alloc, &book, unit, is_new_day, claimed, held, fresh, additions,
        )?;
        Ok(MergeCounts {
            added: fresh,
            known: held,
        })
    }
}

impl DayBook {
    /// What claims about this day add to it, each once, or the first rule that one of them breaks. The claims come in the order of
    /// their lines, as a file has them. So the refused line is the first one reached.
    pub fn plan(&self, alloc: Global, claims: &[Claim]) -> Result<Additions, Stop>
        requires lines { AreAscending claims.now }
        ensures ok { IfOk result
            (λ additions. IsPlan self.now (claims_world self.now.stream self.now.day claims.now) additions) }
        ensures refused { IfErr result (λ stop. IfRefused stop
            (IsRefusal (book_world self.now) (claims_upto self.now.stream self.now.day claims.now))) }
    {
        // For the proof: the facts of a book are a lawful World.
        self.is_lawful();
        let book = self.try_clone(alloc)?;
        let mut merge = DayMerge::new(alloc, book);
        for claim in claims {
            let copy = claim.try_clone(alloc)?;
            if let Err(stop) = merge.take(copy) {
                return Err(stop);
            }
        }
        let mut additions = Additions::new(alloc);
        merge.settle(alloc, &mut additions)?;
        Ok(additions)
    }
}
