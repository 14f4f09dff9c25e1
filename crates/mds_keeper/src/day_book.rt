//! A day of a stream, with all its versions.

ghost use Rattle.std.specs.Prelude.{◌≡◌, ◌≢◌, ◌↔◌, ◌<◌, ◌≤◌, ◌⊎◌, ◌+◌, ℕ, [], length, max, map, IfSome, IfNone, IfOk, IsTrue, OnErr, Some};
ghost use Rattle.std.specs.Bool.{MatchBool};
ghost use Rattle.std.specs.FinSet as set;
ghost use Rattle.std.specs.List.{AllPairs, reduce, slice_get};
ghost use Rattle.mds_calendar.specs.Length.{count_of};
ghost use Rattle.mds_quantity.specs.declared.unit.Unit.{Unit as MeasureUnit};
ghost use Rattle.mds_world.specs.Current.{HasNoVersion, IsDayReading, IsFormOf, IsHeadOf, IsLatest};
ghost use Rattle.mds_world.specs.World.{World, IsCurrent, IsKnownDay, IsLawful};
ghost use Rattle.mds_keeper.specs.Books.{BookValue, IsDay, book_world};
ghost use Rattle.mds_keeper.specs.BookRows.{AreVersionsOf, AreWithin, Fits, HasIntervalOf, IsBefore, IsFormOfRows, IsLengthIn, IsMade, IsOneOutside, Misfits, OneLength, TwoLengths, unit_of};
ghost use Rattle.mds_keeper.specs.BookOrder.{AscendByUpdate, HasStep, IsInOrder, SameMembers, TwoReadings, agrees, row_cmp};
ghost use Rattle.mds_keeper.specs.Claims.{IsLengthUnder};
ghost use Rattle.mds_keeper.specs.BookPlaces.{EndsAt, StartsAt};
ghost use Rattle.mds_keeper.specs.Content.{rows_of, whole_rows};
ghost use Rattle.mds_keeper.specs.KeptRows.{AreWhole, lent_rows, lent_whole};
ghost use Rattle.mds_keeper.specs.LentVersions.{IsUnder, lent_reading, reading_of};
ghost use Rattle.mds_marks.specs.Reading.{ReadingValue};
ghost use Rattle.mds_world.specs.declared.facts.Head.{Head};
ghost use Rattle.mds_world.specs.Facts.{key_at};
ghost use Rattle.mds_world.specs.Facts.Fact.{VersionIs};
ghost use Rattle.mds_world.specs.Sets.{◌∈◌};

use crate::additions::{VersionRows, whole_versions};
use crate::book_rows::{BookRows, LentRows, copied};
use crate::lent_version::LentVersion;
use mds_quantity::Unit;
use mds_runs::DayReadings;
use mds_terms::{Day, Length, Moment, Reading, Stream};
use std::alloc::{AllocError, Global};
use std::cmp::Ordering;
use std::marker::Model;

/// A reading of an interval of a length under an update.
#[derive(Drop)]
pub struct Version {
    pub update: Moment,
    pub length: Length,
    pub reading: Reading,
}

/// A day of a stream: its unit, if it is known, and all versions of its intervals, as a lawful World holds them. Its heads are those
/// of its versions.
#[derive(Drop)]
pub struct DayBook {
    stream: Stream,
    day: Day,
    /// The length under the greatest update, and the unit, if the day is known.
    form: Option<(Length, Unit)>,
    /// By interval, from 1, and then by update. No two have the same interval and update.
    rows: BookRows,
}

impl Model for DayBook {
    ghost use Rattle.mds_keeper.specs.Books.{BookValue};
    ghost use Rattle.mds_keeper.specs.BookRows.{IsBook, IsFormOfRows, unit_of};
    ghost use Rattle.mds_keeper.specs.KeptRows.{AreWhole, kept_rows, kept_whole};

    ghost Value = { BookValue };

    ghost view = { λ b. record { stream = b.stream; day = b.day; unit = unit_of b.form; rows = kept_rows b.rows } };

    ghost invariant = { λ b. IsBook (record { stream = b.stream; day = b.day; unit = unit_of b.form; rows = kept_rows b.rows })
        × IsFormOfRows b.form (kept_rows b.rows) × AreWhole (kept_whole b.rows) };
}

impl DayBook {
    /// The day of a stream that has this unit, if it is known, and these versions, each with the number of its interval. `None` if
    /// no lawful World holds that as this day. Then there are versions without a unit, or versions of two lengths under one update.
    /// Or an interval has two readings under one update, or is 0 or above the count of its length.
    pub fn new(
        stream: Stream,
        day: Day,
        unit: Option<Unit>,
        versions: Vec<(u16, Version)>,
    ) -> Option<DayBook>
        ensures { IsMade (record { stream = stream; day = day; unit = unit; rows = versions.items }) result }
    {
        let mut versions = versions;
        if !have_one_length(&mut versions) {
            return None;
        }
        let Some(rows) = in_order(versions) else {
            return None;
        };
        if !fit(unit, &rows) {
            return None;
        }
        let form = form_of(unit, &rows);
        Some(DayBook {
            stream,
            day,
            form,
            rows: BookRows::Own(rows),
        })
    }

    /// The book of an unknown day.
    pub fn unknown(alloc: Global, stream: Stream, day: Day) -> DayBook
        ensures of_day { (result.stream ≡ stream) × (result.day ≡ day) }
        ensures empty { book_world result ≡ set.empty }
    {
        let Some(book) = DayBook::new(stream, day, None, Vec::new(alloc)) else {
            unreachable!();
        };
        book
    }

    /// The same day from versions in either form. Those that are one for each interval of their length are kept as `DayReadings`. It
    /// fails only if memory is refused.
    pub fn of_rows(
        alloc: Global,
        stream: Stream,
        day: Day,
        unit: Option<Unit>,
        rows: VersionRows,
    ) -> Result<Option<DayBook>, AllocError>
        ensures { IfOk result (IsMade (record { stream = stream; day = day; unit = unit; rows = rows_of rows })) }
    {
        rows.into_book(alloc, stream, day, unit)
    }

    /// The same day from a version of each interval of a length, from 1 on, all under one update.
    pub(crate) fn of_readings(
        alloc: Global,
        stream: Stream,
        day: Day,
        unit: Option<Unit>,
        length: Length,
        update: Moment,
        readings: DayReadings,
    ) -> Result<Option<DayBook>, AllocError>
        ensures { IfOk result (IsMade (record { stream = stream; day = day; unit = unit; rows = whole_rows length update 1 readings })) }
    {
        if let Some(unit) = unit {
            if are_whole(length, readings.len()) {
                let rows = BookRows::whole(alloc, length, update, readings)?;
                return Ok(Some(DayBook {
                    stream,
                    day,
                    form: Some((length, unit)),
                    rows,
                }));
            }
        }
        let versions = whole_versions(alloc, length, update, &readings)?;
        Ok(DayBook::new(stream, day, unit, versions))
    }

    /// A law: the facts of a book are a lawful World.
    pub fn is_lawful(&self)
        ensures { IsLawful (book_world self.now) }
    {
        // For the proof: the invariant of a book.
        let _ = &self.rows;
    }

    /// Its stream.
    pub fn stream(&self) -> Stream
        ensures { result ≡ self.now.stream }
    {
        self.stream
    }

    /// Its day.
    pub fn day(&self) -> Day
        ensures { result ≡ self.now.day }
    {
        self.day
    }

    /// The current length of its intervals, which is that of the greatest update, and its unit. `None` if the day isn't known.
    pub fn form(&self) -> Option<(Length, Unit)>
        ensures some { IfSome result (λ form. IsFormOf (book_world self.now) self.now.stream self.now.day form.0 form.1) }
        ensures none { IfNone result (IsKnownDay (book_world self.now) self.now.stream self.now.day → ⊥) }
        ensures unit { unit_of result ≡ self.now.unit }
        ensures rows { IsFormOfRows result self.now.rows }
    {
        // For the proof: the facts of a book are a lawful World.
        self.is_lawful();
        self.form
    }

    /// Its unit. `None` if the day isn't known.
    pub fn unit(&self) -> Option<Unit>
        ensures { result ≡ self.now.unit }
    {
        let (_, unit) = self.form?;
        Some(unit)
    }

    /// Whether one of its heads has the interval: it is from 1 to the count of that head's length.
    pub fn has_interval(&self, interval: u16) -> bool
        ensures { IsTrue result ↔ ((head : Head) × IsHeadOf (book_world self.now) self.now.stream self.now.day head
            × (1 ≤ interval) × (interval ≤ count_of head.length)) }
    {
        // For the proof: the facts of a book are a lawful World.
        self.is_lawful();
        match self.lent_rows() {
            LentRows::Each(rows) => is_of_some(rows, interval),
            LentRows::Whole(length, _, _) => is_of(length, interval),
        }
    }

    /// The length under an update. `None` if it has no version under it.
    pub fn length_under(&self, update: Moment) -> Option<Length>
        ensures { IsLengthUnder self.now update result }
    {
        // decides: which length does a day have under an update?
        match self.lent_rows() {
            LentRows::Each(rows) => length_in(rows, update),
            LentRows::Whole(length, of_all, _) => {
                if of_all == update { Some(length) } else { None }
            }
        }
    }

    /// The current version of an interval: that of the day's length with the greatest update. `None` if it has no version; then
    /// its reading is bare N.
    #[inline(always)]
    pub fn current(&self, interval: u16) -> Option<LentVersion<'_>>
        ensures some { IfSome result (λ version. (unit : MeasureUnit)
            × IsFormOf (book_world self.now) self.now.stream self.now.day version.length unit
            × IsCurrent (book_world self.now) self.now.stream self.now.day version.length interval
            version.update (lent_reading version)) }
        ensures none { IfNone result ((minutes : ℕ) (unit : MeasureUnit)
            → IsFormOf (book_world self.now) self.now.stream self.now.day minutes unit
            → HasNoVersion (book_world self.now) self.now.stream self.now.day minutes interval) }
        ensures reading { IsDayReading (book_world self.now) self.now.stream self.now.day interval (reading_of result) }
    {
        // For the proof: the facts of a book are a lawful World.
        self.is_lawful();
        // decides: what is current of an interval? (definition: IsCurrent in mds_world/specs/World.antt)
        let (length, _) = self.form()?;
        match self.lent_rows() {
            LentRows::Each(rows) => last_of(rows, length, interval),
            LentRows::Whole(length, update, readings) => {
                lent_at(length, update, readings, interval)
            }
        }
    }

    /// The current readings of all its intervals, in order, if it keeps them together. `None` says nothing of them.
    pub fn whole_readings(&self) -> Option<&DayReadings>
        ensures { IfSome result (λ readings. (i : ℕ) (reading : ReadingValue) → slice_get readings.now i ≡ Some reading
            → IsDayReading (book_world self.now) self.now.stream self.now.day (i + 1) reading) }
    {
        // For the proof: a day with versions has a form.
        self.form()?;
        match self.lent_rows() {
            LentRows::Each(_) => None,
            LentRows::Whole(_, _, readings) => Some(readings),
        }
    }

    /// The version of an interval under an update. `None` if it has none.
    pub fn under(&self, interval: u16, update: Moment) -> Option<LentVersion<'_>>
        ensures some { IfSome result (λ version. (version.update ≡ update)
            × (VersionIs (key_at self.now.stream self.now.day version.length interval update) (lent_reading version)
            ∈ book_world self.now)) }
        ensures none { IfNone result ((minutes : ℕ) (reading : ReadingValue)
            → VersionIs (key_at self.now.stream self.now.day minutes interval update) reading ∈ book_world self.now → ⊥) }
    {
        match self.lent_rows() {
            LentRows::Each(rows) => row_under(rows, interval, update),
            LentRows::Whole(length, of_all, readings) => {
                if of_all != update {
                    return None;
                }
                lent_at(length, update, readings, interval)
            }
        }
    }

    /// The greatest update among its current readings. `None` if the day isn't known.
    pub fn latest_update(&self) -> Option<Moment>
        ensures some { IfSome result (λ update. (minutes : ℕ) (unit : MeasureUnit)
            → IsFormOf (book_world self.now) self.now.stream self.now.day minutes unit
            → IsLatest (book_world self.now) self.now.stream self.now.day minutes update) }
        ensures known { IfSome result (λ _. IsKnownDay (book_world self.now) self.now.stream self.now.day) }
        ensures none { IfNone result (IsKnownDay (book_world self.now) self.now.stream self.now.day → ⊥) }
    {
        // For the proof: the facts of a book are a lawful World.
        self.is_lawful();
        // decides: what is the update of a day?
        match self.lent_rows() {
            LentRows::Each(rows) => greatest_update(rows),
            LentRows::Whole(_, update, _) => Some(update),
        }
    }

    /// Copies of the versions of an interval, of any length and by ascending update, each with the interval's number. Takes memory
    /// only if there are any.
    pub fn versions(&self, alloc: Global, interval: u16) -> Result<Vec<(u16, Version)>, AllocError>
        ensures value { IfOk result
            (λ rows. AreVersionsOf (book_world self.now) self.now.stream self.now.day interval rows.items) }
        ensures memory { OnErr result (((minutes : ℕ)
            → HasNoVersion (book_world self.now) self.now.stream self.now.day minutes interval) → ⊥) }
    {
        match self.lent_rows() {
            LentRows::Each(rows) => copied(alloc, rows_at(rows, interval)),
            LentRows::Whole(length, update, readings) => {
                copied_at(alloc, length, update, readings, interval)
            }
        }
    }

    /// All its versions in the form in which they are kept, by interval and then by update.
    pub(crate) fn lent_rows(&self) -> LentRows<'_>
        ensures value { lent_rows result ≡ self.now.rows }
        ensures ascending { AllPairs IsBefore (lent_rows result) }
        ensures whole { AreWhole (lent_whole result) }
    {
        self.rows.lent()
    }

    /// A copy of all its versions, owned by the caller. Takes memory only if there are any.
    pub fn copied_rows(&self, alloc: Global) -> Result<Vec<(u16, Version)>, AllocError>
        ensures value { IfOk result (λ rows. rows.items ≡ self.now.rows) }
        ensures memory { OnErr result (0 < length self.now.rows) }
    {
        match self.lent_rows() {
            LentRows::Each(rows) => copied(alloc, rows),
            LentRows::Whole(length, update, readings) => whole_versions(
                alloc, length, update, readings,
            ),
        }
    }

    /// The same day, whose copies share its versions from now on.
    pub fn into_shared(self, alloc: Global) -> Result<DayBook, AllocError>
        ensures { IfOk result (λ book. book ≡ self) }
    {
        let DayBook {
            stream,
            day,
            form,
            rows,
        } = self;
        Ok(DayBook {
            stream,
            day,
            form,
            rows: rows.into_shared(alloc)?,
        })
    }

    /// A copy. Takes memory only if there are rows. If the rows are shared it takes none, but no clause says so.
    pub fn try_clone(&self, alloc: Global) -> Result<DayBook, AllocError>
        ensures value { IfOk result (λ book. book ≡ self.now) }
        ensures memory { OnErr result (0 < length self.now.rows) }
    {
        Ok(DayBook {
            stream: self.stream,
            day: self.day,
            form: self.form,
            rows: self.rows.try_clone(alloc)?,
        })
    }
}

/// A borrowed version.
fn lent(version: &Version) -> LentVersion<'_>
    ensures { (result.update ≡ version.now.update) × (result.length ≡ version.now.length)
        × (lent_reading result ≡ version.now.reading) }
{
    LentVersion {
        update: version.update,
        length: version.length,
        mark: version.reading.mark(),
        value: version.reading.value(),
    }
}

/// The last version of an interval of a length, among rows that ascend.
fn last_of(rows: &[(u16, Version)], length: Length, interval: u16) -> Option<LentVersion<'_>>
    requires { AllPairs IsBefore rows.now }
    ensures some { (book : BookValue) → book.rows ≡ rows.now → IfSome result (λ version. (version.length ≡ length)
        × IsCurrent (book_world book) book.stream book.day length interval version.update (lent_reading version)) }
    ensures none { (book : BookValue) → book.rows ≡ rows.now
        → IfNone result (HasNoVersion (book_world book) book.stream book.day length interval) }
{
    let found = rows_at(rows, interval);
    let mut end = found.len();
    while end > 0 {
        let version = &found[end - 1].1;
        if version.length == length {
            return Some(lent(version));
        }
        end -= 1;
    }
    None
}

/// The length of the first row of an update.
fn length_in(rows: &[(u16, Version)], update: Moment) -> Option<Length>
    ensures { IsLengthIn rows.now update result }
{
    for row in rows {
        if row.1.update == update {
            return Some(row.1.length);
        }
    }
    None
}

/// The version of an interval under an update, among rows that ascend.
fn row_under(rows: &[(u16, Version)], interval: u16, update: Moment) -> Option<LentVersion<'_>>
    requires { AllPairs IsBefore rows.now }
    ensures { (book : BookValue) → book.rows ≡ rows.now → IsUnder book interval update result }
{
    for row in rows_at(rows, interval) {
        if row.1.update.seconds() == update.seconds() {
            return Some(lent(&row.1));
        }
    }
    None
}

/// The version of an interval if each of a length has one, all under one update.
#[inline(always)]
fn lent_at(
    length: Length,
    update: Moment,
    readings: &DayReadings,
    interval: u16,
) -> Option<LentVersion<'_>>
    ensures { (book : BookValue) → book.rows ≡ whole_rows length update 1 readings.now → IsUnder book interval update result }
{
    let at = usize::from(interval).checked_sub(1)?;
    if at >= readings.len() {
        return None;
    }
    // For the proof: each reading is lawful.
    readings.are_lawful();
    Some(LentVersion {
        update,
        length,
        mark: readings.mark(at),
        value: readings.value(at),
    })
}

/// A copy of the version of an interval, with its number, if each of a length has one, all under one update.
fn copied_at(
    alloc: Global,
    length: Length,
    update: Moment,
    readings: &DayReadings,
    interval: u16,
) -> Result<Vec<(u16, Version)>, AllocError>
    ensures value { (book : BookValue) → book.rows ≡ whole_rows length update 1 readings.now → IfOk result (λ rows.
        AreVersionsOf (book_world book) book.stream book.day interval rows.items) }
    ensures memory { (book : BookValue) → book.rows ≡ whole_rows length update 1 readings.now
        → OnErr result (((minutes : ℕ) → HasNoVersion (book_world book) book.stream book.day minutes interval) → ⊥) }
{
    let mut rows = Vec::new(alloc);
    let Some(version) = lent_at(length, update, readings, interval) else {
        return Ok(rows);
    };
    let reading = version.reading()?;
    let copy = Version {
        update,
        length,
        reading,
    };
    rows.push((interval, copy))?;
    Ok(rows)
}

/// Whether there are readings, and as many as a day has intervals of this length.
fn are_whole(length: Length, count: usize) -> bool
    ensures { IsTrue result → AreWhole (Some (length, count)) }
{
    count > 0 && length.count() == count
}

/// The rows of an interval, among rows that ascend.
fn rows_at(rows: &[(u16, Version)], interval: u16) -> &[(u16, Version)]
    requires { AllPairs IsBefore rows.now }
    ensures { (book : BookValue) → book.rows ≡ rows.now
        → AreVersionsOf (book_world book) book.stream book.day interval result.now }
{
    &rows[start_of(rows, interval)..end_of(rows, interval)]
}

/// Where the rows of an interval begin, among rows that ascend.
fn start_of(rows: &[(u16, Version)], interval: u16) -> usize
    requires { AllPairs IsBefore rows.now }
    ensures { StartsAt rows.now interval result }
{
    rows.partition_point(|row| row.0 < interval)
}

/// Where the rows of an interval end, among rows that ascend.
fn end_of(rows: &[(u16, Version)], interval: u16) -> usize
    requires { AllPairs IsBefore rows.now }
    ensures { EndsAt rows.now interval result }
{
    rows.partition_point(|row| row.0 <= interval)
}

/// The greatest update of the rows.
fn greatest_update(rows: &[(u16, Version)]) -> Option<Moment>
    ensures { result ≡ reduce max (map (λ row. row.1.update) rows.now) }
{
    rows.iter().map(|row| row.1.update).max()
}

/// The rows in order, each once. `None` if an interval has two readings under one update.
fn in_order(mut rows: Vec<(u16, Version)>) -> Option<Vec<(u16, Version)>>
    ensures some { IfSome result (λ sorted. AllPairs IsBefore sorted.items × SameMembers rows.items sorted.items) }
    ensures none { IfNone result (TwoReadings rows.items) }
{
    // Those of one update come in order: then this pass is enough.
    if do_ascend(&rows) {
        return Some(rows);
    }
    put_in_order(&mut rows);
    if do_ascend(&rows) { Some(rows) } else { None }
}

/// Whether each row comes before the next.
fn do_ascend(rows: &[(u16, Version)]) -> bool
    ensures { MatchBool result (AllPairs IsBefore rows.now) (HasStep rows.now) }
{
    rows.is_sorted_by(|a, b| order_of(a, b).is_lt())
}

/// Sorts the rows, and removes duplicates.
fn put_in_order(rows: &mut Vec<(u16, Version)>)
    ensures members { SameMembers rows.old.items rows.new.items }
    ensures sorted { IsInOrder rows.new.items }
{
    rows.sort_unstable_by(|a, b| order_of(a, b));
    rows.dedup_by(|later, earlier| is_same(later, earlier));
}

/// The order of two rows: by interval, and then by update.
fn order_of(a: &(u16, Version), b: &(u16, Version)) -> Ordering
    ensures { result ≡ row_cmp a.now b.now }
{
    a.0.cmp(&b.0).then(a.1.update.cmp(&b.1.update))
}

/// Whether two rows are the same.
fn is_same(a: &(u16, Version), b: &(u16, Version)) -> bool
    ensures { MatchBool result (a.now ≡ b.now) (a.now ≢ b.now) }
{
    a.0 == b.0
        && a.1.update == b.1.update
        && a.1.length == b.1.length
        && a.1.reading.is_same(&b.1.reading)
}

/// Whether an interval is one of a day with this length.
fn is_of(length: Length, interval: u16) -> bool
    ensures { IsTrue result ↔ ((1 ≤ interval) × (interval ≤ count_of length)) }
{
    0 < interval && usize::from(interval) <= length.count()
}

/// Whether an interval is one of the length of some row.
fn is_of_some(rows: &[(u16, Version)], interval: u16) -> bool
    ensures { IsTrue result ↔ HasIntervalOf rows.now interval }
{
    for row in rows {
        if is_of(row.1.length, interval) {
            return true;
        }
    }
    false
}

/// Whether rows of the same update have the same length. If there are several lengths, the rows are sorted by update for that.
fn have_one_length(rows: &mut Vec<(u16, Version)>) -> bool
    ensures members { SameMembers rows.old.items rows.new.items }
    ensures lengths { MatchBool result (OneLength rows.old.items) (TwoLengths rows.old.items) }
{
    if are_of_one_length(rows) {
        return true;
    }
    put_by_update(rows);
    agree_with_next(rows)
}

/// Whether rows that ascend, with one length under each update, are those of a day with this unit.
fn fit(unit: Option<Unit>, rows: &[(u16, Version)]) -> bool
    requires { OneLength rows.now }
    ensures { MatchBool result (Fits unit rows.now) (Misfits unit rows.now) }
{
    if unit.is_none() {
        return rows.is_empty();
    }
    are_within(rows)
}

/// Sorts the rows by update.
fn put_by_update(rows: &mut Vec<(u16, Version)>)
    ensures members { SameMembers rows.old.items rows.new.items }
    ensures sorted { AscendByUpdate rows.new.items }
{
    rows.sort_unstable_by(|a, b| a.1.update.cmp(&b.1.update));
}

/// Whether rows sorted by update have one length under each update.
fn agree_with_next(rows: &[(u16, Version)]) -> bool
    requires { AscendByUpdate rows.now }
    ensures { MatchBool result (OneLength rows.now) (TwoLengths rows.now) }
{
    // It compares each row with the next.
    rows.is_sorted_by(|a, b| agree(a, b))
}

/// Whether two rows have different updates, or the same length.
fn agree(a: &(u16, Version), b: &(u16, Version)) -> bool
    ensures { result ≡ agrees a.now b.now }
{
    a.1.update != b.1.update || a.1.length == b.1.length
}

/// Whether the interval of each row is from 1 to the count of its length.
fn are_within(rows: &[(u16, Version)]) -> bool
    ensures { MatchBool result (AreWithin rows.now) (IsOneOutside rows.now) }
{
    for row in rows {
        if row.0 == 0 {
            return false;
        }
        if usize::from(row.0) > row.1.length.count() {
            return false;
        }
    }
    true
}

/// Whether all rows have the same length.
fn are_of_one_length(rows: &[(u16, Version)]) -> bool
    ensures { IsTrue result → OneLength rows.now }
{
    let [first, ..] = rows else {
        return true;
    };
    for row in rows {
        if row.1.length != first.1.length {
            return false;
        }
    }
    true
}

/// The length under the greatest update of rows, and the unit. `None` if there are no rows.
fn form_of(unit: Option<Unit>, rows: &[(u16, Version)]) -> Option<(Length, Unit)>
    requires { Fits unit rows.now }
    ensures form { IsFormOfRows result rows.now }
    ensures unit { (rows.now ≡ []) ⊎ (unit_of result ≡ unit) }
{
    // decides: which length of a day is current? (definition: IsFormOf in mds_world/specs/Current.antt)
    let update = greatest_update(rows)?;
    let length = length_in(rows, update)?;
    let unit = unit?;
    Some((length, unit))
}
