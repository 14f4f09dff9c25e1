//! The days that are kept in memory.

ghost use Rattle.std.specs.Prelude.{◌≡◌, ◌<◌, ◌≤ℤ◌, ◌++◌, [], pos, unsigned_abs, IfOk, OnOk, OnErr, List, Some, None, map};
ghost use Rattle.std.specs.BTreeMap.{IsOrdered, get, insert_entry};
ghost use Rattle.std.specs.FinSet as set;
ghost use Rattle.std.specs.Option.{unwrap_or};
ghost use Rattle.mds_world.specs.Facts.{Fact};
ghost use Rattle.mds_world.specs.Facts.Fact.{HeadIs};
ghost use Rattle.mds_world.specs.World.{IsLawful, World, union};
ghost use Rattle.mds_keeper.specs.Books.{IsDay};
ghost use Rattle.mds_keeper.specs.Content.{rows_of, version_fact, versions_of};
ghost use Rattle.mds_keeper.specs.Queries.{AreDaysOf, IsLastDayOf};
ghost use Rattle.mds_memory.specs.Stored.{AreOfTheirDays, HasRoom, IsChange, days_world, is_headed, last_number, place_cmp};
ghost use Rattle.mds_memory.specs.StoredSteps.{AreBooks, AreChanged, AreLawfulDays, GetsHead, Holds};

use mds_keeper::{DayBook, DayVersions, VersionRows};
use mds_quantity::Unit;
use mds_terms::{Day, Stream};
use mds_world::{Head, StreamDay};
use std::alloc::{AllocError, Global};
use std::collections::BTreeMap;

/// The number of the last possible day, 31 December 9999.
const LAST: i64 = 2_932_896;

/// The book of a day. If none is kept, nothing is known of the day.
pub(crate) fn day_of(
    alloc: Global,
    days: &BTreeMap<StreamDay, DayBook>,
    stream: Stream,
    day: Day,
) -> Result<DayBook, AllocError>
    requires { AreOfTheirDays days.now }
    ensures of_day { IfOk result (λ book. (book.stream ≡ stream) × (book.day ≡ day)) }
    ensures book { IfOk result (IsDay (days_world days.now)) }
{
    let place = StreamDay { stream, day };
    match days.get(&place) {
        Some(book) => book.try_clone(alloc),
        None => Ok(DayBook::unknown(alloc, place.stream, place.day)),
    }
}

/// The known days of a stream from a first to a last one, ascending.
pub(crate) fn days_of(
    alloc: Global,
    days: &BTreeMap<StreamDay, DayBook>,
    stream: Stream,
    first: Day,
    last: Day,
) -> Result<Vec<DayBook>, AllocError>
    requires { AreOfTheirDays days.now }
    ensures { IfOk result (λ books. AreDaysOf (days_world days.now) stream first last books.items) }
{
    let mut books = Vec::new(alloc);
    if first > last {
        return Ok(books);
    }
    let (first, last) = (
        StreamDay { stream, day: first },
        StreamDay { stream, day: last },
    );
    for (_, book) in days.range(first..=last) {
        if has_head(book) {
            books.push(book.try_clone(alloc)?)?;
        }
    }
    Ok(books)
}

/// The last known day of a stream.
pub(crate) fn last_day(days: &BTreeMap<StreamDay, DayBook>, stream: Stream) -> Option<Day>
    requires { AreOfTheirDays days.now }
    ensures { IsLastDayOf (days_world days.now) stream result }
{
    let first = place_at(&stream, 0);
    let last = place_at(&stream, LAST);
    for (place, book) in days.range(first..=last).rev() {
        // A place without a head is no known day.
        if has_head(book) {
            return Some(place.day);
        }
    }
    None
}

/// The place of a day of a stream, by its number.
fn place_at(stream: &Stream, number: i64) -> StreamDay
    requires { (pos 0 ≤ℤ number) × (number ≤ℤ pos last_number) }
    ensures { result ≡ record { stream = stream.now; day = unsigned_abs number } }
{
    StreamDay {
        stream: *stream,
        day: Day::from_number(number).unwrap(),
    }
}

/// Whether the day is known.
pub(crate) fn has_head(book: &DayBook) -> bool
    ensures { result ≡ is_headed book.now }
{
    book.form().is_some()
}

/// What a day will hold: its unit, and its versions in any order.
#[derive(Drop)]
struct Rows {
    unit: Option<Unit>,
    rows: VersionRows,
}

/// The day that is being changed.
#[derive(Drop)]
struct InHand {
    place: StreamDay,
    rows: Rows,
}

/// The heads of new days, followed by those of further updates.
pub(crate) fn heads_in(new_days: Vec<Head>, further: Vec<Head>) -> Result<Vec<Head>, AllocError>
    ensures { IfOk result (λ heads. heads.items ≡ new_days.items ++ further.items) }
{
    let mut heads = new_days;
    let mut further = further;
    heads.append(&mut further)?;
    Ok(heads)
}

/// The days that heads and versions change, each with what was kept of it and what is added.
pub(crate) fn changed_days(
    alloc: Global,
    days: &BTreeMap<StreamDay, DayBook>,
    heads: Vec<Head>,
    versions: Vec<DayVersions>,
) -> Result<BTreeMap<StreamDay, DayBook>, AllocError>
    requires days { AreOfTheirDays days.now }
    requires lawful { IsLawful (union (days_world days.now)
        (set.from_list (map HeadIs heads.items ++ map version_fact (versions_of versions.items)))) }
    ensures { IfOk result (λ changed. AreOfTheirDays changed × IsChange (days_world days.now)
        (set.from_list (map HeadIs heads.items ++ map version_fact (versions_of versions.items))) changed) }
{
    // What is added to a day is mostly adjacent, so the day in hand is kept out of the map.
    let mut closed: BTreeMap<StreamDay, Rows> = BTreeMap::new(alloc);
    let mut in_hand: Option<InHand> = None;
    // How many heads were put. They mostly come in the order of the versions, unless some days are
    // new and others are known.
    let mut put: usize = 0;
    for added in versions {
        let place = StreamDay {
            stream: added.stream,
            day: added.day,
        };
        let hand = opened(alloc, days, &mut closed, in_hand, &place)?;
        let (headed, behind) = with_head(&heads, put, &place, hand.rows);
        put = behind;
        let rows = with_more(alloc, headed, added.rows)?;
        in_hand = Some(InHand { place, rows });
    }
    for i in put..heads.len() {
        let head = &heads[i];
        let place = place_of(head);
        let hand = opened(alloc, days, &mut closed, in_hand, &place)?;
        let rows = of_head(head, hand.rows);
        in_hand = Some(InHand { place, rows });
    }
    let Some(hand) = in_hand else {
        return books_of(alloc, closed);
    };
    close(&mut closed, hand)?;
    books_of(alloc, closed)
}

/// The place of the day of a head.
fn place_of(head: &Head) -> StreamDay
    ensures { result ≡ record { stream = head.now.stream; day = head.now.day } }
{
    StreamDay {
        stream: head.stream,
        day: head.day,
    }
}

/// What a day will hold with this head.
fn of_head(head: &Head, rows: Rows) -> Rows
    ensures { (result.unit ≡ Some head.now.unit) × (result.rows ≡ rows.rows) }
{
    Rows {
        unit: Some(head.unit),
        rows: rows.rows,
    }
}

/// What a day will hold with the head at this place, if the head is the day's own. Also the place
/// of the next head.
fn with_head(heads: &Vec<Head>, at: usize, place: &StreamDay, rows: Rows) -> (Rows, usize)
    ensures { GetsHead heads.now.items at place.now rows result.0 result.1 }
{
    let Some(head) = heads.get(at) else {
        return (rows, at);
    };
    if place_of(head) != *place {
        return (rows, at);
    }
    (of_head(head, rows), at + 1)
}

/// What a day will hold with more versions. If it had none, these are kept in the form they came
/// in.
fn with_more(alloc: Global, old: Rows, more: VersionRows) -> Result<Rows, AllocError>
    ensures { IfOk result (λ new. (new.unit ≡ old.unit) × (rows_of new.rows ≡ rows_of old.rows ++ rows_of more)) }
{
    let Rows { unit, rows } = old;
    let mut versions = Vec::new(alloc);
    rows.append_to(&mut versions)?;
    if versions.is_empty() {
        return Ok(Rows { unit, rows: more });
    }
    more.append_to(&mut versions)?;
    Ok(Rows {
        unit,
        rows: VersionRows::Each(versions),
    })
}

/// Goes on to the day of this place: takes it out of the changed days, or copies what is kept of
/// it. If another day was in hand, that one joins the changed days.
#[inline(always)]
fn opened(
    alloc: Global,
    days: &BTreeMap<StreamDay, DayBook>,
    closed: &mut BTreeMap<StreamDay, Rows>,
    in_hand: Option<InHand>,
    place: &StreamDay,
) -> Result<InHand, AllocError>
    requires { AreOfTheirDays days.now }
    ensures place { IfOk result (λ hand. hand.place ≡ place.now) }
    ensures changed { IfOk result (λ hand. (more : List Fact)
        → AreChanged (days_world days.now) more closed.old in_hand
        → AreChanged (days_world days.now) more closed.new (Some hand)) }
{
    if let Some(hand) = in_hand {
        if hand.place == *place {
            return Ok(hand);
        }
        close(closed, hand)?;
    }
    taken(alloc, days, closed, place)
}

/// Adds the day in hand to the changed days.
#[inline(never)]
fn close(closed: &mut BTreeMap<StreamDay, Rows>, hand: InHand) -> Result<(), AllocError>
    ensures { OnOk result ((w : World) (more : List Fact)
        → AreChanged w more closed.old (Some hand) → AreChanged w more closed.new None) }
{
    closed.insert(hand.place, hand.rows)?;
    Ok(())
}

/// Takes a day in hand: out of the changed days, or as a copy of what is kept.
#[inline(never)]
fn taken(
    alloc: Global,
    days: &BTreeMap<StreamDay, DayBook>,
    closed: &mut BTreeMap<StreamDay, Rows>,
    place: &StreamDay,
) -> Result<InHand, AllocError>
    requires { AreOfTheirDays days.now }
    ensures place { IfOk result (λ hand. hand.place ≡ place.now) }
    ensures changed { IfOk result (λ hand. (more : List Fact)
        → AreChanged (days_world days.now) more closed.old None
        → AreChanged (days_world days.now) more closed.new (Some hand)) }
{
    let rows = match closed.remove(place) {
        Some(rows) => rows,
        None => kept_rows(alloc, days, place)?,
    };
    Ok(InHand {
        place: *place,
        rows,
    })
}

/// A copy of what is kept of a day.
fn kept_rows(
    alloc: Global,
    days: &BTreeMap<StreamDay, DayBook>,
    place: &StreamDay,
) -> Result<Rows, AllocError>
    requires { AreOfTheirDays days.now }
    ensures { IfOk result (Holds (days_world days.now) [] place.now) }
{
    let Some(book) = days.get(place) else {
        return Ok(Rows {
            unit: None,
            rows: VersionRows::Each(Vec::new(alloc)),
        });
    };
    Ok(Rows {
        unit: book.unit(),
        rows: VersionRows::Each(book.copied_rows(alloc)?),
    })
}

/// The books of the changed days.
fn books_of(
    alloc: Global,
    closed: BTreeMap<StreamDay, Rows>,
) -> Result<BTreeMap<StreamDay, DayBook>, AllocError>
    requires { AreLawfulDays closed }
    ensures { IfOk result (λ books. AreOfTheirDays books × AreBooks closed books) }
{
    let mut books = BTreeMap::new(alloc);
    for (place, rows) in closed {
        // For the proof: a day's number is at most that of the last day.
        let _ = place.day.number();
        let Some(book) = DayBook::of_rows(alloc, place.stream, place.day, rows.unit, rows.rows)?
        else {
            unreachable!();
        };
        // A caller that asks for the day gets a copy, and all copies share its versions.
        let shared = book.into_shared(alloc)?;
        books.insert(place, shared)?;
    }
    Ok(books)
}

/// Reserves a place for each day that changes. What is kept stays as it is.
pub(crate) fn make_room(
    alloc: Global,
    days: &mut BTreeMap<StreamDay, DayBook>,
    changed: &BTreeMap<StreamDay, DayBook>,
) -> Result<(), AllocError>
    ensures same { days_world days.new ≡ days_world days.old }
    ensures theirs { AreOfTheirDays days.old → AreOfTheirDays days.new }
    ensures room { OnOk result (HasRoom days.new changed.now) }
{
    for place in changed.keys() {
        // For the proof: a day's number is at most that of the last day.
        let _ = place.day.number();
        let book = DayBook::unknown(alloc, place.stream, place.day);
        add_place(days, place, book)?;
    }
    Ok(())
}

/// Inserts this book for a day that has none.
fn add_place(
    days: &mut BTreeMap<StreamDay, DayBook>,
    place: &StreamDay,
    book: DayBook,
) -> Result<(), AllocError>
    ensures ok { OnOk result (days.new.entries ≡ insert_entry place_cmp days.old.entries place.now
        (unwrap_or (get place_cmp days.old place.now) book)) }
    ensures err { OnErr result (days.new.entries ≡ days.old.entries) }
    ensures was_ordered { IsOrdered place_cmp days.old }
    ensures ordered { OnOk result (IsOrdered place_cmp days.new) }
{
    let Ok(entry) = days.entry(*place) else {
        return Err(AllocError);
    };
    entry.or_insert(book);
    Ok(())
}

/// Replaces the kept days by the changed ones. There is room for them.
pub(crate) fn put_days(
    days: &mut BTreeMap<StreamDay, DayBook>,
    changed: BTreeMap<StreamDay, DayBook>,
)
    requires room { HasRoom days.old changed }
    requires theirs { AreOfTheirDays days.old × AreOfTheirDays changed }
    ensures theirs { AreOfTheirDays days.new }
    ensures put { (w : World) → IsChange (days_world days.old) w changed
        → days_world days.new ≡ union (days_world days.old) w }
{
    for (place, book) in changed {
        // Inserting under a key that exists needs no memory.
        let Ok(_) = days.insert(place, book) else {
            unreachable!();
        };
    }
}
