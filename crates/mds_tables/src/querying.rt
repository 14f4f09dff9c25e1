//! Queries of a store. A store that can't answer is unavailable (U1), and so is one with a row that it didn't write.

ghost use Rattle.std.specs.Prelude.{◌≡◌, ◌≢◌, ◌⊎◌, ◌<◌, ◌^◌, ◌↔◌, ℕ, [], ◌∷◌, false, length as list_length, All, IfErr, IfOk, IsTrue, OnErr, OnOk, Option, Some};
ghost use Rattle.std.specs.Bool.{MatchBool};
ghost use Rattle.std.specs.FinSet.{IsAntisymmetric};
ghost use Rattle.std.specs.List.{AllPairs};
ghost use Rattle.std.specs.declared.cmp.Ordering.TheVariants.{Less};
ghost use Rattle.sqlite.specs.declared.types.Value.TheVariants.{Int};
ghost use Rattle.sqlite.specs.Held.{state};
ghost use Rattle.sqlite.specs.State.{HasCleanDisk};
ghost use Rattle.mds_world.specs.Facts.Fact.{EventIs};
ghost use Rattle.mds_world.specs.Lists.{Apart, Member};
ghost use Rattle.mds_world.specs.Sets.{◌∈◌};
ghost use Rattle.mds_keeper.specs.Queries.{AreEventsOf};
ghost use Rattle.mds_tables.specs.Causes.{HasFailed};
ghost use Rattle.mds_tables.specs.Layouts.{Layout, world_with};
ghost use Rattle.mds_tables.specs.Queries.{Answers};
ghost use Rattle.mds_tables.specs.Stores.{HoldsOf, HoldsTablesOf, versions_said};
ghost use Rattle.mds_tables.specs.Shown.{AreEventsIn, AreVersionsIn, SaysVersion};
ghost use Rattle.sqlite_value.specs.Order.{column};
ghost use Rattle.mds_marks.specs.Reading.{ReadingValue};
ghost use Rattle.mds_world.specs.declared.facts.Key.{Key as KeyValue};
ghost use Rattle.mds_tables.specs.Written.{IsRowOfVersion};
ghost use Rattle.mds_tables.specs.Added.{AreAdded, IsAdded, SaysEvent};

use crate::cells::letter_of;
use crate::readiness::ready;
use crate::refusals::or_unavailable;
use crate::selects::{event_rows, same_event_rows, version_numbers};
use crate::terms::{event_at, int_at, version_in};
use mds_keeper::{Unavailable, Version};
use mds_terms::{Day, Event, Length, Moment, Stream, TransCode};
use sqlite::{Alter, Connection, Error, Row};
use std::alloc::Global;
use std::collections::BTreeSet;

/// Whether mds_schema says this number and nothing else, whatever tables follow those that every schema has. An error is the
/// library's: the store failed with a cause, or the limit of steps was reached.
pub fn is_version<S: Alter>(conn: &mut Connection<S>, number: i64) -> Result<bool, Error>
    requires { conn.old.in_transaction ≡ false }
    ensures answers { (layout : Layout) → Answers (HoldsTablesOf layout) (state S.Store conn.old) (state S.Store conn.new) result
        (λ trees is. MatchBool is (versions_said trees ≡ number ∷ []) (versions_said trees ≢ number ∷ [])) }
    ensures cause { (layout : Layout) → HasCleanDisk (state S.Store conn.new) → HoldsTablesOf layout (state S.Store conn.old)
        → IfErr result (HasFailed (state S.Store conn.old) (state S.Store conn.new)) }
{
    ready(conn)?;
    let rows = version_numbers(conn)?;
    Ok(is_only(&rows, number))
}

/// Whether there is just one row, and it says this number.
fn is_only(rows: &[Row], number: i64) -> bool
    ensures { MatchBool result (rows.now ≡ (Int number ∷ []) ∷ []) (rows.now ≢ (Int number ∷ []) ∷ []) }
{
    match rows {
        [row] => is_number(row, number),
        _ => false,
    }
}

/// Whether a row is just this number.
fn is_number(row: &Row, number: i64) -> bool
    ensures { MatchBool result (row.now ≡ Int number ∷ []) (row.now ≢ Int number ∷ []) }
{
    row.column_count() == 1 && int_at(row, 0) == Some(number)
}

/// The versions of rows of schema 1, each with its interval. The rows say no length: the caller passes that of their intervals.
pub fn all_versions(
    alloc: Global,
    length: Length,
    rows: &[Row],
) -> Result<Vec<(u16, Version)>, Unavailable>
    ensures { IfOk result (λ versions. AreVersionsIn length rows.now versions.items) }
{
    let mut versions = Vec::with_capacity(alloc, rows.len())?;
    for i in 0..rows.len() {
        let version = version_at(alloc, length, &rows[i])?;
        versions.push(version)?;
    }
    Ok(versions)
}

/// The version that a row says, given its length, with its interval.
fn version_at(alloc: Global, length: Length, row: &Row) -> Result<(u16, Version), Unavailable>
    ensures ok { IfOk result (SaysVersion length row.now) }
    ensures err { OnErr result ((key : KeyValue) (reading : ReadingValue) → IsRowOfVersion row.now key reading
        → 0 < list_length reading.mark.reason.text) }
{
    let it = version_in(alloc, length, row)?;
    let (key, reading) = it;
    let version = Version {
        update: key.update,
        length,
        reading,
    };
    Ok((key.interval, version))
}

/// The events of a day, each once.
pub fn events_of<S: Alter>(
    alloc: Global,
    conn: &mut Connection<S>,
    stream: &Stream,
    day: Day,
) -> Result<Vec<Event>, Unavailable>
    requires { conn.old.in_transaction ≡ false }
    ensures { (layout : Layout) → Answers (HoldsOf layout) (state S.Store conn.old) (state S.Store conn.new) result
        (λ trees events. AreEventsOf (world_with layout trees) stream.now day events.items) }
{
    or_unavailable(ready(conn))?;
    let rows = or_unavailable(event_rows(conn, stream, day))?;
    // For the proof: a day's number is at most that of the last day.
    let _ = day.number();
    all_events(alloc, &rows)
}

/// The events of rows, each once.
fn all_events(alloc: Global, rows: &[Row]) -> Result<Vec<Event>, Unavailable>
    ensures each { IfOk result (λ events. AreEventsIn rows.now events.items) }
    ensures apart { IfOk result (λ events. Apart events.items) }
{
    let mut found = BTreeSet::new(alloc);
    add_events(alloc, &mut found, rows)?;
    in_order(alloc, found)
}

/// Adds the events of rows.
fn add_events(alloc: Global, found: &mut BTreeSet<Event>, rows: &[Row]) -> Result<(), Unavailable>
    ensures { OnOk result (AreAdded SaysEvent found.old.keys rows.now found.new.keys) }
{
    for i in 0..rows.len() {
        add_event(alloc, found, &rows[i])?;
    }
    Ok(())
}

/// Adds the event of a row.
fn add_event(alloc: Global, found: &mut BTreeSet<Event>, row: &Row) -> Result<(), Unavailable>
    ensures { OnOk result (IsAdded SaysEvent found.old.keys row.now found.new.keys) }
{
    let event = event_at(alloc, row)?;
    put(found, event)
}

/// Puts one more item into a set.
pub fn put<T: Ord + Drop>(found: &mut BTreeSet<T>, item: T) -> Result<(), Unavailable>
    ensures { IsAntisymmetric T.cmp → OnOk result ((q : T) → Member q found.new.keys ↔ (Member q found.old.keys ⊎ (q ≡ item))) }
{
    found.insert(item)?;
    Ok(())
}

/// All of a set, in order.
pub fn in_order<T: Ord + Drop>(alloc: Global, found: BTreeSet<T>) -> Result<Vec<T>, Unavailable>
    ensures same { IfOk result (λ all. all.items ≡ found.keys) }
    ensures ascending { IfOk result (λ all. AllPairs (λ a b. T.cmp a b ≡ Less) all.items) }
    ensures apart { IfOk result (λ all. Apart all.items) }
{
    let all = found.into_iter().collect(alloc)?;
    Ok(all)
}

/// Whether the event is kept.
pub fn has_event<S: Alter>(conn: &mut Connection<S>, event: &Event) -> Result<bool, Unavailable>
    requires { conn.old.in_transaction ≡ false }
    ensures { (layout : Layout) → Answers (HoldsOf layout) (state S.Store conn.old) (state S.Store conn.new) result
        (λ trees has. IsTrue has ↔ (EventIs event.now ∈ world_with layout trees)) }
{
    or_unavailable(ready(conn))?;
    let (nmi, suffix) = (event.nmi(), event.suffix());
    let (letter, count) = letter_of(event);
    let rows = or_unavailable(same_event_rows(
        conn,
        event,
        nmi.text().as_bytes(),
        suffix.text().as_bytes(),
        &letter[..count],
    ))?;
    // For the proof: its numbers are below 2^63.
    has_small_numbers(event);
    Ok(has_any(&rows))
}

/// Whether there are rows.
fn has_any(rows: &[Row]) -> bool
    ensures { IsTrue result ↔ (rows.now ≢ []) }
{
    !rows.is_empty()
}

/// The numbers of an event are far below the greatest that a column can hold. The function does nothing.
fn has_small_numbers(event: &Event)
    ensures day { event.now.day < 2 ^ 63 }
    ensures trans { (n : ℕ) → event.now.trans ≡ Some n → n < 2 ^ 63 }
    ensures moment { (n : ℕ) → event.now.moment ≡ Some n → n < 2 ^ 63 }
{
    // For the proof: a day's number is at most that of the last day.
    let _ = event.day().number();
    is_small_letter(event.trans());
    is_small_moment(event.moment());
}

/// The number of a moment is far below the greatest that a column can hold.
fn is_small_moment(moment: Option<Moment>)
    ensures { (n : ℕ) → moment ≡ Some n → n < 2 ^ 63 }
{
    if let Some(moment) = moment {
        // For the proof: the seconds of a moment are below those of all possible days.
        let _ = moment.seconds();
    }
}

/// The number of a letter is far below the greatest that a column can hold.
fn is_small_letter(code: Option<TransCode>)
    ensures { (n : ℕ) → code ≡ Some n → n < 2 ^ 63 }
{
    if let Some(code) = code {
        // For the proof: the letter is an ASCII one.
        let _ = code.letter();
    }
}
