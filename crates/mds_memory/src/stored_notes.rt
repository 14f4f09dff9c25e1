//! The events and holidays that are kept in memory.

ghost use Rattle.std.specs.Prelude.{◌≡◌, ◌↔◌, ◌⊎◌, ◌++◌, IsTrue, IfNone, IfOk, IfSome, OnOk, OnErr, ℕ, map};
ghost use Rattle.std.specs.FinSet as set;
ghost use Rattle.mds_world.specs.Facts.Fact.{EventIs, HolidayIs};
ghost use Rattle.mds_world.specs.Lists.{Apart, Member};
ghost use Rattle.mds_world.specs.Sets.{◌∈◌};
ghost use Rattle.mds_world.specs.World.{IsEventOf, union};
ghost use Rattle.mds_keeper.specs.Queries.{AreEventsOf, AreHolidays};
ghost use Rattle.mds_memory.specs.Stored.{note_fact, notes_world};
ghost use Rattle.mds_memory.specs.StoredNotes.{IsAtEnd, IsEventNoteOf, PutsLast, first_of_day};
ghost use Rattle.mds_memory.specs.declared.stored_notes.Note.{Note as ANote};
ghost use Rattle.mds_memory.specs.declared.stored_notes.Note.TheVariants.{Event as EventNote, Holiday as HolidayNote};

use mds_terms::{Day, Event, EventRef, PrintableText, Stream};
use std::alloc::{AllocError, Global};
use std::collections::BTreeSet;

/// What is kept besides days, jobs and accumulations.
#[derive(PartialEq, Eq, PartialOrd, Ord, Drop)]
pub(crate) enum Note {
    Event(Event),
    Holiday(Day),
}

impl Note {
    /// A copy of the note.
    fn try_clone(&self) -> Result<Note, AllocError>
        ensures { IfOk result (λ note. note ≡ self.now) }
    {
        match self {
            Note::Event(event) => Ok(Note::Event(event.try_clone()?)),
            Note::Holiday(day) => Ok(Note::Holiday(*day)),
        }
    }

    /// Its event, if it is one of this day.
    fn event_of(&self, stream: &Stream, day: Day) -> Option<&Event>
        ensures some { IfSome result (λ event. (self.now ≡ EventNote event.now) × IsEventOf stream.now day event.now) }
        ensures none { IfNone result (IsEventNoteOf stream.now day self.now → ⊥) }
    {
        match self {
            Note::Event(event)
                if event.nmi() == stream.nmi
                    && event.suffix() == stream.suffix
                    && event.day() == day => { Some(event) }
            _ => None,
        }
    }
}

/// Events and holidays as notes.
pub(crate) fn notes_of(
    alloc: Global,
    events: Vec<Event>,
    holidays: Vec<Day>,
) -> Result<Vec<Note>, AllocError>
    ensures { IfOk result (λ notes. map note_fact notes.items ≡ map EventIs events.items ++ map HolidayIs holidays.items) }
{
    let count = events.len().saturating_add(holidays.len());
    let mut notes = Vec::with_capacity(alloc, count)?;
    for event in events {
        notes.push(Note::Event(event))?;
    }
    for day in holidays {
        notes.push(Note::Holiday(day))?;
    }
    Ok(notes)
}

/// Adds notes that aren't there yet: all of them, or none if there is no memory.
pub(crate) fn insert_notes(notes: &mut BTreeSet<Note>, more: &[Note]) -> Result<(), AllocError>
    requires apart { Apart (map note_fact more.now) }
    requires absent { (note : ANote) → Member note more.now → note_fact note ∈ notes_world notes.old → ⊥ }
    ensures ok { OnOk result
        (notes_world notes.new ≡ union (notes_world notes.old) (set.from_list (map note_fact more.now))) }
    ensures err { OnErr result (notes_world notes.new ≡ notes_world notes.old) }
{
    for i in 0..more.len() {
        let Ok(_) = insert_copy(notes, &more[i]) else {
            take_out(notes, &more[..i]);
            return Err(AllocError);
        };
    }
    Ok(())
}

/// Inserts a copy of a note, or changes nothing.
fn insert_copy(notes: &mut BTreeSet<Note>, note: &Note) -> Result<(), AllocError>
    ensures ok { OnOk result ((q : ANote) → Member q notes.new.keys ↔ (Member q notes.old.keys ⊎ (q ≡ note.now))) }
    ensures err { OnErr result (notes.new.keys ≡ notes.old.keys) }
{
    let copy = note.try_clone()?;
    notes.insert(copy)?;
    Ok(())
}

/// Removes notes, which needs no memory.
pub(crate) fn take_out(notes: &mut BTreeSet<Note>, some: &[Note])
    ensures { (q : ANote) → Member q notes.new.keys ↔ (Member q notes.old.keys × (Member q some.now → ⊥)) }
{
    for note in some {
        notes.remove(note);
    }
}

/// The events of a day, each once.
pub(crate) fn events_of(
    alloc: Global,
    notes: &BTreeSet<Note>,
    stream: Stream,
    day: Day,
) -> Result<Vec<Event>, AllocError>
    ensures { IfOk result (λ events. AreEventsOf (notes_world notes.now) stream day events.items) }
{
    let mut events = Vec::new(alloc);
    for note in notes.range(first_event(alloc, &stream, day)..) {
        let Some(event) = note.event_of(&stream, day) else {
            break;
        };
        events.push(event.try_clone()?)?;
    }
    Ok(events)
}

/// A note that sorts before all events of a day. It takes no memory.
fn first_event(alloc: Global, stream: &Stream, day: Day) -> Note
    ensures { result ≡ EventNote (first_of_day stream.now day) }
{
    let event = EventRef {
        nmi: stream.nmi,
        suffix: stream.suffix,
        day,
        trans: None,
        ticket: PrintableText::read(b"").unwrap(),
        moment: None,
        reading: PrintableText::read(b"").unwrap(),
    };
    Note::Event(event.to_event(alloc).unwrap())
}

/// Whether the event is among the notes.
pub(crate) fn has_event(notes: &BTreeSet<Note>, event: &Event) -> Result<bool, AllocError>
    ensures { IfOk result (λ has. IsTrue has ↔ (EventIs event.now ∈ notes_world notes.now)) }
{
    let note = Note::Event(event.try_clone()?);
    Ok(has_note(notes, &note))
}

/// Whether the note is one of them.
fn has_note(notes: &BTreeSet<Note>, note: &Note) -> bool
    ensures { IsTrue result ↔ (note_fact note.now ∈ notes_world notes.now) }
{
    notes.contains(note)
}

/// The holidays, ascending, each once.
pub(crate) fn holidays_of(alloc: Global, notes: &BTreeSet<Note>) -> Result<Vec<Day>, AllocError>
    ensures { IfOk result (λ days. AreHolidays (notes_world notes.now) days.items) }
{
    let mut days = Vec::new(alloc);
    for note in notes.range(first_holiday()..) {
        let Note::Holiday(day) = note else {
            break;
        };
        days.push(*day)?;
    }
    Ok(days)
}

/// The note of a holiday that sorts before all others.
fn first_holiday() -> Note
    ensures { result ≡ HolidayNote 0 }
{
    Note::Holiday(Day::from_number(0).unwrap())
}

/// Appends a stream, unless it is the last one already.
pub(crate) fn push_new(streams: &mut Vec<Stream>, stream: &Stream) -> Result<(), AllocError>
    ensures { OnOk result (PutsLast stream.now streams.old.items streams.new.items) }
{
    if is_last(streams, stream) {
        return Ok(());
    }
    streams.push(*stream)?;
    Ok(())
}

/// Whether the stream is the last one.
fn is_last(streams: &[Stream], stream: &Stream) -> bool
    ensures { IsTrue result ↔ IsAtEnd stream.now streams.now }
{
    match streams.last() {
        Some(last) => *last == *stream,
        None => false,
    }
}
