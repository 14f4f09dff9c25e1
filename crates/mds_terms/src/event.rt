//! What happened to a stream on a day.

ghost use Rattle.std.specs.Prelude.{◌≡◌, ◌<◌, ◌+◌, ◌↔◌, ℕ, List, [], ◌∷◌, length, IsTrue, true, IfOk, IsSome, OnOk, OnErr, Some, string_bytes, string_capacity, string_len, refl};
ghost use Rattle.std.specs.Cmp.{eq_by_cmp_equiv, partial_equiv_from_equiv, partial_order_from_total};
ghost use Rattle.std.specs.List.{slice_split};
ghost use Rattle.std.specs.Ordering.{as_partial_cmp, eq_by_cmp};
ghost use Rattle.mds_quantity.specs.Append.{Appends, AppendsPart};
ghost use Rattle.mds_names.specs.Names.{is_comma};
ghost use Rattle.mds_terms.specs.Event.{EventValue, is_event, event_cmp, event_of, trans_text as text_of_trans, IsEventText};
ghost use Rattle.mds_terms.specs.BorrowedTexts.{event_in, text_of};
ghost use Rattle.mds_terms.specs.TermOrder.{event_total};

use crate::event_ref::EventRef;
use crate::parts::{
    day_digits, day_text, moment_digits, moment_text, own_text, trans_letter, trans_text,
    write_joined,
};
use crate::trans_code::TransCode;
use mds_calendar::{Day, Moment, one_day_text, one_moment_text};
use mds_names::{Nmi, Stream, Suffix};
use std::alloc::{AllocError, Global};
use std::cmp::Ordering;
use std::marker::Model;

/// What happened to a stream on a day, as stated by a 500 record: a transaction, a service order, and what was read
/// when. Each of these may be absent. Events are ordered field by field, texts by their bytes. An absent field comes
/// first.
#[derive(Drop)]
pub struct Event {
    stream: Stream,
    on: Day,
    code: Option<TransCode>,
    ticket: String,
    read_at: Option<Moment>,
    reading: String,
}

impl Model for Event {
    ghost use Rattle.std.specs.Prelude.{◌≡◌, true, string_bytes};
    ghost use Rattle.mds_terms.specs.Event.{EventValue, is_event};

    ghost Value = { EventValue };

    ghost view = { λ e. record {
      nmi = e.stream.nmi;
      suffix = e.stream.suffix;
      day = e.on;
      trans = e.code;
      ticket = string_bytes e.ticket;
      moment = e.read_at;
      reading = string_bytes e.reading;
    } };

    ghost invariant = { λ e. is_event (record {
      nmi = e.stream.nmi;
      suffix = e.stream.suffix;
      day = e.on;
      trans = e.code;
      ticket = string_bytes e.ticket;
      moment = e.read_at;
      reading = string_bytes e.reading;
    }) ≡ true };
}

impl Event {
    /// Reads an event from seven texts. The first three are an NMI, a suffix and a day (CCYYMMDD). The others are a
    /// capital letter, a printable text, a moment (CCYYMMDDhhmmss) and a printable text, each empty if absent. `None`
    /// if one of them isn't valid. Takes memory only for an event with a text: none if the service order and the index
    /// read are empty.
    pub fn read(
        alloc: Global,
        nmi: &[u8],
        suffix: &[u8],
        day: &[u8],
        trans: &[u8],
        ticket: &[u8],
        moment: &[u8],
        reading: &[u8],
    ) -> Result<Option<Event>, AllocError>
        ensures value { IfOk result (λ event. event
            ≡ event_of nmi.now suffix.now day.now trans.now ticket.now moment.now reading.now) }
        ensures full { OnErr result (0 < length ticket.now + length reading.now) }
        ensures reads { OnErr result
            (IsSome (event_of nmi.now suffix.now day.now trans.now ticket.now moment.now reading.now)) }
    {
        match EventRef::read(nmi, suffix, day, trans, ticket, moment, reading) {
            Some(event) => Ok(Some(event.to_event(alloc)?)),
            None => Ok(None),
        }
    }

    /// The NMI of the stream.
    pub fn nmi(&self) -> Nmi
        ensures value { result ≡ self.now.nmi }
        ensures lawful { is_event self.now ≡ true }
    {
        self.stream.nmi
    }

    /// The suffix of the stream.
    pub fn suffix(&self) -> Suffix
        ensures { result ≡ self.now.suffix }
    {
        self.stream.suffix
    }

    /// The day.
    pub fn day(&self) -> Day
        ensures { result ≡ self.now.day }
    {
        self.on
    }

    /// The transaction code (TransCode), if present.
    pub fn trans(&self) -> Option<TransCode>
        ensures { result ≡ self.now.trans }
    {
        self.code
    }

    /// The service order (RetServiceOrder), empty if absent.
    pub fn ticket(&self) -> &str
        ensures { result.now ≡ self.now.ticket }
    {
        self.ticket.as_str()
    }

    /// The moment of the read (ReadDateTime), if present.
    pub fn moment(&self) -> Option<Moment>
        ensures { result ≡ self.now.moment }
    {
        self.read_at
    }

    /// The index read (IndexRead), empty if absent.
    pub fn reading(&self) -> &str
        ensures { result.now ≡ self.now.reading }
    {
        self.reading.as_str()
    }

    /// Appends its one text, the seven parts joined by commas, such as `NEM1201009,E1,20240102,O,,20240102000000,15.5`
    /// (`events_read_back`). It fails only if `out` has no room for all of it and can't grow. A prefix of it may be
    /// appended then.
    pub fn write_to(&self, out: &mut String) -> Result<(), AllocError>
        ensures done { OnOk result ((text : List ℕ) × IsEventText self.now text
            × Appends (string_bytes out.old) (string_bytes out.new) text) }
        ensures part { OnErr result ((text : List ℕ) × IsEventText self.now text
            × AppendsPart (string_bytes out.old) (string_bytes out.new) text
            × (string_capacity out.old < string_len out.old + length text)) }
    {
        let Event {
            stream,
            on: day,
            code,
            ticket,
            read_at,
            reading,
        } = self;
        let day_digits = day_digits(Some(*day));
        let moment_digits = moment_digits(*read_at);
        let letter = trans_letter(*code);
        write_joined(
            out,
            &[
                stream.nmi.text(),
                stream.suffix.text(),
                day_text(Some(*day), &day_digits),
                trans_text(*code, &letter),
                ticket.as_str(),
                moment_text(*read_at, &moment_digits),
                reading.as_str(),
            ],
        )
    }

    /// A copy of the event. It fails only if memory is refused, and never if the service order and the index read are
    /// empty.
    pub fn try_clone(&self) -> Result<Event, AllocError>
        ensures value { IfOk result (λ event. event ≡ self.now) }
        ensures full { OnErr result (0 < length self.now.ticket + length self.now.reading) }
    {
        let alloc = *self.ticket.allocator();
        Ok(Event {
            stream: self.stream,
            on: self.day(),
            code: self.trans(),
            ticket: own_text(alloc, self.ticket())?,
            read_at: self.moment(),
            reading: own_text(alloc, self.reading())?,
        })
    }

    /// Whether both are equal.
    #[tactic(auto, using(crate::proofs::TermOrder::event_decided))]
    pub fn is_same(&self, other: &Event) -> bool
        ensures { IsTrue result ↔ (self.now ≡ other.now) }
    {
        self.cmp(other).is_eq()
    }

    /// A law: events are equal exactly if all fields are, and they are ordered field by field.
    #[tactic(auto, using(crate::proofs::TermOrder::event_decided))]
    pub fn one_order()
        ensures equal { (a b : EventValue) → IsTrue (⟦<Event as PartialEq>⟧.eq a b) ↔ (a ≡ b) }
        ensures order { (a b : EventValue) → ⟦<Event as Ord>⟧.cmp a b ≡ event_cmp a b }
    {}
}

impl PartialEq for Event {
    ghost eq = { eq_by_cmp event_cmp };

    ghost laws = { partial_equiv_from_equiv (eq_by_cmp_equiv event_total) };

    #[tactic(auto, using(crate::proofs::TermOrder::event_decided))]
    fn eq(&self, other: &Event) -> bool {
        self.is_same(other)
    }
}

impl Eq for Event {
    ghost laws = { eq_by_cmp_equiv event_total };
}

impl PartialOrd for Event {
    ghost partial_cmp = { as_partial_cmp event_cmp };

    ghost laws = { partial_order_from_total event_total };

    fn partial_cmp(&self, other: &Event) -> Option<Ordering> {
        Some(self.cmp(other))
    }
}

impl Ord for Event {
    ghost cmp = { event_cmp };

    ghost total = { event_total };

    ghost matches_partial_cmp = { λ _ _. refl };

    ghost matches_eq = { λ _ _. refl };

    fn cmp(&self, other: &Event) -> Ordering {
        self.nmi()
            .cmp(&other.nmi())
            .then(self.suffix().cmp(&other.suffix()))
            .then(self.day().cmp(&other.day()))
            .then(self.trans().cmp(&other.trans()))
            .then(self.ticket().cmp(other.ticket()))
            .then(self.moment().cmp(&other.moment()))
            .then(self.reading().cmp(other.reading()))
    }
}

/// The laws of the text of an event. The pieces between its commas read back as this event, and an event has only one
/// text.
pub fn events_read_back()
    ensures pieces { (event : EventValue) (text : List ℕ) → is_event event ≡ true → IsEventText event text
        → (day : List ℕ) × (moment : List ℕ) × (slice_split is_comma text ≡ event.nmi ∷ event.suffix ∷ day
        ∷ text_of_trans event.trans ∷ event.ticket ∷ moment ∷ event.reading ∷ [])
        × (event_of event.nmi event.suffix day (text_of_trans event.trans) event.ticket moment event.reading
        ≡ Some event) }
    ensures only { (event : EventValue) (a b : List ℕ) → IsEventText event a → IsEventText event b → a ≡ b }
{
    one_day_text();
    one_moment_text();
}

/// The event with its own copies of the texts. Empty ones take no memory.
pub(crate) fn own_event(alloc: Global, event: &EventRef<'_>) -> Result<Event, AllocError>
    ensures value { IfOk result (λ own. own ≡ event_in event.now) }
    ensures full { OnErr result (0 < length (text_of event.now.ticket) + length (text_of event.now.reading)) }
{
    event.parts_are_lawful();
    Ok(Event {
        stream: Stream {
            nmi: event.nmi,
            suffix: event.suffix,
        },
        on: event.day,
        code: event.trans,
        ticket: own_text(alloc, event.ticket.text())?,
        read_at: event.moment,
        reading: own_text(alloc, event.reading.text())?,
    })
}
