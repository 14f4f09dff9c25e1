//! An event with borrowed texts.

ghost use Rattle.std.specs.Prelude.{◌≡◌, ◌<◌, ◌+◌, true, IfSome, IfOk, OnErr, length, option_map};
ghost use Rattle.mds_terms.specs.Event.{is_trans};

use crate::event::{Event, own_event};
use crate::parts::{read_optional_moment, read_optional_trans};
use crate::printable::PrintableText;
use crate::trans_code::TransCode;
use mds_calendar::{Day, Moment};
use mds_names::{Nmi, Suffix};
use std::alloc::{AllocError, Global};

/// An event with borrowed texts.
#[derive(Clone, Copy)]
pub struct EventRef<'a> {
    /// The NMI of the stream.
    pub nmi: Nmi,
    /// The suffix of the stream.
    pub suffix: Suffix,
    /// The day.
    pub day: Day,
    /// The transaction code (TransCode), if present.
    pub trans: Option<TransCode>,
    /// The service order (RetServiceOrder), empty if absent.
    pub ticket: PrintableText<'a>,
    /// The moment of the read (ReadDateTime), if present.
    pub moment: Option<Moment>,
    /// The index read (IndexRead), empty if absent.
    pub reading: PrintableText<'a>,
}

impl<'a> EventRef<'a> {
    ghost use Rattle.mds_terms.specs.Event.{event_of, is_event};
    ghost use Rattle.mds_terms.specs.BorrowedTexts.{event_in, text_of};

    /// Reads an event from seven texts. The first three are an NMI, a suffix and a day (CCYYMMDD). The others are a
    /// capital letter, a printable text, a moment (CCYYMMDDhhmmss) and a printable text, each empty if absent. `None`
    /// if one of them isn't valid. Takes no memory.
    #[tactic(auto, unfolding(crate::specs::Event::event_of))]
    pub fn read(
        nmi: &[u8],
        suffix: &[u8],
        day: &[u8],
        trans: &[u8],
        ticket: &'a [u8],
        moment: &[u8],
        reading: &'a [u8],
    ) -> Option<EventRef<'a>>
        ensures lawful { IfSome result (λ event. is_event (event_in event) ≡ true) }
        ensures texts { IfSome result (λ event. (text_of event.ticket ≡ ticket.now)
            × (text_of event.reading ≡ reading.now)) }
        ensures value { option_map event_in result
            ≡ event_of nmi.now suffix.now day.now trans.now ticket.now moment.now reading.now }
    {
        Some(EventRef {
            nmi: Nmi::read(nmi)?,
            suffix: Suffix::read(suffix)?,
            day: Day::read(day)?,
            trans: read_optional_trans(trans)?,
            moment: read_optional_moment(moment)?,
            ticket: PrintableText::read(ticket)?,
            reading: PrintableText::read(reading)?,
        })
    }

    /// A copy of the event with its own texts. It fails only if memory is refused, and never if the service order and
    /// the index read are empty.
    pub fn to_event(&self, alloc: Global) -> Result<Event, AllocError>
        ensures value { IfOk result (λ event. event ≡ event_in self.now) }
        ensures full { OnErr result (0 < length (text_of self.now.ticket) + length (text_of self.now.reading)) }
    {
        own_event(alloc, self)
    }

    /// A law: the parts of every borrowed event are lawful. The function does nothing.
    pub(crate) fn parts_are_lawful(&self)
        ensures { is_event (event_in self.now) ≡ true }
    {
        let _ = self.nmi.text();
        let _ = self.suffix.text();
        code_is_lawful(&self.trans);
        let _ = self.ticket.text();
        let _ = self.reading.text();
    }
}

/// A law: an optional transaction code is absent or lawful. The function does nothing.
fn code_is_lawful(trans: &Option<TransCode>)
    ensures { is_trans trans.now ≡ true }
{
    if let Some(code) = trans {
        let _ = code.letter();
    }
}
