//! The details of a meter in a 200 record, borrowed from it.

ghost use Rattle.std.specs.Prelude.{◌≡◌, ◌<◌, ◌+◌, IfSome, IfOk, OnErr, length, option_map};

use crate::details::{Details, own_details};
use crate::parts::read_optional_day;
use crate::printable::PrintableText;
use mds_calendar::Day;
use std::alloc::{AllocError, Global};

/// The details of a meter in a 200 record, borrowed from the record. An absent text is empty.
#[derive(Clone, Copy)]
pub struct DetailsRef<'a> {
    /// The configuration of the NMI's datastreams (NMIConfiguration).
    pub configuration: PrintableText<'a>,
    /// The register of the meter (RegisterID).
    pub register: PrintableText<'a>,
    /// The datastream of the market's settlement (MDMDataStreamIdentifier).
    pub datastream: PrintableText<'a>,
    /// The serial number of the meter (MeterSerialNumber).
    pub meter: PrintableText<'a>,
    /// The next scheduled read date (NextScheduledReadDate).
    pub next: Option<Day>,
}

impl<'a> DetailsRef<'a> {
    ghost use Rattle.mds_terms.specs.BorrowedTexts.{text_of, details_in};
    ghost use Rattle.mds_terms.specs.Details.{details_of};

    /// Reads details from five texts: four printable ones, and one that is empty or a day (CCYYMMDD). `None` if one of
    /// them isn't valid.
    #[tactic(auto, unfolding(crate::specs::Details::details_of))]
    pub fn read(
        configuration: &'a [u8],
        register: &'a [u8],
        datastream: &'a [u8],
        meter: &'a [u8],
        next: &[u8],
    ) -> Option<DetailsRef<'a>>
        ensures texts { IfSome result (λ details. (text_of details.configuration ≡ configuration.now)
            × (text_of details.register ≡ register.now) × (text_of details.datastream ≡ datastream.now)
            × (text_of details.meter ≡ meter.now)) }
        ensures value { option_map details_in result
            ≡ details_of configuration.now register.now datastream.now meter.now next.now }
    {
        Some(DetailsRef {
            configuration: PrintableText::read(configuration)?,
            register: PrintableText::read(register)?,
            datastream: PrintableText::read(datastream)?,
            meter: PrintableText::read(meter)?,
            next: read_optional_day(next)?,
        })
    }

    /// A copy of the details with its own texts. It fails only if memory is refused, and never if all texts are empty.
    pub fn to_details(&self, alloc: Global) -> Result<Details, AllocError>
        ensures value { IfOk result (λ details. details ≡ details_in self.now) }
        ensures full { OnErr result (0 < length (text_of self.now.configuration) + length (text_of self.now.register)
            + length (text_of self.now.datastream) + length (text_of self.now.meter)) }
    {
        own_details(
            alloc,
            self.configuration.text(),
            self.register.text(),
            self.datastream.text(),
            self.meter.text(),
            self.next,
        )
    }
}
