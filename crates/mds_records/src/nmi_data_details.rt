//! The 200 record, the NMI data details.

ghost use Rattle.std.specs.Prelude.{◌≡◌, ℕ, Some, None, MatchResult};
ghost use Rattle.mds_lines.specs.declared.line.Kind.{Kind};
ghost use Rattle.mds_records.specs.declared.header_name.HeaderName.{HeaderName};
ghost use Rattle.mds_records.specs.FieldFaults.{field_fault};
ghost use Rattle.mds_records.specs.RecordSteps.{HasDetailsFields};
ghost use Rattle.mds_records.specs.Records.{IsNmiDataDetails};

use crate::fault::{FieldFault, first_fault, has_right_count};
use crate::term::optional_day;
use mds_lines::next_field;
use mds_quantity::Unit;
use mds_terms::{DetailsRef, Length, Nmi, PrintableText, Stream, Suffix};

/// A 200 record, which describes the 300 records after it.
#[derive(Clone, Copy)]
pub struct NmiDataDetailsRecord<'a> {
    pub stream: Stream,
    pub unit: Unit,
    pub length: Length,
    pub details: DetailsRef<'a>,
}

/// The fields of a 200 record, valid or not.
#[derive(Clone, Copy)]
struct DetailsFields<'a> {
    nmi: &'a [u8],
    configuration: &'a [u8],
    register: &'a [u8],
    suffix: &'a [u8],
    datastream: &'a [u8],
    meter: &'a [u8],
    unit: &'a [u8],
    length: &'a [u8],
    next: &'a [u8],
    /// Whether there are enough fields, and all past the last are empty (L4).
    is_whole: bool,
}

/// Reads a 200 record, or returns its first fault (L4, L5).
#[inline(always)]
pub fn read_nmi_data_details(text: &[u8]) -> Result<NmiDataDetailsRecord<'_>, FieldFault>
    ensures { (file : HeaderName) (n : ℕ) → MatchResult result
        (λ r. (field_fault file Kind.NmiDataDetails n text.now ≡ None) × IsNmiDataDetails text.now r)
        (λ fault. field_fault file Kind.NmiDataDetails n text.now ≡ Some fault) }
{
    let fields = split_details(text);
    let nmi = Nmi::read(fields.nmi);
    let configuration = PrintableText::read(fields.configuration);
    let register = PrintableText::read(fields.register);
    let suffix = Suffix::read(fields.suffix);
    let datastream = PrintableText::read(fields.datastream);
    let meter = PrintableText::read(fields.meter);
    let unit = Unit::read(fields.unit);
    let length = Length::read(fields.length);
    let next = optional_day(fields.next);
    // decides: L5: a field isn't what its layout says
    let good = [
        nmi.is_some(),
        configuration.is_some(),
        register.is_some(),
        suffix.is_some(),
        datastream.is_some(),
        meter.is_some(),
        unit.is_some(),
        length.is_some(),
        next.is_some(),
    ];
    first_fault(false, fields.is_whole, &good)?;
    let (nmi, suffix) = (nmi.unwrap(), suffix.unwrap());
    Ok(NmiDataDetailsRecord {
        stream: Stream { nmi, suffix },
        unit: unit.unwrap(),
        length: length.unwrap(),
        details: DetailsRef {
            configuration: configuration.unwrap(),
            register: register.unwrap(),
            datastream: datastream.unwrap(),
            meter: meter.unwrap(),
            next: next.unwrap(),
        },
    })
}

/// The fields of a 200 record, valid or not.
fn split_details(text: &[u8]) -> DetailsFields<'_>
    ensures { HasDetailsFields text.now result }
{
    let (_, rest) = next_field(Some(text));
    let (nmi, rest) = next_field(rest);
    let (configuration, rest) = next_field(rest);
    let (register, rest) = next_field(rest);
    let (suffix, rest) = next_field(rest);
    let (datastream, rest) = next_field(rest);
    let (meter, rest) = next_field(rest);
    let (unit, rest) = next_field(rest);
    let has_least = rest.is_some();
    let (length, rest) = next_field(rest);
    let (next, rest) = next_field(rest);
    DetailsFields {
        nmi,
        configuration,
        register,
        suffix,
        datastream,
        meter,
        unit,
        length,
        next,
        is_whole: has_right_count(has_least, rest),
    }
}
