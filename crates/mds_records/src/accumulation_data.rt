//! The 250 record, the accumulation data of a period.

ghost use Rattle.std.specs.Prelude.{◌≡◌, ℕ, List, drop, Some, None, MatchResult, option_copied, option_map};
ghost use Rattle.mds_lines.specs.Rest.{fields_left};
ghost use Rattle.mds_lines.specs.declared.line.Kind.{Kind};
ghost use Rattle.mds_records.specs.declared.fault.FieldFault.TheVariants.{Bad};
ghost use Rattle.mds_records.specs.declared.header_name.HeaderName.{HeaderName};
ghost use Rattle.mds_records.specs.FieldFaults.{field_fault};
ghost use Rattle.mds_records.specs.RecordSteps.{AreAmounts, AreMeter, HasAccumulationFields, HasMeterFields, accumulation_tests, amount_tests, first_false, meter_tests};
ghost use Rattle.mds_records.specs.Records.{IsAccumulationData};

use crate::direction::Direction;
use crate::fault::{FieldFault, first_bad, has_right_count};
use crate::register_read::{ReadFields, RegisterRead, read_register, split_read};
use crate::term::{optional_day, optional_moment};
use mds_lines::next_field;
use mds_quantity::{Quantity, Unit};
use mds_terms::{Day, Moment, Nmi, PrintableText, Stream, Suffix};

/// A 250 record: how much a register counted between two reads of it. The texts may be empty.
#[derive(Clone, Copy)]
pub struct AccumulationDataRecord<'a> {
    pub stream: Stream,
    pub configuration: PrintableText<'a>,
    pub register: PrintableText<'a>,
    pub datastream: PrintableText<'a>,
    pub meter: PrintableText<'a>,
    pub direction: Direction,
    pub previous: RegisterRead<'a>,
    pub current: RegisterRead<'a>,
    pub quantity: Quantity,
    pub unit: Unit,
    /// The next scheduled read, if the record states one.
    pub next: Option<Day>,
    /// When it was updated, if the record states it.
    pub update: Option<Moment>,
}

/// The fields of a 250 record, valid or not.
#[derive(Clone, Copy)]
struct AccumulationFields<'a> {
    meter: MeterFields<'a>,
    previous: ReadFields<'a>,
    current: ReadFields<'a>,
    quantity: &'a [u8],
    unit: &'a [u8],
    next: &'a [u8],
    update: &'a [u8],
    load: &'a [u8],
    /// Whether there are enough fields, and all past the last are empty (L4).
    is_whole: bool,
}

/// The fields of a 250 record before its reads, valid or not.
#[derive(Clone, Copy)]
struct MeterFields<'a> {
    nmi: &'a [u8],
    configuration: &'a [u8],
    register: &'a [u8],
    suffix: &'a [u8],
    datastream: &'a [u8],
    meter: &'a [u8],
    direction: &'a [u8],
}

/// The terms of a 250 record before its reads.
#[derive(Clone, Copy)]
struct MeterTerms<'a> {
    stream: Stream,
    configuration: PrintableText<'a>,
    register: PrintableText<'a>,
    datastream: PrintableText<'a>,
    meter: PrintableText<'a>,
    direction: Direction,
}

/// The terms of a 250 record after its reads.
#[derive(Clone, Copy)]
struct AmountTerms {
    quantity: Quantity,
    unit: Unit,
    next: Option<Day>,
    update: Option<Moment>,
}

/// Reads the text of a 250 record, or returns its first fault (L4, L5).
pub fn read_accumulation_data(text: &[u8]) -> Result<AccumulationDataRecord<'_>, FieldFault>
    ensures { (file : HeaderName) (n : ℕ) → MatchResult result
        (λ r. (field_fault file Kind.AccumulationData n text.now ≡ None) × IsAccumulationData text.now r)
        (λ fault. field_fault file Kind.AccumulationData n text.now ≡ Some fault) }
{
    let fields = split_accumulation_data(text);
    if !fields.is_whole {
        return Err(FieldFault::Count);
    }
    read_fields(&fields)
}

/// The fields of a 250 record, valid or not.
fn split_accumulation_data(text: &[u8]) -> AccumulationFields<'_>
    ensures { HasAccumulationFields text.now result }
{
    let (_, rest) = next_field(Some(text));
    let (meter, rest) = split_meter(rest);
    let (previous, rest) = split_read(rest);
    let (current, rest) = split_read(rest);
    let (quantity, rest) = next_field(rest);
    let has_least = rest.is_some();
    let (unit, rest) = next_field(rest);
    let (next, rest) = next_field(rest);
    let (update, rest) = next_field(rest);
    let (load, rest) = next_field(rest);
    AccumulationFields {
        meter,
        previous,
        current,
        quantity,
        unit,
        next,
        update,
        load,
        is_whole: has_right_count(has_least, rest),
    }
}

/// The fields before the reads, valid or not, and what is left after them.
fn split_meter(rest: Option<&[u8]>) -> (MeterFields<'_>, Option<&[u8]>)
    ensures fields { HasMeterFields (fields_left (option_copied rest.entry)) 0 result.0 }
    ensures left { fields_left (option_copied result.1) ≡ drop 7 (fields_left (option_copied rest.entry)) }
{
    let (nmi, rest) = next_field(rest);
    let (configuration, rest) = next_field(rest);
    let (register, rest) = next_field(rest);
    let (suffix, rest) = next_field(rest);
    let (datastream, rest) = next_field(rest);
    let (meter, rest) = next_field(rest);
    let (direction, rest) = next_field(rest);
    let fields = MeterFields {
        nmi,
        configuration,
        register,
        suffix,
        datastream,
        meter,
        direction,
    };
    (fields, rest)
}

/// Reads the record that these fields spell, or returns which field is the first bad one (L5).
fn read_fields<'a>(
    fields: &AccumulationFields<'a>,
) -> Result<AccumulationDataRecord<'a>, FieldFault>
    ensures { (line : List ℕ) → HasAccumulationFields line fields.now → MatchResult result
        (λ r. (first_false 2 (accumulation_tests fields.now) ≡ None) × IsAccumulationData line r)
        (λ fault. option_map Bad (first_false 2 (accumulation_tests fields.now)) ≡ Some fault) }
{
    let meter = match read_meter(&fields.meter) {
        Ok(meter) => meter,
        Err(fault) => return Err(fault),
    };
    let previous = match read_register(&fields.previous, 9, true) {
        Ok(previous) => previous,
        Err(fault) => return Err(fault),
    };
    let current = match read_register(&fields.current, 14, false) {
        Ok(current) => current,
        Err(fault) => return Err(fault),
    };
    let amount = match read_amount(fields) {
        Ok(amount) => amount,
        Err(fault) => return Err(fault),
    };
    Ok(AccumulationDataRecord {
        stream: meter.stream,
        configuration: meter.configuration,
        register: meter.register,
        datastream: meter.datastream,
        meter: meter.meter,
        direction: meter.direction,
        previous,
        current,
        quantity: amount.quantity,
        unit: amount.unit,
        next: amount.next,
        update: amount.update,
    })
}

/// Reads the terms that the fields before the reads spell, or returns which field is the first bad
/// one (L5).
fn read_meter<'a>(fields: &MeterFields<'a>) -> Result<MeterTerms<'a>, FieldFault>
    ensures { MatchResult result
        (λ terms. (first_false 2 (meter_tests fields.now) ≡ None) × AreMeter fields.now terms)
        (λ fault. option_map Bad (first_false 2 (meter_tests fields.now)) ≡ Some fault) }
{
    let nmi = Nmi::read(fields.nmi);
    let configuration = PrintableText::read(fields.configuration);
    let register = PrintableText::read(fields.register);
    let suffix = Suffix::read(fields.suffix);
    let datastream = PrintableText::read(fields.datastream);
    let meter = PrintableText::read(fields.meter);
    let direction = Direction::read(fields.direction);
    // decides: L5: a field isn't what its layout says
    let good = [
        nmi.is_some(),
        configuration.is_some(),
        register.is_some(),
        suffix.is_some(),
        datastream.is_some(),
        meter.is_some(),
        direction.is_some(),
    ];
    first_bad(2, &good)?;
    let (nmi, suffix) = (nmi.unwrap(), suffix.unwrap());
    Ok(MeterTerms {
        stream: Stream { nmi, suffix },
        configuration: configuration.unwrap(),
        register: register.unwrap(),
        datastream: datastream.unwrap(),
        meter: meter.unwrap(),
        direction: direction.unwrap(),
    })
}

/// Reads the terms that the fields after the reads spell, or returns which field is the first bad
/// one (L5).
fn read_amount(fields: &AccumulationFields<'_>) -> Result<AmountTerms, FieldFault>
    ensures { MatchResult result
        (λ terms. (first_false 19 (amount_tests fields.now) ≡ None) × AreAmounts fields.now terms)
        (λ fault. option_map Bad (first_false 19 (amount_tests fields.now)) ≡ Some fault) }
{
    let quantity = Quantity::read(fields.quantity);
    let unit = Unit::read(fields.unit);
    let next = optional_day(fields.next);
    let update = optional_moment(fields.update);
    // decides: L5: a field isn't what its layout says
    let good = [
        quantity.is_ok(),
        unit.is_some(),
        next.is_some(),
        update.is_some(),
        optional_moment(fields.load).is_some(),
    ];
    first_bad(19, &good)?;
    Ok(AmountTerms {
        quantity: quantity.unwrap(),
        unit: unit.unwrap(),
        next: next.unwrap(),
        update: update.unwrap(),
    })
}
