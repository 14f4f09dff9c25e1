//! The records of MDFF files, each field read once into its term.

ghost use Rattle.std.specs.Prelude.{◌≡◌, ◌≢◌, ℕ, Ok, Some, None, IsSome, IfOk, OnOk, MatchResult, map};
ghost use Rattle.mds_lines.specs.Kinds.{kind_of};
ghost use Rattle.mds_lines.specs.Numbered.{text_of};
ghost use Rattle.mds_records.specs.declared.header_name.HeaderName.{HeaderName as AHeaderName};
ghost use Rattle.mds_records.specs.FieldFaults.{field_fault};
ghost use Rattle.mds_records.specs.Layouts.{header_name};
ghost use Rattle.mds_records.specs.Records.{GoesWith, Spells, quantity_in, value_count, values_of};

use crate::accumulation_b2b_details::{
    AccumulationB2bDetailsRecord, read_accumulation_b2b_details,
};
use crate::accumulation_data::{AccumulationDataRecord, read_accumulation_data};
use crate::b2b_details::{B2bDetailsRecord, read_b2b_details};
use crate::fault::{FieldFault, first_fault};
use crate::file::FileKind;
use crate::header::{HeaderRecord, read_header};
use crate::interval_data::{IntervalDataRecord, read_interval_data};
use crate::interval_event::{IntervalEventRecord, read_interval_event};
use crate::interval_values::IntervalValues;
use crate::nmi_data_details::{NmiDataDetailsRecord, read_nmi_data_details};
use mds_lines::{Kind, Line, is_blank_from, next_field};
use mds_terms::Length;

/// A record, by its kind.
#[derive(Clone, Copy)]
pub enum Record<'a> {
    Header(HeaderRecord<'a>),
    NmiDataDetails(NmiDataDetailsRecord<'a>),
    AccumulationData(AccumulationDataRecord<'a>),
    IntervalData(IntervalDataRecord<'a>),
    IntervalEvent(IntervalEventRecord<'a>),
    B2bDetails(B2bDetailsRecord<'a>),
    AccumulationB2bDetails(AccumulationB2bDetailsRecord<'a>),
    EndOfData,
}

/// Reads the record in a line of a known kind, or returns its first fault (L11, L4, L5). For a 300,
/// `length` is that of its governing 200, and its values are left in `values`. If it has a fault,
/// any values may be left. The other kinds leave `values` unchanged. Takes no memory.
pub fn read_record<'a>(
    line: &Line<'a>,
    kind: Kind,
    file: FileKind,
    length: Option<Length>,
    values: &mut IntervalValues,
) -> Result<Record<'a>, FieldFault>
    requires known { kind_of (text_of line.now) ≡ Ok kind }
    requires length { kind ≡ Kind.IntervalData → IsSome length }
    ensures spells { MatchResult result
        (λ r. (field_fault (header_name file) kind (value_count length) (text_of line.now) ≡ None)
        × Spells kind (value_count length) (text_of line.now) r)
        (λ fault. field_fault (header_name file) kind (value_count length) (text_of line.now) ≡ Some fault) }
    ensures held { kind ≡ Kind.IntervalData
        → OnOk result (values.new ≡ map quantity_in (values_of (value_count length) (text_of line.now))) }
    ensures kept { kind ≢ Kind.IntervalData → values.new ≡ values.old }
    ensures valued { IfOk result (λ r. GoesWith values.new r) }
{
    let text = line.text();
    match kind {
        Kind::Header => match read_header(text, file.header_name()) {
            Ok(header) => Ok(Record::Header(header)),
            Err(fault) => Err(fault),
        },
        Kind::NmiDataDetails => match read_nmi_data_details(text) {
            Ok(details) => Ok(Record::NmiDataDetails(details)),
            Err(fault) => Err(fault),
        },
        Kind::AccumulationData => match read_accumulation_data(text) {
            Ok(period) => Ok(Record::AccumulationData(period)),
            Err(fault) => Err(fault),
        },
        Kind::IntervalData => match length {
            Some(length) => match read_interval_data(text, length.count(), values) {
                Ok(day) => Ok(Record::IntervalData(day)),
                Err(fault) => Err(fault),
            },
            None => unreachable!(),
        },
        Kind::IntervalEvent => match read_interval_event(text) {
            Ok(event) => Ok(Record::IntervalEvent(event)),
            Err(fault) => Err(fault),
        },
        Kind::B2bDetails => match read_b2b_details(text) {
            Ok(details) => Ok(Record::B2bDetails(details)),
            Err(fault) => Err(fault),
        },
        Kind::AccumulationB2bDetails => match read_accumulation_b2b_details(text) {
            Ok(details) => Ok(Record::AccumulationB2bDetails(details)),
            Err(fault) => Err(fault),
        },
        Kind::EndOfData => {
            read_end(text)?;
            Ok(Record::EndOfData)
        }
    }
}

/// Reads the text of a 900 record, which states nothing. It may have a wrong number of fields (L4).
pub fn read_end(text: &[u8]) -> Result<(), FieldFault>
    ensures { (file : AHeaderName) (n : ℕ) → MatchResult result
        (λ _. field_fault file Kind.EndOfData n text.now ≡ None)
        (λ fault. field_fault file Kind.EndOfData n text.now ≡ Some fault) }
{
    let (_, rest) = next_field(Some(text));
    first_fault(false, is_blank_from(rest), &[])
}
