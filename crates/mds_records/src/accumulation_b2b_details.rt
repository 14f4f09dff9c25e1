//! The 550 record, the B2B details of the accumulation data before it.

ghost use Rattle.std.specs.Prelude.{◌≡◌, ℕ, Some, None, MatchResult};
ghost use Rattle.mds_lines.specs.declared.line.Kind.{Kind};
ghost use Rattle.mds_records.specs.declared.header_name.HeaderName.{HeaderName};
ghost use Rattle.mds_records.specs.FieldFaults.{field_fault};
ghost use Rattle.mds_records.specs.RecordSteps.{HasAccumulationB2bFields};
ghost use Rattle.mds_records.specs.Records.{IsAccumulationB2bDetails};

use crate::fault::{FieldFault, first_fault};
use crate::term::optional_trans;
use mds_lines::{is_blank_from, next_field};
use mds_terms::{PrintableText, TransCode};

/// A 550 record: a transaction and a service order for the previous read, and for the current one.
/// Each of these may be absent. An absent text is empty.
#[derive(Clone, Copy)]
pub struct AccumulationB2bDetailsRecord<'a> {
    /// The transaction code of the previous read (PreviousTransCode).
    pub previous_trans: Option<TransCode>,
    /// Its service order (PreviousRetServiceOrder).
    pub previous_ticket: PrintableText<'a>,
    /// The transaction code of the current read (CurrentTransCode).
    pub current_trans: Option<TransCode>,
    /// Its service order (CurrentRetServiceOrder).
    pub current_ticket: PrintableText<'a>,
}

/// The fields of a 550 record, valid or not.
#[derive(Clone, Copy)]
struct AccumulationB2bFields<'a> {
    previous_trans: &'a [u8],
    previous_ticket: &'a [u8],
    current_trans: &'a [u8],
    current_ticket: &'a [u8],
    /// Whether all fields past the last are empty (L4). Any of the fields may be left out at the
    /// end.
    is_whole: bool,
}

/// Reads the text of a 550 record, or returns its first fault (L4, L5).
pub fn read_accumulation_b2b_details(
    text: &[u8],
) -> Result<AccumulationB2bDetailsRecord<'_>, FieldFault>
    ensures { (file : HeaderName) (n : ℕ) → MatchResult result
        (λ r. (field_fault file Kind.AccumulationB2bDetails n text.now ≡ None) × IsAccumulationB2bDetails text.now r)
        (λ fault. field_fault file Kind.AccumulationB2bDetails n text.now ≡ Some fault) }
{
    let fields = split_accumulation_b2b_details(text);
    let previous_trans = optional_trans(fields.previous_trans);
    let previous_ticket = PrintableText::read(fields.previous_ticket);
    let current_trans = optional_trans(fields.current_trans);
    let current_ticket = PrintableText::read(fields.current_ticket);
    // decides: L5: a field isn't what its layout says
    let good = [
        previous_trans.is_some(),
        previous_ticket.is_some(),
        current_trans.is_some(),
        current_ticket.is_some(),
    ];
    first_fault(false, fields.is_whole, &good)?;
    Ok(AccumulationB2bDetailsRecord {
        previous_trans: previous_trans.unwrap(),
        previous_ticket: previous_ticket.unwrap(),
        current_trans: current_trans.unwrap(),
        current_ticket: current_ticket.unwrap(),
    })
}

/// The fields of a 550 record, valid or not.
fn split_accumulation_b2b_details(text: &[u8]) -> AccumulationB2bFields<'_>
    ensures { HasAccumulationB2bFields text.now result }
{
    let (_, rest) = next_field(Some(text));
    let (previous_trans, rest) = next_field(rest);
    let (previous_ticket, rest) = next_field(rest);
    let (current_trans, rest) = next_field(rest);
    let (current_ticket, rest) = next_field(rest);
    AccumulationB2bFields {
        previous_trans,
        previous_ticket,
        current_trans,
        current_ticket,
        is_whole: is_blank_from(rest),
    }
}
