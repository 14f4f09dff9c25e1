//! The 500 record, the B2B details of the day before it.

ghost use Rattle.std.specs.Prelude.{◌≡◌, ℕ, Some, None, MatchResult};
ghost use Rattle.mds_lines.specs.declared.line.Kind.{Kind};
ghost use Rattle.mds_records.specs.declared.header_name.HeaderName.{HeaderName};
ghost use Rattle.mds_records.specs.FieldFaults.{field_fault};
ghost use Rattle.mds_records.specs.RecordSteps.{HasB2bFields};
ghost use Rattle.mds_records.specs.Records.{IsB2bDetails};

use crate::fault::{FieldFault, first_fault};
use crate::term::{optional_moment, optional_trans};
use mds_lines::{is_blank_from, next_field};
use mds_terms::{Moment, PrintableText, TransCode};

/// A 500 record: a transaction, a service order, and what was read when. Each of these may be
/// absent. An absent text is empty.
#[derive(Clone, Copy)]
pub struct B2bDetailsRecord<'a> {
    /// The transaction code (TransCode).
    pub trans: Option<TransCode>,
    /// The service order (RetServiceOrder).
    pub ticket: PrintableText<'a>,
    /// The moment of the read (ReadDateTime).
    pub moment: Option<Moment>,
    /// What the meter showed (IndexRead).
    pub reading: PrintableText<'a>,
}

/// The fields of a 500 record, valid or not.
#[derive(Clone, Copy)]
struct B2bFields<'a> {
    trans: &'a [u8],
    ticket: &'a [u8],
    moment: &'a [u8],
    reading: &'a [u8],
    /// Whether all fields past the last are empty (L4). Any of the fields may be left out at the
    /// end.
    is_whole: bool,
}

/// Reads a 500 record, or returns its first fault (L4, L5).
pub fn read_b2b_details(text: &[u8]) -> Result<B2bDetailsRecord<'_>, FieldFault>
    ensures { (file : HeaderName) (n : ℕ) → MatchResult result
        (λ r. (field_fault file Kind.B2bDetails n text.now ≡ None) × IsB2bDetails text.now r)
        (λ fault. field_fault file Kind.B2bDetails n text.now ≡ Some fault) }
{
    let fields = split_b2b_details(text);
    let trans = optional_trans(fields.trans);
    let ticket = PrintableText::read(fields.ticket);
    let moment = optional_moment(fields.moment);
    let reading = PrintableText::read(fields.reading);
    // decides: L5: a field isn't what its layout says
    let good = [
        trans.is_some(),
        ticket.is_some(),
        moment.is_some(),
        reading.is_some(),
    ];
    first_fault(false, fields.is_whole, &good)?;
    Ok(B2bDetailsRecord {
        trans: trans.unwrap(),
        ticket: ticket.unwrap(),
        moment: moment.unwrap(),
        reading: reading.unwrap(),
    })
}

/// The fields of a 500 record, valid or not.
fn split_b2b_details(text: &[u8]) -> B2bFields<'_>
    ensures { HasB2bFields text.now result }
{
    let (_, rest) = next_field(Some(text));
    let (trans, rest) = next_field(rest);
    let (ticket, rest) = next_field(rest);
    let (moment, rest) = next_field(rest);
    let (reading, rest) = next_field(rest);
    B2bFields {
        trans,
        ticket,
        moment,
        reading,
        is_whole: is_blank_from(rest),
    }
}
