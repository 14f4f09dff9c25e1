//! The 100 record, the header of a file.

ghost use Rattle.std.specs.Prelude.{◌≡◌, ℕ, Some, None, MatchResult, bytes_eq};
ghost use Rattle.mds_lines.specs.declared.line.Kind.{Kind};
ghost use Rattle.mds_records.specs.FieldFaults.{field_fault};
ghost use Rattle.mds_records.specs.Layouts.{file_name, other_file_name};
ghost use Rattle.mds_records.specs.RecordSteps.{HasHeaderFields};
ghost use Rattle.mds_records.specs.Records.{IsHeader};

use crate::fault::{FieldFault, first_fault, has_right_count};
use crate::header_name::HeaderName;
use mds_lines::next_field;
use mds_terms::{Moment, PrintableText};

/// A 100 record, the header of a file.
#[derive(Clone, Copy)]
pub struct HeaderRecord<'a> {
    pub moment: Moment,
    pub sender: PrintableText<'a>,
    pub receiver: PrintableText<'a>,
}

/// The fields of a header, valid or not.
#[derive(Clone, Copy)]
struct HeaderFields<'a> {
    name: &'a [u8],
    date_time: &'a [u8],
    sender: &'a [u8],
    receiver: &'a [u8],
    /// Whether there are enough fields, and all past the last are empty (L4).
    is_whole: bool,
}

/// Reads the text of a 100 record, the header of a file with this name, or returns its first fault
/// (L11, L4, L5).
pub fn read_header(text: &[u8], file: HeaderName) -> Result<HeaderRecord<'_>, FieldFault>
    ensures { (n : ℕ) → MatchResult result
        (λ r. (field_fault file Kind.Header n text.now ≡ None) × IsHeader text.now r)
        (λ fault. field_fault file Kind.Header n text.now ≡ Some fault) }
{
    let fields = split_header(text);
    let moment = Moment::read_date_time(fields.date_time);
    let sender = PrintableText::read(fields.sender);
    let receiver = PrintableText::read(fields.receiver);
    // decides: L5: a field isn't what its layout says
    let good = [
        is_name(file, fields.name),
        moment.is_some(),
        sender.is_some(),
        receiver.is_some(),
    ];
    first_fault(is_other_name(file, fields.name), fields.is_whole, &good)?;
    Ok(HeaderRecord {
        moment: moment.unwrap(),
        sender: sender.unwrap(),
        receiver: receiver.unwrap(),
    })
}

/// The fields of a header, valid or not.
fn split_header(text: &[u8]) -> HeaderFields<'_>
    ensures { HasHeaderFields text.now result }
{
    let (_, rest) = next_field(Some(text));
    let (name, rest) = next_field(rest);
    let has_least = rest.is_some();
    let (date_time, rest) = next_field(rest);
    let (sender, rest) = next_field(rest);
    let (receiver, rest) = next_field(rest);
    HeaderFields {
        name,
        date_time,
        sender,
        receiver,
        is_whole: has_right_count(has_least, rest),
    }
}

/// Whether a header's field names this kind of file.
fn is_name(file: HeaderName, name: &[u8]) -> bool
    ensures { result ≡ bytes_eq name.now (file_name file) }
{
    match file {
        HeaderName::Nem12 => name == b"NEM12".as_slice(),
        HeaderName::Nem13 => name == b"NEM13".as_slice(),
    }
}

/// Whether a header's field names the other kind of file (L11).
fn is_other_name(file: HeaderName, name: &[u8]) -> bool
    ensures { result ≡ bytes_eq name.now (other_file_name file) }
{
    // decides: L11: the header is that of the other kind of file
    match file {
        HeaderName::Nem12 => name == b"NEM13".as_slice(),
        HeaderName::Nem13 => name == b"NEM12".as_slice(),
    }
}
