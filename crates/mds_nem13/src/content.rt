//! How the content of an accumulation is written: texts joined by commas.

ghost use Rattle.std.specs.Prelude.{◌≡◌, true, List, ℕ, [], ◌∷◌, Some, OnOk, unwrap_or, option_map, string_bytes};
ghost use Rattle.mds_calendar.specs.Calendar.{day_of, moment_of};
ghost use Rattle.mds_lines.specs.Lines.{line_feed};
ghost use Rattle.mds_marks.specs.Quality.{quality_text};
ghost use Rattle.mds_marks.specs.Reason.{code_text, is_code};
ghost use Rattle.mds_quantity.specs.Append.{Appends};
ghost use Rattle.mds_quantity.specs.Quantity.{denoted, written};
ghost use Rattle.mds_records.specs.Records.{IsAccumulationB2bDetails, IsAccumulationData, IsRegisterRead};
ghost use Rattle.mds_terms.specs.Event.{is_trans, trans_text};
ghost use Rattle.mds_terms.specs.Parts.{optional};
ghost use Rattle.mds_nem13.specs.BuilderSteps.{AppendsEach, AppendsLine, IsApart};
ghost use Rattle.mds_nem13.specs.Said.{amount_fields, kept_code, kept_fields, kept_quality, meter_fields, note_in};

use itoa::Buffer;
use mds_quantity::Quantity;
use mds_records::{AccumulationB2bDetailsRecord, AccumulationDataRecord, RegisterRead};
use mds_terms::{Day, Moment, Quality, TransCode};
use std::alloc::AllocError;
use std::str;

/// Appends the fields of a 250 record that are kept, joined by commas.
pub(crate) fn write_fields(
    period: &AccumulationDataRecord<'_>,
    out: &mut String,
) -> Result<(), AllocError>
    ensures { (line : List ℕ) → IsAccumulationData line period.now → OnOk result
        (AppendsLine [] (string_bytes out.old) (string_bytes out.new) (kept_fields line)) }
{
    out.push_str(period.configuration.text())?;
    write_meter(period, out)?;
    write_read(&period.previous, out)?;
    write_read(&period.current, out)?;
    write_amount(period, out)
}

/// Appends a line feed, and the texts of a 550 record, joined by commas.
pub(crate) fn write_note(
    note: &AccumulationB2bDetailsRecord<'_>,
    out: &mut String,
) -> Result<(), AllocError>
    ensures { (line : List ℕ) → IsAccumulationB2bDetails line note.now → OnOk result
        (AppendsLine (line_feed ∷ []) (string_bytes out.old) (string_bytes out.new) (note_in line)) }
{
    out.push('\n')?;
    write_trans(note.previous_trans, out)?;
    push_text(note.previous_ticket.text(), out)?;
    push_trans(note.current_trans, out)?;
    push_text(note.current_ticket.text(), out)
}

/// Appends the fields from the register to the direction, each after a comma.
fn write_meter(period: &AccumulationDataRecord<'_>, out: &mut String) -> Result<(), AllocError>
    ensures { (line : List ℕ) → IsAccumulationData line period.now → OnOk result
        (AppendsEach (string_bytes out.old) (string_bytes out.new) (meter_fields line)) }
{
    push_text(period.register.text(), out)?;
    push_text(period.stream.suffix.text(), out)?;
    push_text(period.datastream.text(), out)?;
    push_text(period.meter.text(), out)?;
    push_text(period.direction.text(), out)
}

/// Appends the fields of a read, each after a comma.
fn write_read(read: &RegisterRead<'_>, out: &mut String) -> Result<(), AllocError>
    ensures { (reading moment quality code text : List ℕ) → IsRegisterRead reading moment quality code text read.now
        → OnOk result (AppendsEach (string_bytes out.old) (string_bytes out.new)
        (reading ∷ moment ∷ kept_quality quality ∷ kept_code code ∷ text ∷ [])) }
{
    push_text(read.reading.text(), out)?;
    push_moment(read.moment, out)?;
    push_quality(read.quality, out)?;
    push_code(read.reason.code(), out)?;
    push_text(read.reason.text(), out)
}

/// Appends the fields from the quantity to the date of the next read, each after a comma.
fn write_amount(period: &AccumulationDataRecord<'_>, out: &mut String) -> Result<(), AllocError>
    ensures { (line : List ℕ) → IsAccumulationData line period.now → OnOk result
        (AppendsEach (string_bytes out.old) (string_bytes out.new) (amount_fields line)) }
{
    push_quantity(period.quantity, out)?;
    push_text(period.unit.text(), out)?;
    push_optional_day(period.next, out)
}

/// Appends a comma and a text.
fn push_text(text: &str, out: &mut String) -> Result<(), AllocError>
    ensures { IsApart text.now → OnOk result
        (AppendsEach (string_bytes out.old) (string_bytes out.new) (text.now ∷ [])) }
{
    out.push(',')?;
    out.push_str(text)
}

/// Appends a comma and a moment.
fn push_moment(moment: Moment, out: &mut String) -> Result<(), AllocError>
    ensures { (text : List ℕ) → moment_of text ≡ Some moment → OnOk result
        (AppendsEach (string_bytes out.old) (string_bytes out.new) (text ∷ [])) }
{
    out.push(',')?;
    moment.write_to(out)
}

/// Appends a comma and a day.
fn push_day(day: Day, out: &mut String) -> Result<(), AllocError>
    ensures { (text : List ℕ) → day_of text ≡ Some day → OnOk result
        (AppendsEach (string_bytes out.old) (string_bytes out.new) (text ∷ [])) }
{
    out.push(',')?;
    day.write_to(out)
}

/// Appends a comma and a day, if there is one.
fn push_optional_day(day: Option<Day>, out: &mut String) -> Result<(), AllocError>
    ensures { (text : List ℕ) → optional day_of text ≡ Some day → OnOk result
        (AppendsEach (string_bytes out.old) (string_bytes out.new) (text ∷ [])) }
{
    match day {
        Some(day) => push_day(day, out),
        None => push_text("", out),
    }
}

/// Appends a comma and a quality, if there is one.
fn push_quality(quality: Option<Quality>, out: &mut String) -> Result<(), AllocError>
    ensures { OnOk result (AppendsEach (string_bytes out.old) (string_bytes out.new)
        (unwrap_or (option_map quality_text quality) [] ∷ [])) }
{
    match quality {
        Some(quality) => {
            let (letters, count) = quality.letters();
            push_text(str::from_utf8(&letters[..count]).unwrap(), out)
        }
        None => push_text("", out),
    }
}

/// Appends a comma and a code's number, if there is one.
fn push_code(code: Option<u16>, out: &mut String) -> Result<(), AllocError>
    requires { is_code code ≡ true }
    ensures { OnOk result (AppendsEach (string_bytes out.old) (string_bytes out.new) (code_text code ∷ [])) }
{
    match code {
        Some(number) => {
            let mut buffer = Buffer::new();
            push_text(buffer.format(number), out)
        }
        None => push_text("", out),
    }
}

/// Appends a comma and a quantity.
fn push_quantity(quantity: Quantity, out: &mut String) -> Result<(), AllocError>
    ensures { (text : List ℕ) → denoted text ≡ Ok quantity → OnOk result
        (AppendsEach (string_bytes out.old) (string_bytes out.new) (written quantity ∷ [])) }
{
    out.push(',')?;
    quantity.write_to(out)
}

/// Appends a comma and a transaction code, if there is one.
fn push_trans(trans: Option<TransCode>, out: &mut String) -> Result<(), AllocError>
    ensures { OnOk result (AppendsEach (string_bytes out.old) (string_bytes out.new) (trans_text trans ∷ [])) }
{
    out.push(',')?;
    write_trans(trans, out)
}

/// Appends a transaction code, if there is one.
fn write_trans(trans: Option<TransCode>, out: &mut String) -> Result<(), AllocError>
    ensures done { OnOk result (Appends (string_bytes out.old) (string_bytes out.new) (trans_text trans)) }
    ensures lawful { is_trans trans ≡ true }
{
    match trans {
        Some(code) => out.push(char::from(code.letter())),
        None => Ok(()),
    }
}
