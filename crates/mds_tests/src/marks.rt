//! Reasons, marks and readings.

use mds_quantity::Quantity;
use mds_terms::{Mark, MarkRef, Reading, Reason, ReasonRef};
use std::alloc::Global;

/// Appends a reason, a mark or a reading. It is made of a quality, the code and the text of a reason, and a value.
pub fn tell_mark(alloc: Global, word: &str, parts: [&[u8]; 7], out: &mut String) -> Option<()> {
    let [quality, code, text, value, ..] = parts;
    match word {
        "reason" => tell_reason(alloc, code, text, out),
        "lent reason" => tell_lent_reason(alloc, code, text, out),
        "lent mark" => tell_lent_mark(alloc, parts, out),
        "mark" => Mark::read(alloc, quality, code, text)
            .ok()??
            .write_to(out)
            .ok(),
        "reading" => Reading::read(alloc, quality, code, text, value)
            .ok()??
            .write_to(out)
            .ok(),
        _ => None,
    }
}

/// Appends a copy of a reason.
fn tell_reason(alloc: Global, code: &[u8], text: &[u8], out: &mut String) -> Option<()> {
    let own = Reason::read(alloc, code, text).ok()??;
    own.try_clone().ok()?.write_to(out).ok()
}

/// Appends a reason that is made again from the parts of a borrowed one's copy.
fn tell_lent_reason(alloc: Global, code: &[u8], text: &[u8], out: &mut String) -> Option<()> {
    let Some(lent) = ReasonRef::read(code, text) else {
        return None;
    };
    let own = lent.to_reason(alloc).ok()?;
    Reason::new(alloc, own.code(), own.text())
        .ok()??
        .write_to(out)
        .ok()
}

/// Appends a copy of the reading of a borrowed mark's copy.
fn tell_lent_mark(alloc: Global, parts: [&[u8]; 7], out: &mut String) -> Option<()> {
    let [quality, code, text, value, ..] = parts;
    let Some(lent) = MarkRef::read(quality, code, text) else {
        return None;
    };
    let mark = lent.to_mark(alloc).ok()?;
    let reading = Reading::new(mark.try_clone().ok()?, Quantity::read(value).ok())?;
    reading.try_clone().ok()?.write_to(out).ok()
}
