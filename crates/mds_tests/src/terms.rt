//! What texts are read as: simple terms, composed ones, and records.

use crate::marks::tell_mark;
use crate::rows::cut;
use crate::runs::tell_cover;
use mds_quantity::{Quantity, Unit, write_millionths};
use mds_records::{FileKind, IntervalValues, Line, read_record};
use mds_terms::{
    Day, Details, DetailsRef, Event, EventRef, Length, Moment, Nmi, PrintableString, PrintableText,
    Quality, Stream, Suffix, write_joined,
};
use std::alloc::Global;

/// Appends what a text is read and written as, given what to read it as. `None` if it isn't that.
pub fn tell_term(alloc: Global, word: &str, text: &str, out: &mut String) -> Option<()> {
    let bytes = text.as_bytes();
    let done = match word {
        "quantity" => match Quantity::read(bytes) {
            Ok(quantity) => quantity.write_to(out),
            Err(fault) => write!(out, "{fault:?}"),
        },
        "sum" => write_millionths(text.parse().ok()?, out),
        "unit" => out.push_str(Unit::read(bytes)?.text()),
        "day" => Day::read(bytes)?.write_to(out),
        "moment" => Moment::read(bytes)?.write_to(out),
        "header moment" => Moment::read_date_time(bytes)?.write_to(out),
        "length" => Length::read(bytes)?.write_to(out),
        "NMI" => Nmi::read(bytes)?.write_to(out),
        "suffix" => Suffix::read(bytes)?.write_to(out),
        "quality" => Quality::read(bytes)?.write_to(out),
        "record" => return tell_record(alloc, bytes, out),
        "cover" => return tell_cover(alloc, text, out),
        _ => return tell_parts(alloc, word, text, out),
    };
    done.ok()
}

/// Appends that a line is a record, of intervals of 30 minutes, or why it is none.
fn tell_record(alloc: Global, text: &[u8], out: &mut String) -> Option<()> {
    let line = Line::new(1, text);
    let kind = line.kind().ok()?;
    let length = Length::from_minutes(30)?;
    let mut values = IntervalValues::new(alloc).ok()?;
    let done = match read_record(&line, kind, FileKind::Nem12, Some(length), &mut values) {
        Ok(_) => out.push_str("good"),
        Err(fault) => write!(out, "{fault:?}"),
    };
    done.ok()
}

/// The parts of a text, separated by `|`. Missing ones are empty.
fn parts_of(text: &str) -> [&[u8]; 7] {
    let (first, rest) = cut(text, '|');
    let (second, rest) = cut(rest, '|');
    let (third, rest) = cut(rest, '|');
    let (fourth, rest) = cut(rest, '|');
    let (fifth, rest) = cut(rest, '|');
    let (sixth, seventh) = cut(rest, '|');
    [
        first.as_bytes(),
        second.as_bytes(),
        third.as_bytes(),
        fourth.as_bytes(),
        fifth.as_bytes(),
        sixth.as_bytes(),
        seventh.as_bytes(),
    ]
}

/// Appends a term that is composed of texts.
fn tell_parts(alloc: Global, word: &str, text: &str, out: &mut String) -> Option<()> {
    let parts = parts_of(text);
    let [first, second, ..] = parts;
    match word {
        "stream" => Stream::read(first, second)?.write_to(out).ok(),
        "printable" => tell_printable(alloc, first, out),
        "lent printable" => tell_lent_printable(alloc, first, out),
        "details" => tell_details(alloc, parts, out),
        "lent details" => tell_lent_details(alloc, parts, out),
        "event" => tell_event(alloc, parts, out),
        "lent event" => tell_lent_event(alloc, parts, out),
        _ => tell_mark(alloc, word, parts, out),
    }
}

/// Appends a printable text, joined with a word.
fn tell_printable(alloc: Global, text: &[u8], out: &mut String) -> Option<()> {
    let own = PrintableString::read(alloc, text).ok()??;
    write_joined(out, &[own.text(), "printable"]).ok()
}

/// Appends the copy of a borrowed text.
fn tell_lent_printable(alloc: Global, text: &[u8], out: &mut String) -> Option<()> {
    let Some(lent) = PrintableText::read(text) else {
        return None;
    };
    let own = PrintableString::of(alloc, &lent).ok()?;
    out.push_str(own.try_clone().ok()?.borrowed().text()).ok()
}

fn tell_details(alloc: Global, parts: [&[u8]; 7], out: &mut String) -> Option<()> {
    let [configuration, register, datastream, meter, next, ..] = parts;
    Details::read(alloc, configuration, register, datastream, meter, next)
        .ok()??
        .write_to(out)
        .ok()
}

/// Appends the copy of borrowed details.
fn tell_lent_details(alloc: Global, parts: [&[u8]; 7], out: &mut String) -> Option<()> {
    let [configuration, register, datastream, meter, next, ..] = parts;
    let Some(lent) = DetailsRef::read(configuration, register, datastream, meter, next) else {
        return None;
    };
    let own = lent.to_details(alloc).ok()?;
    own.try_clone().ok()?.write_to(out).ok()
}

fn tell_event(alloc: Global, parts: [&[u8]; 7], out: &mut String) -> Option<()> {
    let [nmi, suffix, day, trans, ticket, moment, reading] = parts;
    Event::read(alloc, nmi, suffix, day, trans, ticket, moment, reading)
        .ok()??
        .write_to(out)
        .ok()
}

/// Appends the copy of a borrowed event.
fn tell_lent_event(alloc: Global, parts: [&[u8]; 7], out: &mut String) -> Option<()> {
    let [nmi, suffix, day, trans, ticket, moment, reading] = parts;
    let Some(lent) = EventRef::read(nmi, suffix, day, trans, ticket, moment, reading) else {
        return None;
    };
    let own = lent.to_event(alloc).ok()?;
    own.try_clone().ok()?.write_to(out).ok()
}
