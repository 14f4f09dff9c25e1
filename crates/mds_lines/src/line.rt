//! A line of a file, and the kind of record that it is.

ghost use Rattle.std.specs.Prelude.{◌≡◌, ◌↔◌, ℕ, List, [], IsTrue};
ghost use Rattle.mds_lines.specs.Lines.{line_text, fields_of, IsSplit, split};
ghost use Rattle.mds_lines.specs.Kinds.{kind_named as named};

use crate::fields::Fields;

/// The kinds of records.
#[derive(Clone, Copy)]
pub enum Kind {
    /// 100, the header.
    Header,
    /// 200, the NMI data details.
    NmiDataDetails,
    /// 250, the accumulation data of a period (NEM13).
    AccumulationData,
    /// 300, the interval data of a day.
    IntervalData,
    /// 400, the interval events of a day.
    IntervalEvent,
    /// 500, the B2B details of a day.
    B2bDetails,
    /// 550, the B2B details of accumulation data (NEM13).
    AccumulationB2bDetails,
    /// 900, the end of data.
    EndOfData,
}

/// Why a line isn't a record of a known kind.
#[derive(Clone, Copy)]
pub enum KindFault {
    /// It isn't UTF-8 (L1).
    NotText,
    /// Its first field isn't a record indicator (L2).
    Unknown,
}

/// A line of a file with its number.
#[derive(Drop)]
pub struct Line<'a> {
    number: u64,
    text: &'a [u8],
}

impl<'a> Line<'a> {
    ghost use Rattle.mds_lines.specs.Kinds.{kind_of};
    ghost use Rattle.mds_lines.specs.Numbered.{number_of, text_of};

    /// The line of a piece of a file between line feeds, and its number, from 1. One carriage return at the end of the
    /// piece isn't part of the line (profile).
    pub fn new(number: u64, piece: &'a [u8]) -> Line<'a>
        ensures number { number_of result ≡ number }
        ensures text { text_of result ≡ line_text piece.now }
    {
        let text = match piece {
            [text @ .., b'\r'] => text,
            _ => piece,
        };
        Line { number, text }
    }

    /// Its number, from 1.
    pub fn number(&self) -> u64
        ensures { result ≡ number_of self.now }
    {
        self.number
    }

    /// Whether it has no bytes.
    pub fn is_empty(&self) -> bool
        ensures { IsTrue result ↔ (text_of self.now ≡ []) }
    {
        self.text.is_empty()
    }

    /// Its bytes.
    pub fn text(&self) -> &'a [u8]
        ensures { result.now ≡ text_of self.now }
    {
        self.text
    }

    /// Its fields.
    pub fn fields(&self) -> Fields<'a>
        ensures { result ≡ fields_of (text_of self.now) }
    {
        Fields::new(self.text)
    }

    /// The kind of record that it is, or why it isn't one (L1, L2).
    pub fn kind(&self) -> Result<Kind, KindFault>
        ensures { result ≡ kind_of (text_of self.now) }
    {
        // decides: L1: the line isn't UTF-8
        if !simdutf8::is_utf8(self.text) {
            return Err(KindFault::NotText);
        }
        let indicator = self.fields().get(1).unwrap_or(&[]);
        kind_named(indicator).ok_or(KindFault::Unknown)
    }
}

/// The kind named by a record indicator, or `None` if it names none (L2).
fn kind_named(indicator: &[u8]) -> Option<Kind>
    ensures { result ≡ named indicator.now }
{
    // decides: L2: its first field is no record indicator
    if indicator == b"100".as_slice() {
        Some(Kind::Header)
    } else if indicator == b"200".as_slice() {
        Some(Kind::NmiDataDetails)
    } else if indicator == b"250".as_slice() {
        Some(Kind::AccumulationData)
    } else if indicator == b"300".as_slice() {
        Some(Kind::IntervalData)
    } else if indicator == b"400".as_slice() {
        Some(Kind::IntervalEvent)
    } else if indicator == b"500".as_slice() {
        Some(Kind::B2bDetails)
    } else if indicator == b"550".as_slice() {
        Some(Kind::AccumulationB2bDetails)
    } else if indicator == b"900".as_slice() {
        Some(Kind::EndOfData)
    } else {
        None
    }
}

/// A law: a text is split at a separator in only one way.
pub fn one_split()
    ensures is_split { (separator : ℕ) (text : List ℕ) → IsSplit separator text (split separator text) }
    ensures only { (separator : ℕ) (text : List ℕ) (parts : List (List ℕ)) →
        IsSplit separator text parts → parts ≡ split separator text }
{}
