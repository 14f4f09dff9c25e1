//! Accumulations: what a register of a meter counted from one read to another.

ghost use Rattle.std.specs.Prelude.{◌≡◌, ◌+◌, ◌<◌, ◌↔◌, ℕ, List, IfOk, IsTrue, OnErr, length, string_bytes};
ghost use Rattle.mds_statements.specs.Contents.{content_of};

use mds_terms::{Moment, PrintableString, Stream};
use std::alloc::AllocError;
use std::marker::Model;

/// What identifies an accumulation: a register, two reads of it, and the update. Keys are ordered by their parts, in the order in
/// which they are declared here.
#[derive(PartialEq, Eq, PartialOrd, Ord, Drop)]
pub struct PeriodKey {
    pub stream: Stream,
    /// The register (RegisterID), which may be empty.
    pub register: PrintableString,
    /// The moment of the previous read.
    pub start: Moment,
    /// The moment of the current read.
    pub finish: Moment,
    /// When it was updated: the moment of the header if the record doesn't state it.
    pub update: Moment,
}

impl PeriodKey {
    /// A copy of the key. It fails only if memory is refused, and never if the register is empty.
    pub fn try_clone(&self) -> Result<PeriodKey, AllocError>
        ensures value { IfOk result (λ key. key ≡ self.now) }
        ensures full { OnErr result (0 < length self.now.register) }
    {
        Ok(PeriodKey {
            stream: self.stream,
            register: self.register.try_clone()?,
            start: self.start,
            finish: self.finish,
            update: self.update,
        })
    }
}

/// The rest of an accumulation: the fields 3 to 21 of its 250 record, and its notes in order. A note is a 550 record. The update,
/// which the record or the header states, is only in its key. A content has one text.
#[derive(Drop)]
pub struct PeriodContent {
    text: String,
}

impl Model for PeriodContent {
    ghost use Rattle.std.specs.Prelude.{string_bytes};
    ghost use Rattle.mds_statements.specs.Contents.{PeriodContent, content_of};

    ghost Value = { PeriodContent };

    ghost view = { λ c. content_of (string_bytes c.text) };
}

impl PeriodContent {
    /// The content in a text. The first line has the fields, and each other line the four texts of a note, joined by commas.
    pub fn new(text: String) -> PeriodContent
        ensures { result ≡ content_of (string_bytes text) }
    {
        PeriodContent { text }
    }

    /// Its text.
    pub fn text(&self) -> &str
        ensures { content_of result.now ≡ self.now }
    {
        self.text.as_str()
    }

    /// A copy of the content. It fails only if memory is refused, and never if its text is empty.
    pub fn try_clone(&self) -> Result<PeriodContent, AllocError>
        ensures value { IfOk result (λ content. content ≡ self.now) }
        ensures full { OnErr result ((text : List ℕ) × (content_of text ≡ self.now) × (0 < length text)) }
    {
        let mut text = String::with_capacity(*self.text.allocator(), self.text.len())?;
        text.push_str(&self.text)?;
        Ok(PeriodContent { text })
    }

    /// Whether both have the same fields and the same notes.
    pub fn is_same(&self, other: &PeriodContent) -> bool
        ensures { IsTrue result ↔ (self.now ≡ other.now) }
    {
        self.text() == other.text()
    }
}

/// An accumulation: its key, and the rest of what is kept of it.
#[derive(Drop)]
pub struct Period {
    pub key: PeriodKey,
    pub content: PeriodContent,
}
