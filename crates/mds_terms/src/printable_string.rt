//! Owned printable texts.

ghost use Rattle.std.specs.Prelude.{◌≡◌, ◌<◌, ◌↔◌, ℕ, List, IsTrue, true, IfOk, IfSome, OnErr, is_some, length, refl};
ghost use Rattle.std.specs.Cmp.{eq_by_cmp_equiv, partial_equiv_from_equiv, partial_order_from_total};
ghost use Rattle.std.specs.Cmp.Lexicographic.{slice_cmp, nat_list_cmp_total};
ghost use Rattle.std.specs.Ordering.{as_partial_cmp, eq_by_cmp, nat_cmp};
ghost use Rattle.mds_terms.specs.BorrowedTexts.{text_of};
ghost use Rattle.mds_terms.specs.Printable.{is_printable};

use crate::parts::own_text;
use crate::printable::PrintableText;
use std::alloc::{AllocError, Global};
use std::cmp::Ordering;
use std::marker::Model;

/// An owned printable text: at most 240 characters of printable ASCII, without commas (profile). Texts are ordered by their
/// bytes.
#[derive(Drop)]
pub struct PrintableString {
    text: String,
}

impl Model for PrintableString {
    ghost use Rattle.std.specs.Prelude.{◌≡◌, ℕ, List, true, string_bytes};
    ghost use Rattle.mds_terms.specs.Printable.{is_printable};

    ghost Value = { List ℕ };

    ghost view = { λ p. string_bytes p.text };

    ghost invariant = { λ p. is_printable (string_bytes p.text) ≡ true };
}

impl PrintableString {
    /// The printable text of these bytes, or `None` if they aren't one. Takes memory only for a printable text that isn't
    /// empty.
    pub fn read(alloc: Global, text: &[u8]) -> Result<Option<PrintableString>, AllocError>
        ensures accepted { IfOk result (λ read. is_some read ≡ is_printable text.now) }
        ensures value { IfOk result (λ read. IfSome read (λ own. own ≡ text.now)) }
        ensures full { OnErr result (0 < length text.now) }
        ensures reads { OnErr result (is_printable text.now ≡ true) }
    {
        match PrintableText::read(text) {
            Some(printable) => Ok(Some(PrintableString::of(alloc, &printable)?)),
            None => Ok(None),
        }
    }

    /// An owned copy of a printable text. It fails only if memory is refused, and never if the text is empty.
    pub fn of(alloc: Global, printable: &PrintableText<'_>) -> Result<PrintableString, AllocError>
        ensures value { IfOk result (λ own. own ≡ text_of printable.now) }
        ensures full { OnErr result (0 < length (text_of printable.now)) }
    {
        Ok(PrintableString {
            text: own_text(alloc, printable.text())?,
        })
    }

    /// Its text.
    pub fn text(&self) -> &str
        ensures value { result.now ≡ self.now }
        ensures printable { is_printable self.now ≡ true }
    {
        self.text.as_str()
    }

    /// The text, borrowed.
    pub fn borrowed(&self) -> PrintableText<'_>
        ensures { text_of result ≡ self.now }
    {
        PrintableText::read(self.text().as_bytes()).unwrap()
    }

    /// A copy of the text. It fails only if memory is refused, and never if the text is empty.
    pub fn try_clone(&self) -> Result<PrintableString, AllocError>
        ensures value { IfOk result (λ own. own ≡ self.now) }
        ensures full { OnErr result (0 < length self.now) }
    {
        Ok(PrintableString {
            text: own_text(*self.text.allocator(), self.text.as_str())?,
        })
    }

    /// Whether both are the same text.
    pub fn is_same(&self, other: &PrintableString) -> bool
        ensures { IsTrue result ↔ (self.now ≡ other.now) }
    {
        self.text() == other.text()
    }

    /// A law: texts are equal exactly if their bytes are, and they are ordered by their bytes.
    #[tactic(auto, using(crate::proofs::TermOrder::text_decided))]
    pub fn one_order()
        ensures equal { (a b : List ℕ) → IsTrue (⟦<PrintableString as PartialEq>⟧.eq a b) ↔ (a ≡ b) }
        ensures order { (a b : List ℕ) → ⟦<PrintableString as Ord>⟧.cmp a b ≡ slice_cmp nat_cmp a b }
    {}
}

impl PartialEq for PrintableString {
    ghost eq = { eq_by_cmp (slice_cmp nat_cmp) };

    ghost laws = { partial_equiv_from_equiv (eq_by_cmp_equiv nat_list_cmp_total) };

    #[tactic(auto, using(crate::proofs::TermOrder::text_decided))]
    fn eq(&self, other: &PrintableString) -> bool {
        self.is_same(other)
    }
}

impl Eq for PrintableString {
    ghost laws = { eq_by_cmp_equiv nat_list_cmp_total };
}

impl PartialOrd for PrintableString {
    ghost partial_cmp = { as_partial_cmp (slice_cmp nat_cmp) };

    ghost laws = { partial_order_from_total nat_list_cmp_total };

    fn partial_cmp(&self, other: &PrintableString) -> Option<Ordering> {
        Some(self.cmp(other))
    }
}

impl Ord for PrintableString {
    ghost cmp = { slice_cmp nat_cmp };

    ghost total = { nat_list_cmp_total };

    ghost matches_partial_cmp = { λ _ _. refl };

    ghost matches_eq = { λ _ _. refl };

    fn cmp(&self, other: &PrintableString) -> Ordering {
        self.text().cmp(other.text())
    }
}
