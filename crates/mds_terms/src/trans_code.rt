//! The transaction code of a 500 record.

ghost use Rattle.std.specs.Prelude.{◌≡◌, ◌↔◌, ℕ, IsTrue, true};
ghost use Rattle.std.specs.Char.{is_ascii_uppercase};
ghost use Rattle.std.specs.Ordering.{nat_cmp};
ghost use Rattle.mds_terms.specs.Event.{letter_of};

use std::marker::Model;

/// The transaction code of a 500 record (TransCode): one capital letter.
#[derive(Clone, Copy, Debug, PartialEq, Eq, PartialOrd, Ord)]
pub struct TransCode {
    letter: u8,
}

impl Model for TransCode {
    ghost use Rattle.std.specs.Prelude.{◌≡◌, ℕ, true};
    ghost use Rattle.std.specs.Char.{is_ascii_uppercase};

    ghost Value = { ℕ };

    ghost view = { λ code. code.letter };

    ghost invariant = { λ code. is_ascii_uppercase code.letter ≡ true };

    ghost inverse = { λ letter. record { letter = letter } };
}

impl TransCode {
    /// Reads a transaction code from its text (MDFF Specification, TransCode). `None` if the text
    /// isn't one capital letter.
    pub fn read(text: &[u8]) -> Option<TransCode>
        ensures { result ≡ letter_of text.now }
    {
        match text {
            [letter] if letter.is_ascii_uppercase() => Some(TransCode { letter: *letter }),
            _ => None,
        }
    }

    /// Its letter, in ASCII.
    pub fn letter(self) -> u8
        ensures value { result ≡ self }
        ensures lawful { is_ascii_uppercase self ≡ true }
        ensures equal { (other : ℕ)
            → IsTrue (⟦<TransCode as PartialEq>⟧.eq self other) ↔ (self ≡ other) }
        ensures order { (other : ℕ) → ⟦<TransCode as Ord>⟧.cmp self other ≡ nat_cmp self other }
    {
        self.letter
    }
}
