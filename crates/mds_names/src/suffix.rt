//! The name of a datastream.

ghost use Rattle.std.specs.Prelude.{◌≡◌, ◌↔◌, ℕ, List, IsTrue, OnOk, OnErr, string_bytes, string_capacity, string_len, ◌+◌, ◌<◌, ◌++◌};
ghost use Rattle.std.specs.Ordering.{nat_cmp};
ghost use Rattle.std.specs.Cmp.Lexicographic.{slice_cmp};
ghost use Rattle.mds_names.specs.Names.{is_name, suffix_of};

use crate::name::is_name;
use std::alloc::AllocError;
use std::marker::Model;
use std::str;

/// An NMI suffix, which names a datastream of the NMI: two capital letters and digits. Its order is
/// that of its bytes.
#[derive(Clone, Copy, Debug, PartialEq, Eq, PartialOrd, Ord)]
pub struct Suffix {
    bytes: [u8; 2],
}

impl Model for Suffix {
    ghost use Rattle.std.specs.Prelude.{ℕ, List, IsTrue};
    ghost use Rattle.mds_names.specs.Names.{is_name};

    ghost Value = { List ℕ };

    ghost view = { λ suffix. suffix.bytes };

    ghost invariant = { λ suffix. IsTrue (is_name 2 suffix.bytes) };

    ghost inverse = { λ bytes. record { bytes = bytes } };
}

impl Suffix {
    /// Reads a suffix from its text (MDFF Specification, NMISuffix). `None` if the text isn't two
    /// capital letters and digits.
    pub fn read(text: &[u8]) -> Option<Suffix>
        ensures { result ≡ suffix_of text.now }
    {
        if !is_name(text) {
            return None;
        }
        let bytes = <[u8; 2]>::try_from(text).ok()?;
        Some(Suffix { bytes })
    }

    /// Appends its text, which reads back (`names_read_back`). After an error nothing is appended.
    pub fn write_to(self, out: &mut String) -> Result<(), AllocError>
        ensures done { OnOk result (string_bytes out.new ≡ string_bytes out.old ++ self) }
        ensures kept { OnErr result (string_bytes out.new ≡ string_bytes out.old) }
        ensures full { OnErr result (string_capacity out.old < string_len out.old + 2) }
    {
        out.push_str(self.text())
    }

    /// Its text.
    pub fn text(&self) -> &str
        ensures value { result.now ≡ self.now }
        ensures name { IsTrue (is_name 2 self.now) }
        ensures equal { (other : List ℕ)
            → IsTrue (⟦<Suffix as PartialEq>⟧.eq self.now other) ↔ (self.now ≡ other) }
        // By bytes: the first difference decides.
        ensures order { (other : List ℕ)
            → ⟦<Suffix as Ord>⟧.cmp self.now other ≡ slice_cmp nat_cmp self.now other }
    {
        str::from_utf8(&self.bytes).unwrap()
    }
}
