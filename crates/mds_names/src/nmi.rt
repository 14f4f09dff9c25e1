//! The identifier of a metering point.

ghost use Rattle.std.specs.Prelude.{◌≡◌, ◌↔◌, ℕ, List, IsTrue, OnOk, OnErr, string_bytes, string_capacity, string_len, ◌+◌, ◌<◌, ◌++◌};
ghost use Rattle.std.specs.Ordering.{nat_cmp};
ghost use Rattle.std.specs.Cmp.Lexicographic.{slice_cmp};
ghost use Rattle.mds_names.specs.Names.{is_name, nmi_of};

use crate::name::is_name;
use std::alloc::AllocError;
use std::marker::Model;
use std::str;

/// A national metering identifier: ten capital letters and digits. Its order is that of its bytes.
#[derive(Clone, Copy, Debug, PartialEq, Eq, PartialOrd, Ord)]
pub struct Nmi {
    bytes: [u8; 10],
}

impl Model for Nmi {
    ghost use Rattle.std.specs.Prelude.{ℕ, List, IsTrue};
    ghost use Rattle.mds_names.specs.Names.{is_name};

    ghost Value = { List ℕ };

    ghost view = { λ nmi. nmi.bytes };

    ghost invariant = { λ nmi. IsTrue (is_name 10 nmi.bytes) };

    ghost inverse = { λ bytes. record { bytes = bytes } };
}

impl Nmi {
    /// Reads an NMI from its text (MDFF Specification, NMI). `None` if the text isn't ten capital
    /// letters and digits.
    pub fn read(text: &[u8]) -> Option<Nmi>
        ensures { result ≡ nmi_of text.now }
    {
        if !is_name(text) {
            return None;
        }
        let bytes = <[u8; 10]>::try_from(text).ok()?;
        Some(Nmi { bytes })
    }

    /// Appends its text, which reads back (`names_read_back`). After an error nothing is appended.
    pub fn write_to(self, out: &mut String) -> Result<(), AllocError>
        ensures done { OnOk result (string_bytes out.new ≡ string_bytes out.old ++ self) }
        ensures kept { OnErr result (string_bytes out.new ≡ string_bytes out.old) }
        ensures full { OnErr result (string_capacity out.old < string_len out.old + 10) }
    {
        out.push_str(self.text())
    }

    /// Its text.
    pub fn text(&self) -> &str
        ensures value { result.now ≡ self.now }
        ensures name { IsTrue (is_name 10 self.now) }
        ensures equal { (other : List ℕ)
            → IsTrue (⟦<Nmi as PartialEq>⟧.eq self.now other) ↔ (self.now ≡ other) }
        // By bytes: the first difference decides.
        ensures order { (other : List ℕ)
            → ⟦<Nmi as Ord>⟧.cmp self.now other ≡ slice_cmp nat_cmp self.now other }
    {
        str::from_utf8(&self.bytes).unwrap()
    }
}
