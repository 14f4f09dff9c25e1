//! One datastream of one metering point.

ghost use Rattle.std.specs.Prelude.{◌≡◌, ◌↔◌, ◌⊎◌, ℕ, List, IsTrue, IfSome, IfNone, OnOk, OnErr, Some, None, length, string_bytes, string_capacity, string_len, ◌+◌, ◌<◌, ◌++◌, take};
ghost use Rattle.std.specs.Ordering.{nat_cmp, ordering_then};
ghost use Rattle.std.specs.Cmp.Lexicographic.{slice_cmp};
ghost use Rattle.mds_names.specs.Names.{is_name, nmi_of, suffix_of, stream_text};

use crate::nmi::Nmi;
use crate::suffix::Suffix;
use std::alloc::AllocError;

/// One datastream of one NMI. Streams are ordered by the NMI, and then by the suffix.
#[derive(Clone, Copy, Debug, PartialEq, Eq, PartialOrd, Ord)]
pub struct Stream {
    pub nmi: Nmi,
    pub suffix: Suffix,
}

impl Stream {
    /// Reads a stream from the texts of its NMI and its suffix. `None` if one of them isn't such a
    /// name.
    pub fn read(nmi: &[u8], suffix: &[u8]) -> Option<Stream>
        ensures some { IfSome result (λ stream.
            (nmi_of nmi.now ≡ Some stream.nmi) × (suffix_of suffix.now ≡ Some stream.suffix)) }
        ensures none { IfNone result ((nmi_of nmi.now ≡ None) ⊎ (suffix_of suffix.now ≡ None)) }
    {
        Some(Stream {
            nmi: Nmi::read(nmi)?,
            suffix: Suffix::read(suffix)?,
        })
    }

    /// Its NMI.
    pub fn nmi(self) -> Nmi
        ensures value { result ≡ self.nmi }
        ensures equal { (other : Stream) → IsTrue (⟦<Stream as PartialEq>⟧.eq self other)
            ↔ ((self.nmi ≡ other.nmi) × (self.suffix ≡ other.suffix)) }
        ensures order { (other : Stream) → ⟦<Stream as Ord>⟧.cmp self other ≡ ordering_then
            (slice_cmp nat_cmp self.nmi other.nmi) (slice_cmp nat_cmp self.suffix other.suffix) }
    {
        self.nmi
    }

    /// Its suffix.
    pub fn suffix(self) -> Suffix
        ensures { result ≡ self.suffix }
    {
        self.suffix
    }

    /// Appends its text, such as `NEM1201009,E1`, whose pieces read back (`names_read_back`). After
    /// an error a prefix of it may be appended.
    pub fn write_to(self, out: &mut String) -> Result<(), AllocError>
        ensures done { OnOk result (string_bytes out.new ≡ string_bytes out.old
            ++ stream_text self.nmi self.suffix) }
        ensures part { OnErr result ((n : ℕ) × (string_bytes out.new ≡ string_bytes out.old
            ++ take n (stream_text self.nmi self.suffix))) }
        ensures full { OnErr result (string_capacity out.old
            < string_len out.old + length (stream_text self.nmi self.suffix)) }
    {
        let (nmi, suffix) = (self.nmi.text(), self.suffix.text());
        out.push_str(nmi)?;
        out.push(',')?;
        out.push_str(suffix)
    }
}
