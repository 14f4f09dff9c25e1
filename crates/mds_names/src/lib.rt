//! The names of what is metered: NMIs, suffixes and streams. Each is read from its text, and
//! written as the text that reads back.
//!
//! It decides which names are valid: ten capital letters and digits for an NMI, two for a suffix.
//! Called by `mds_records`, `mds_arguments` and `mds_requests` to read names. `mds_terms`
//! re-exports it.
//! Must not change: the order of streams, by NMI and then by suffix, each by its bytes. Lists of
//! streams, exports and the days of a keeper are in this order. A stream's text is both names
//! joined by a comma.
#![tactic(auto)]

mod name;
mod nmi;
mod stream;
mod suffix;

pub use name::names_read_back;
pub use nmi::Nmi;
pub use stream::Stream;
pub use suffix::Suffix;
