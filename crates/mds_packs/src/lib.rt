//! Packed days: a day's readings of one update as one body of bytes, and back. Consecutive readings with the same mark
//! share it.
//!
//! It decides which bytes are the body of a day. Given readings have exactly one body, and any bytes that aren't a body
//! are refused.
//! Called by `mds_pack_rows` and `mds_commit`, which store bodies in rows of `mds_pack`.
//! Must not change: the layout (`body_of` in `specs/Body.antt`), which `docs/FORMATS.md` describes. Stores hold such
//! bodies, and `examples/unpack.py` reads them too. Another layout needs another first byte. `pack_day` and
//! `unpack_day` are public calls.
#![tactic(auto)]

mod layout;
mod packing;
mod sizes;
mod unpacking;
mod whole_days;

pub use packing::{pack_day, pack_readings};
pub use unpacking::unpack_day;
pub use whole_days::unpack_readings;
