//! Registers as CSV texts: the gaps of a day, its finals, and the current readings of days. A gap has no readings, and the
//! readings of a final are final.
//!
//! It decides what a gap is (`is_null`), what a final is (`final_mark`), what a row of readings shows
//! (`write_interval`), and how the registers are written.
//! Called by `mds_ranges`, which collects the rows of a range, and by `mds_service`, whose answers are these texts.
//! Must not change: the head rows, the order of the columns, and `0,0` for a day that isn't known, as in
//! `docs/FORMATS.md`. `gaps`, `finals`, `write_gaps`, `write_finals` and `write_readings` are public calls.
#![tactic(auto)]

mod fields;
mod readings;
mod stretches;
mod writing;

pub use readings::write_readings;
pub use stretches::{Final, Gap, finals, gaps};
pub use writing::{FinalRow, GapRow, write_finals, write_gap_rows, write_gaps, write_gaps_head};
