//! What a range of days of a store shows, over any keeper: its gaps, its finals, and what an export selects.
//!
//! It decides which ranges and exports are too wide (M12: `is_too_wide`, `distinct`), and which days an export selects.
//! An interval without a version is read as bare N (`current_readings`).
//! Called by `mds_service`, for the registers, for exports and for the readings of a day.
//! Must not change: at most 400 days and eight suffixes, since a `Selection` has at most 3,200 days. The register of
//! gaps has a row for an unknown day; finals and exports leave it out.
#![tactic(auto)]

mod range;
mod readings;
mod registers;
mod selecting;
mod suffixes;

pub use range::is_too_wide;
pub use readings::current_readings;
pub use registers::{finals_of, gaps_of};
pub use selecting::selection_of;
pub use suffixes::{Suffixes, distinct};
