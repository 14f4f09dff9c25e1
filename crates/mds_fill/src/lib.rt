//! Substitution: the days whose values may replace missing ones, and the readings that a job fills in.
//!
//! It decides why a job is stopped on its day (M5, M6, M8, M7, M9), and which days are like days (`candidates`). It
//! also decides which readings are usable (`usable_value`), and how each method makes its values.
//! Called by `mds_service`, which asks the keeper for the days of a `Context` and adds the result of `fill`.
//! Must not change: the order M5, M6, M8, M7, M9, and the least interval of M5 and M6. A mean and a value on a line are
//! rounded once, by `mds_quantity`. Public names are in `mds::fill`.
#![tactic(auto)]

mod context;
mod filling;
mod like_days;
mod sources;
mod targets;
mod usable;

pub use context::Context;
pub use filling::fill;
pub use like_days::candidates;
