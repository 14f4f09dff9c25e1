//! The check of a file: a line for each of its days or accumulations, or its first fault.
//!
//! It decides what `check` prints of a well formed file, and why nothing, or not everything, was printed
//! (`CheckFault`).
//! Called by `mds_desk`, which turns a `CheckFault` into a status and a text, and by `mdstore`.
//! Must not change: the form of a line (`Report.antt`), and that nothing is written unless the whole file is well
//! formed. `check` and `CheckFault` are public, in `mds_full::desk`.
#![tactic(auto)]

mod checking;
mod period_report;
mod report;

pub use checking::{CheckFault, check};
