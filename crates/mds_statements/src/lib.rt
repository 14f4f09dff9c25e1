//! What a file states, as types over terms alone. `specs` defines the statements of a file of either kind. The readers
//! of files make deliveries and accumulations, and an export is written from a selection.
//!
//! It decides which statements a file can make (`Statements.antt`), which deliveries and selections are in order, and in
//! which text an accumulation is kept. Readers and the store depend on these types, and not on each other.
//! Called by `mds_nem12` and `mds_nem13`, which make them, by `mds_service`, `mds_keeper` and the keepers, which keep
//! them, and by `mds_ranges` and `mds_export` for selections.
//! Must not change: the body of an accumulation, since rows of `mds_period` hold it, and the order of `PeriodKey`. A
//! selection has at most 3,200 days, so that its export never has too many lines (L10). Public names are in `mds`.
#![tactic(auto)]

mod blocks;
mod bodies;
mod copies;
mod delivery;
mod periods;
mod selected;
mod selection;

pub use blocks::{Block, DeliveredDay, Header};
pub use delivery::Delivery;
pub use periods::{Period, PeriodContent, PeriodKey};
pub use selected::{SelectedDay, SelectedStream};
pub use selection::Selection;
