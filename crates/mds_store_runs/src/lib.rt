//! Runs of the machine over a store of the current schema.
//!
//! It decides nothing of its own: `run_packs` is `mds_service::run` over a `PackKeeper`. Its contract says in the library's words what such
//! a run promises of the tables, without any ghost of a keeper.
//! Callers: `mds_trials`, and `mds_full` re-exports it.
//! Must not change: the contract of `run_packs`, which README presents as the promise over tables.
#![tactic(auto)]

mod runs;

pub use runs::run_packs;
