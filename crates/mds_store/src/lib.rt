//! A store of the current schema in the tables of an SQL database: its keeper, how it is made (`create`) and recognized (`adopt`).
//!
//! It decides which database is a store, and which fault any other one has: U2 for earlier schemas, else U3 (`starting.rt`, `fault.rt`).
//! It answers for holidays, substitution jobs and accumulations, whatever tables follow those that every schema has (`querying.rt`).
//! Callers: `mdstore` makes and opens stores with it, and `mds_trials` does so in memory. `mds_store_runs` runs over `PackKeeper`,
//! `mds_migrate` asks what schema a store says, and `mds_full` re-exports it.
//! Must not change: the names `PackKeeper`, `create` and `adopt`, which README shows, the code that each variant of `StoreFault` means, and
//! the order of accumulations. A refusal returns the connection and changes nothing, and an open migrates nothing. A row that doesn't read
//! is never passed over, but makes the answer Unavailable (U1).
#![tactic(auto)]

mod fault;
mod laws;
mod old_rows;
mod pack_keeper;
mod periods;
mod querying;
mod rows;
mod starting;

pub use fault::{StoreFault, is_empty};
pub use laws::a_keeper_is_its_tables;
pub use pack_keeper::PackKeeper;
pub use periods::{content_of_period, periods_of};
pub use querying::{holidays_of, job_of};
pub use starting::{adopt, are_current, are_daily, are_packed, create};
