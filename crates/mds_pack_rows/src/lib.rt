//! Packed days and details of days as rows of a store. A row of mds_pack has the versions of a day under one update, with their readings as
//! a body. A row of mds_daydetail has details of a day.
//!
//! It decides which versions share a row (`grouping.rt`), when a row's body is replaced (`putting.rt`), and which rows go in by one
//! statement (`batches.rt`). It defines the layouts from schema 2 on, and makes and recognizes the tables of each schema. Any tables may
//! follow those that it writes. Which schema is the current one is said in `known.rt` and `specs/Current.antt` alone.
//! Callers: `mds_commit` for commits and the books of days, `mds_migrate` for its steps, `mds_store` to recognize old stores.
//! Must not change: the tables, which existing stores have. A commit and a migration put rows by the same functions, so a migrated row is
//! the one that an import would have put.
#![tactic(auto)]

mod batches;
mod bodies;
mod details;
mod grouping;
mod known;
mod laying;
mod making;
mod putting;
mod statements;

pub use batches::put_days;
pub use bodies::{blob_at, has_some, readings_for, unpack_for, unpack_whole};
pub use details::{DetailTable, put_details};
pub use grouping::put_day;
pub use known::{CURRENT, CURRENT_TABLES, CURRENT_VERSION, has_schema};
pub use making::make_table;
pub use statements::packs_of_day;
