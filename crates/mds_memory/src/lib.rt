//! A keeper in memory: it holds a World in maps and sets, and no file is involved.
//!
//! It decides how facts are held: books by day, details with the days that have them, events and holidays in one set. It decides which
//! details of a day are current. It answers by the contract of `Keeper` in `mds_keeper`, as the keeper over tables does.
//! Callers: `mds` re-exports `MemoryKeeper` in `mds::versions`, and `mds_trials` runs over it.
//! Must not change: the name `MemoryKeeper`, which README shows, and a commit that runs out of memory leaves everything as it was.
#![tactic(auto)]

mod laws;
mod memory;
mod stored_days;
mod stored_details;
mod stored_jobs;
mod stored_notes;
mod stored_periods;

pub use laws::a_memory_keeper_is_sound;
pub use memory::MemoryKeeper;
