//! Runs: stretches of a day's intervals that have one mark, as stated by 400 records (MDFF Specification, the 400
//! record). A cover takes them in order, and its marks are spread and gathered.
//!
//! It decides L6 and L7 (`Cover::refusal`) and whether a day is fully covered (`Cover::is_full`). It also decides which
//! mark an interval has (`mark_from`), and how a day's readings are kept in memory (`DayReadings`).
//! Called by `mds_days` for the runs of a file, and by `mds_packs`, `mds_keeper` and `mds_export` for readings. Only
//! users and tests call `spread`, `gather`, `gather_some` and `overlay`.
//! Must not change: L6 comes before L7. The runs of a list of marks are the fewest, and they are those of a packed day.
#![tactic(auto)]

mod cover;
mod day_readings;

pub use cover::{
    Cover, Run, RunFault, equal_faults, gather, gather_some, mark_from, one_run_holds, overlay,
    spread,
};
pub use day_readings::DayReadings;
