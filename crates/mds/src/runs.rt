//! The runs of marks over the intervals of a day.

pub use mds_runs::{Cover, DayReadings, Run, RunFault, gather, gather_some, overlay, spread};
