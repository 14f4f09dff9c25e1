//! NEM13 files: the accumulations that they state.

pub use mds_nem13::{Accumulation, Nem13Fault, read_nem13};
pub use mds_statements::{Period, PeriodContent, PeriodKey};
