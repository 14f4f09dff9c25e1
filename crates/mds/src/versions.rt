//! The versions of a day, what a file or a job adds to them, and the keepers that hold them.

pub use mds_jobs::{Job, JobId, JobManner, JobPlace, Method};
pub use mds_keeper::{
    Additions, Claim, DayBook, Keeper, Key, Refusal, RefusalCode, Unavailable, Version,
};
pub use mds_memory::MemoryKeeper;
pub use mds_registers::{finals, gaps};
