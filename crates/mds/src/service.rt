//! The machine: requests and their answers, over any keeper.

pub use mds_registers::{write_finals, write_gaps};
pub use mds_requests::{HolidaysFault, read_holidays};
pub use mds_service::{
    Answer, DayAnswer, PeriodAnswer, Request, StreamAnswer, VersionsAnswer, apply, run,
};
