//! Days and moments of market time, and the lengths of intervals. Each is read from its text, and
//! written as the one text that reads back.
//!
//! It decides which dates, times and lengths exist: days from 1970 to 9999, and intervals of 5, 15
//! or 30 minutes.
//! Called by `mds_records`, `mds_arguments` and `mds_requests` to read, and by `mds_fill` for
//! weekdays. `mds_terms` re-exports it.
//! Must not change: `Day::number` counts days from 1 January 1970, and `Moment::seconds` counts
//! seconds. Stores hold both. No type of `jiff` is in a public signature, or each crate above would
//! carry that library's contracts.
#![tactic(auto)]

mod day;
mod length;
mod moment;
mod weekday;

pub use day::{Day, first_and_last_day, one_day_text, weekdays_go_on};
pub use length::{Length, lengths_read_back};
pub use moment::{Moment, one_moment_text};
pub use weekday::Weekday;
