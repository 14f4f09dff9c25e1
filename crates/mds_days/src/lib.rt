//! A day's interval data: its 300 record and the 400 records after it, and the readings that they state together.
//!
//! It decides why a 400 is refused as a run of its day (L6, L7, L12), and whether a variable day has a gap (L8). It
//! also decides which mark and value each interval has (`DayData::readings`).
//! Called by `mds_nem12`, which has one `DayData` for all days of a file, and by `mds_check` for the `Tally` of a day.
//! Must not change: L6, L7 and L12 come in this order. A number in an interval of quality N is neither kept, counted
//! nor added up. A day takes memory only for its runs and for reason texts.
#![tactic(auto)]

mod day;

pub use day::{DayData, Tally};
