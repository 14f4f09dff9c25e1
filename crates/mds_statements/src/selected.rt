//! The parts of a selection: streams, and days of streams.

use mds_quantity::Unit;
use mds_runs::DayReadings;
use mds_terms::{Day, Details, Length, Moment, Stream};

/// A selected day.
#[derive(Drop)]
pub struct SelectedDay {
    pub date: Day,
    pub length: Length,
    pub unit: Unit,
    /// The details of its meter on that day.
    pub details: Details,
    /// When its readings were updated.
    pub update: Moment,
    /// One for each interval, in order.
    pub readings: DayReadings,
}

/// A stream and its selected days, which may be none.
#[derive(Drop)]
pub struct SelectedStream {
    pub stream: Stream,
    pub days: Vec<SelectedDay>,
}
