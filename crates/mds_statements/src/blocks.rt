//! The parts of a delivery: a header, and blocks of days.

use mds_quantity::Unit;
use mds_runs::DayReadings;
use mds_terms::{Day, Details, Event, Length, Moment, PrintableString, Stream};

/// The header of a file, its 100 record.
#[derive(Drop)]
pub struct Header {
    /// When the file was made.
    pub moment: Moment,
    /// Who sent it (FromParticipant), which may be empty.
    pub sender: PrintableString,
    /// Whom it is for (ToParticipant), which may be empty.
    pub receiver: PrintableString,
}

/// A 200 record, and the days that it governs.
#[derive(Drop)]
pub struct Block {
    /// The number of its line, from 1.
    pub line: u64,
    pub stream: Stream,
    pub details: Details,
    pub length: Length,
    pub unit: Unit,
    /// One for each 300 record.
    pub days: Vec<DeliveredDay>,
}

/// A 300 record with its 400 and 500 records.
#[derive(Drop)]
pub struct DeliveredDay {
    /// The number of its line, from 1.
    pub line: u64,
    pub date: Day,
    /// When it was updated: the moment of the header if the record doesn't state it.
    pub update: Moment,
    /// One for each interval, in order.
    pub readings: DayReadings,
    /// One for each 500 record.
    pub events: Vec<Event>,
}
