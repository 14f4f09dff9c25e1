//! What a NEM13 file states: accumulations.

use mds_statements::PeriodKey;

/// A 250 record with its 550 records.
#[derive(Drop)]
pub struct Accumulation {
    /// The number of the 250 record's line, from 1.
    pub line: u64,
    pub key: PeriodKey,
    /// Its fields 3 to 21, joined by commas, and for each 550 record a line feed and its four texts, joined by commas.
    /// A field that can be written in several ways has one form here.
    pub content: String,
}
