//! The requests to the machine.

use mds_jobs::Job;
use mds_records::FileKind;
use mds_statements::Header;
use mds_terms::{Day, Nmi, Stream, Suffix};

/// A request to the machine. A request has no condition: the bytes of an import may be any.
#[derive(Drop)]
pub enum Request {
    /// Imports what a file states.
    Import {
        kind: FileKind,
        bytes: Vec<u8>,
    },
    /// Fills in what a substitution job asks for.
    Substitute(Job),
    /// Adds days to the listed holidays.
    Holidays(Vec<Day>),
    /// Asks for a day's current readings.
    Day {
        stream: Stream,
        day: Day,
    },
    /// Asks for all versions of an interval, which is numbered from 1.
    Versions {
        stream: Stream,
        day: Day,
        interval: u16,
    },
    /// Asks for all accumulations of a stream.
    Period {
        stream: Stream,
    },
    /// Asks for the known streams.
    Streams,
    /// Asks for the register of a stream's gaps in a range of days, both ends included.
    Gaps {
        stream: Stream,
        first: Day,
        last: Day,
    },
    /// Asks for the register of a stream's finals in a range of days, both ends included.
    Finals {
        stream: Stream,
        first: Day,
        last: Day,
    },
    /// Asks for the gaps of all streams that have a known day, in a range of days, both ends included. With `since` only for streams
    /// whose last known day is that day or later.
    Missing {
        first: Day,
        last: Day,
        since: Option<Day>,
    },
    /// Asks for the current readings of a stream in a range of days, both ends included, as rows.
    Readings {
        stream: Stream,
        first: Day,
        last: Day,
    },
    /// Asks for the current readings of streams of one NMI in a range of days, both ends included, as a NEM12 file with this
    /// header. A suffix given twice counts once.
    Export {
        nmi: Nmi,
        suffixes: Vec<Suffix>,
        first: Day,
        last: Day,
        header: Header,
    },
}
