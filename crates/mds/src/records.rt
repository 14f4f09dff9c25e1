//! Sources and sinks of bytes, lines, fields and records, and the faults of a file.

pub use mds_export::{DayRow, DetailsRow, HeaderRow, Row, RunRow, write_record};
pub use mds_lines::{
    Counted, Fields, Kind, KindFault, Line, LineBuffer, LineFault, LineReader, Sink, Source,
};
pub use mds_records::{FaultCode, FieldFault, FileFault, FileKind, Record, read_record};
