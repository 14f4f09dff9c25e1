//! The records of MDFF files, whose texts are borrowed from the buffer that they were read into. The names of
//! `mds_lines` for lines and fields are re-exported.
//!
//! It decides what each field of a record may be, and which fault of its fields comes first (L11, L4, L5). It also
//! decides how a file's fault is printed (`FaultCode::text`).
//! Called by `mds_nem12` and `mds_nem13` to read records, and by `mds_days`. `mds_check`, `mds_messages`, `mds_answers`
//! and `mds_http` report its `FileFault`.
//! Must not change: L11 comes before L4, and L4 before L5 with the least field number. The codes `L1` to `L12` and the
//! printed form are fixed. Reading a record takes no memory: the values of a 300 go into a buffer that the caller
//! lends.
#![tactic(auto)]

mod accumulation_b2b_details;
mod accumulation_data;
mod b2b_details;
mod direction;
mod fault;
mod file;
mod header;
mod header_name;
mod interval_data;
mod interval_event;
mod interval_values;
mod nmi_data_details;
mod record;
mod register_read;
mod term;

pub use accumulation_b2b_details::{AccumulationB2bDetailsRecord, read_accumulation_b2b_details};
pub use accumulation_data::{AccumulationDataRecord, read_accumulation_data};
pub use b2b_details::{B2bDetailsRecord, read_b2b_details};
pub use direction::Direction;
pub use fault::FieldFault;
pub use file::{FaultCode, FileFault, FileKind};
pub use header::{HeaderRecord, read_header};
pub use header_name::HeaderName;
pub use interval_data::{IntervalDataRecord, read_interval_data};
pub use interval_event::{IntervalEventRecord, read_interval_event};
pub use interval_values::IntervalValues;
pub use mds_lines::{
    Counted, Fields, Kind, KindFault, Line, LineBuffer, LineFault, LineReader, Sink, Source,
};
pub use nmi_data_details::{NmiDataDetailsRecord, read_nmi_data_details};
pub use record::{Record, read_end, read_record};
pub use register_read::RegisterRead;
