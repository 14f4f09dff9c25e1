//! The reader of NEM13 files (MDFF Specification). It finds the first fault of a file, or what the file states. It
//! passes the statements to a sink record by record, or returns them all as accumulations.
//!
//! It decides which record may follow which (L3), how a file must end (L9), and the one form in which a 250 is kept. A
//! 250 without an update gets the moment of the header (`AccumulationBuilder::period`).
//! Called by `mds_service` to import accumulations, and by `mds_check`, which is a `PeriodSink`.
//! Must not change: the text of an accumulation's content (`Said.antt`). Rows of `mds_period` hold it, and an import
//! compares it with the text of a new file. The public name is `read_nem13`, in `mds::nem13`.
#![tactic(auto)]

mod accumulation;
mod builder;
mod content;
mod file_reader;
mod files;
mod sink;

pub use accumulation::Accumulation;
pub use file_reader::FileReader;
pub use files::{read_lines, read_nem13};
pub use mds_walk::{ReadFault, TakeFault as Nem13Fault, Walk};
pub use sink::PeriodSink;
