//! The reader of NEM12 files (MDFF Specification). It finds the first fault of a file, or what the file states. It
//! passes the statements to a sink record by record, with at most one day in hand, or returns them all as a delivery. A
//! file may come in pieces, cut anywhere.
//!
//! It decides which record may follow which (L3), what governs a record, when a day ends (L8) and how a file ends (L8,
//! L9). A 300 without an update gets the moment of the header (`DeliveryBuilder::day`).
//! Called by `mds_service`, `mds_desk` and `mds_http`, which need a delivery, and by `mds_check`, which is a
//! `StatementSink`.
//! Must not change: the order of faults in a line (`record_fault` in `Faults.antt`), and statements in the order of
//! lines. A day is passed on before the fields of the next record are looked at. Public names are in `mds::nem12`.
#![tactic(auto)]

mod delivery;
mod feeding;
mod file_reader;
mod files;
mod laws;
mod sink;

pub use feeding::{Reader, read_pieces};
pub use file_reader::FileReader;
pub use files::{read_delivery, read_lines, read_nem12};
pub use laws::{days_are_orderly, fault_is_fed, fault_is_of_every_longer_text, one_run_of_a_day};
pub use mds_days::{DayData, Tally};
pub use mds_statements::{Block, DeliveredDay, Delivery, Header};
pub use mds_walk::{ReadFault, TakeFault as Nem12Fault, Walk};
pub use sink::{Governing, StatementSink};
