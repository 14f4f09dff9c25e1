//! What the readers of both kinds of MDFF files share. A feeder takes a file in pieces, cut anywhere, and passes its
//! lines to a walk. A walk takes the lines in order, and passes their records to a sink.
//!
//! It decides L10, and that L10, L1 and L2 come before the faults of a record. A fault of the end is on the line after
//! the last. The fault of a file is that of its least faulty line.
//! Called by `mds_nem12` and `mds_nem13`, whose `FileReader`s are its sinks. `mds_service`, `mds_desk` and `mds_http`
//! see its faults (`TakeFault`, `ReadFault`).
//! Must not change: how a file is cut has no effect. The first fault stays, and so does an allocation error. A source is
//! read only while what came has no fault and no end (`AreCallsNeeded`).
#![tactic(auto)]

mod fault;
mod feeder;
mod files;
mod laws;
mod sink;
mod walk;

pub use fault::{ReadFault, TakeFault, at_field, at_line};
pub use feeder::LineFeeder;
pub use files::read_file;
pub use laws::{fault_so_far_is_of_every_longer_text, feed_all};
pub use sink::RecordSink;
pub use walk::Walk;
