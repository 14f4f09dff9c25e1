//! The lines and fields of MDFF files, borrowed from the buffer that they were read into. `Source` and `Sink` are what
//! the crates above read from and write to.
//!
//! It decides how a text is split into lines and fields, and which kind a line has (L1, L2). `Counted` repeats an
//! interrupted read or write, so it isn't a failed one. `LineReader` has the limits of L10, as `mds_walk` has for
//! files.
//! Called by `mds_walk` for lines, by `mds_records` for fields, and by `mds_wire`, `mds_desk` and `mds_check` for
//! sources and sinks. Only users and tests call `LineReader`.
//! Must not change: L1 comes before L2, and empty lines are numbered too. A source isn't read without need
//! (`IsNeeded`), so nobody at a terminal waits for a line that is there. Public names are in `mds::records`.
#![tactic(auto)]

mod fields;
mod line;
mod reader;
mod rest;
mod source;
mod streams;
mod text_source;

pub use fields::Fields;
pub use line::{Kind, KindFault, Line, one_split};
pub use reader::{LineBuffer, LineFault, LineReader};
pub use rest::{is_blank_from, next_field};
pub use source::{Counted, Sink, Source};
pub use streams::{read_more, write_whole};
pub use text_source::TextSource;
