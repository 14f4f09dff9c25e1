//! NEM12 files: what they state, read as a whole or in pieces, and written from a selection.

pub use mds_export::write_nem12;
pub use mds_nem12::{Nem12Fault, Reader, StatementSink, read_lines, read_nem12, read_pieces};
pub use mds_statements::{
    Block, DeliveredDay, Delivery, Header, SelectedDay, SelectedStream, Selection,
};
