//! The text of a selection of days as a NEM12 file (MDFF Specification; which rows it has is this project's profile).
//! By the definitions for reading files the text reads back as what was selected. `row` has the rows, each written as
//! one line: the 100, 200, 300, 400 and 900 records. `writer` writes the rows of a selection.
//!
//! It decides when an export has a 200 (`is_governed`), and when a day is V with 400 records (`one_mark`). It also
//! decides the form of each line, such as `0` for a null value.
//! Called by `mds_service`, whose answer to an export is this text. `write_nem12` and `write_record` are public calls.
//! Must not change: a selection has one text (`one_export_text`), which states what was selected and nothing else
//! (`export_reads_back`). It takes no memory but for the text.
#![tactic(auto)]

mod laws;
mod line;
mod row;
mod row_laws;
mod value;
mod writer;

pub use laws::{export_reads_back, one_export_text};
pub use row::{DayRow, DetailsRow, HeaderRow, Row, RunRow, write_record, write_run};
pub use row_laws::rows_read_back;
pub use writer::write_nem12;
