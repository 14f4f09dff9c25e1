//! The tables of a store in SQL: their shape, the facts that rows name, how tables are made, recognized and filled. Queries that are the
//! same in any layout are here, too.
//!
//! It decides the columns of each row except that of a packed day (`cells.rt`), and what a layout leaves open to a schema
//! (`specs/Layouts.antt`). A query that fails and a row that doesn't read become Unavailable (U1) here, and nowhere else (`refusals.rt`).
//! It decides which rows one statement puts (sixteen of a table, one of mds_event), and in which order: events, accumulations, holidays, jobs
//! (`putting.rt`). A job or an accumulation that can't become a row is Unavailable (U1). Rows of any table are put by one code (`rows.rt`):
//! a table gives texts, columns and one law (`Tabled`).
//! It decides which rows are read as a term, and which as nothing because the store never writes them (`terms.rt`). It answers which events
//! are kept, and whether mds_schema says a number (`querying.rt`).
//! Callers: every crate over SQL, from `mds_pack_rows` up to `mds_store` and `mds_migrate`. `mds_pack_rows` and `mds_commit` have tables of
//! their own.
//! Must not change: names, columns, keys and order of the tables. Existing stores have them, and a new table comes last, so that each tree
//! keeps its number. A row that doesn't read is never skipped, but makes the answer Unavailable (U1). The rows of old schemas stay readable,
//! since a migration begins there. All crates above say by `specs/Parts.antt` and `specs/Writing.antt` what a commit puts. `TOGETHER` is also
//! the count of rows in texts of SQL, and `together` of `specs/Parts.antt` is the same number.
#![tactic(auto)]

mod cells;
mod jobs;
mod known;
mod making;
mod periods;
mod putting;
mod querying;
mod readiness;
mod refusals;
mod rows;
mod selects;
mod tables;
mod terms;

pub use cells::{
    day_cells, detail_cells, event_cells, form_cells, holiday_cells, id_cells, job_cells,
    letter_of, period_cells, period_key_cells, range_cells, stream_cells, unit_cells,
};
pub use jobs::{JobRow, job_rows};
pub use known::{are_names, are_to_head, is_key_index, is_keyed, is_plain};
pub use making::say_version;
pub use periods::{PeriodRow, period_rows};
pub use putting::put_rest;
pub use querying::{all_versions, events_of, has_event, in_order, is_version, put};
pub use readiness::ready;
pub use refusals::{or_unavailable, told};
pub use rows::{TOGETHER, Tabled, put_all, put_each};
pub use tables::HeadTable;
pub use terms::{
    day_at, head_in, int_at, length_at, moment_at, str_at, stream_in, text_at, unit_at,
};
