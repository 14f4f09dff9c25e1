//! Commits additions to a store of the current schema, and reads days, streams and details of days from it. This crate also makes the
//! tables. In mds_form each update of a day has a row.
//!
//! It decides in which order a commit puts its rows (`committing.rt`), and which days and streams are known (those with a row of mds_form).
//! It decides when the rows of a day can't be those of a store (`books.rt`), which makes the day unavailable (U1). It decides which details
//! of a day are current, by the order of its query (`rows.rt`), and which days don't have some details yet.
//! Callers: `mds_store` for its keeper, `create` and `adopt`, and `mds_migrate` for the step to schema 4 and for rows of details.
//! Must not change: the tables, which existing stores have. A row of mds_form comes after the row of mds_pack that it refers to. The first
//! row of a day has its current details: rows of the latest header come first, and for one header the greatest details. README names
//! `mds_commit::commit`.
#![tactic(auto)]

mod books;
mod committing;
mod days;
mod forms;
mod known_streams;
mod making;
mod querying;
mod ranges;
mod rows;
mod statements;
mod terms;
mod units;

pub use committing::commit;
pub use days::day_of;
pub use forms::FormTable;
pub use known_streams::{last_day, streams};
pub use making::make_tables;
pub use querying::{are_detail_rows, current_details, days_without, details_between};
pub use ranges::days_of;
pub use terms::details_at;
