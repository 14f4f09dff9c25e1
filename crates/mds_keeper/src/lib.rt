//! The versions of a day, what lines add to them or why they are refused, and the trait of keepers of a World.
//!
//! It decides M1, M2 and M3 of a file's days (`DayMerge::take`, `head_conflict`), what counts as added and known, and
//! what a day shows (`DayBook`). `RefusalCode::text` has the codes of all refusals.
//! Called by `mds_service`, `mds_fill`, `mds_registers` and `mds_ranges`, over any keeper. `mds_memory` and
//! `mds_store` implement `Keeper`.
//! Must not change: what each call of `Keeper` promises (`specs/Kept.antt`, `specs/Queries.antt`), which both keepers
//! prove. The first line that breaks a rule is refused, by M1 before M2 before M3. `Additions` hold only what isn't
//! kept yet.
#![tactic(auto)]

mod additions;
mod book_rows;
mod claim;
mod claimed;
mod day_book;
mod day_merge;
mod keeper;
mod lent_version;
mod refusal;

pub use additions::{Additions, DayVersions, DetailDays, VersionRows};
pub use claim::Claim;
pub use day_book::{DayBook, Version};
pub use day_merge::{DayMerge, MergeCounts, Stop, head_conflict};
pub use keeper::{Keeper, Unavailable};
pub use lent_version::LentVersion;
pub use mds_world::{Head, Key, StreamDay};
pub use refusal::{Refusal, RefusalCode};
