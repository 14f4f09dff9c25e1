//! The terms of metering data. This crate has the details of meters, events and printable texts. It re-exports the
//! days, moments, lengths, names and marks of the crates below. Each term is read from its texts, and written as the
//! one text that reads back.
//!
//! It decides which details, events and printable texts are valid, and how details and events are ordered.
//! Called by all crates above: records borrow terms (`DetailsRef`, `EventRef`, `PrintableText`), and keepers own them.
//! Must not change: the order of details. The greatest of those under one moment are current, and the SQL of
//! `mds_commit` has the same order. The names that `mds::terms` makes public stay.
#![tactic(auto)]

mod details;
mod details_ref;
mod event;
mod event_ref;
mod parts;
mod printable;
mod printable_string;
mod trans_code;

pub use details::{Details, details_read_back};
pub use details_ref::DetailsRef;
pub use event::{Event, events_read_back};
pub use event_ref::EventRef;
pub use mds_calendar::{
    Day, Length, Moment, Weekday, first_and_last_day, lengths_read_back, one_day_text,
    one_moment_text, weekdays_go_on,
};
pub use mds_marks::{
    Mark, MarkRef, Quality, Reading, Reason, ReasonRef, marks_read_back, qualities_read_back,
    readings_read_back,
};
pub use mds_names::{Nmi, Stream, Suffix, names_read_back};
pub use parts::write_joined;
pub use printable::PrintableText;
pub use printable_string::PrintableString;
pub use trans_code::TransCode;
