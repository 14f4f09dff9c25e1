//! The messages of the machine, as types: requests and answers.
//!
//! It decides what can be asked of a store, and what an answer holds. An answer has one of three shapes. It is a text of its own
//! (`Answer::text`), has a list in it (`Answer::has_list`), or is short. What an answer means is defined in `mds_service`
//! (`specs/Machine.antt`), which re-exports these types.
//! Callers: `mds_service` answers requests. `mds_arguments` and `mds_requests` make requests, and `mds_answers`, `mds_desk` and `mds_http`
//! print answers.
//! Must not change: the variants and fields, which are public in `mds::service` (README shows three requests). The order of the lists in an
//! answer is the order in which they are printed.
#![tactic(auto)]

mod answer;
mod request;

pub use answer::{Answer, DayAnswer, PeriodAnswer, StreamAnswer, VersionsAnswer};
pub use request::Request;
