//! Reads requests to the machine: from a file that comes with a command, or from the target and the body of an HTTP request.
//!
//! It decides which query, path or body asks for which request (`targets.rt`). It decides which JSON text is a job (`job.rt`), and which
//! CSV text is a list of holidays (`holidays.rt`, H1).
//! Callers: `mdstore` for files, and `mds_http` for targets. `mds` re-exports `read_holidays` and `mds_full` `job_from_json`.
//! Must not change: the names in queries, the keys of a job and the form of a list of holidays, which `docs/FORMATS.md` and
//! `docs/openapi.yaml` describe. Contracts say what takes memory, and the service relies on it for its 503.
#![tactic(auto)]

mod bodies;
mod exports;
mod files;
mod holidays;
mod job;
mod job_fields;
mod job_parts;
mod query;
mod targets;
mod words;

pub use bodies::imports_interval_data;
pub use files::{FileCommand, RequestFault, request_in};
pub use holidays::{HolidaysFault, read_holidays};
pub use job::job_from_json;
pub use targets::{TargetFault, request_at};
