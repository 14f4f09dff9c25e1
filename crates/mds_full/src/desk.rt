//! The words of a command, checks, JSON texts, and requests over HTTP.

pub use mds_answers::answer_json;
pub use mds_check::{CheckFault, check};
pub use mds_http::{StoreHandler, serve_one};
pub use mds_requests::job_from_json;
pub use mds_wire::{Routes, Status, WireFault};
pub use mds_words::{Words, WordsFault, read_words};
