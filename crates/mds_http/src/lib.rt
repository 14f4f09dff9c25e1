//! A store over HTTP: the handler of requests over a keeper, and the service on a port of 127.0.0.1. One step of the machine does what a
//! request asks for.
//!
//! It decides the status of each answer (`telling.rt`), how long a peer may take (`timely.rt`), which connection is next (`waiting.rt`),
//! and what is logged. Connections wait side by side, and are served one after the other, each with one request.
//! Callers: the command `serve` of `mdstore`, and `mds_trials`. `mds_full` re-exports `StoreHandler` and `serve_one`.
//! Must not change: statuses and texts, which `docs/openapi.yaml` describes, and the form of a log line. README names the contracts of
//! `serve_connection` and `serve_connections`. No change goes unacknowledged for lack of memory.
#![tactic(auto)]

mod body;
mod connections;
mod handling;
mod laws;
mod logging;
mod request_line;
mod serving;
mod telling;
mod timely;
mod waiting;

pub use body::Body;
pub use connections::{Ended, serve_connections};
pub use handling::StoreHandler;
pub use laws::laws_of;
pub use logging::Log;
pub use serving::{serve_connection, serve_one};
