//! One HTTP request over any reader, writer and handler. Its head is read and judged, and the handler is fed its body as it comes. Then the
//! handler answers, and the answer is written.
//!
//! It decides what the bytes of a connection mean. It defines the status of each bad head (`judge.rt`), the ten routes with their methods
//! (`route.rt`), and the limits of heads and bodies. It knows no keeper.
//! Callers: `mds_http` implements `Handler`. `mds_requests` uses routes and the parts of targets, and `mdstore` makes `Routes`. `mds_tests`
//! and `mds_trials` try it, and `mds_full` re-exports it.
//! Must not change: the order of the checks in `judge_head`, and the statuses, fields and bodies of answers, which `docs/openapi.yaml`
//! describes.
#![tactic(auto)]

mod answer;
mod body;
mod head;
mod judge;
mod laws;
mod route;
mod serve;
mod target;

pub use answer::{Kind, Status};
pub use laws::laws_of;
pub use route::{Route, RouteFinder, Routes};
pub use serve::{Failed, Handler, WireFault, serve_one};
pub use target::{first_part, path_of, query_of};
