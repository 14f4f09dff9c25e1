//! The answers of the machine as JSON texts.
//!
//! It decides which members an answer has, and how terms are written in them (`specs/Json.antt`). Registers and exports are texts of their
//! own, and no JSON.
//! Callers: `mds_desk` for what a command prints, and `mds_http` for what the service sends. `mds_full` re-exports `answer_json`, and
//! `mds_trials` prints with it.
//! Must not change: the texts, which `docs/FORMATS.md` and `docs/openapi.yaml` describe: compact, with keys in the order of their bytes. An
//! answer without a list takes no memory if there is room for 160 bytes.
#![tactic(auto)]

mod days;
mod json;
mod listed;
mod periods;
mod short;
mod streams;
mod told;

pub use json::{answer_json, holidays_json, one_json, short_json};
pub use listed::list_json;
