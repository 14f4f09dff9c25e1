//! The program `mdstore`: from the words of a call to what it prints and its status.
//!
//! `call` does what the words ask for. `inputs` and `queries` pass files and queries to a store, and `asking` does so over a keeper.
//! `importing` imports NEM12 files as they are read. `commands` are those on a store in a file, which `store_file` opens and closes.
//! `place` records what was at its path. `why` prints the cause of a refusal on standard error (`cause`), as far as it is known. A cause comes
//! from an error that is passed to it (`noted`). It may also come from the bytes of a damaged file (`damage`) or of a bad job (`job_cause`).
//! `progress` shows how far a long run is, if there is a terminal (`terminal`).
//!
//! It decides the order of faults: those of the words, the file, the store, the reading, what is read, and then the request. It decides
//! what becomes of a store's file and its log (`place.rt`): a refusal leaves them as they were.
//! Callers: users and their scripts.
//! Must not change: what is printed and which status a call ends with, which `docs/USE.md` lists.
#![tactic(auto)]

mod asking;
mod call;
mod cause;
mod commands;
mod damage;
mod importing;
mod inputs;
mod job_cause;
mod noted;
mod place;
mod progress;
mod queries;
mod store_file;
mod terminal;
mod why;

use crate::call::run;
use std::process::ExitCode;

fn main(rt: HostRuntime) -> ExitCode {
    ExitCode::from(run(&rt).code())
}
