//! One place from which to call the libraries: each public call under the name of its part. The crate has no code of its own.
//!
//! It decides which calls are public. What needs `sqlite` or `clap` is in `mds_full`, so that users of this crate don't carry these.
//! Callers: programs that use the libraries. In this repository that is `mds_trials`.
//! Must not change: the parts and the names in them, which "Public calls by name" in `docs/CODE.md` lists.
#![tactic(auto)]

pub mod fill;
pub mod nem12;
pub mod nem13;
pub mod quantity;
pub mod records;
pub mod runs;
pub mod service;
pub mod terms;
pub mod versions;
