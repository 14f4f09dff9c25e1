//! The two parts of the public calls that need `sqlite` or `clap`: the store in tables, and the desk. They complete `mds`. The crate has no
//! code of its own.
//!
//! Callers: programs that use the libraries. No crate of this repository does.
//! Must not change: the parts and the names in them, which "Public calls by name" in `docs/CODE.md` lists.
#![tactic(auto)]

pub mod desk;
pub mod store;
