//! The World: what a store of metering data holds, as one set of facts. The definitions are in `specs`, the laws and
//! the types that facts are about are here.
//!
//! It decides which rules a World keeps (`World.antt`) and what of it is current (`Current.antt`). It also decides
//! which facts count as added or known (`Counts.antt`), and which facts a file states (`Stated.antt`).
//! Called by `mds_jobs`, `mds_keeper` and all crates of the store. The contracts of `mds_service` are about its World.
//! Must not change: the meaning of the rules and of what is current. M1, M2, M3 and each answer depend on them. The
//! order of facts has no meaning, but the order of `StreamDay` is that of a keeper's days.
#![tactic(auto)]

mod facts;
mod laws;

pub use facts::{Detail, Head, Key, StreamDay, empty_details};
pub use laws::{
    any_order, counts_grow, details_come_back, known_or_added, nearest_details, one_current,
    one_details, one_form, parts_agree, repeated_facts_add_nothing,
};
