//! Migrates a store of an earlier schema to the next one, with one transaction for each step.
//!
//! It decides which step a store needs (`migrating.rt`), and what the step makes of its rows. A step packs versions (`packing.rt`), gives
//! days their details (`dating.rt`), or gives updates their heads (`forming.rt`).
//! Callers: the command `migrate` of `mdstore` by `migrate_all`, and `mds_trials`. `mds_full` re-exports it.
//! Must not change: what each step keeps (`specs/Migrated.antt`), as there are stores of all schemas. A step puts rows by the functions
//! that a commit uses. A refusal changes nothing, and a crash leaves the store as it was or that of a later schema, whole.
#![tactic(auto)]

mod dating;
mod forming;
mod migrating;
mod observing;
mod outcome;
mod packing;
mod statements;
mod step;

pub use mds_pack_rows::CURRENT;
pub use migrating::{migrate, migrate_all};
pub use observing::{StepObserver, Unobserved};
pub use outcome::{MigrateFault, Migrated};
