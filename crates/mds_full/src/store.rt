//! The store in tables of `sqlite`, its migration, and its packed days.

pub use mds_migrate::{MigrateFault, Migrated, StepObserver, Unobserved, migrate, migrate_all};
pub use mds_packs::{pack_day, unpack_day};
pub use mds_store::{PackKeeper, StoreFault, adopt, create};
pub use mds_store_runs::run_packs;
