//! The result of a migration.

ghost use Rattle.std.specs.Prelude.{◌≡◌};
ghost use Rattle.mds_migrate.specs.declared.outcome.MigrateFault.TheVariants.{Unavailable as CannotAnswer};

use mds_keeper::Unavailable;
use sqlite::Error;

/// What a migration did.
#[derive(Clone, Copy, Debug)]
pub enum Migrated {
    /// The store is now one of the next schema.
    Done,
    /// The store was one of the current schema already.
    AlreadyCurrent,
}

/// Why a database isn't migrated.
#[derive(Clone, Copy, Debug)]
pub enum MigrateFault {
    /// The connection is in a transaction, or the store failed (U1). A row that the store didn't write is a failure too.
    Unavailable,
    /// The database is a store of none of the schemas (U3).
    OtherSchema,
}

impl From<Error> for MigrateFault {
    ghost from_gives = { λ _ fault. fault ≡ CannotAnswer };

    fn from(_: Error) -> MigrateFault {
        MigrateFault::Unavailable
    }
}

impl From<Unavailable> for MigrateFault {
    ghost from_gives = { λ _ fault. fault ≡ CannotAnswer };

    fn from(_: Unavailable) -> MigrateFault {
        MigrateFault::Unavailable
    }
}
