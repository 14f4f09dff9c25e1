//! Why a database is no usable store, and whether a database is empty.

ghost use Rattle.std.specs.Prelude.{◌≡◌, ◌≢◌};
ghost use Rattle.std.specs.Bool.{MatchBool};
ghost use Rattle.mds_tables.specs.Tables.{no_schema};
ghost use Rattle.mds_store.specs.declared.fault.StoreFault.TheVariants.{Unavailable};

use sqlite::Error;
use sqlite_schema::schema::Schema;

/// Why a database isn't a usable store.
#[derive(Clone, Copy, Debug)]
pub enum StoreFault {
    /// The connection is in a transaction, which is the caller's (U1).
    InTransaction,
    /// The store failed with this error of the library (U1): memory ran out, the disk had a fault, or the limit of steps was
    /// reached.
    Unavailable(Error),
    /// The database is a store of an earlier schema (U2).
    EarlierSchema,
    /// The database isn't a store (U3). If a store was to be made, the database isn't empty (U3).
    OtherSchema,
}

impl From<Error> for StoreFault {
    ghost from_gives = { λ error fault. fault ≡ Unavailable error };

    fn from(error: Error) -> StoreFault {
        StoreFault::Unavailable(error)
    }
}

/// Whether a database has nothing in it. No store is made in any other (U3).
pub fn is_empty(schema: &Schema) -> bool
    ensures { MatchBool result (schema.now ≡ no_schema) (schema.now ≢ no_schema) }
{
    // decides: U3: a database to make a store in isn't empty
    schema.tables.is_empty() && schema.indexes.is_empty() && schema.views.is_empty()
}
