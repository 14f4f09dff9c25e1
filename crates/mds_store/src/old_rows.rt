//! The queries, and the rows that they return.

ghost use Rattle.std.specs.Prelude.{◌≡◌, [], ◌∷◌, IfErr};
ghost use Rattle.sqlite.specs.Held.{state};
ghost use Rattle.sqlite.specs.State.{HasCleanDisk};
ghost use Rattle.mds_tables.specs.Causes.{HasFailed};
ghost use Rattle.mds_tables.specs.Queries.{QueriesOf};
ghost use Rattle.mds_tables.specs.Stores.{SelectsAll};
ghost use Rattle.mds_tables.specs.Layouts.{Layout};
ghost use Rattle.mds_tables.specs.Tables.{detail_tree, schema_with, version_tree};
ghost use Rattle.mds_store.specs.Shown.{detail_moment, version_slot};

use sqlite::{Alter, Connection, Error, Row};

/// The interval of each row of mds_version, whatever tables follow those that every schema has.
pub(crate) fn slot_rows<S: Alter>(conn: &mut Connection<S>) -> Result<Vec<Row>, Error>
    ensures asked { (layout : Layout) → QueriesOf layout (state S.Store conn.old) (state S.Store conn.new) result (SelectsAll version_tree (version_slot ∷ [])) }
    ensures cause { (layout : Layout) → HasCleanDisk (state S.Store conn.new) → (state S.Store conn.old).now.schema ≡ schema_with layout.more
        → IfErr result (HasFailed (state S.Store conn.old) (state S.Store conn.new)) }
{
    conn.query_all("SELECT slot FROM mds_version", &[])
}

/// The moment of each row of mds_detail, whatever tables follow those that every schema has.
pub(crate) fn detail_rows<S: Alter>(conn: &mut Connection<S>) -> Result<Vec<Row>, Error>
    ensures asked { (layout : Layout) → QueriesOf layout (state S.Store conn.old) (state S.Store conn.new) result (SelectsAll detail_tree (detail_moment ∷ [])) }
    ensures cause { (layout : Layout) → HasCleanDisk (state S.Store conn.new) → (state S.Store conn.old).now.schema ≡ schema_with layout.more
        → IfErr result (HasFailed (state S.Store conn.old) (state S.Store conn.new)) }
{
    conn.query_all("SELECT moment FROM mds_detail", &[])
}
