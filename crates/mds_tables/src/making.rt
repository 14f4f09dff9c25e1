//! Says in the tables which schema they are.

ghost use Rattle.std.specs.Prelude.{◌≡◌, pos, IfErr, IsTrue, OnOk};
ghost use Rattle.sqlite.specs.Held.{state};
ghost use Rattle.sqlite.specs.State.{HasCleanDisk, KeepsCommit, Survives};
ghost use Rattle.mds_tables.specs.Causes.{HasFailed};
ghost use Rattle.mds_tables.specs.Layouts.{Layout};
ghost use Rattle.mds_tables.specs.Making.{AreEmpty, SaysVersionOf};
ghost use Rattle.mds_tables.specs.Tables.{schema_with, tables_with};

use sqlite::types::ValueRef;
use sqlite::{Alter, Error, Transaction};

/// Puts the row that says the number of the schema, whatever tables follow those that every schema has.
pub fn say_version<S: Alter>(tx: &mut Transaction<'_, S>, number: i64) -> Result<(), Error>
    ensures same_reference { tx.new.conn.ghost_name ≡ tx.old.conn.ghost_name }
    ensures ok { OnOk result ((layout : Layout) → number ≡ pos layout.number
        → SaysVersionOf layout (state S.Store tx.old.conn.now) (state S.Store tx.new.conn.now)) }
    ensures cause { HasCleanDisk (state S.Store tx.new.conn.now) → IsTrue (state S.Store tx.old.conn.now).is_open
        → IsTrue (state S.Store tx.old.conn.now).in_transaction → (layout : Layout) → number ≡ pos layout.number
        → (state S.Store tx.old.conn.now).now.schema ≡ schema_with layout.more
        → AreEmpty (tables_with layout.more) (state S.Store tx.old.conn.now).now
        → IfErr result (HasFailed (state S.Store tx.old.conn.now) (state S.Store tx.new.conn.now)) }
    ensures kept { HasCleanDisk (state S.Store tx.new.conn.now) → KeepsCommit (state S.Store tx.old.conn.now) (state S.Store tx.new.conn.now) }
    ensures survives { Survives (state S.Store tx.old.conn.now) (state S.Store tx.new.conn.now) (λ _. ⊥) }
{
    tx.execute(
        "INSERT INTO mds_schema (version) VALUES (?1)",
        &[ValueRef::Int(number)],
    )?;
    Ok(())
}
