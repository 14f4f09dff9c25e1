//! Makes the tables of the current schema.

ghost use Rattle.std.specs.Prelude.{◌≡◌, false, IfErr, IsTrue, OnErr, OnOk};
ghost use Rattle.sqlite.specs.Held.{state};
ghost use Rattle.sqlite.specs.State.{HasCleanDisk, KeepsCommit, Survives};
ghost use Rattle.mds_tables.specs.Causes.{HasFailed};
ghost use Rattle.mds_tables.specs.Making.{CommitsMadeOf, HasMadeOf, IsMadeOf, LeavesMadeOf, MakesThere};
ghost use Rattle.mds_tables.specs.Tables.{no_schema};
ghost use Rattle.mds_pack_rows.specs.Current.{current_layout, current_schema};

use mds_pack_rows::{CURRENT_TABLES, CURRENT_VERSION, make_table};
use mds_tables::{ready, say_version};
use sqlite::{Alter, Connection, Error, Transaction};

/// Makes all of the tables, without a row.
fn make_each<S: Alter>(tx: &mut Transaction<'_, S>) -> Result<(), Error>
    ensures same_reference { tx.new.conn.ghost_name ≡ tx.old.conn.ghost_name }
    ensures ok { OnOk result (MakesThere no_schema current_schema (state S.Store tx.old.conn.now) (state S.Store tx.new.conn.now)) }
    ensures cause { HasCleanDisk (state S.Store tx.new.conn.now) → IsTrue (state S.Store tx.old.conn.now).is_open
        → IsTrue (state S.Store tx.old.conn.now).in_transaction → (state S.Store tx.old.conn.now).now.schema ≡ no_schema
        → IfErr result (HasFailed (state S.Store tx.old.conn.now) (state S.Store tx.new.conn.now)) }
    ensures kept { HasCleanDisk (state S.Store tx.new.conn.now) → KeepsCommit (state S.Store tx.old.conn.now) (state S.Store tx.new.conn.now) }
    ensures survives { Survives (state S.Store tx.old.conn.now) (state S.Store tx.new.conn.now) (λ _. ⊥) }
{
    // decides: which tables does a store have?
    for n in 0..CURRENT_TABLES {
        make_table(tx, n)?;
    }
    Ok(())
}

/// Makes the tables, and says the number of the schema, in a transaction of its own.
fn make_all<S: Alter>(conn: &mut Connection<S>) -> Result<(), Error>
    requires { conn.old.in_transaction ≡ false }
    ensures ok { HasCleanDisk (state S.Store conn.new) → OnOk result (CommitsMadeOf current_layout (state S.Store conn.old) (state S.Store conn.new)) }
    ensures err { HasCleanDisk (state S.Store conn.new) → OnErr result (KeepsCommit (state S.Store conn.old) (state S.Store conn.new)) }
    ensures cause { HasCleanDisk (state S.Store conn.new) → IsTrue (state S.Store conn.old).is_open
        → (state S.Store conn.old).now.schema ≡ no_schema
        → IfErr result (HasFailed (state S.Store conn.old) (state S.Store conn.new)) }
    ensures mode { conn.new.in_transaction ≡ false }
    ensures survives { Survives (state S.Store conn.old) (state S.Store conn.new) (HasMadeOf current_layout (state S.Store conn.old)) }
{
    let mut tx = conn.transaction();
    make_each(&mut tx)?;
    say_version(&mut tx, CURRENT_VERSION)?;
    tx.commit()
}

/// Makes the tables of the current schema in a database that has none, and says in them its number, all in one transaction. A
/// crash leaves what was there, or all of it.
pub fn make_tables<S: Alter>(conn: &mut Connection<S>) -> Result<(), Error>
    requires { conn.old.in_transaction ≡ false }
    ensures ok { HasCleanDisk (state S.Store conn.new) → OnOk result (IsMadeOf current_layout (state S.Store conn.old) (state S.Store conn.new)) }
    ensures err { HasCleanDisk (state S.Store conn.new) → OnErr result (KeepsCommit (state S.Store conn.old) (state S.Store conn.new)) }
    // No rule of the database is against these tables. So the store fails, or the limit of steps is reached.
    ensures cause { HasCleanDisk (state S.Store conn.new)
        → (IsTrue (state S.Store conn.old).is_open → (state S.Store conn.old).committed.schema ≡ no_schema)
        → IfErr result (HasFailed (state S.Store conn.old) (state S.Store conn.new)) }
    ensures mode { conn.new.in_transaction ≡ false }
    ensures survives { Survives (state S.Store conn.old) (state S.Store conn.new) (LeavesMadeOf current_layout (state S.Store conn.old)) }
{
    ready(conn)?;
    make_all(conn)
}
