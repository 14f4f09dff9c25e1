//! The test that comes before each call on a store.

ghost use Rattle.std.specs.Prelude.{◌≡◌, false, IfErr, OnErr, OnOk};
ghost use Rattle.sqlite.specs.Held.{state};
ghost use Rattle.sqlite.specs.State.{Fails, HasCleanDisk, KeepsCommit, Survives};
ghost use Rattle.mds_tables.specs.Stores.{IsReady};

use sqlite::{Alter, Connection, Error};

/// Tests that a connection in no transaction is open. It changes nothing.
pub fn ready<S: Alter>(conn: &mut Connection<S>) -> Result<(), Error>
    requires { conn.old.in_transaction ≡ false }
    ensures ok { HasCleanDisk (state S.Store conn.new) → OnOk result (IsReady (state S.Store conn.old) (state S.Store conn.new)) }
    ensures err { HasCleanDisk (state S.Store conn.new) → OnErr result (KeepsCommit (state S.Store conn.old) (state S.Store conn.new)) }
    // The text is a statement under any schema, so only the store can fail.
    ensures cause { HasCleanDisk (state S.Store conn.new) → IfErr result (λ e. Fails (state S.Store conn.old) (state S.Store conn.new) ⊥ e) }
    ensures mode { conn.new.in_transaction ≡ false }
    ensures survives { Survives (state S.Store conn.old) (state S.Store conn.new) (λ _. ⊥) }
{
    let _is_settled = conn.is_autocommit();
    let _schema = conn.schema();
    conn.prepare("SELECT 1")?;
    Ok(())
}
