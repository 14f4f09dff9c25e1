//! Makes the tables.

ghost use Rattle.std.specs.Prelude.{◌≡◌, ◌+◌, ◌<◌, IfErr, IsTrue, OnOk};
ghost use Rattle.sqlite.specs.Held.{state};
ghost use Rattle.sqlite.specs.State.{HasCleanDisk, KeepsCommit, Survives};
ghost use Rattle.mds_tables.specs.Causes.{HasFailed};
ghost use Rattle.mds_tables.specs.Making.{MakesThere};
ghost use Rattle.mds_pack_rows.specs.Making.{MakesTable, create};
ghost use Rattle.mds_pack_rows.specs.Schemas.{schema_of};

use sqlite::{Alter, Error, Transaction};

/// The statement that makes the table of a number. A table comes after those that it refers to.
fn statement(n: usize) -> &'static str
    ensures { result.now ≡ create n }
{
    // decides: which tables does a store have?
    match n {
        0 => "CREATE TABLE mds_schema (version INTEGER NOT NULL, UNIQUE (version)) STRICT",
        1 =>
            "CREATE TABLE mds_head (nmi TEXT NOT NULL, suffix TEXT NOT NULL, day INTEGER NOT NULL, length INTEGER NOT NULL, unit TEXT NOT NULL, PRIMARY KEY (nmi, suffix, day)) STRICT",
        2 =>
            "CREATE TABLE mds_version (nmi TEXT NOT NULL, suffix TEXT NOT NULL, day INTEGER NOT NULL, slot INTEGER NOT NULL, moment INTEGER NOT NULL, quality TEXT NOT NULL, code INTEGER NOT NULL, note TEXT NOT NULL, amount INTEGER NOT NULL, PRIMARY KEY (nmi, suffix, day, slot, moment), FOREIGN KEY (nmi, suffix, day) REFERENCES mds_head (nmi, suffix, day)) STRICT",
        3 =>
            "CREATE TABLE mds_detail (nmi TEXT NOT NULL, suffix TEXT NOT NULL, moment INTEGER NOT NULL, configuration TEXT NOT NULL, register TEXT NOT NULL, datastream TEXT NOT NULL, meter TEXT NOT NULL, next INTEGER NOT NULL, PRIMARY KEY (nmi, suffix, moment, configuration, register, datastream, meter, next)) STRICT",
        4 =>
            "CREATE TABLE mds_event (nmi TEXT NOT NULL, suffix TEXT NOT NULL, day INTEGER NOT NULL, trans TEXT NOT NULL, ticket TEXT NOT NULL, moment INTEGER NOT NULL, reading TEXT NOT NULL, PRIMARY KEY (nmi, suffix, day, trans, ticket, moment, reading)) STRICT",
        5 =>
            "CREATE TABLE mds_period (nmi TEXT NOT NULL, suffix TEXT NOT NULL, register TEXT NOT NULL, start INTEGER NOT NULL, finish INTEGER NOT NULL, moment INTEGER NOT NULL, body TEXT NOT NULL, PRIMARY KEY (nmi, suffix, register, start, finish, moment)) STRICT",
        6 => "CREATE TABLE mds_holiday (day INTEGER NOT NULL, UNIQUE (day)) STRICT",
        7 =>
            "CREATE TABLE mds_job (id TEXT NOT NULL, body TEXT NOT NULL, total INTEGER NOT NULL, PRIMARY KEY (id)) STRICT",
        8 =>
            "CREATE TABLE mds_pack (nmi TEXT NOT NULL, suffix TEXT NOT NULL, day INTEGER NOT NULL, moment INTEGER NOT NULL, body BLOB NOT NULL, PRIMARY KEY (nmi, suffix, day, moment), FOREIGN KEY (nmi, suffix, day) REFERENCES mds_head (nmi, suffix, day)) STRICT",
        9 =>
            "CREATE TABLE mds_daydetail (nmi TEXT NOT NULL, suffix TEXT NOT NULL, day INTEGER NOT NULL, moment INTEGER NOT NULL, configuration TEXT NOT NULL, register TEXT NOT NULL, datastream TEXT NOT NULL, meter TEXT NOT NULL, next INTEGER NOT NULL, PRIMARY KEY (nmi, suffix, day, moment, configuration, register, datastream, meter, next), FOREIGN KEY (nmi, suffix, day) REFERENCES mds_head (nmi, suffix, day)) STRICT",
        _ =>
            "CREATE TABLE mds_form (nmi TEXT NOT NULL, suffix TEXT NOT NULL, day INTEGER NOT NULL, moment INTEGER NOT NULL, length INTEGER NOT NULL, PRIMARY KEY (nmi, suffix, day, moment), FOREIGN KEY (nmi, suffix, day, moment) REFERENCES mds_pack (nmi, suffix, day, moment)) STRICT",
    }
}

/// Makes the table of a number, without a row, after those before it.
pub fn make_table<S: Alter>(tx: &mut Transaction<'_, S>, n: usize) -> Result<(), Error>
    requires { n < 11 }
    ensures same_reference { tx.new.conn.ghost_name ≡ tx.old.conn.ghost_name }
    ensures ok { OnOk result (MakesThere (schema_of n) (schema_of (n + 1)) (state S.Store tx.old.conn.now) (state S.Store tx.new.conn.now)) }
    ensures makes { OnOk result (HasCleanDisk (state S.Store tx.new.conn.now) → IsTrue (state S.Store tx.old.conn.now).is_open
        → (state S.Store tx.old.conn.now).now.schema ≡ schema_of n → MakesTable n (state S.Store tx.old.conn.now) (state S.Store tx.new.conn.now)) }
    ensures cause { HasCleanDisk (state S.Store tx.new.conn.now) → IsTrue (state S.Store tx.old.conn.now).in_transaction
        → (state S.Store tx.old.conn.now).now.schema ≡ schema_of n
        → IfErr result (HasFailed (state S.Store tx.old.conn.now) (state S.Store tx.new.conn.now)) }
    ensures kept { HasCleanDisk (state S.Store tx.new.conn.now) → KeepsCommit (state S.Store tx.old.conn.now) (state S.Store tx.new.conn.now) }
    ensures survives { Survives (state S.Store tx.old.conn.now) (state S.Store tx.new.conn.now) (λ _. ⊥) }
{
    tx.execute(statement(n), &[])?;
    Ok(())
}
