//! The SQL statements.

ghost use Rattle.std.specs.Prelude.{◌≡◌, ◌≢◌, [], ◌∷◌, Err, IfErr, IfOk, IsOk, IsTrue, MatchResult, OnOk, false, length};
ghost use Rattle.std.specs.List.{flat_map};
ghost use Rattle.sqlite.specs.Held.{state};
ghost use Rattle.sqlite.specs.State.{HasCleanDisk, KeepsCommit, Survives};
ghost use Rattle.sqlite.specs.Values.{bound};
ghost use Rattle.sqlite.specs.declared.types.Value.TheVariants.{Blob, Int};
ghost use Rattle.mds_tables.specs.Cells.{day_cells as day_columns};
ghost use Rattle.mds_tables.specs.Parts.{together};
ghost use Rattle.mds_tables.specs.Stores.{Selects};
ghost use Rattle.mds_tables.specs.Tables.{More, schema_with};
ghost use Rattle.mds_pack_rows.specs.Batches.{SaySome, columns_of, said_by};
ghost use Rattle.mds_pack_rows.specs.FailureSteps.{is_store_error};
ghost use Rattle.mds_pack_rows.specs.PackCells as row;
ghost use Rattle.mds_pack_rows.specs.PackFacts.{body_facts};
ghost use Rattle.mds_pack_rows.specs.PackTables.{body_columns, pack_tree, packs_then, update_columns};
ghost use Rattle.mds_pack_rows.specs.Putting.{FindsThere, GoesOn, PutsBody, PutsFacts};

use mds_keeper::Unavailable;
use mds_tables::{day_cells, or_unavailable};
use mds_terms::{Day, Moment, Stream};
use sqlite::types::ValueRef;
use sqlite::{Alter, Error, ErrorCode, Row, Transaction};
use std::alloc::{AllocError, Global};

/// How many columns a row of mds_pack has, without its rowid.
const WIDTH: usize = 5;

/// The columns that name a day and an update.
fn key_cells<'a>(stream: &'a Stream, day: Day, update: Moment) -> [ValueRef<'a>; 4]
    ensures { bound result ≡ row.key_cells stream.now day update }
{
    [
        ValueRef::Text(stream.nmi.text().as_bytes()),
        ValueRef::Text(stream.suffix.text().as_bytes()),
        ValueRef::Int(day.number()),
        ValueRef::Int(update.seconds()),
    ]
}

/// The columns of a row.
fn pack_cells<'a>(stream: &'a Stream, day: Day, update: Moment, body: &'a [u8]) -> [ValueRef<'a>; 5]
    ensures { bound result ≡ row.pack_cells stream.now day update body.now }
{
    // decides: which row does a packed day get?
    [
        ValueRef::Text(stream.nmi.text().as_bytes()),
        ValueRef::Text(stream.suffix.text().as_bytes()),
        ValueRef::Int(day.number()),
        ValueRef::Int(update.seconds()),
        ValueRef::Blob(body),
    ]
}

/// A row that has yet to be put.
#[derive(Drop)]
pub(crate) struct PackRow {
    pub(crate) stream: Stream,
    pub(crate) day: Day,
    pub(crate) update: Moment,
    /// The body of its readings.
    pub(crate) body: Vec<u8>,
}

/// The columns of a row that has yet to be put.
fn cells_of<'a>(row: &'a PackRow) -> [ValueRef<'a>; 5]
    ensures { bound result ≡ columns_of row.now }
{
    pack_cells(&row.stream, row.day, row.update, row.body.as_slice())
}

/// The columns of rows that have yet to be put.
fn batch_cells<'a>(alloc: Global, rows: &'a [PackRow]) -> Result<Vec<ValueRef<'a>>, AllocError>
    ensures { IfOk result (λ cells. bound cells.items ≡ flat_map columns_of rows.now) }
{
    let mut cells = Vec::with_capacity(alloc, rows.len().saturating_mul(WIDTH))?;
    for row in rows {
        cells.extend_from_slice(&cells_of(row))?;
    }
    Ok(cells)
}

/// A rowid and a body.
fn body_cells<'a>(id: i64, body: &'a [u8]) -> [ValueRef<'a>; 2]
    ensures { bound result ≡ Int id ∷ Blob body.now ∷ [] }
{
    [ValueRef::Int(id), ValueRef::Blob(body)]
}

/// The updates and the bodies of a day, whatever tables follow mds_pack.
pub fn packs_of_day<S: Alter>(
    tx: &mut Transaction<'_, S>,
    stream: &Stream,
    day: Day,
) -> Result<Vec<Row>, Unavailable>
    ensures same_reference { tx.new.conn.ghost_name ≡ tx.old.conn.ghost_name }
    ensures ok { HasCleanDisk (state S.Store tx.new.conn.now)
        → IfOk result (λ rows. FindsThere (state S.Store tx.old.conn.now) (state S.Store tx.new.conn.now) (λ trees. Selects pack_tree (day_columns stream.now day) update_columns trees rows.items)) }
    ensures goes_on { OnOk result (GoesOn (state S.Store tx.old.conn.now) (state S.Store tx.new.conn.now)) }
    ensures kept { HasCleanDisk (state S.Store tx.new.conn.now) → (rest : More) → (state S.Store tx.old.conn.now).now.schema ≡ schema_with (packs_then rest)
        → KeepsCommit (state S.Store tx.old.conn.now) (state S.Store tx.new.conn.now) }
    ensures survives { Survives (state S.Store tx.old.conn.now) (state S.Store tx.new.conn.now) (λ _. ⊥) }
{
    or_unavailable(tx.query_all(
        "SELECT moment, body FROM mds_pack WHERE nmi = ?1 AND suffix = ?2 AND day = ?3",
        &day_cells(stream, day),
    ))
}

/// The rowid and the body of a day's row of an update, if it has one.
pub(crate) fn body_rows<S: Alter>(
    tx: &mut Transaction<'_, S>,
    stream: &Stream,
    day: Day,
    update: Moment,
) -> Result<Vec<Row>, Unavailable>
    ensures same_reference { tx.new.conn.ghost_name ≡ tx.old.conn.ghost_name }
    ensures ok { HasCleanDisk (state S.Store tx.new.conn.now)
        → IfOk result (λ rows. FindsThere (state S.Store tx.old.conn.now) (state S.Store tx.new.conn.now) (λ trees. Selects pack_tree (row.key_cells stream.now day update) body_columns trees rows.items)) }
    ensures goes_on { OnOk result (GoesOn (state S.Store tx.old.conn.now) (state S.Store tx.new.conn.now)) }
    ensures kept { HasCleanDisk (state S.Store tx.new.conn.now) → (rest : More) → (state S.Store tx.old.conn.now).now.schema ≡ schema_with (packs_then rest)
        → KeepsCommit (state S.Store tx.old.conn.now) (state S.Store tx.new.conn.now) }
    ensures survives { Survives (state S.Store tx.old.conn.now) (state S.Store tx.new.conn.now) (λ _. ⊥) }
{
    or_unavailable(tx.query_all(
        "SELECT rowid, body FROM mds_pack WHERE nmi = ?1 AND suffix = ?2 AND day = ?3 AND moment = ?4",
        &key_cells(stream, day, update),
    ))
}

/// Puts a row. Its body has at least one version.
pub(crate) fn insert_body<S: Alter>(
    tx: &mut Transaction<'_, S>,
    stream: &Stream,
    day: Day,
    update: Moment,
    body: &[u8],
) -> Result<(), Unavailable>
    requires some { body_facts stream.now day update body.now ≢ [] }
    ensures same_reference { tx.new.conn.ghost_name ≡ tx.old.conn.ghost_name }
    ensures ok { OnOk result (PutsFacts (state S.Store tx.old.conn.now) (state S.Store tx.new.conn.now) (body_facts stream.now day update body.now)) }
    ensures kept { HasCleanDisk (state S.Store tx.new.conn.now) → KeepsCommit (state S.Store tx.old.conn.now) (state S.Store tx.new.conn.now) }
    ensures survives { Survives (state S.Store tx.old.conn.now) (state S.Store tx.new.conn.now) (λ _. ⊥) }
{
    or_unavailable(tx.execute(
        "INSERT INTO mds_pack (nmi, suffix, day, moment, body) VALUES (?1, ?2, ?3, ?4, ?5)",
        &pack_cells(stream, day, update, body),
    ))?;
    Ok(())
}

/// Whether an error means that the store failed, and not the statement.
fn is_failure(e: &Error) -> bool
    ensures { result ≡ is_store_error e.now }
{
    match e {
        Error::SqliteFailure(code) => matches!(
            code,
            ErrorCode::OutOfMemory
                | ErrorCode::SystemIoFailure
                | ErrorCode::DatabaseCorrupt
                | ErrorCode::DiskFull
                | ErrorCode::Closed
                | ErrorCode::TooBig
        ),
        _ => false,
    }
}

/// Whether the tables took the rows of a statement. If the store failed, its error is passed on.
fn are_taken(answer: Result<usize, Error>) -> Result<bool, Error>
    ensures put { IfOk result (λ put. IsTrue put → IsOk answer) }
    ensures none { IfOk result (λ put. put ≡ false → MatchResult answer (λ _. ⊥) (λ e. is_store_error e ≡ false)) }
    ensures err { IfErr result (λ e. (answer ≡ Err e) × IsTrue (is_store_error e)) }
{
    match answer {
        Ok(_) => Ok(true),
        Err(e) => {
            if is_failure(&e) {
                return Err(e);
            }
            Ok(false)
        }
    }
}

/// Puts as many rows as one statement does. Each has at least one version. Returns whether the tables took them: if they refuse one,
/// all stays as it was.
pub(crate) fn insert_batch<S: Alter>(
    alloc: Global,
    tx: &mut Transaction<'_, S>,
    rows: &[PackRow],
) -> Result<bool, Unavailable>
    requires count { length rows.now ≡ together }
    requires some { SaySome rows.now }
    ensures same_reference { tx.new.conn.ghost_name ≡ tx.old.conn.ghost_name }
    ensures put { IfOk result (λ put. IsTrue put → PutsFacts (state S.Store tx.old.conn.now) (state S.Store tx.new.conn.now) (flat_map said_by rows.now)) }
    ensures none { IfOk result (λ put. put ≡ false → PutsFacts (state S.Store tx.old.conn.now) (state S.Store tx.new.conn.now) []) }
    ensures kept { HasCleanDisk (state S.Store tx.new.conn.now) → KeepsCommit (state S.Store tx.old.conn.now) (state S.Store tx.new.conn.now) }
    ensures survives { Survives (state S.Store tx.old.conn.now) (state S.Store tx.new.conn.now) (λ _. ⊥) }
{
    let cells = batch_cells(alloc, rows)?;
    or_unavailable(are_taken(tx.execute(
        "INSERT INTO mds_pack (nmi, suffix, day, moment, body) VALUES (?1, ?2, ?3, ?4, ?5), (?6, ?7, ?8, ?9, ?10), (?11, ?12, ?13, ?14, ?15), (?16, ?17, ?18, ?19, ?20), (?21, ?22, ?23, ?24, ?25), (?26, ?27, ?28, ?29, ?30), (?31, ?32, ?33, ?34, ?35), (?36, ?37, ?38, ?39, ?40), (?41, ?42, ?43, ?44, ?45), (?46, ?47, ?48, ?49, ?50), (?51, ?52, ?53, ?54, ?55), (?56, ?57, ?58, ?59, ?60), (?61, ?62, ?63, ?64, ?65), (?66, ?67, ?68, ?69, ?70), (?71, ?72, ?73, ?74, ?75), (?76, ?77, ?78, ?79, ?80)",
        cells.as_slice(),
    )))
}

/// Replaces the body of the row with this rowid. Unavailable unless there is just one.
pub(crate) fn replace_body<S: Alter>(
    tx: &mut Transaction<'_, S>,
    id: i64,
    body: &[u8],
) -> Result<(), Unavailable>
    ensures same_reference { tx.new.conn.ghost_name ≡ tx.old.conn.ghost_name }
    ensures ok { OnOk result (PutsBody (state S.Store tx.old.conn.now) (state S.Store tx.new.conn.now) id body.now) }
    ensures kept { HasCleanDisk (state S.Store tx.new.conn.now) → KeepsCommit (state S.Store tx.old.conn.now) (state S.Store tx.new.conn.now) }
    ensures survives { Survives (state S.Store tx.old.conn.now) (state S.Store tx.new.conn.now) (λ _. ⊥) }
{
    // decides: when is a row replaced, and which?
    let count = or_unavailable(tx.execute(
        "UPDATE mds_pack SET body = ?2 WHERE rowid = ?1",
        &body_cells(id, body),
    ))?;
    let is_replaced = count == 1;
    if !is_replaced {
        return Err(Unavailable);
    }
    Ok(())
}
