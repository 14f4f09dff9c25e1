//! Recognizes a schema of a store, by its number.

ghost use Rattle.std.specs.Prelude.{◌≡◌, ◌≢◌, ◌↔◌, ◌+◌, ◌≤◌, ◌<◌, ◌*◌, IsTrue, [], ◌∷◌, length, map};
ghost use Rattle.std.specs.Bool.{MatchBool};
ghost use Rattle.mds_tables.specs.Tables.{detail_table, event_table, head_table, holiday_table, job_table, key_index, needed, period_table, schema_table, table_of, to_head, version_table};
ghost use Rattle.mds_pack_rows.specs.DailyTables.{daydetail_table};
ghost use Rattle.mds_pack_rows.specs.FormTables.{form_table, to_pack};
ghost use Rattle.mds_pack_rows.specs.PackTables.{pack_table};
ghost use Rattle.mds_pack_rows.specs.Schemas.{indexes_from, nth_index, nth_schema, nth_table, tables_from};

use mds_tables::{are_names, are_to_head, is_key_index, is_keyed, is_plain};
use sqlite_schema::schema::{Action, Index, Kind, Reference, Schema, Table};

/// The number of the current schema: that of the stores that are made, and in which a migration ends.
pub const CURRENT: u8 = 4;

/// The same, as mds_schema says it.
pub const CURRENT_VERSION: i64 = CURRENT as i64;

/// How many tables it has.
pub const CURRENT_TABLES: usize = CURRENT as usize + 7;

/// Whether this is the table of the number of the schema.
fn is_schema(table: &Table) -> bool
    ensures { IsTrue result ↔ (table.now ≡ schema_table) }
{
    is_plain(
        table,
        "mds_schema",
        0,
        &[("version", Kind::Integer)],
        &[],
        &[1],
    )
}

/// Whether this is the table of the heads of days.
fn is_head(table: &Table) -> bool
    ensures { IsTrue result ↔ (table.now ≡ head_table) }
{
    is_plain(
        table,
        "mds_head",
        2,
        &[
            ("nmi", Kind::Text),
            ("suffix", Kind::Text),
            ("day", Kind::Integer),
            ("length", Kind::Integer),
            ("unit", Kind::Text),
        ],
        &[1, 2, 3],
        &[1, 2, 3],
    )
}

/// Whether this is the table of versions of readings.
fn is_version(table: &Table) -> bool
    ensures { IsTrue result ↔ (table.now ≡ version_table) }
{
    is_keyed(
        table,
        "mds_version",
        4,
        &[
            ("nmi", Kind::Text),
            ("suffix", Kind::Text),
            ("day", Kind::Integer),
            ("slot", Kind::Integer),
            ("moment", Kind::Integer),
            ("quality", Kind::Text),
            ("code", Kind::Integer),
            ("note", Kind::Text),
            ("amount", Kind::Integer),
        ],
        &[1, 2, 3, 4, 5],
        &[1, 2, 3, 4, 5],
    ) && are_to_head(table.references.as_slice())
}

/// Whether this is the table of details.
fn is_detail(table: &Table) -> bool
    ensures { IsTrue result ↔ (table.now ≡ detail_table) }
{
    is_plain(
        table,
        "mds_detail",
        6,
        &[
            ("nmi", Kind::Text),
            ("suffix", Kind::Text),
            ("moment", Kind::Integer),
            ("configuration", Kind::Text),
            ("register", Kind::Text),
            ("datastream", Kind::Text),
            ("meter", Kind::Text),
            ("next", Kind::Integer),
        ],
        &[1, 2, 3, 4, 5, 6, 7, 8],
        &[1, 2, 3, 4, 5, 6, 7, 8],
    )
}

/// Whether this is the table of events.
fn is_event(table: &Table) -> bool
    ensures { IsTrue result ↔ (table.now ≡ event_table) }
{
    is_plain(
        table,
        "mds_event",
        8,
        &[
            ("nmi", Kind::Text),
            ("suffix", Kind::Text),
            ("day", Kind::Integer),
            ("trans", Kind::Text),
            ("ticket", Kind::Text),
            ("moment", Kind::Integer),
            ("reading", Kind::Text),
        ],
        &[1, 2, 3, 4, 5, 6, 7],
        &[1, 2, 3, 4, 5, 6, 7],
    )
}

/// Whether this is the table of accumulations.
fn is_period(table: &Table) -> bool
    ensures { IsTrue result ↔ (table.now ≡ period_table) }
{
    is_plain(
        table,
        "mds_period",
        10,
        &[
            ("nmi", Kind::Text),
            ("suffix", Kind::Text),
            ("register", Kind::Text),
            ("start", Kind::Integer),
            ("finish", Kind::Integer),
            ("moment", Kind::Integer),
            ("body", Kind::Text),
        ],
        &[1, 2, 3, 4, 5, 6],
        &[1, 2, 3, 4, 5, 6],
    )
}

/// Whether this is the table of holidays.
fn is_holiday(table: &Table) -> bool
    ensures { IsTrue result ↔ (table.now ≡ holiday_table) }
{
    is_plain(
        table,
        "mds_holiday",
        12,
        &[("day", Kind::Integer)],
        &[],
        &[1],
    )
}

/// Whether this is the table of substitution jobs.
fn is_job(table: &Table) -> bool
    ensures { IsTrue result ↔ (table.now ≡ job_table) }
{
    is_plain(
        table,
        "mds_job",
        14,
        &[
            ("id", Kind::Text),
            ("body", Kind::Text),
            ("total", Kind::Integer),
        ],
        &[1],
        &[1],
    )
}

/// Whether a table has this name, tree, columns and PRIMARY KEY, and its rows refer to the heads of their days.
fn is_of_days(table: &Table, name: &str, tree: u32, columns: &[(&str, Kind)], key: &[usize]) -> bool
    ensures { IsTrue result ↔ (table.now
        ≡ record (table_of name.now tree (map (λ one. needed one.0.now one.1) columns.now) key.now) { references = to_head ∷ [] }) }
{
    is_keyed(table, name, tree, columns, key, key) && are_to_head(table.references.as_slice())
}

/// Whether this is the table of packed days.
fn is_pack(table: &Table) -> bool
    ensures { IsTrue result ↔ (table.now ≡ pack_table) }
{
    is_of_days(
        table,
        "mds_pack",
        16,
        &[
            ("nmi", Kind::Text),
            ("suffix", Kind::Text),
            ("day", Kind::Integer),
            ("moment", Kind::Integer),
            ("body", Kind::Blob),
        ],
        &[1, 2, 3, 4],
    )
}

/// Whether this is the table of the details of days.
fn is_daydetail(table: &Table) -> bool
    ensures { IsTrue result ↔ (table.now ≡ daydetail_table) }
{
    is_of_days(
        table,
        "mds_daydetail",
        18,
        &[
            ("nmi", Kind::Text),
            ("suffix", Kind::Text),
            ("day", Kind::Integer),
            ("moment", Kind::Integer),
            ("configuration", Kind::Text),
            ("register", Kind::Text),
            ("datastream", Kind::Text),
            ("meter", Kind::Text),
            ("next", Kind::Integer),
        ],
        &[1, 2, 3, 4, 5, 6, 7, 8, 9],
    )
}

/// Whether a reference is the one to the row of mds_pack with the head's versions.
fn is_to_pack(reference: &Reference) -> bool
    ensures { IsTrue result ↔ (reference.now ≡ to_pack) }
{
    reference.columns.as_slice() == [1, 2, 3, 4].as_slice()
        && reference.parent.as_slice() == "mds_pack".as_bytes()
        && are_names(
            reference.parent_columns.as_slice(),
            &["nmi", "suffix", "day", "moment"],
        )
        && reference.on_delete == Action::NoAction
        && reference.on_update == Action::NoAction
        && !reference.is_deferred
}

/// Whether the only reference is that one.
fn are_to_pack(references: &[Reference]) -> bool
    ensures { IsTrue result ↔ (references.now ≡ to_pack ∷ []) }
{
    match references {
        [reference] => is_to_pack(reference),
        _ => false,
    }
}

/// Whether this is the table of the heads of days.
fn is_form(table: &Table) -> bool
    ensures { IsTrue result ↔ (table.now ≡ form_table) }
{
    is_keyed(
        table,
        "mds_form",
        20,
        &[
            ("nmi", Kind::Text),
            ("suffix", Kind::Text),
            ("day", Kind::Integer),
            ("moment", Kind::Integer),
            ("length", Kind::Integer),
        ],
        &[1, 2, 3, 4],
        &[1, 2, 3, 4],
    ) && are_to_pack(table.references.as_slice())
}

/// Whether a table is that of this number.
fn is_nth(table: &Table, n: usize) -> bool
    requires { n < 11 }
    ensures { IsTrue result ↔ (table.now ≡ nth_table n) }
{
    match n {
        0 => is_schema(table),
        1 => is_head(table),
        2 => is_version(table),
        3 => is_detail(table),
        4 => is_event(table),
        5 => is_period(table),
        6 => is_holiday(table),
        7 => is_job(table),
        8 => is_pack(table),
        9 => is_daydetail(table),
        _ => is_form(table),
    }
}

/// The name of the index of a table's key, and the columns of the key.
fn key_of(n: usize) -> (&'static str, &'static [usize])
    requires { n < 11 }
    ensures { (nth_index n) ≡ key_index result.0.now (n * 2) result.1.now }
{
    match n {
        0 => ("sqlite_autoindex_mds_schema_1", &[1]),
        1 => ("sqlite_autoindex_mds_head_1", &[1, 2, 3]),
        2 => ("sqlite_autoindex_mds_version_1", &[1, 2, 3, 4, 5]),
        3 => ("sqlite_autoindex_mds_detail_1", &[1, 2, 3, 4, 5, 6, 7, 8]),
        4 => ("sqlite_autoindex_mds_event_1", &[1, 2, 3, 4, 5, 6, 7]),
        5 => ("sqlite_autoindex_mds_period_1", &[1, 2, 3, 4, 5, 6]),
        6 => ("sqlite_autoindex_mds_holiday_1", &[1]),
        7 => ("sqlite_autoindex_mds_job_1", &[1]),
        8 => ("sqlite_autoindex_mds_pack_1", &[1, 2, 3, 4]),
        9 => (
            "sqlite_autoindex_mds_daydetail_1",
            &[1, 2, 3, 4, 5, 6, 7, 8, 9],
        ),
        _ => ("sqlite_autoindex_mds_form_1", &[1, 2, 3, 4]),
    }
}

/// Whether an index is that of a table's key.
fn is_nth_index(index: &Index, n: usize) -> bool
    requires { n < 11 }
    ensures { IsTrue result ↔ (index.now ≡ nth_index n) }
{
    let (name, key) = key_of(n);
    is_key_index(index, name, n as u32 * 2, key)
}

/// Whether these are the tables from a number on.
fn are_tables(tables: &[Table], n: usize) -> bool
    requires { n + length tables.now ≤ 11 }
    ensures { IsTrue result ↔ (tables.now ≡ tables_from n (length tables.now)) }
{
    match tables {
        [] => true,
        [table, rest @ ..] => is_nth(table, n) && are_tables(rest, n + 1),
    }
}

/// Whether these are the indexes from a number on.
fn are_indexes(indexes: &[Index], n: usize) -> bool
    requires { n + length indexes.now ≤ 11 }
    ensures { IsTrue result ↔ (indexes.now ≡ indexes_from n (length indexes.now)) }
{
    match indexes {
        [] => true,
        [index, rest @ ..] => is_nth_index(index, n) && are_indexes(rest, n + 1),
    }
}

/// Whether a database has just the tables of the schema of a number, as the store makes them.
pub fn has_schema(schema: &Schema, number: u8) -> bool
    requires low { 1 ≤ number }
    requires high { number ≤ 4 }
    ensures { MatchBool result (schema.now ≡ nth_schema number) (schema.now ≢ nth_schema number) }
{
    let count = number as usize + 7;
    let (tables, indexes) = (schema.tables.as_slice(), schema.indexes.as_slice());
    if tables.len() != count {
        return false;
    }
    if indexes.len() != count {
        return false;
    }
    if !schema.views.is_empty() {
        return false;
    }
    are_tables(tables, 0) && are_indexes(indexes, 0)
}
