//! Recognizes a table, an index and a reference of a store by their parts.

ghost use Rattle.std.specs.Prelude.{◌≡◌, ◌↔◌, IsTrue, [], ◌∷◌, map};
ghost use Rattle.sqlite.specs.declared.types.Value.TheVariants.{Null};
ghost use Rattle.mds_tables.specs.Shapes.{HasKey, IsBare};
ghost use Rattle.mds_tables.specs.Tables.{key_index, keyed_table, needed, to_head};

use sqlite_items::Items;
use sqlite_schema::code::Terms;
use sqlite_schema::schema::{Action, Column, Index, Kind, Reference, Stamps, Table};
use sqlite_value::keys::{Collation, Order};
use sqlite_value::value::{Bytes, Value};

/// Whether a value is NULL.
fn is_null(value: &Value) -> bool
    ensures { IsTrue result ↔ (value.now ≡ Null) }
{
    matches!(value, Value::Null)
}

/// Whether a column has this name and type, in a STRICT table, and is NOT NULL.
fn is_needed(column: &Column, name: &str, kind: Kind) -> bool
    ensures { IsTrue result ↔ (column.now ≡ needed name.now kind) }
{
    column.name.as_slice() == name.as_bytes()
        && column.kind == kind
        && column.is_strict
        && column.not_null
        && is_null(&column.default)
        && column.collation == Collation::Binary
}

/// Whether these are the columns with these names and types.
fn are_needed(columns: &[Column], wanted: &[(&str, Kind)]) -> bool
    ensures { IsTrue result ↔ (columns.now ≡ map (λ one. needed one.0.now one.1) wanted.now) }
{
    let [one, later @ ..] = wanted else {
        return columns.is_empty();
    };
    let [column, others @ ..] = columns else {
        return false;
    };
    is_needed(column, one.0, one.1) && are_needed(others, later)
}

/// Whether a list has just these places.
fn is_list(list: &Items<usize>, places: &[usize]) -> bool
    ensures { IsTrue result ↔ (list.now ≡ places.now) }
{
    list.as_slice() == places
}

/// Whether the only list has these places.
fn is_only(lists: &[Items<usize>], places: &[usize]) -> bool
    ensures { IsTrue result ↔ (lists.now ≡ places.now ∷ []) }
{
    match lists {
        [list] => is_list(list, places),
        _ => false,
    }
}

/// Whether there is one order, in which all columns rise.
fn is_rising(orders: &[Order]) -> bool
    ensures { IsTrue result ↔ (orders.now ≡ (record { digits = 0 }) ∷ []) }
{
    match orders {
        [order] => order.digits == 0,
        _ => false,
    }
}

/// Whether a table has this PRIMARY KEY and this key.
fn has_key(table: &Table, primary: &[usize], key: &[usize]) -> bool
    ensures { IsTrue result ↔ HasKey table.now primary.now key.now }
{
    table.primary.as_slice() == primary
        && is_only(table.uniques.as_slice(), key)
        && is_rising(table.orders.as_slice())
}

/// Whether the terms are empty.
fn are_none(terms: &Terms) -> bool
    ensures { IsTrue result ↔ (terms.now ≡ []) }
{
    terms.roots.is_empty()
}

/// Whether no default reads the time.
fn is_timeless(stamps: &Stamps) -> bool
    ensures { IsTrue result ↔ (stamps.now ≡ record { places = []; terms = []; formats = [] }) }
{
    stamps.places.is_empty() && are_none(&stamps.terms) && stamps.formats.is_empty()
}

/// Whether a table has only columns and keys.
fn is_bare(table: &Table) -> bool
    ensures { IsTrue result ↔ IsBare table.now }
{
    table.key.is_none()
        && are_none(&table.checks)
        && table.computed.is_empty()
        && is_timeless(&table.stamps)
        && !table.is_counted
}

/// Whether a table has this name, tree, columns and keys, and otherwise only references.
pub fn is_keyed(
    table: &Table,
    name: &str,
    tree: u32,
    columns: &[(&str, Kind)],
    primary: &[usize],
    key: &[usize],
) -> bool
    ensures { IsTrue result ↔ (record table.now { references = [] }
        ≡ keyed_table name.now tree (map (λ one. needed one.0.now one.1) columns.now) primary.now key.now) }
{
    table.name.as_slice() == name.as_bytes()
        && table.tree == tree
        && are_needed(table.columns.as_slice(), columns)
        && has_key(table, primary, key)
        && is_bare(table)
}

/// Whether a table is this one, and refers to no other.
pub fn is_plain(
    table: &Table,
    name: &str,
    tree: u32,
    columns: &[(&str, Kind)],
    primary: &[usize],
    key: &[usize],
) -> bool
    ensures { IsTrue result ↔ (table.now
        ≡ keyed_table name.now tree (map (λ one. needed one.0.now one.1) columns.now) primary.now key.now) }
{
    is_keyed(table, name, tree, columns, primary, key) && table.references.is_empty()
}

/// Whether a name is the wanted one.
fn is_name(name: &Bytes, wanted: &str) -> bool
    ensures { IsTrue result ↔ (name.now ≡ wanted.now) }
{
    name.as_slice() == wanted.as_bytes()
}

/// Whether the names are the wanted ones.
pub fn are_names(names: &[Bytes], wanted: &[&str]) -> bool
    ensures { IsTrue result ↔ (names.now ≡ map (λ one. one.now) wanted.now) }
{
    let [one, later @ ..] = wanted else {
        return names.is_empty();
    };
    let [name, others @ ..] = names else {
        return false;
    };
    is_name(name, one) && are_names(others, later)
}

/// Whether a reference is the one to the head of a day.
fn is_to_head(reference: &Reference) -> bool
    ensures { IsTrue result ↔ (reference.now ≡ to_head) }
{
    reference.columns.as_slice() == [1, 2, 3].as_slice()
        && reference.parent.as_slice() == "mds_head".as_bytes()
        && are_names(
            reference.parent_columns.as_slice(),
            &["nmi", "suffix", "day"],
        )
        && reference.on_delete == Action::NoAction
        && reference.on_update == Action::NoAction
        && !reference.is_deferred
}

/// Whether the only reference is the one to the head of a day.
pub fn are_to_head(references: &[Reference]) -> bool
    ensures { IsTrue result ↔ (references.now ≡ to_head ∷ []) }
{
    match references {
        [reference] => is_to_head(reference),
        _ => false,
    }
}

/// Whether an index is the one of a table's key, with the tree after the table's.
pub fn is_key_index(index: &Index, name: &str, table: u32, key: &[usize]) -> bool
    ensures { IsTrue result ↔ (index.now ≡ key_index name.now table key.now) }
{
    index.name.as_slice() == name.as_bytes()
        && u64::from(index.tree) == u64::from(table) + 1
        && index.table == table
        && index.columns.as_slice() == key
        && index.order.digits == 0
        && index.is_unique
}
