//! Whether a database has the table of records, and nothing else.

ghost use Rattle.std.specs.Prelude.{◌≡◌, ◌↔◌, [], ◌∷◌, true, IsTrue};
ghost use Rattle.sqlite_value.specs.declared.keys.Collation.TheVariants.{Binary};
ghost use Rattle.sqlite_value.specs.declared.value.Value.TheVariants.{Null};
ghost use Rattle.sqlite_schema.specs.declared.schema.Kind.TheVariants.{Blob};
ghost use Rattle.sqlstable.specs.Table.{no_schema, listed_schema, record_index, record_table};

use sqlite_items::Items;
use sqlite_schema::code::Terms;
use sqlite_schema::schema::{Column, Index, Kind, Schema, Table};
use sqlite_value::keys::{Collation, Order};
use sqlite_value::value::Value;

/// Nothing is there.
pub fn is_blank(schema: &Schema) -> bool
    ensures { IsTrue result ↔ (schema.now ≡ no_schema) }
{
    schema.tables.is_empty() && schema.indexes.is_empty() && schema.views.is_empty()
}

/// The table of records is there with its index, and nothing else.
pub fn is_ours(schema: &Schema) -> bool
    ensures { IsTrue result → schema.now ≡ listed_schema }
{
    are_tables(&schema.tables) && are_indexes(&schema.indexes) && schema.views.is_empty()
}

// That table alone.
fn are_tables(tables: &Items<Table>) -> bool
    ensures { IsTrue result → tables.now ≡ record_table ∷ [] }
{
    match tables.as_slice() {
        [table] => is_table(table),
        _ => false,
    }
}

// That index alone.
fn are_indexes(indexes: &Items<Index>) -> bool
    ensures { IsTrue result → indexes.now ≡ record_index ∷ [] }
{
    match indexes.as_slice() {
        [index] => is_index(index),
        _ => false,
    }
}

// The table of records.
fn is_table(table: &Table) -> bool
    ensures { IsTrue result → table.now ≡ record_table }
{
    if table.name.as_slice() != b"record".as_slice() || table.tree != 0 || table.is_counted {
        return false;
    }
    if !are_columns(&table.columns) || !are_uniques(&table.uniques) || !are_orders(&table.orders) {
        return false;
    }
    if !is_first_place(&table.primary) || !is_no_term(&table.checks) || !is_unstamped(table) {
        return false;
    }
    table.key.is_none() && table.references.is_empty() && table.computed.is_empty()
}

// The index of its key, which SQL names so.
fn is_index(index: &Index) -> bool
    ensures { IsTrue result → index.now ≡ record_index }
{
    if index.name.as_slice() != b"sqlite_autoindex_record_1".as_slice() || index.tree != 1 {
        return false;
    }
    index.table == 0 && is_first_place(&index.columns) && index.order.digits == 0 && index.is_unique
}

// The two columns of the table.
fn are_columns(columns: &Items<Column>) -> bool
    ensures { IsTrue result → columns.now ≡ record_table.columns }
{
    match columns.as_slice() {
        [key, bytes] => is_column(key, b"k") && is_column(bytes, b"v"),
        _ => false,
    }
}

// A column of this name, which holds bytes and nothing else.
fn is_column(column: &Column, name: &[u8]) -> bool
    ensures { IsTrue result → column.now ≡ record {
      name = name.now;
      kind = Blob;
      is_strict = true;
      not_null = true;
      default = Null;
      collation = Binary;
    } }
{
    if column.name.as_slice() != name || !column.is_strict || !column.not_null {
        return false;
    }
    if !matches!(column.default, Value::Null) {
        return false;
    }
    matches!(column.kind, Kind::Blob) && matches!(column.collation, Collation::Binary)
}

// One unique key, the first column.
fn are_uniques(uniques: &Items<Items<usize>>) -> bool
    ensures { IsTrue result → uniques.now ≡ record_table.uniques }
{
    match uniques.as_slice() {
        [places] => is_first_place(places),
        _ => false,
    }
}

// The place of the first column alone.
fn is_first_place(places: &Items<usize>) -> bool
    ensures { IsTrue result → places.now ≡ 1 ∷ [] }
{
    match places.as_slice() {
        [place] => *place == 1,
        _ => false,
    }
}

// In the plain order.
fn are_orders(orders: &Items<Order>) -> bool
    ensures { IsTrue result → orders.now ≡ record_table.orders }
{
    match orders.as_slice() {
        [order] => order.digits == 0,
        _ => false,
    }
}

// No default of a column reads the time.
fn is_unstamped(table: &Table) -> bool
    ensures { IsTrue result → table.now.stamps ≡ record_table.stamps }
{
    table.stamps.places.is_empty()
        && is_no_term(&table.stamps.terms)
        && table.stamps.formats.is_empty()
}

// There is no term.
fn is_no_term(terms: &Terms) -> bool
    ensures { IsTrue result → terms.now ≡ [] }
{
    terms.roots.is_empty()
}
