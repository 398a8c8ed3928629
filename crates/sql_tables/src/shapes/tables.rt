//! Tables, indexes and whole schemas, compared.
ghost use Rattle.std.specs.Prelude.{◌≡◌, Decides, [], map};
ghost use Rattle.sql_tables.specs.Shapes.{IsBare, IsNamed, IsTable, table_in, index_in, schema_in};

use crate::shapes::columns::are_columns;
use crate::shapes::keys::is_keyed;
use crate::shapes::{IndexShape, SchemaShape, TableShape};
use sqlite_schema::code::Terms;
use sqlite_schema::schema::{Index, Schema, Stamps, Table};
use sqlite_value::keys::Order;

/// Whether there is no expression.
fn is_none(terms: &Terms) -> bool
    ensures { Decides result (terms.now ≡ []) }
{
    terms.roots.is_empty()
}

/// Whether nothing is stamped.
fn is_unstamped(stamps: &Stamps) -> bool
    ensures { Decides result (stamps.now ≡ record { places = []; terms = []; formats = [] }) }
{
    stamps.places.is_empty() && is_none(&stamps.terms) && stamps.formats.is_empty()
}

/// Whether a table has nothing but columns and keys.
fn is_bare(table: &Table) -> bool
    ensures { Decides result (IsBare table.now) }
{
    is_none(&table.checks)
        && table.references.is_empty()
        && table.computed.is_empty()
        && is_unstamped(&table.stamps)
        && !table.is_counted
}

/// Whether a table has the name, the tree and the columns of this shape.
fn is_named(table: &Table, shape: &TableShape<'_>) -> bool
    ensures { Decides result (IsNamed table.now shape.now) }
{
    table.name.as_slice() == shape.name.as_bytes()
        && table.tree == shape.tree
        && are_columns(table.columns.as_slice(), shape.columns)
}

/// Whether a table has each part of this shape.
fn has_parts(table: &Table, shape: &TableShape<'_>) -> bool
    ensures { Decides result (IsTable table.now shape.now) }
{
    is_named(table, shape) && is_keyed(table, shape) && is_bare(table)
}

/// Whether a table has this shape.
pub fn is_table(table: &Table, shape: &TableShape<'_>) -> bool
    ensures { Decides result (table.now ≡ table_in shape.now) }
{
    has_parts(table, shape)
}

/// Whether tables have these shapes, one by one.
fn are_tables(tables: &[Table], shapes: &[TableShape<'_>]) -> bool
    ensures { Decides result (tables.now ≡ map table_in shapes.now) }
{
    match (tables, shapes) {
        ([], []) => true,
        ([table, tables @ ..], [shape, shapes @ ..]) => {
            is_table(table, shape) && are_tables(tables, shapes)
        }
        _ => false,
    }
}

/// Whether an index has this shape.
fn is_index(index: &Index, shape: &IndexShape<'_>) -> bool
    ensures { Decides result (index.now ≡ index_in shape.now) }
{
    index.name.as_slice() == shape.name.as_bytes()
        && index.tree == shape.tree
        && index.table == shape.table
        && index.columns.as_slice() == shape.columns
        && index.order == Order::PLAIN
        && index.is_unique == shape.is_unique
}

/// Whether indexes have these shapes, one by one.
fn are_indexes(indexes: &[Index], shapes: &[IndexShape<'_>]) -> bool
    ensures { Decides result (indexes.now ≡ map index_in shapes.now) }
{
    match (indexes, shapes) {
        ([], []) => true,
        ([index, indexes @ ..], [shape, shapes @ ..]) => {
            is_index(index, shape) && are_indexes(indexes, shapes)
        }
        _ => false,
    }
}

/// Whether a schema has this shape whole.
pub fn is_schema(schema: &Schema, shape: &SchemaShape<'_>) -> bool
    ensures { Decides result (schema.now ≡ schema_in shape.now) }
{
    are_tables(schema.tables.as_slice(), shape.tables)
        && are_indexes(schema.indexes.as_slice(), shape.indexes)
        && schema.views.is_empty()
}
