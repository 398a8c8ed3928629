//! Columns of a table, compared.
ghost use Rattle.std.specs.Prelude.{◌≡◌, Decides, map};
ghost use Rattle.sql_tables.specs.Schema.{column_of};
ghost use Rattle.sql_tables.specs.Shapes.{column_in};

use crate::shapes::ColumnShape;
use sqlite_schema::schema::{Column, Kind};
use sqlite_value::keys::Collation;
use sqlite_value::value::Value;

/// Whether a value is NULL.
fn is_null(value: &Value) -> bool
    ensures { Decides result (value.now ≡ Value.Null) }
{
    match value {
        Value::Null => true,
        _ => false,
    }
}

/// Whether a column of a STRICT table has this name and this type, no default and no collation of its own.
fn is_plain_column(column: &Column, name: &str, kind: Kind) -> bool
    ensures { Decides result (column.now ≡ column_of column.now.not_null name.now kind) }
{
    column.name.as_slice() == name.as_bytes()
        && column.kind == kind
        && column.is_strict
        && is_null(&column.default)
        && column.collation == Collation::Binary
}

/// Whether a column has this shape.
fn is_column(column: &Column, shape: &ColumnShape<'_>) -> bool
    ensures { Decides result (column.now ≡ column_in shape.now) }
{
    match *shape {
        ColumnShape::Present(name, kind) => {
            column.not_null && is_plain_column(column, name, kind)
        }
        ColumnShape::Optional(name, kind) => {
            !column.not_null && is_plain_column(column, name, kind)
        }
    }
}

/// Whether columns have these shapes, one by one.
pub(crate) fn are_columns(columns: &[Column], shapes: &[ColumnShape<'_>]) -> bool
    ensures { Decides result (columns.now ≡ map column_in shapes.now) }
{
    match (columns, shapes) {
        ([], []) => true,
        ([column, columns @ ..], [shape, shapes @ ..]) => {
            is_column(column, shape) && are_columns(columns, shapes)
        }
        _ => false,
    }
}
