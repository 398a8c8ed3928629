//! Keys of a table, compared.
ghost use Rattle.std.specs.Prelude.{◌≡◌, Decides, map};
ghost use Rattle.sql_tables.specs.Shapes.{IsKeyed, key_in};
ghost use Rattle.sqlite_value.specs.Keys.{plain};

use crate::shapes::TableShape;
use sqlite_items::Items;
use sqlite_schema::schema::Table;
use sqlite_value::keys::Order;

/// Whether a key has these columns.
fn is_key(key: &[usize], shape: &[usize]) -> bool
    ensures { Decides result (key.now ≡ shape.now) }
{
    key == shape
}

/// Whether keys have these columns, one by one.
fn are_keys(keys: &[Items<usize>], shapes: &[&[usize]]) -> bool
    ensures { Decides result (keys.now ≡ map key_in shapes.now) }
{
    match (keys, shapes) {
        ([], []) => true,
        ([key, keys @ ..], [shape, shapes @ ..]) => {
            is_key(key.as_slice(), *shape) && are_keys(keys, shapes)
        }
        _ => false,
    }
}

/// Whether each of these keys ascends in all its columns.
fn are_plain(orders: &[Order], shapes: &[&[usize]]) -> bool
    ensures { Decides result (orders.now ≡ map (λ _. plain) (map key_in shapes.now)) }
{
    match (orders, shapes) {
        ([], []) => true,
        ([order, orders @ ..], [_, shapes @ ..]) => {
            *order == Order::PLAIN && are_plain(orders, shapes)
        }
        _ => false,
    }
}

/// Whether a table has the keys of this shape.
pub(crate) fn is_keyed(table: &Table, shape: &TableShape<'_>) -> bool
    ensures { Decides result (IsKeyed table.now shape.now) }
{
    table.key == shape.rowid
        && is_key(table.primary.as_slice(), shape.primary)
        && are_keys(table.uniques.as_slice(), shape.uniques)
        && are_plain(table.orders.as_slice(), shape.uniques)
}
