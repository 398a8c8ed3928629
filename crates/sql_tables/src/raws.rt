//! The rows that a query shows as values of Rust.
ghost use Rattle.std.specs.Prelude.{◌≡◌, IfErr, IfOk};
ghost use Rattle.sqlite.proofs.Callers.{IsPlain};
ghost use Rattle.sqlite.specs.Listing.{understood};
ghost use Rattle.sqlite.specs.Order.{Row as SqlRow};
ghost use Rattle.sqlite.specs.Schema.{Schema};
ghost use Rattle.sql_tables.specs.Reading.{ReadsRows};
ghost use Rattle.sql_tables.specs.Values.{IsStrange};

use crate::fault::StoreFault;
use crate::taken::taken;
use sqlite::{Alter, Connection, Row};
use std::alloc::Global;

/// The rows of a table as values of Rust: as its newest version has them. A table is a type, and its rows may
/// be of a crate that knows no database.
pub trait Raw {
    type Of: Drop;

    ghost values: { Self.Of → SqlRow };

    fn read(row: &Row) -> Result<Self::Of, StoreFault>
        // with Ok, the row has the values of the raw one
        ensures values { IfOk result (λ raw. row.now ≡ values raw) }
        // after Store, no raw row has these values
        ensures refused { IfErr result (λ e. e ≡ StoreFault.Store → IsStrange values row.now) };
}

/// The rows that a query shows: each is read as it comes.
pub fn shown<S: Alter, R: Raw>(
    alloc: Global,
    conn: &mut Connection<S>,
    sql: &str,
) -> Result<Vec<R::Of>, StoreFault>
    ensures { (s : Schema) → IsPlain (understood s sql.now)
        → ReadsRows S.Store (record { schema = s; text = sql.now; values = R.values }) result conn.old
        conn.new }
{
    taken::<S, R, Vec<R::Of>>(conn, sql, Vec::new(alloc))
}
