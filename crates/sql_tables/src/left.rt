//! Tables that a later version replaced: whether rows are left.
ghost use Rattle.std.specs.Prelude.{◌≡◌, ◌≤◌, IfOk};
ghost use Rattle.sql_tables.specs.Reading.{any_left as left_of};
ghost use Rattle.sql_tables.specs.Scans.{IdScan, TellsScan, id_values};

use crate::columns::Columns;
use crate::fault::StoreFault;
use crate::raws::{Raw, shown};
use sqlite::{Alter, Connection, Row};
use std::alloc::Global;

/// The rowid alone of a row.
#[derive(Drop)]
pub struct RowId {
    pub rowid: i64,
}

impl Raw for RowId {
    type Of = RowId;

    ghost values = { id_values };

    fn read(row: &Row) -> Result<RowId, StoreFault> {
        let mut columns = Columns::of(row);
        let raw = RowId {
            rowid: columns.next()?,
        };
        columns.end()?;
        Ok(raw)
    }
}

/// A table that was replaced.
pub trait Left {
    ghost left: { IdScan };

    /// The text that reads its rowids.
    fn ids_text() -> &'static str
        ensures { result.now ≡ left.text };
}

/// 1 where there are any.
fn any_of(ids: &[RowId]) -> u64
    ensures { result ≡ left_of ids.now }
{
    match ids {
        [] => 0,
        [_, ..] => 1,
    }
}

/// 1 where a table has rows, whatever they hold, in each schema that has it.
pub fn any_left<S: Alter, T: Left>(
    alloc: Global,
    conn: &mut Connection<S>,
) -> Result<u64, StoreFault>
    // with Ok, it is 0 or 1
    ensures small { IfOk result (λ n. n ≤ 1) }
    // in a schema with the table, on an honest disk, Ok is 1 exactly where it has rows, and Store comes only
    // where unread
    ensures told { TellsScan S.Store T.left result conn.old conn.new }
{
    let ids = shown::<S, RowId>(alloc, conn, T::ids_text())?;
    Ok(any_of(&ids))
}
