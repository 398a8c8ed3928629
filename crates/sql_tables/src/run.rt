//! A query, and a statement further in a transaction, with what any text does.
ghost use Rattle.std.specs.Prelude.{◌≡◌, IsTrue, Ok, IfOk, OnOk};
ghost use Rattle.sqlite.specs.Effect.{IsDatabase};
ghost use Rattle.sqlite.specs.Held.{state};
ghost use Rattle.sqlite.specs.Listing.{understood};
ghost use Rattle.sqlite.specs.State.{ExecutesInside, HasCleanDisk, IsUnchanged, Shown};
ghost use Rattle.sqlite.specs.Values.{bound};
ghost use Rattle.sqlite.proofs.Callers.{IsPlain};
ghost use Rattle.sql_tables.specs.States.{Reads};
ghost use Rattle.sql_tables.specs.Transactions.{During, Proceeds, RunsText};

use sqlite::{Alter, Connection, Error, Row, Transaction};
use sqlite_value::value::ValueRef;

/// The rows that a query shows.
pub fn rows_of<S: Alter>(
    conn: &mut Connection<S>,
    sql: &str,
    params: &[ValueRef<'_>],
) -> Result<Vec<Row>, Error>
    // on an honest disk, Ok gives the rows that the query shows
    ensures told { HasCleanDisk (state S.Store conn.new)
        → IfOk result (λ rows. Shown sql.now (bound params.now) (state S.Store conn.old)
        (state S.Store conn.new) rows.items) }
    // a plain query only reads: no doubt goes away, and in its schema, on an honest disk, nothing changes
    // with Ok
    ensures reads { (s : _) → IsPlain (understood s sql.now)
        → Reads s result (state S.Store conn.old) (state S.Store conn.new) }
    // with Ok, on an honest disk, the database that a plain query read in its schema was sound
    ensures sound { HasCleanDisk (state S.Store conn.new) → (s : _) → IsPlain (understood s sql.now)
        → (state S.Store conn.old).now.schema ≡ s → OnOk result (IsDatabase (state S.Store conn.old).now) }
{
    // a database whose schema can be asked for is sound
    let _live = conn.schema();
    conn.query_all(sql, params)
}

/// One statement further in a transaction, and how many rows it changed.
pub fn change<S: Alter>(
    tx: &mut Transaction<'_, S>,
    sql: &str,
    params: &[ValueRef<'_>],
) -> Result<usize, Error>
    ensures goes_on { Proceeds S.Store tx.old tx.new }
    // with Ok, on an honest disk, the statement ran in the open transaction, if one was open, and changed so
    // many rows
    ensures ran { During S.Store tx.old tx.new (λ old new. HasCleanDisk new
        → IfOk result (λ count. IsTrue old.in_transaction
        → ExecutesInside 0 sql.now (bound params.now) old new (Ok count))) }
{
    tx.execute(sql, params)
}

/// One statement further in a transaction.
pub fn step<S: Alter>(
    tx: &mut Transaction<'_, S>,
    sql: &str,
    params: &[ValueRef<'_>],
) -> Result<(), Error>
    ensures { RunsText S.Store tx.old tx.new result sql.now (bound params.now) }
{
    change(tx, sql, params)?;
    Ok(())
}

/// The rows that a query shows inside a transaction.
pub fn rows_in<S: Alter>(
    tx: &mut Transaction<'_, S>,
    sql: &str,
    params: &[ValueRef<'_>],
) -> Result<Vec<Row>, Error>
    ensures goes_on { Proceeds S.Store tx.old tx.new }
    // on an honest disk, Ok gives the rows that the query shows
    ensures told { During S.Store tx.old tx.new (λ old new. HasCleanDisk new
        → IfOk result (λ rows. Shown sql.now (bound params.now) old new rows.items)) }
    // with Ok, on an honest disk, a plain query changed nothing in its schema
    ensures kept { During S.Store tx.old tx.new (λ old new. HasCleanDisk new
        → (s : _) → IsPlain (understood s sql.now) → old.now.schema ≡ s
        → OnOk result (IsUnchanged old new)) }
{
    tx.query_all(sql, params)
}
