//! Tables as finite maps: looked up, put and taken by their keys.
ghost use Rattle.std.specs.Prelude.{◌≡◌, ◌++◌, [], ℕ, suc, true, List, Option, Some, None, IfOk};
ghost use Rattle.std.specs.declared.cmp.Ordering.{Ordering};
ghost use Rattle.sqlite.specs.Held.{state};
ghost use Rattle.sqlite.specs.Order.{Row as SqlRow};
ghost use Rattle.sqlite.specs.Schema.{Schema};
ghost use Rattle.sqlite.specs.Tree.{Trees};
ghost use Rattle.sqlite.specs.Values.{bound};
ghost use Rattle.sql_tables.specs.Codes.{row_of};
ghost use Rattle.sql_tables.specs.Rows.{AreRowsOf, put as put_at};
ghost use Rattle.sql_tables.specs.Schema.{is_plain};
ghost use Rattle.sql_tables.specs.States.{Claim, Reads, StandsIn, at_place};
ghost use Rattle.sql_tables.specs.Texts.{IsQuery, IsWrite};
ghost use Rattle.sql_tables.specs.Maps.{Keyed};
ghost use Rattle.sql_tables.specs.Maps.{claim_at};
ghost use Rattle.sql_tables.specs.Transactions.{Becomes, Between, During, Proceeds, TellsStood, TellsWithin};
ghost use Rattle.sql_tables.specs.Keyed.{at_least, finding, putting, taking};

use crate::fault::StoreFault;
use crate::run::{rows_in, rows_of, step};
use sqlite::{Alter, Connection, Error, Row, Transaction};
use sqlite_value::value::ValueRef;

/// A table that is a finite map, in one schema.
pub trait Stored {
    type Key: Drop;

    type Value: Drop;

    ghost schema: { Schema };

    // what its tables have, and what is said of the rows of each, in the schema's order
    ghost Tables: { Type 0 };

    ghost claims: { Tables → List Claim };

    ghost cmp: { Self.Key → Self.Key → Ordering };

    ghost key: { Self.Key → SqlRow };

    ghost value: { Self.Value → SqlRow };

    // the table, by its key at its place
    ghost at: { Keyed schema cmp key value };

    ghost held: { Tables → Self.Key → Option Self.Value };

    ghost with: { Tables → (Self.Key → Option Self.Value) → Tables };

    ghost plain: { is_plain schema ≡ true };

    ghost said: { (t : Tables) (rows : List SqlRow) → claim_at (claims t) at.place rows
        → AreRowsOf (row_of key value) rows (held t) };

    ghost set: { (t : Tables) (now : Self.Key → Option Self.Value) (db : Trees)
        → StandsIn schema.tables (at_place (claims t) at.place
        (λ rows. AreRowsOf (row_of key value) rows now)) db
        → StandsIn schema.tables (claims (with t now)) db };
}

/// A table that is looked up.
pub trait Finds: Stored {
    ghost found_by: { List ℕ };

    // what a row that is shown says of a value
    ghost shows: { SqlRow → Self.Value → Type 0 };

    fn find_text() -> &'static str
        // it is the text by which values are found
        ensures { result.now ≡ found_by };

    /// The value that a row shows.
    fn value_of(row: &Row) -> Result<Self::Value, StoreFault>
        ensures { IfOk result (shows row.now) };

    ghost finding_is: { IsQuery Self.schema found_by (finding Self.at.table (suc Self.at.more)) };

    ghost told: { (x y : Self.Value) → shows (at_least (Self.value x)) y → y ≡ x };
}

/// A table that is given pairs, in place of those with their keys.
pub trait Puts: Stored {
    ghost put_by: { List ℕ };

    fn put_text() -> &'static str
        // it is the text by which pairs are put
        ensures { result.now ≡ put_by };

    ghost putting_is: { IsWrite Self.schema put_by
        (putting Self.at.table Self.at.place (suc Self.at.more)) };
}

/// A table from which pairs are taken, whether or not they are there.
pub trait Takes: Stored {
    ghost taken_by: { List ℕ };

    fn take_text() -> &'static str
        // it is the text by which pairs are taken
        ensures { result.now ≡ taken_by };

    ghost taking_is: { IsWrite Self.schema taken_by (taking Self.at.table Self.at.place (suc Self.at.more)) };
}

/// What is at a key, whose columns are the parameters.
pub fn find<S: Alter, T: Finds>(
    conn: &mut Connection<S>,
    params: &[ValueRef<'_>],
) -> Result<Option<T::Value>, StoreFault>
    // it only reads: no doubt goes away, and in the table's schema, on an honest disk, nothing changes with
    // Ok
    ensures reads { Reads T.schema result (state S.Store conn.old) (state S.Store conn.new) }
    // with Ok, on an honest disk, where the tables stood for pairs, this is what is at the key
    ensures told { Between S.Store conn.old conn.new (TellsStood T.schema T.claims result
        (λ t found. (k : T.Key) → bound params.now ≡ T.key k ++ [] → found ≡ T.held t k)) }
{
    let rows = rows_of(conn, T::find_text(), params)?;
    match rows.first() {
        Some(row) => Ok(Some(T::value_of(row)?)),
        None => Ok(None),
    }
}

/// What is at a key, inside a transaction.
pub fn find_in<S: Alter, T: Finds>(
    tx: &mut Transaction<'_, S>,
    params: &[ValueRef<'_>],
) -> Result<Option<T::Value>, StoreFault>
    ensures goes_on { Proceeds S.Store tx.old tx.new }
    // with Ok, on an honest disk, tables that stood for pairs do so still, and this is what is at the key
    ensures told { During S.Store tx.old tx.new (TellsWithin T.schema T.claims result
        (λ t found. (k : T.Key) → bound params.now ≡ T.key k ++ [] → found ≡ T.held t k)) }
{
    let rows = rows_in(tx, T::find_text(), params)?;
    match rows.first() {
        Some(row) => Ok(Some(T::value_of(row)?)),
        None => Ok(None),
    }
}

/// Writes a pair, in place of one with its key.
pub fn put<S: Alter, T: Puts>(
    tx: &mut Transaction<'_, S>,
    params: &[ValueRef<'_>],
) -> Result<(), Error>
    ensures goes_on { Proceeds S.Store tx.old tx.new }
    // with Ok, on an honest disk, tables that stood for pairs stand for them with this one put at its key
    ensures done { (k : _) (x : _) → bound params.now ≡ row_of T.key T.value k x
        → During S.Store tx.old tx.new (Becomes T.schema T.claims result
        (λ t. T.with t (put_at T.cmp (T.held t) k (Some x)))) }
{
    step(tx, T::put_text(), params)
}

/// Takes what is at a key, whether or not it was there.
pub fn take<S: Alter, T: Takes>(
    tx: &mut Transaction<'_, S>,
    params: &[ValueRef<'_>],
) -> Result<(), Error>
    ensures goes_on { Proceeds S.Store tx.old tx.new }
    // with Ok, on an honest disk, tables that stood for pairs stand for them without the one at this key
    ensures done { (k : T.Key) → bound params.now ≡ T.key k ++ []
        → During S.Store tx.old tx.new (Becomes T.schema T.claims result
        (λ t. T.with t (put_at T.cmp (T.held t) k None))) }
{
    step(tx, T::take_text(), params)
}
