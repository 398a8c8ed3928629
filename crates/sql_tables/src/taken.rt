//! The rows that a query shows are taken as they come.
ghost use Rattle.std.specs.Prelude.{◌≡◌, ◌<◌, ◌∷◌, [], ◌++◌, ℕ, List, OnOk};
ghost use Rattle.sqlite.proofs.Callers.{IsPlain};
ghost use Rattle.sqlite.specs.Listing.{understood};
ghost use Rattle.sqlite.specs.Schema.{Schema};
ghost use Rattle.sql_tables.specs.Reading.{TakesRows};

use crate::fault::StoreFault;
use crate::raws::Raw;
use sqlite::{Alter, Connection};
use std::alloc::AllocError;

/// What takes the rows of a table, one after the other.
pub trait Taker<R: Raw>: Sized + Drop {
    // what the one became by the rows that it took
    ghost took: { Self → Self → List R.Of → Type 0 };

    ghost fresh: { (start : Self) → took start start [] };

    // how many it may take at most
    ghost room: { Self → ℕ };

    /// Takes the next row. Only memory can fail.
    fn take(&mut self, raw: R::Of) -> Result<(), AllocError>
        // with Ok, this row is taken behind those taken before
        ensures taken { OnOk result ((start : Self) (raws : List R.Of) → took start self.old raws
            → took start self.new (raws ++ raw ∷ [])) }
        // with Ok, there is less room than before
        ensures less { OnOk result (room self.new < room self.old) };
}

impl<R: Raw> Taker<R> for Vec<R::Of> {
    ghost use Rattle.std.specs.Prelude.{◌-◌, ◌^◌, length};
    ghost use Rattle.std.proofs.Common.{sym, append-nil};

    ghost took = { λ start now raws. now.items ≡ start.items ++ raws };

    ghost fresh = { λ start. sym (append-nil start.items) };

    ghost room = { λ now. 2 ^ 63 - length now.items };

    fn take(&mut self, raw: R::Of) -> Result<(), AllocError> {
        self.push(raw)?;
        Ok(())
    }
}

/// What takes the rows that a query shows: each is read as it comes.
pub fn taken<S: Alter, R: Raw, K: Taker<R>>(
    conn: &mut Connection<S>,
    sql: &str,
    start: K,
) -> Result<K, StoreFault>
    ensures { (s : Schema) → IsPlain (understood s sql.now)
        → TakesRows S.Store (record { schema = s; text = sql.now; values = R.values }) (K.took start) result
        conn.old conn.new }
{
    // a database whose schema can be asked for is sound
    let _live = conn.schema();
    let mut taker = start;
    let mut rows = conn.query(sql, &[])?;
    'rows: while let Some(row) = rows.next()? {
        taker.take(R::read(row)?)?;
    }
    Ok(taker)
}
