//! Tables read whole, in the order of their rowids.
ghost use Rattle.std.specs.Prelude.{◌≡◌};
ghost use Rattle.sql_tables.specs.Scans.{ReadsScan, Scan, TakesScan};

use crate::fault::StoreFault;
use crate::raws::{Raw, shown};
use crate::taken::{Taker, taken};
use sqlite::{Alter, Connection};
use std::alloc::Global;

/// A table in one of its versions, whose rows are read as those of the newest one.
pub trait Whole {
    type Raw: Raw;

    ghost scan: { Scan Self.Raw.Of };

    /// The text that reads it.
    fn text() -> &'static str
        ensures { result.now ≡ scan.text };

    ghost read_so: { scan.values ≡ Self.Raw.values };
}

/// All rows of a table, in each schema that has it.
pub fn read_all<S: Alter, T: Whole>(
    alloc: Global,
    conn: &mut Connection<S>,
) -> Result<Vec<<T::Raw as Raw>::Of>, StoreFault>
    ensures { ReadsScan S.Store T.scan result conn.old conn.new }
{
    shown::<S, T::Raw>(alloc, conn, T::text())
}

/// What takes all rows of a table, each as it comes.
pub fn take_all<S: Alter, T: Whole, K: Taker<T::Raw>>(
    conn: &mut Connection<S>,
    start: K,
) -> Result<K, StoreFault>
    ensures { TakesScan S.Store T.scan (K.took start) result conn.old conn.new }
{
    taken::<S, T::Raw, K>(conn, T::text(), start)
}
