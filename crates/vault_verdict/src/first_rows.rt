//! The rows that cards and entries name: merchants, and their counts.
ghost use Rattle.std.specs.Prelude.{IfOk};
ghost use Rattle.sqlite.specs.Held.{state};
ghost use Rattle.sql_tables.specs.Reading.{InSchema};
ghost use Rattle.sql_tables.specs.States.{Reads};
ghost use Rattle.vault_verdict.specs.ReadIn.{RefusesIn};
ghost use Rattle.vault_verdict.specs.Reading.{AreFirst, IsUnreadOne};
ghost use Rattle.vault_schema.specs.Versions.{schema_of};

use crate::whole_tables;
use sql_tables::fault::StoreFault;
use sqlite::{Alter, Connection};
use std::alloc::Global;
use vault_rules::rows::{RawCount, RawMerchant};
use vault_schema::version::Version;

/// The rows that cards and entries name.
#[derive(Drop)]
pub(crate) struct First {
    pub merchants: Vec<RawMerchant>,
    pub counts: Vec<RawCount>,
}

/// The merchants of a version and their counts, as those of the newest one.
pub(crate) fn read_first<S: Alter>(
    alloc: Global,
    conn: &mut Connection<S>,
    version: Version,
) -> Result<First, StoreFault>
    // in the version's schema, on an honest disk, Ok gives the version's merchants and counts
    ensures told { InSchema S.Store (schema_of version) conn.old conn.new
        (λ db. IfOk result (λ it. AreFirst version db it)) }
    // in the version's schema, on an honest disk, Store comes only where a table beside `vault` isn't read
    ensures refused { RefusesIn S.Store (schema_of version) conn.old conn.new result
        (IsUnreadOne S.Store version) }
    // it only reads: no doubt goes away, and in the version's schema, on an honest disk, nothing changes with
    // Ok
    ensures reads { Reads (schema_of version) result (state S.Store conn.old) (state S.Store conn.new) }
{
    let merchants = whole_tables::merchants(alloc, conn, version)?;
    let counts = whole_tables::counts(alloc, conn)?;
    Ok(First { merchants, counts })
}
