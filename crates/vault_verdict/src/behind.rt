//! The rows behind those that entries name: entries, records and rights.
ghost use Rattle.std.specs.Prelude.{IfOk};
ghost use Rattle.sqlite.specs.Held.{state};
ghost use Rattle.sql_tables.specs.Reading.{InSchema};
ghost use Rattle.sql_tables.specs.States.{Reads};
ghost use Rattle.vault_verdict.specs.ReadIn.{RefusesIn};
ghost use Rattle.vault_verdict.specs.Reading.{AreBehind, AreTaken, IsUnreadOne};
ghost use Rattle.vault_schema.specs.Versions.{schema_of};

use crate::whole_tables;
use sql_tables::fault::StoreFault;
use sqlite::{Alter, Connection};
use std::alloc::Global;
use vault_rules::entries::Entries;
use vault_rules::index::Index;
use vault_rules::records::Records;
use vault_rules::rows::RawRight;
use vault_schema::version::Version;
use vault_tables::entries::old::OldEntry;

/// The entries and the records, as far as the rules need them; the rights; and of the tables that were
/// replaced, how many still have rows.
#[derive(Drop)]
pub(crate) struct Behind<'a> {
    pub records: Records<'a>,
    pub rights: Vec<RawRight>,
    pub replaced: u64,
}

/// What takes the entries and the records of a version.
fn taken<'a, S: Alter>(
    alloc: Global,
    conn: &mut Connection<S>,
    version: Version,
    olders: &[OldEntry],
    start: Entries<'a>,
) -> Result<Records<'a>, StoreFault>
    // in the version's schema, on an honest disk, Ok has taken its entries and its records
    ensures told { InSchema S.Store (schema_of version) conn.old conn.new
        (λ db. IfOk result (λ it. AreTaken version db olders.now start.entry it)) }
    // in the version's schema, on an honest disk, Store comes only where a table beside `vault` isn't read
    ensures refused { RefusesIn S.Store (schema_of version) conn.old conn.new result
        (IsUnreadOne S.Store version) }
    // it only reads: no doubt goes away, and in the version's schema, on an honest disk, nothing changes with
    // Ok
    ensures reads { Reads (schema_of version) result (state S.Store conn.old) (state S.Store conn.new) }
{
    let entries = whole_tables::entries(alloc, conn, version, olders, start)?;
    whole_tables::records(conn, Records::new(entries))
}

/// The rows of a version behind those that entries name, as those of the newest one.
pub(crate) fn read_behind<'a, S: Alter>(
    alloc: Global,
    conn: &mut Connection<S>,
    version: Version,
    olders: &[OldEntry],
    index: Index<'a>,
) -> Result<Behind<'a>, StoreFault>
    // in the version's schema, on an honest disk, Ok gives the version's rows behind the first ones, as they
    // were taken
    ensures told { InSchema S.Store (schema_of version) conn.old conn.new
        (λ db. IfOk result (λ it. AreBehind version db olders.now index.entry it)) }
    // in the version's schema, on an honest disk, Store comes only where a table beside `vault` isn't read
    ensures refused { RefusesIn S.Store (schema_of version) conn.old conn.new result
        (IsUnreadOne S.Store version) }
    // it only reads: no doubt goes away, and in the version's schema, on an honest disk, nothing changes with
    // Ok
    ensures reads { Reads (schema_of version) result (state S.Store conn.old) (state S.Store conn.new) }
{
    let records = taken(alloc, conn, version, olders, Entries::new(alloc, index))?;
    let rights = whole_tables::rights(alloc, conn, version)?;
    let replaced = whole_tables::replaced(alloc, conn, version)?;
    Ok(Behind {
        records,
        rights,
        replaced,
    })
}
