//! The whole check of a file.
ghost use Rattle.std.specs.Prelude.{◌≡◌, IfOk};
ghost use Rattle.sqlite.specs.Held.{state};
ghost use Rattle.sqlite.specs.State.{HasCleanDisk};
ghost use Rattle.sql_tables.specs.Transactions.{Between};
ghost use Rattle.vault_verdict.specs.Opened.{HasSizes};
ghost use Rattle.vault_verdict.specs.Reading.{IsFull};
ghost use Rattle.vault_schema.specs.Versions.{newest};
ghost use Rattle.vault_verdict.specs.Refusals.{IsStillVersioned, IsUntouched, JudgesRows};
ghost use Rattle.vault_verdict.specs.Refusals.{LeavesVersionSeen, RefusesForeign, TellsUnread};
ghost use Rattle.vault_schema.specs.Versioned.{HasVersion};

use crate::fault::OpenFault;
use crate::owners::{Holder, holder_in};
use crate::sizes::Sizes;
use crate::verdict::newest_verdict;
use crate::version::version_or;
use sqlite::{Alter, Connection};
use std::alloc::Global;

/// Checks a file whole, and says how much the vault in it holds. It writes nothing: a file without any
/// table is the empty vault, and stays as it is.
///
/// Refused by 30 with the version that the file says, where it isn't 4 and its table stands first, whatever
/// else there is; or with 0 where some of a vault's names are there and one is missing, or others stand
/// beside them; by 31 with the least rule that the rows break; by 32 where memory ran out; by 33 where the
/// database failed, the tables are another program's alone, or a vault's tables stand in another order or
/// form than this program makes them. After 30 and 31 the connection sees what it saw.
///
/// In a history of the store (`vault_recover::laws`) it is the step `Reopened`.
pub fn check<S: Alter>(alloc: Global, conn: &mut Connection<S>) -> Result<Sizes, OpenFault>
    // with Ok, on an honest disk, if the rows are full, these are the sizes of the sound vault there or the
    // empty one
    ensures sound { Between S.Store conn.old conn.new (λ old new. HasCleanDisk new
        → IfOk result (λ sizes. IsFull old.now → HasSizes old.now sizes)) }
    // on an honest disk, 31, 30 and neither are told of the rows
    ensures rows { JudgesRows S.Store conn.old conn.new result }
    // on an honest disk, 33 comes to a vault's tables with full rows only where one isn't read or a rowid
    // comes twice
    ensures unread { TellsUnread S.Store conn.old conn.new result }
    // a schema that is neither the newest nor empty is refused
    ensures foreign { RefusesForeign S.Store conn.old conn.new result }
    // with Ok, on an honest disk, nothing changed in the newest schema
    ensures kept { IsUntouched S.Store newest conn.old conn.new result }
    // on an honest disk, after 30 and 31 the connection sees what it saw, where the schema has a version
    ensures unchanged { LeavesVersionSeen S.Store conn.old conn.new result }
    // where the schema has no version, the connection is as it was
    ensures untouched { ¬ HasVersion (state S.Store conn.old).now.schema → conn.new ≡ conn.old }
    // in a schema with a version, on an honest disk, a crash leaves nothing new; no doubt goes away, and no
    // transaction begins
    ensures nothing_new { IsStillVersioned S.Store conn.old conn.new }
{
    match holder_in(conn.schema()) {
        Holder::Nobody => Ok(Sizes::NONE),
        Holder::Vault => newest_verdict(alloc, conn),
        Holder::Mixed => Err(version_or(alloc, conn, OpenFault::WrongSchema(0))),
        Holder::Other => Err(version_or(alloc, conn, OpenFault::Store)),
    }
}
