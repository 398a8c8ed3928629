//! A vault is opened from a file.
ghost use Rattle.std.specs.Prelude.{◌≡◌, pos, false, None, Err, IfOk, IfErr, IsErrAnd};
ghost use Rattle.sqlite.specs.Held.{state};
ghost use Rattle.vault_sql.specs.Held.{AreFresh};
ghost use Rattle.vault_store.specs.Applied.{is_broken, tables_of};
ghost use Rattle.vault_verdict.specs.Names.{IsForeign};
ghost use Rattle.vault_verdict.specs.Opened.{IsNoDamage};
ghost use Rattle.vault_verdict.specs.Refusals.{IsStillWhereSome, LeavesIdle, OpensAs, OpensFile, Refuses};
ghost use Rattle.vault_verdict.specs.Refusals.{RefusesForeign, WhereMixed, WhereStrange};

use sqlite::{Alter, Connection};
use std::alloc::Global;
use vault_sql::tables::SqlTables;
use vault_steps::schema::make_schema;
use vault_store::vault::Vault;
use vault_verdict::fault::OpenFault;
use vault_verdict::owners::{Holder, holder_in};
use vault_verdict::verdict::newest_verdict;
use vault_verdict::version::version_or;

/// Makes the tables of the empty vault where there is no table, and else checks those that are there.
fn ready<S: Alter>(alloc: Global, conn: &mut Connection<S>) -> Result<(), OpenFault>
    requires idle { conn.old.in_transaction ≡ false }
    requires unlimited { conn.old.step_limit ≡ None }
    // with Ok, on an honest disk, a sound vault is held where tables have full rows, and the empty one where
    // there are none
    ensures opens { OpensAs S.Store conn.old conn.new result }
    // a refusal says no more than is so of the database
    ensures refuses { IfErr result (Refuses S.Store conn.old conn.new) }
    // a schema that is neither the newest nor empty is refused
    ensures foreign { RefusesForeign S.Store conn.old conn.new result }
    // where there is a table, no transaction begins, and with a version, on an honest disk, a crash leaves
    // nothing new
    ensures nothing_new { IsStillWhereSome S.Store conn.old conn.new }
    // in both cases a crash leaves what was found, and the connection is outside a transaction
    ensures leaves { LeavesIdle S.Store conn.old conn.new }
{
    let _settled = conn.is_autocommit();
    match holder_in(conn.schema()) {
        Holder::Nobody => match make_schema(conn) {
            Ok(()) => Ok(()),
            Err(_) => Err(OpenFault::Store),
        },
        Holder::Vault => match newest_verdict(alloc, conn) {
            Ok(_) => Ok(()),
            Err(fault) => Err(fault),
        },
        Holder::Mixed => Err(version_or(alloc, conn, OpenFault::WrongSchema(0))),
        Holder::Other => Err(version_or(alloc, conn, OpenFault::Store)),
    }
}

/// Opens the vault in a file; a refusal hands the connection back. A file without any table gets the tables
/// of the empty vault in one transaction. A file with a vault's tables is checked whole and not written.
///
/// Refused by 30 with the version that the file says, where it isn't 4 and its table stands first, whatever
/// else there is; or with 0 where some of a vault's names are there and one is missing, or others stand
/// beside them; by 31 with the least rule that the rows break; by 32 where memory ran out; by 33 where the
/// database failed, the tables are another program's alone, or a vault's tables stand in another order or
/// form than this program makes them. A refused file is as it was; but after 33 one without any table may
/// have those of the empty vault. After 30 and 31 the connection sees what it saw.
///
/// In a history of the store (`vault_recover::laws`) it is the step `Reopened`.
pub fn open<S: Alter>(
    alloc: Global,
    conn: Connection<S>,
) -> Result<Vault<SqlTables<S>>, (OpenFault, Connection<S>)>
    requires idle { conn.in_transaction ≡ false }
    requires unlimited { conn.step_limit ≡ None }
    // with Ok, the vault isn't broken, and its tables haven't failed, have no place and remember nothing
    ensures fresh { IfOk result (λ vault. (is_broken vault ≡ false) × AreFresh (tables_of vault)) }
    // with Ok, on an honest disk, a sound vault is held where tables have full rows, and the empty one where
    // there are none; a crash leaves what was found
    ensures opens { IfOk result (λ vault. OpensFile S.Store conn (tables_of vault).conn) }
    // the refusal says no more than is so of the database, and the connection goes on as it was
    ensures refused { IfErr result (λ e. Refuses S.Store conn e.1 e.0) }
    // a foreign schema without a version, in which a vault's names are mixed, gives 30 with 0 and the same
    // connection
    ensures mixed { WhereMixed (state S.Store conn).now (result ≡ Err (OpenFault.WrongSchema (pos 0), conn)) }
    // a foreign schema without a version, in which a vault's names aren't mixed, gives 33 and the same
    // connection
    ensures strange { WhereStrange (state S.Store conn).now (result ≡ Err (OpenFault.Store, conn)) }
    // a schema that is neither the newest nor empty is refused, and not by 31
    ensures foreign { IsForeign (state S.Store conn).now.schema → IsErrAnd result (λ e. IsNoDamage e.0) }
{
    let mut conn = conn;
    match ready(alloc, &mut conn) {
        Ok(()) => Ok(Vault::new(SqlTables::on(alloc, conn))),
        Err(fault) => Err((fault, conn)),
    }
}
