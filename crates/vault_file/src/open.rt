//! The vault in the file at a path is opened, and closed.
ghost use Rattle.std.specs.Prelude.{◌≡◌, false, IfOk, IfErr};
ghost use Rattle.sqlite.specs.View.{IsClean};
ghost use Rattle.sqlite_store.specs.FileStore.{view};
ghost use Rattle.vault_file.specs.Refused.{GivesBack, IsRefused, TellsWhereRefused, WhereRefused};
ghost use Rattle.vault_file.specs.Faults.{IfRefused};
ghost use Rattle.vault_file.specs.Found.{IsNoPath, LeavesWhole, LeavesFrom, MayFindNone};
ghost use Rattle.vault_file.specs.Found.{OpensFrom, RefusesRightly, Stays, StaysWhole};
ghost use Rattle.vault_file.specs.Paths.{Each};
ghost use Rattle.vault_sql.specs.Held.{AreFresh};
ghost use Rattle.vault_store.specs.Applied.{is_broken, tables_of};

use crate::fault::NotOpened;
use crate::paths::Paths;
use crate::reopen::{close, settled, told};
use sqlite::{Connection, FileStore};
use sqlite_disk::Disk;
use vault_migrate::open::open;
use vault_recover::options::Cache;
use vault_sql::tables::SqlTables;
use vault_store::vault::Vault;
use vault_verdict::fault::OpenFault;

/// The tables in a file at a path.
pub type TablesAt<P> = SqlTables<FileStore<<P as Paths>::Disk>>;

/// Opens the vault in the file at a path. A file that isn't there is made, empty, for its owner alone to
/// read and write, and so is its log; a file that is there keeps its mode. An empty file gets the tables
/// of the empty vault. A refusal comes with the connection, where there is one.
///
/// Refused by 34 where the words name no file, or one that is open already, isn't a regular file with one
/// name, can't be made, read and written, or is no database; and also where memory ran out before there
/// was a connection, which looks the same. Such a file is as it was, but beside one that is no database an
/// empty log may stay: to take it away isn't safe, since a program that opens the file now may use it.
/// Refused by 30 to 33 as `vault_migrate::open` refuses.
pub fn open_from<P: Paths>(
    rt: &HostRuntime,
    path: &str,
    paths: P,
    cache: Cache,
) -> Result<Vault<TablesAt<P>>, (NotOpened, Option<Connection<FileStore<P::Disk>>>)>
    // words that name no file are refused by 34
    ensures no_path { IsNoPath path.now → IsRefused result }
    // with Ok, the vault isn't broken, and its tables haven't failed, have no place and remember nothing
    ensures fresh { IfOk result (λ vault. (is_broken vault ≡ false) × AreFresh (tables_of vault)) }
    // with Ok, on an honest disk, a sound vault that the bytes kept is held, or one of two, or the empty one
    ensures found { IfOk result (λ vault. Each (P.holds paths path.now)
        (λ image. OpensFrom image (tables_of vault).conn)) }
    ensures refused { GivesBack result }
    // 34 comes only if an open of the files at the path may fail so
    ensures refused_there { IfErr result (λ e. IfRefused e.0 (P.refuses paths path.now)) }
    // on an honest disk, the refusal is right
    ensures rightly { TellsWhereRefused result (P.holds paths path.now) RefusesRightly }
    // after a refusal on an honest disk, crashes leave what was kept: a vault, one of two, or the empty one,
    // made or not
    ensures left { WhereRefused result (P.holds paths path.now) (λ image _ conn. LeavesFrom image conn) }
    // after a refusal on an honest disk, a crash leaves what the bytes held, unless an open of them may find
    // no table
    ensures same { WhereRefused result (P.holds paths path.now)
        (λ image why conn. ¬ MayFindNone image → LeavesWhole image conn) }
{
    let conn = match paths.open(rt, path, cache) {
        Ok(conn) => conn,
        Err(cause) => return Err((NotOpened::Refused(cause), None)),
    };
    settled(&conn);
    // What a crash leaves of a refusal follows by cases of these.
    let _told = told(&conn);
    match open(rt.alloc(), conn) {
        Ok(vault) => Ok(vault),
        Err(refusal) => Err((NotOpened::Fault(refusal.0), Some(refusal.1))),
    }
}

/// Opens the vault in the file at a path, and refuses as `open_from` does; a refusal comes with the files,
/// closed, where there are some.
pub fn open_vault<P: Paths>(
    rt: &HostRuntime,
    path: &str,
    paths: P,
    cache: Cache,
) -> Result<Vault<TablesAt<P>>, (NotOpened, Option<FileStore<P::Disk>>)>
    // words that name no file are refused by 34
    ensures no_path { IsNoPath path.now → IsRefused result }
    // with Ok, the vault isn't broken, and its tables haven't failed, have no place and remember nothing
    ensures fresh { IfOk result (λ vault. (is_broken vault ≡ false) × AreFresh (tables_of vault)) }
    // with Ok, on an honest disk, a sound vault that the bytes kept is held, or one of two, or the empty one
    ensures found { IfOk result (λ vault. Each (P.holds paths path.now)
        (λ image. OpensFrom image (tables_of vault).conn)) }
    ensures refused { GivesBack result }
    // 34 comes only if an open of the files at the path may fail so
    ensures refused_there { IfErr result (λ e. IfRefused e.0 (P.refuses paths path.now)) }
    // on an honest disk, the refusal is right
    ensures rightly { WhereRefused result (P.holds paths path.now)
        (λ image why left. IsClean (view left) → RefusesRightly image why) }
    // on an honest disk, files that are refused keep what was kept: a vault, one of two, or the empty one,
    // made or not
    ensures left { WhereRefused result (P.holds paths path.now) (λ image _ left. Stays image left) }
    // after a refusal on an honest disk, an open after a crash finds what the bytes held, unless an open may
    // find no table
    ensures same { WhereRefused result (P.holds paths path.now)
        (λ image why left. ¬ MayFindNone image → StaysWhole image left) }
{
    match open_from(rt, path, paths, cache) {
        Ok(vault) => Ok(vault),
        Err((fault, Some(conn))) => Err((fault, Some(close(conn)))),
        Err((fault, None)) => Err((fault, None)),
    }
}
