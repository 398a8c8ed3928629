//! The file at a path moves to the newest schema.
ghost use Rattle.std.specs.Prelude.{◌≡◌, ◌↔◌, None, IfOk, IfErr, IsErrAnd};
ghost use Rattle.vault_file.specs.Faults.{IfRefused, IsRefusal};
ghost use Rattle.vault_file.specs.Found.{IsNoPath};
ghost use Rattle.vault_file.specs.Moved.{LeavesUnmoved, MovesAs, MovesFrom, RefusesMove, StaysUnmoved};
ghost use Rattle.vault_file.specs.Paths.{Each};
ghost use Rattle.vault_file.specs.Refused.{GivesBack, IsRefused, TellsWhereRefused, WhereDone, WhereLeft};
ghost use Rattle.vault_file.specs.Refused.{WhereRefused};
ghost use Rattle.vault_schema.specs.Versions.{newest, number_of};

use crate::fault::NotOpened;
use crate::paths::{Closed, Connected, Paths};
use crate::reopen::{close, settled};
use vault_migrate::migrate::migrate_all;
use vault_recover::options::Cache;

/// Moves the file at a path to the newest schema, and answers its version. The connection is given back,
/// and with a refusal where there is one. The file keeps its mode; one that isn't there is made, as
/// `open_from` makes it, and gets the tables of the empty vault.
///
/// Refused by 30 to 33 as `vault_migrate::migrate_all` refuses, by 34 as `open_from` refuses.
pub fn migrate_from<P: Paths>(rt: &HostRuntime, path: &str, paths: P) -> Connected<P, i64>
    // words that name no file are refused by 34
    ensures no_path { IsNoPath path.now → IsRefused result }
    // Ok says the newest version
    ensures version { IfOk result (λ told. told.0 ≡ number_of newest) }
    // with Ok, on an honest disk, a vault that the bytes kept in whatever version is held in the newest one
    ensures moved { IfOk result (λ told. Each (P.holds paths path.now) (λ image. MovesFrom image told.1)) }
    ensures refused { GivesBack result }
    // 34 comes only if an open of the files at the path may fail so
    ensures refused_there { IfErr result (λ e. IfRefused e.0 (P.refuses paths path.now)) }
    // on an honest disk, the refusal is right
    ensures rightly { TellsWhereRefused result (P.holds paths path.now) RefusesMove }
    // after a refusal on an honest disk, a crash leaves what was kept; any number but 33 writes nothing
    ensures left { WhereRefused result (P.holds paths path.now) LeavesUnmoved }
{
    let mut conn = match paths.open(rt, path, Cache::Moved) {
        Ok(conn) => conn,
        Err(cause) => return Err((NotOpened::Refused(cause), None)),
    };
    settled(&conn);
    match migrate_all(rt.alloc(), &mut conn) {
        Ok(version) => Ok((version, conn)),
        Err(fault) => Err((NotOpened::Fault(fault), Some(conn))),
    }
}

/// Moves the file at a path to the newest schema, as `migrate_from` does, and hands out the files, closed,
/// where there are some.
pub fn migrate_file<P: Paths>(rt: &HostRuntime, path: &str, paths: P) -> Closed<P, i64>
    // words that name no file are refused by 34
    ensures no_path { IsNoPath path.now → IsErrAnd result.0 IsRefusal }
    // 34, and nothing else, gives no files
    ensures refused { (result.1 ≡ None) ↔ IsErrAnd result.0 IsRefusal }
    // 34 comes only if an open of the files at the path may fail so
    ensures refused_there { IfErr result.0 (λ why. IfRefused why (P.refuses paths path.now)) }
    // Ok says the newest version
    ensures version { IfOk result.0 (λ version. version ≡ number_of newest) }
    // with Ok, on an honest disk, a vault that the bytes kept in whatever version the files keep in the
    // newest one
    ensures moved { WhereDone result (P.holds paths path.now) (λ image left _. MovesAs image left) }
    // files that are refused keep what they kept; any number but 33 writes nothing; the refusal is right
    ensures left { WhereLeft result (P.holds paths path.now) StaysUnmoved }
{
    match migrate_from(rt, path, paths) {
        Ok((version, conn)) => (Ok(version), Some(close(conn))),
        Err((fault, Some(conn))) => (Err(fault), Some(close(conn))),
        Err((fault, None)) => (Err(fault), None),
    }
}
