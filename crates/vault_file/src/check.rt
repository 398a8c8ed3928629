//! The whole check of the file at a path.
ghost use Rattle.std.specs.Prelude.{◌≡◌, ◌⊎◌, None, IfOk, IfErr, IsErrAnd};
ghost use Rattle.sqlite.specs.Files.{file_state};
ghost use Rattle.sqlite.specs.State.{HasCleanDisk};
ghost use Rattle.sqlite.specs.View.{IsClean};
ghost use Rattle.sqlite_store.specs.FileStore.{view};
ghost use Rattle.vault_core.specs.Sound.{Sound};
ghost use Rattle.vault_core.specs.Vault.{Vault as Content, empty_vault};
ghost use Rattle.vault_file.specs.Faults.{IfRefused, IsRefusal};
ghost use Rattle.vault_file.specs.Found.{ChecksAs, HoldsSuch, IsNoPath, IsVaultOf, LeavesFrom, LeavesWhole};
ghost use Rattle.vault_file.specs.Found.{RefusesRightly, Stays, StaysWhole};
ghost use Rattle.vault_file.specs.Paths.{Each};
ghost use Rattle.vault_file.specs.Refused.{GivesBack, IsRefused, TellsWhereRefused, WhereDone, WhereGiven};
ghost use Rattle.vault_file.specs.Refused.{WhereLeft, WhereShut};
ghost use Rattle.vault_recover.specs.Crashed.{Keeps};
ghost use Rattle.vault_schema.specs.Holds.{Holds};
ghost use Rattle.vault_verdict.specs.Sizes.{sizes_of};

use crate::fault::NotOpened;
use crate::paths::{Closed, Connected, Paths, is_no_path};
use crate::reopen::{close, settled, told};
use vault_recover::options::Cache;
use vault_verdict::check::check;
use vault_verdict::fault::OpenFault;
use vault_verdict::sizes::Sizes;

/// Checks the file at a path whole, and says how much the vault in it holds. The connection is given back,
/// and with a refusal where there is one. The vault is not written. A file that isn't there is made, as
/// `open_from` makes it, and is the empty vault.
///
/// Refused by 30 to 34 as `open_from` refuses.
pub fn check_from<P: Paths>(rt: &HostRuntime, path: &str, paths: P) -> Connected<P, Sizes>
    // words that name no file are refused by 34
    ensures no_path { IsNoPath path.now → IsRefused result }
    // with Ok, on an honest disk, the bytes hold no table or a vault's alone, of these sizes where the rows
    // are full
    ensures sizes { IfOk result (λ told. Each (P.holds paths path.now) (λ image.
        HasCleanDisk (file_state told.1) → HoldsSuch image (λ db. IsVaultOf db told.0))) }
    // with Ok, on an honest disk, a sound vault that the bytes keep is held
    ensures kept { IfOk result (λ told. Each (P.holds paths path.now) (λ image.
        HasCleanDisk (file_state told.1)
        → (V : Content) → Sound V → Keeps image V → Holds (file_state told.1) V)) }
    // on an honest disk, a crash leaves what was kept: a vault, one of two, or the empty one, made or not
    ensures left { WhereGiven result (P.holds paths path.now) LeavesFrom }
    ensures refused { GivesBack result }
    // 34 comes only if an open of the files at the path may fail so
    ensures refused_there { IfErr result (λ e. IfRefused e.0 (P.refuses paths path.now)) }
    // on an honest disk, the refusal is right
    ensures rightly { TellsWhereRefused result (P.holds paths path.now) RefusesRightly }
    // on an honest disk, a crash leaves what was found in the bytes, and nothing else
    ensures same { WhereGiven result (P.holds paths path.now) LeavesWhole }
{
    let mut conn = match paths.open(rt, path, Cache::Small) {
        Ok(conn) => conn,
        Err(cause) => return Err((NotOpened::Refused(cause), None)),
    };
    settled(&conn);
    // What a crash leaves of a check follows by cases of these.
    let _told = told(&conn);
    match check(rt.alloc(), &mut conn) {
        Ok(sizes) => Ok((sizes, conn)),
        Err(fault) => Err((NotOpened::Fault(fault), Some(conn))),
    }
}

/// The sizes of the empty vault.
const EMPTY: Sizes = Sizes {
    merchants: 0,
    entries: 0,
    records: 0,
};

/// Checks the file at a path whole, as `check_from` does, and hands out the files, closed, where there are
/// some. But a file that isn't there, in a folder that is, or has no byte and no log, is the empty vault, and
/// nothing is made or written. Refused by 32 also where memory is refused while that is looked at.
pub fn check_file<P: Paths>(rt: &HostRuntime, path: &str, paths: P) -> Closed<P, Sizes>
    // words that name no file are refused by 34
    ensures no_path { IsNoPath path.now → IsErrAnd result.0 IsRefusal }
    // with Ok and no files, there is no file, or one without a byte and a log, and the sizes are those of the
    // empty vault
    ensures empty { result.1 ≡ None
        → IfOk result.0 (λ sizes. (sizes ≡ sizes_of empty_vault) × P.lacks paths path.now) }
    // 34 gives no files, and no other refusal but 32 for want of memory does
    ensures refused { IfErr result.0 (λ why. (IsRefusal why → result.1 ≡ None)
        × (result.1 ≡ None → IsRefusal why ⊎ (why ≡ NotOpened.Fault OpenFault.Memory))) }
    // 34 comes only if an open of the files at the path may fail so
    ensures refused_there { IfErr result.0 (λ why. IfRefused why (P.refuses paths path.now)) }
    // with Ok and files, on an honest disk, the sizes are the vault's, if its rows are full, and a sound one
    // stays
    ensures sound { WhereDone result (P.holds paths path.now) ChecksAs }
    // on an honest disk, the files left keep what the bytes kept: a vault, one of two, or the empty one, made
    // or not
    ensures left { WhereShut result (P.holds paths path.now) Stays }
    // on an honest disk, the refusal is right
    ensures rightly { WhereLeft result (P.holds paths path.now)
        (λ image left why. IsClean (view left) → RefusesRightly image why) }
    // on an honest disk, whoever opens what a crash leaves of the files finds what was in the bytes
    ensures same { WhereShut result (P.holds paths path.now) StaysWhole }
{
    if !is_no_path(path) {
        match paths.is_empty(rt, path) {
            Ok(true) => return (Ok(EMPTY), None),
            Ok(false) => {}
            Err(_) => return (Err(NotOpened::Fault(OpenFault::Memory)), None),
        }
    }
    match check_from(rt, path, paths) {
        Ok((sizes, conn)) => (Ok(sizes), Some(close(conn))),
        Err((fault, Some(conn))) => (Err(fault), Some(close(conn))),
        Err((fault, None)) => (Err(fault), None),
    }
}
