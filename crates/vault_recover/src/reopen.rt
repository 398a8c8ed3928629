//! What a crash leaves of a vault's files opens again.
//!
//! All of it stands on this premise: the disk keeps what the database promises of a crash, it returns what
//! was written, and nobody else wrote. No clause can say what the files at a path hold: the bytes of the
//! caller's `Start` stand for them.
ghost use Rattle.std.specs.Prelude.{◌≡◌, false, None, IfOk, IfSome};
ghost use Rattle.sqlite.specs.Files.{file_state, image_of};
ghost use Rattle.sqlite.specs.Held.{IsNew};
ghost use Rattle.sqlite.specs.State.{HasCleanDisk};
ghost use Rattle.sqlite_trees.specs.Tree.{Trees};
ghost use Rattle.sqlite_wal.specs.Files.{image_at};
ghost use Rattle.vault_core.specs.Vault.{Vault};
ghost use Rattle.vault_recover.specs.Crashed.{AreBlank, HoldsEither, HoldsFirst, IsOpenOf};
ghost use Rattle.vault_recover.specs.Crashed.{Keeps, KeepsEither, KeepsFirst};
ghost use Rattle.vault_schema.specs.Holds.{AreOurs, Holds};

use crate::cached::keep_both_in_pages;
use crate::options::{Cache, options_for};
use crate::unopened::Unopened;
use sqlite::{Connection, FileFrom, FileStore, Files, Options, Start};
use sqlite_disk::Disk;
use std::alloc::Global;
use std::rt::HostRuntime;

/// Opens these files, if no write to them is in doubt. The salts of the log begin from one fixed number.
pub fn open_files<D: Disk + Drop>(
    alloc: Global,
    files: Files<D>,
) -> Option<Connection<FileStore<D>>>
    ensures idle { IfSome result (λ c. c.in_transaction ≡ false) }
    ensures unlimited { IfSome result (λ c. c.step_limit ≡ None) }
    // on an honest disk, the connection was just opened over the bytes of the files, and found what they hold
    ensures opened { IfSome result (λ c. HasCleanDisk (file_state c) → IsOpenOf (image_of D.Disk files) c) }
    // on an honest disk, a vault for which the committed rows stand is held
    ensures holds { IfSome result (λ c. HasCleanDisk (file_state c)
        → (V : Vault) → AreOurs (file_state c).committed.trees V → Holds (file_state c) V) }
    // on an honest disk, a vault that the bytes keep is held
    ensures again { IfSome result (λ c. HasCleanDisk (file_state c)
        → (V : Vault) → Keeps (image_of D.Disk files) V → Holds (file_state c) V) }
    // on an honest disk, where the bytes keep one of two vaults, one of them is held
    ensures either { IfSome result (λ c. HasCleanDisk (file_state c)
        → (V W : Vault) → KeepsEither (image_of D.Disk files) V W → HoldsEither (file_state c) V W) }
    // on an honest disk, where the bytes keep no table or the empty vault, no table is seen or the empty
    // vault is held
    ensures first { IfSome result (λ c. HasCleanDisk (file_state c)
        → (before : Trees) → AreBlank before → KeepsFirst (image_of D.Disk files) before
        → HoldsFirst (file_state c) before) }
{
    if !files.may_be_used() {
        return None;
    }
    match Connection::open_files(alloc, files, Options::new(9)) {
        Ok(conn) => Some(conn),
        Err(_) => None,
    }
}

/// Opens the files at a path, or makes them, with what is read of them kept in memory as far as it may be.
fn connect<S: Start>(
    rt: &HostRuntime,
    path: &str,
    start: S,
    cache: Cache,
) -> Result<Connection<FileStore<FileFrom<S>>>, Unopened>
    // the connection is new
    ensures fresh { IfOk result IsNew }
    // on an honest disk, the connection was just opened over the bytes of the files, and found what they hold
    ensures opened { IfOk result (λ c. HasCleanDisk (file_state c) → IsOpenOf (image_at S.Start) c) }
{
    let options = match options_for(rt, path, cache) {
        Ok(options) => options,
        Err(error) => return Err(Unopened::of_host(&error)),
    };
    let files = match sqlite_std_file::open(rt, path, start) {
        Ok(files) => files,
        Err(error) => return Err(Unopened::of_files(&error)),
    };
    // Whether this is done changes speed alone: what can't be read the database tells itself.
    let _kept = keep_both_in_pages(rt, path);
    match Connection::open_files_with(rt.alloc(), files, options, false) {
        Ok(mut opened) => {
            opened.set_clock(rt);
            Ok(opened)
        }
        Err((error, _)) => Err(Unopened::of_database(&error)),
    }
}

/// Opens the files at a path, or makes them. Any path is a file's, `:memory:` too. An error says why they
/// aren't opened, as far as the host and the database tell.
pub fn open_path<S: Start>(
    rt: &HostRuntime,
    path: &str,
    start: S,
    cache: Cache,
) -> Result<Connection<FileStore<FileFrom<S>>>, Unopened>
    ensures idle { IfOk result (λ c. c.in_transaction ≡ false) }
    ensures unlimited { IfOk result (λ c. c.step_limit ≡ None) }
    // on an honest disk, the connection was just opened over the bytes of the files, and found what they hold
    ensures opened { IfOk result (λ c. HasCleanDisk (file_state c) → IsOpenOf (image_at S.Start) c) }
    // on an honest disk, a vault for which the committed rows stand is held
    ensures holds { IfOk result (λ c. HasCleanDisk (file_state c)
        → (V : Vault) → AreOurs (file_state c).committed.trees V → Holds (file_state c) V) }
    // on an honest disk, a vault that the bytes keep is held
    ensures again { IfOk result (λ c. HasCleanDisk (file_state c)
        → (V : Vault) → Keeps (image_at S.Start) V → Holds (file_state c) V) }
    // on an honest disk, where the bytes keep one of two vaults, one of them is held
    ensures either { IfOk result (λ c. HasCleanDisk (file_state c)
        → (V W : Vault) → KeepsEither (image_at S.Start) V W → HoldsEither (file_state c) V W) }
    // on an honest disk, where the bytes keep no table or the empty vault, no table is seen or the empty
    // vault is held
    ensures first { IfOk result (λ c. HasCleanDisk (file_state c)
        → (before : Trees) → AreBlank before → KeepsFirst (image_at S.Start) before
        → HoldsFirst (file_state c) before) }
{
    match connect(rt, path, start, cache) {
        Ok(opened) => Ok(opened),
        Err(cause) => Err(cause),
    }
}
