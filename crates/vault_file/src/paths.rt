//! What stands at the paths of a host.
ghost use Rattle.std.specs.Prelude.{◌≡◌, ◌↔◌, false, None, IfErr, IfOk, IsErr, IsTrue};
ghost use Rattle.sqlite.specs.Files.{file_state};
ghost use Rattle.sqlite.specs.State.{HasCleanDisk};
ghost use Rattle.vault_core.specs.Vault.{Vault};
ghost use Rattle.vault_file.specs.Found.{IsNoPath};
ghost use Rattle.vault_file.specs.Paths.{Each};
ghost use Rattle.vault_recover.specs.Crashed.{AreBlank, HoldsEither, HoldsFirst, IsOpenOf};
ghost use Rattle.vault_recover.specs.Crashed.{Keeps, KeepsEither, KeepsFirst};
ghost use Rattle.vault_schema.specs.Holds.{Holds};

use crate::fault::NotOpened;
use sqlite::{Connection, FileStore};
use sqlite_disk::Disk;
use std::alloc::AllocError;
use std::io;
use vault_recover::options::Cache;
use vault_recover::unopened::Unopened;

/// Whether the words name no file: the database keeps `:memory:` and what begins with `file:` for itself.
pub fn is_no_path(path: &str) -> bool
    ensures { IsTrue result ↔ IsNoPath path.now }
{
    path.is_empty() || path == ":memory:" || path.starts_with("file:")
}

/// The connection over the files at a path.
pub type ConnectionAt<P> = Connection<FileStore<<P as Paths>::Disk>>;

/// What comes of a call over the file at a path, with its connection, or a refusal, with the connection where
/// there is one.
pub type Connected<P, X> = Result<(X, ConnectionAt<P>), (NotOpened, Option<ConnectionAt<P>>)>;

/// What comes of a call over the file at a path, and the files, closed, where there are some.
pub type Closed<P, X> = (Result<X, NotOpened>, Option<FileStore<<P as Paths>::Disk>>);

/// The paths of a host, and what stands at them.
///
/// Contracts see what is told of a path: which bytes its database file and its log hold, that it has no file
/// or one without a byte, that its files may not be opened, which text its file is, and whether it has a log.
/// Code over any `Paths` is told each of these by a call for this very path alone.
pub trait Paths: Drop {
    ghost use Rattle.std.specs.Prelude.{ℕ, Bool, List};
    ghost use Rattle.sqlite_wal.specs.Recovery.{Image};
    ghost use Rattle.vault_recover.specs.declared.unopened.Unopened.{Unopened};

    type Disk: Disk + Drop;

    // the database file at a path and its log hold such bytes
    ghost holds: { Self → List ℕ → Image → Type 0 };

    // nothing has the name, in a folder that is there, or a file without a byte and without a log has it
    ghost lacks: { Self → List ℕ → Type 0 };

    // an open of the files at a path may fail so
    ghost refuses: { Self → List ℕ → Unopened → Type 0 };

    // the bytes of the file at a path are such a text
    ghost says: { Self → List ℕ → List ℕ → Type 0 };

    // it is said whether something stands in the log beside the file at a path
    ghost logs: { Self → List ℕ → Bool → Type 0 };

    /// Whether nothing has the name, in a folder that is there, or a file without a byte and without a log
    /// has it. It fails where memory is refused.
    fn is_empty(&self, rt: &HostRuntime, path: &str) -> Result<bool, AllocError>
        ensures { IfOk result (λ empty. IsTrue empty → lacks self.now path.now) };

    /// Whether something stands in the log beside the file at a path. Where that can't be told, it is taken
    /// to; but it fails where memory is refused.
    fn has_log(&self, rt: &HostRuntime, path: &str) -> Result<bool, AllocError>
        ensures { IfOk result (λ has. logs self.now path.now has) };

    /// The bytes of the file at a path.
    fn read(&self, rt: &HostRuntime, path: &str) -> io::Result<Vec<u8>>
        ensures { IfOk result (λ text. says self.now path.now text.items) };

    /// Opens the files at a path, or makes them for their owner alone: a database without a table, in small
    /// pages.
    fn open(
        self,
        rt: &HostRuntime,
        path: &str,
        cache: Cache,
    ) -> Result<Connection<FileStore<Self::Disk>>, Unopened>
        // words that name no file aren't opened
        ensures no_path { IsNoPath path.now → IsErr result }
        // with Err, an open of the files at the path may fail so
        ensures refused { IfErr result (refuses self path.now) }
        ensures idle { IfOk result (λ c. c.in_transaction ≡ false) }
        ensures unlimited { IfOk result (λ c. c.step_limit ≡ None) }
        // on an honest disk, the connection was just opened over the bytes at the path, and found what they
        // hold
        ensures opened { IfOk result (λ c. Each (holds self path.now)
            (λ image. HasCleanDisk (file_state c) → IsOpenOf image c)) }
        // on an honest disk, a vault that the bytes keep is held
        ensures again { IfOk result (λ c. Each (holds self path.now) (λ image. HasCleanDisk (file_state c)
            → (V : Vault) → Keeps image V → Holds (file_state c) V)) }
        // on an honest disk, where the bytes keep one of two vaults, one of them is held
        ensures either { IfOk result (λ c. Each (holds self path.now) (λ image. HasCleanDisk (file_state c)
            → (V W : Vault) → KeepsEither image V W → HoldsEither (file_state c) V W)) }
        // on an honest disk, where the bytes keep no table or the empty vault, no table is seen or the empty
        // vault is held
        ensures first { IfOk result (λ c. Each (holds self path.now) (λ image. HasCleanDisk (file_state c)
            → (before : _) → AreBlank before → KeepsFirst image before → HoldsFirst (file_state c) before)) };
}
