//! The files of a vault in memory, between two runs of the program.
ghost use Rattle.std.specs.Prelude.{IfSome};
ghost use Rattle.sqlite.specs.Files.{IsOpened, file_state};
ghost use Rattle.sqlite.specs.State.{HasCleanDisk};
ghost use Rattle.sqlite.specs.View.{IsClean};
ghost use Rattle.sqlite_store.specs.FileStore.{view};
ghost use Rattle.sqlite_store.specs.FileStore as files;
ghost use Rattle.sqlite_wal.specs.Files.{outcomes};
ghost use Rattle.sqlite_wal.specs.Reads.{AreClean};
ghost use Rattle.sqlite_wal.specs.Recovery.{Image};
ghost use Rattle.vault_promise.specs.Kept.{HaveRun, IsBlankLeft, SomeHaveRun};
ghost use Rattle.vault_promise.specs.Memory.{MayBeLeftIn};

use sqlite::{Connection, FileStore, Files};
use sqlite_disk::{Crash, Disk, Memory};
use std::alloc::Global;
use vault_file::reopen::close;
use vault_recover::reopen::open_files;
use vault_verdict::owners::{Holder, holder_in};

/// The files of a vault in memory, as runs of the program left them, and a stop perhaps.
#[derive(Drop)]
pub struct KeptFiles {
    pub(crate) files: Files<Memory>,
    ghost kept: { ∥ SomeHaveRun (MayBeLeftIn files) ∥₁ },
}

/// Ends a connection that found no table, and hands out its files, in which none is found.
fn blank_files<D: Disk + Drop>(conn: Connection<FileStore<D>>) -> Option<FileStore<D>>
    // on an honest disk, the connection is one that was opened
    requires { HasCleanDisk (file_state conn) → IsOpened conn }
    // on an honest disk, whoever opens the files after a stop finds no table, or the empty vault
    ensures { IfSome result (λ left. IsClean (view left) → IsBlankLeft left) }
{
    match holder_in(conn.schema()) {
        Holder::Nobody => Some(close(conn)),
        _ => None,
    }
}

/// The files of a store: what a stop may leave of them it may leave of the store.
pub(crate) fn files_of<D: Disk + Drop>(store: FileStore<D>) -> Files<D>
    // where the disk is honest about the files, it was so about the store
    ensures clean { AreClean D.Disk result.log result.db → IsClean (view store) }
    // on an honest disk, what a stop may leave of the files it may leave of the store
    ensures left { AreClean D.Disk result.log result.db → (next : Image)
        → outcomes D.Disk result.log result.db next → (files.state store).may_leave next }
{
    store.close()
}

impl KeptFiles {
    ghost use Rattle.std.specs.Prelude.{[], List};
    ghost use Rattle.vault_core.specs.Vault.{Vault, empty_vault};
    ghost use Rattle.vault_promise.specs.Between.{files_kept};
    ghost use Rattle.vault_promise.specs.Memory.{bytes_in};
    ghost use Rattle.vault_promise.specs.Runs.{Run};

    /// Files of a database without a table: no run came before, and it is the empty vault.
    pub fn begun(alloc: Global) -> Option<KeptFiles>
        ensures { IfSome result (λ kept. HaveRun empty_vault [] (MayBeLeftIn (files_kept kept))) }
    {
        let files = Files {
            log: Memory::new(alloc),
            db: Memory::new(alloc),
        };
        let conn = open_files(alloc, files)?;
        let store = blank_files(conn)?;
        Some(KeptFiles {
            files: files_of(store),
        })
    }

    /// What a stop leaves of the files: some bytes that may be left, after the same runs.
    pub fn stopped(self) -> KeptFiles
        // the bytes are some that a stop may leave of the files
        ensures left { MayBeLeftIn (files_kept self) (bytes_in (files_kept result)) }
        // runs that came up to what a stop may leave of the files came up to what one may leave of these
        ensures kept { (V : Vault) (rs : List Run) → HaveRun V rs (MayBeLeftIn (files_kept self))
            → HaveRun V rs (MayBeLeftIn (files_kept result)) }
    {
        let KeptFiles { mut files } = self;
        files.log.crash();
        files.db.crash();
        KeptFiles { files }
    }
}
