//! What a crash in the midst of a migration leaves of the files.
ghost use Rattle.std.specs.Prelude.{◌≡◌, ◌≤◌, Decides, IsTrue};
ghost use Rattle.sqlite.specs.Files.{file_state};
ghost use Rattle.sqlite.specs.Tree.{Trees};
ghost use Rattle.sqlite.specs.View.{IsClean, doubt};
ghost use Rattle.sqlite_store.specs.FileStore.{view};
ghost use Rattle.vault_file.specs.Closed.{ReopensAs};
ghost use Rattle.vault_schema.specs.Versioned.{HasVersion};
ghost use Rattle.vault_verdict.specs.Names.{IsOf};

use sqlite::{Connection, FileStore};
use sqlite_disk::Disk;
use vault_tables::versions::has_version;
use vault_verdict::owners::{Holder, holder_in};

/// What a crash leaves of a connection that is open is its last commit, and nothing else.
pub(crate) fn settled<D: Disk + Drop>(conn: &Connection<FileStore<D>>)
    ensures { IsTrue (file_state conn.now).is_open → (db : Trees) → (file_state conn.now).may_leave db
        → db ≡ (file_state conn.now).committed.trees }
{}

/// Whether a database says its version, and whose tables it has.
pub(crate) fn told<D: Disk + Drop>(conn: &Connection<FileStore<D>>) -> (bool, Holder)
    // the first says whether the schema has a version
    ensures version { Decides result.0 (HasVersion (file_state conn.now).now.schema) }
    // the second says whose tables the schema has
    ensures holder { IsOf result.1 (file_state conn.now).now.schema }
{
    (has_version(conn.schema()), holder_in(conn.schema()))
}

/// Ends a connection. A crash at the moment of the call, or after it, leaves files in which whoever opens
/// them finds the vault that was there, in some version on its way, or in the one that it had; or one of
/// two; or what was there without a table, or the empty vault. What the tables say of the states that a
/// crash may leave is here said of the bytes of the files.
pub fn close<D: Disk + Drop>(conn: Connection<FileStore<D>>) -> FileStore<D>
    // a disk that is honest after the call was so before it
    ensures clean { doubt (file_state conn).is_clean ≤ doubt (view result).is_clean }
    // on an honest disk, the files before the call are found as a crash may leave them
    ensures before { IsClean (view result) → ReopensAs (file_state conn) conn.store }
    // on an honest disk, the files after the call are found as a crash may leave them
    ensures after { IsClean (view result) → ReopensAs (file_state conn) result }
{
    conn.into_store()
}
