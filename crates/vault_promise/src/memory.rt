//! Files in memory, as the files at every path.

use sqlite::{Connection, FileStore, Files};
use sqlite_disk::Memory;
use std::alloc::AllocError;
use std::io;
use std::io::ErrorKind;
use vault_file::paths::{Paths, is_no_path};
use vault_recover::options::Cache;
use vault_recover::reopen::open_files;
use vault_recover::unopened::Unopened;

/// Files in memory that lie at every path.
#[derive(Drop)]
pub struct MemoryPaths {
    pub(crate) files: Files<Memory>,
}

/// The bytes are those of the files, whichever path is named, and no path lacks them; nothing else is told.
impl Paths for MemoryPaths {
    ghost use Rattle.std.specs.Prelude.{◌≡◌};
    ghost use Rattle.vault_promise.specs.Memory.{bytes_in};

    type Disk = Memory;

    ghost holds = { λ paths _ image. image ≡ bytes_in paths.files };

    ghost lacks = { λ _ _. ⊥ };

    ghost refuses = { λ _ _ _. Unit {0} };

    ghost says = { λ _ _ _. Unit {0} };

    ghost logs = { λ _ _ _. Unit {0} };

    fn is_empty(&self, _rt: &HostRuntime, _path: &str) -> Result<bool, AllocError> {
        Ok(false)
    }

    fn has_log(&self, _rt: &HostRuntime, _path: &str) -> Result<bool, AllocError> {
        Ok(true)
    }

    fn read(&self, _rt: &HostRuntime, _path: &str) -> io::Result<Vec<u8>> {
        Err(io::Error::from(ErrorKind::NotFound))
    }

    fn open(
        self,
        rt: &HostRuntime,
        path: &str,
        _cache: Cache,
    ) -> Result<Connection<FileStore<Memory>>, Unopened> {
        if is_no_path(path) {
            return Err(Unopened::Host);
        }
        match open_files(rt.alloc(), self.files) {
            Some(conn) => Ok(conn),
            None => Err(Unopened::Damaged),
        }
    }
}
