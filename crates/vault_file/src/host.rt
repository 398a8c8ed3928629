//! The paths of the host that the program runs on.
use crate::paths::{Paths, is_no_path};
use sqlite::{Connection, FileFrom, FileStore, Start};
use std::alloc::AllocError;
use std::{fs, io};
use vault_blank::log::has_log;
use vault_blank::make::{is_empty, make_blank};
use vault_recover::options::Cache;
use vault_recover::reopen::open_path;
use vault_recover::unopened::Unopened;

/// The paths of the host.
///
/// No clause can say what the files at its paths hold: whichever are opened, `S` stands for their bytes.
#[derive(Drop)]
pub struct HostPaths<S> {
    start: S,
}

impl<S: Start> HostPaths<S> {
    /// The paths, with what stands for the bytes of the files that are opened.
    pub fn new(start: S) -> HostPaths<S> {
        HostPaths { start }
    }
}

/// Nothing is told but the bytes of the files that are opened.
impl<S: Start> Paths for HostPaths<S> {
    ghost use Rattle.std.specs.Prelude.{◌≡◌};
    ghost use Rattle.sqlite_wal.specs.Files.{image_at};

    type Disk = FileFrom<S>;

    ghost holds = { λ _ _ image. image ≡ image_at S.Start };

    ghost lacks = { λ _ _. Unit {0} };

    ghost refuses = { λ _ _ _. Unit {0} };

    ghost says = { λ _ _ _. Unit {0} };

    ghost logs = { λ _ _ _. Unit {0} };

    fn is_empty(&self, rt: &HostRuntime, path: &str) -> Result<bool, AllocError> {
        is_empty(rt, path)
    }

    fn has_log(&self, rt: &HostRuntime, path: &str) -> Result<bool, AllocError> {
        has_log(rt, path)
    }

    fn read(&self, rt: &HostRuntime, path: &str) -> io::Result<Vec<u8>> {
        fs::read(rt, path)
    }

    fn open(
        self,
        rt: &HostRuntime,
        path: &str,
        cache: Cache,
    ) -> Result<Connection<FileStore<FileFrom<S>>>, Unopened> {
        if is_no_path(path) {
            return Err(Unopened::Host);
        }
        match make_blank(rt, path) {
            Ok(_) => match open_path(rt, path, self.start, cache) {
                Ok(conn) => Ok(conn),
                Err(cause) => Err(cause),
            },
            Err(error) => Err(Unopened::of_host(&error)),
        }
    }
}
