//! Why the files at a path aren't opened.
ghost use Rattle.std.specs.Prelude.{◌≡◌};
ghost use Rattle.vault_recover.specs.Unopened.{cause_of};

use sqlite::{Error, ErrorCode};
use sqlite_std_file::OpenError;
use std::io;

/// Why the files at a path aren't opened, as far as the host and the database tell.
#[derive(Clone, Copy, Debug, PartialEq, Eq, Drop)]
pub enum Unopened {
    /// There is no file, or one without a byte, and the caller only asks what it holds.
    Missing,
    /// Another program has them open.
    Elsewhere,
    /// Their bytes are no database, or a damaged one.
    Damaged,
    /// Memory was refused.
    Memory,
    /// The host refuses a name, a file, a read or a write; or SQLite left a rollback journal beside them.
    Host,
}

impl Unopened {
    /// What an error of the host comes to.
    pub fn of_host(error: &io::Error) -> Unopened {
        match error.kind() {
            io::ErrorKind::OutOfMemory => Unopened::Memory,
            _ => Unopened::Host,
        }
    }

    /// Why the files couldn't be locked and read.
    pub(crate) fn of_files(error: &OpenError) -> Unopened {
        match error {
            OpenError::Busy => Unopened::Elsewhere,
            OpenError::OutOfMemory => Unopened::Memory,
            OpenError::Io(error) => Unopened::of_host(error),
            OpenError::HotJournal => Unopened::Host,
        }
    }

    /// Why the database in them can't be opened.
    pub(crate) fn of_database(error: &Error) -> Unopened
        ensures { result ≡ cause_of error.now }
    {
        match error {
            Error::SqliteFailure(ErrorCode::NotADatabase) => Unopened::Damaged,
            Error::SqliteFailure(ErrorCode::DatabaseCorrupt) => Unopened::Damaged,
            Error::SqliteFailure(ErrorCode::OutOfMemory) => Unopened::Memory,
            Error::SqliteFailure(ErrorCode::DatabaseBusy) => Unopened::Elsewhere,
            _ => Unopened::Host,
        }
    }
}
