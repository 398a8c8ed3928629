//! Why rows are neither read nor written.

use sqlite::{Error, ErrorCode};
use std::alloc::AllocError;

/// Why rows weren't read, or weren't written.
#[derive(Clone, Copy, PartialEq, Eq)]
pub enum StoreFault {
    /// Memory ran out.
    Memory,
    /// The database failed, or it shows a row that is none of a vault's.
    Store,
}

impl From<Error> for StoreFault {
    ghost use Rattle.std.specs.Prelude.{◌≡◌, ◌↔◌};
    ghost use Rattle.sqlite.specs.declared.error.Error.TheVariants.{SqliteFailure};
    ghost use Rattle.sqlite.specs.declared.error.ErrorCode.TheVariants.{OutOfMemory};
    ghost use Rattle.sql_tables.specs.declared.fault.StoreFault.TheVariants.{Memory};

    ghost from_gives = { λ error fault. (fault ≡ Memory) ↔ (error ≡ SqliteFailure OutOfMemory) };

    fn from(error: Error) -> StoreFault {
        match error {
            Error::SqliteFailure(ErrorCode::OutOfMemory) => StoreFault::Memory,
            _ => StoreFault::Store,
        }
    }
}

impl From<AllocError> for StoreFault {
    ghost use Rattle.std.specs.Prelude.{◌≡◌};
    ghost use Rattle.sql_tables.specs.declared.fault.StoreFault.TheVariants.{Memory};

    ghost from_gives = { λ refused fault. fault ≡ Memory };

    fn from(_refused: AllocError) -> StoreFault {
        StoreFault::Memory
    }
}
