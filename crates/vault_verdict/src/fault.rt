//! Why a file isn't opened.
ghost use Rattle.std.specs.Prelude.{◌≡◌};
ghost use Rattle.vault_verdict.specs.Faults.{refusal_of};

use sql_tables::fault::StoreFault;
use std::alloc::AllocError;
use vault_refusal::refusal::Refusal;

/// Why no vault is opened.
#[derive(Clone, Copy, Debug, PartialEq, Eq)]
pub enum OpenFault {
    /// 30: the version that the file says, which isn't this program's; 0 where a table is missing or a name
    /// is taken.
    WrongSchema(i64),
    /// 31: the least rule that the rows break.
    Damaged(u8),
    /// 32: memory ran out.
    Memory,
    /// 33: the database failed, or holds what isn't a vault's.
    Store,
}

impl OpenFault {
    /// Its refusal: 30 to 33.
    pub fn refusal(&self) -> Refusal
        ensures { result ≡ refusal_of self.now }
    {
        match self {
            OpenFault::WrongSchema(_) => Refusal::WrongSchema,
            OpenFault::Damaged(_) => Refusal::Damaged,
            OpenFault::Memory => Refusal::OpenMemory,
            OpenFault::Store => Refusal::OpenStore,
        }
    }
}

impl From<AllocError> for OpenFault {
    ghost use Rattle.std.specs.Prelude.{◌≡◌};
    ghost use Rattle.vault_verdict.specs.declared.fault.OpenFault.TheVariants.{Memory};

    ghost from_gives = { λ refused fault. fault ≡ Memory };

    fn from(_refused: AllocError) -> OpenFault {
        OpenFault::Memory
    }
}

impl From<StoreFault> for OpenFault {
    ghost use Rattle.std.specs.Prelude.{◌≡◌};
    ghost use Rattle.vault_verdict.specs.Faults.{failure};

    ghost from_gives = { λ read fault. fault ≡ failure read };

    fn from(read: StoreFault) -> OpenFault {
        match read {
            StoreFault::Memory => OpenFault::Memory,
            StoreFault::Store => OpenFault::Store,
        }
    }
}
