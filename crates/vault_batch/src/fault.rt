//! Why a batch stops.
ghost use Rattle.std.specs.Prelude.{◌≡◌};

use vault_engine::stop::Stop;
use vault_refusal::refusal::Refusal;

/// Why a batch stopped before the end of its rows.
#[derive(Clone, Copy, PartialEq, Eq, Drop)]
pub enum BatchFault {
    /// 40: the first record isn't the header, or there is none.
    BadHeader,
    /// 41: the reader failed.
    Read,
    /// 42: the writer failed.
    Write,
    /// 43: the store failed, or the vault was broken before.
    Store,
    /// 44: a record hasn't three fields.
    BadRecord,
    /// 45: memory was refused.
    Memory,
    /// 46: the source had no pair for a row.
    Source,
}

impl BatchFault {
    ghost use Rattle.vault_batch.specs.Faults.{refusal_of};

    /// Its refusal: 40 to 46.
    pub fn refusal(self) -> Refusal
        ensures { result ≡ refusal_of self }
    {
        match self {
            BatchFault::BadHeader => Refusal::BadHeader,
            BatchFault::Read => Refusal::BatchRead,
            BatchFault::Write => Refusal::BatchWrite,
            BatchFault::Store => Refusal::BatchStore,
            BatchFault::BadRecord => Refusal::BadRecord,
            BatchFault::Memory => Refusal::BatchMemory,
            BatchFault::Source => Refusal::BatchSource,
        }
    }
}

impl From<Stop> for BatchFault {
    ghost use Rattle.std.specs.Prelude.{◌≡◌};
    ghost use Rattle.vault_batch.specs.Faults.{fault_of};

    ghost from_gives = { λ stop fault. fault ≡ fault_of stop };

    fn from(stop: Stop) -> BatchFault {
        match stop {
            Stop::Source => BatchFault::Source,
            Stop::Read => BatchFault::Read,
            Stop::Write => BatchFault::Write,
            Stop::Store => BatchFault::Store,
            Stop::Memory => BatchFault::Memory,
        }
    }
}
