//! Why a service over a listener ends before its last connection.
ghost use Rattle.std.specs.Prelude.{◌≡◌};

use std::error::Error;
use std::fmt;
use vault_refusal::refusal::Refusal;

/// Why a service over a listener ended before its last connection.
#[derive(Clone, Copy, PartialEq, Eq, Debug, Drop)]
pub enum ListenFault {
    /// 60: the time jumped, or couldn't be read at the start.
    Source,
    /// 63: the store failed, or the vault was broken before.
    Store,
    /// 64: memory was refused before the first connection was accepted.
    Memory,
    /// 80: listening or accepting was refused.
    Accept,
}

impl ListenFault {
    ghost use Rattle.vault_listen.specs.Faults.{refusal_of};

    /// Its refusal: 60, 63, 64 or 80.
    pub fn refusal(self) -> Refusal
        ensures { result ≡ refusal_of self }
    {
        match self {
            ListenFault::Source => Refusal::ServiceSource,
            ListenFault::Store => Refusal::ServiceStore,
            ListenFault::Memory => Refusal::ServiceMemory,
            ListenFault::Accept => Refusal::Accept,
        }
    }
}

impl fmt::Display for ListenFault {
    ghost use Rattle.std.specs.Prelude.{Some};
    ghost use Rattle.vault_refusal.specs.Refusal.{words_of};
    ghost use Rattle.vault_listen.specs.Faults.{refusal_of};

    ghost output = { λ fault. Some (words_of (refusal_of fault)) };

    fn fmt<W: fmt::Write>(&self, f: &mut fmt::Formatter<W>) -> fmt::Result {
        let words = self.refusal().words();
        write!(f, "{words}")
    }
}

impl Error for ListenFault {}
