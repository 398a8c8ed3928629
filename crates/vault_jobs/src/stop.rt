//! Why a job stops.
ghost use Rattle.std.specs.Prelude.{◌≡◌};

use std::io::ErrorKind;
use vault_batch::fault::BatchFault;
use vault_http::fault::{ServeFault, refusal_of};
use vault_listen::fault::ListenFault;
use vault_live::subject::Subject;
use vault_refusal::refusal::Refusal;
use vault_store::vault::Fault;

/// Why a job stopped.
#[derive(Clone, Copy, PartialEq, Eq, Drop)]
pub enum Stop {
    /// 20 to 22: a command of the words wasn't answered, or there was no memory for the words.
    Vault(Fault),
    /// 60 to 64: messages weren't all answered; 60 too where the clock can't be read or has
    /// jumped, 62 where a line can't be written.
    Service(ServeFault),
    /// 60, 63, 64 or 80: connections weren't all served.
    Listener(ListenFault),
    /// The list of rights, or of merchants, wasn't read: 74 if memory was refused, 80 if the host refuses the
    /// file.
    Unread(Subject, ErrorKind),
    /// 40 to 46: rows weren't all answered.
    Batch(BatchFault),
}

impl Stop {
    ghost use Rattle.vault_jobs.specs.Causes.{refusal_of as refusal_lem};

    /// Its refusal.
    pub fn refusal(self) -> Refusal
        ensures { result ≡ refusal_lem self }
    {
        match self {
            Stop::Vault(fault) => fault.refusal(),
            Stop::Service(fault) => refusal_of(fault),
            Stop::Listener(fault) => fault.refusal(),
            Stop::Batch(fault) => fault.refusal(),
            Stop::Unread(_, ErrorKind::OutOfMemory) => Refusal::RightsMemory,
            Stop::Unread(_, _) => Refusal::Accept,
        }
    }
}
