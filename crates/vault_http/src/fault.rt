//! Why a service stops.
ghost use Rattle.std.specs.Prelude.{◌≡◌};
ghost use Rattle.vault_http.specs.Faults.{refusal_of as refusal_lem};

pub use vault_engine::stop::Stop as ServeFault;
use vault_refusal::refusal::Refusal;

/// The refusal that a service's stop is: 60 to 64.
pub fn refusal_of(fault: ServeFault) -> Refusal
    ensures { result ≡ refusal_lem fault }
{
    match fault {
        ServeFault::Source => Refusal::ServiceSource,
        ServeFault::Read => Refusal::ServiceRead,
        ServeFault::Write => Refusal::ServiceWrite,
        ServeFault::Store => Refusal::ServiceStore,
        ServeFault::Memory => Refusal::ServiceMemory,
    }
}
