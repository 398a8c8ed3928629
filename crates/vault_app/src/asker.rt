//! The names of words that ask in a caller's name.
ghost use Rattle.std.specs.Prelude.{◌≡◌, IfOk, MatchResult};
ghost use Rattle.vault_core.specs.Name.{IsName};
ghost use Rattle.vault_app.specs.Asked.{MisnamesAsker};

use crate::placeholder::Placeholder;
use vault_batch::asker::Asker;
use vault_core::name::{Caller, MerchantId};

/// Who asks at which merchant, or the placeholder of the first word that is no name.
pub(crate) fn asker_of(caller: &str, merchant: &str) -> Result<Asker, Placeholder>
    // with Ok both are names; Err is the placeholder of the first that isn't
    ensures names { MatchResult result
        (λ _. IsName caller.now × IsName merchant.now)
        (MisnamesAsker caller.now merchant.now) }
    // with Ok, the asker has these names
    ensures value { IfOk result (λ asker. (asker.caller ≡ caller.now) × (asker.merchant ≡ merchant.now)) }
{
    let Ok(caller) = Caller::read(caller.as_bytes()) else {
        return Err(Placeholder::Caller);
    };
    let Ok(merchant) = MerchantId::read(merchant.as_bytes()) else {
        return Err(Placeholder::Merchant);
    };
    Ok(Asker { caller, merchant })
}
