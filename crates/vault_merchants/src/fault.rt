//! Why a list of merchants is refused.
ghost use Rattle.std.specs.Prelude.{◌≡◌};

use std::alloc::AllocError;
use vault_refusal::refusal::Refusal;

/// Why a list of merchants is refused.
#[derive(Clone, Copy, PartialEq, Eq, Drop)]
pub enum MerchantsFault {
    /// 70: the text is no TOML document in UTF-8.
    NotToml,
    /// 72: a key is no name of a merchant.
    BadName,
    /// 73: a merchant has no table of exactly the whole numbers `single`, `multi` and perhaps `lead`, and
    /// perhaps `sweep`, the name of a caller.
    WrongType,
    /// 74: memory was refused, which says nothing of the text.
    Memory,
    /// 76: a life is none, or a lead is neither 6 nor 8.
    BadLife,
}

impl MerchantsFault {
    ghost use Rattle.vault_merchants.specs.Faults.{refusal_of};

    /// Its refusal: 70, 72 to 74 or 76.
    pub fn refusal(self) -> Refusal
        ensures { result ≡ refusal_of self }
    {
        match self {
            MerchantsFault::NotToml => Refusal::NotToml,
            MerchantsFault::BadName => Refusal::BadKey,
            MerchantsFault::WrongType => Refusal::WrongType,
            MerchantsFault::Memory => Refusal::RightsMemory,
            MerchantsFault::BadLife => Refusal::BadLives,
        }
    }
}

impl From<AllocError> for MerchantsFault {
    ghost use Rattle.std.specs.Prelude.{◌≡◌};
    ghost use Rattle.vault_merchants.specs.declared.fault.MerchantsFault.TheVariants.{Memory};

    ghost from_gives = { λ _ fault. fault ≡ Memory };

    fn from(_refused: AllocError) -> MerchantsFault {
        MerchantsFault::Memory
    }
}
