//! Why a rights file is refused.
ghost use Rattle.std.specs.Prelude.{◌≡◌};

use std::alloc::AllocError;
use vault_refusal::refusal::Refusal;

/// Why a rights file is refused.
#[derive(Clone, Copy, PartialEq, Eq, Drop)]
pub enum RightsFault {
    /// 70: the text is no TOML document in UTF-8.
    NotToml,
    /// 71: a word is no right.
    UnknownRight,
    /// 72: a key is no name of a caller or a merchant.
    BadName,
    /// 73: a caller has no table, a merchant no array, or an item is neither a text nor a table of exactly a
    /// text `right` and a whole number `until`.
    WrongType,
    /// 74: memory was refused, which says nothing of the text.
    Memory,
    /// 75: the end of a right is no moment, 0 to 253402300799.
    BadEnd,
}

impl RightsFault {
    ghost use Rattle.vault_rights.specs.Faults.{refusal_of};

    /// Its refusal: 70 to 75.
    pub fn refusal(self) -> Refusal
        ensures { result ≡ refusal_of self }
    {
        match self {
            RightsFault::NotToml => Refusal::NotToml,
            RightsFault::UnknownRight => Refusal::UnknownRight,
            RightsFault::BadName => Refusal::BadKey,
            RightsFault::WrongType => Refusal::WrongType,
            RightsFault::Memory => Refusal::RightsMemory,
            RightsFault::BadEnd => Refusal::BadEnd,
        }
    }
}

impl From<AllocError> for RightsFault {
    ghost use Rattle.std.specs.Prelude.{◌≡◌};
    ghost use Rattle.vault_rights.specs.declared.fault.RightsFault.TheVariants.{Memory};

    ghost from_gives = { λ _ fault. fault ≡ Memory };

    fn from(_refused: AllocError) -> RightsFault {
        RightsFault::Memory
    }
}
