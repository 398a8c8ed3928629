//! How many digits of a card number a mask shows at the left, at most.
ghost use Rattle.std.specs.Prelude.{◌≡◌, ◌≢◌, Some, IfSome, IfNone};
ghost use Rattle.vault_pan.specs.Mask.{lead_digits};

/// Six digits, or eight.
#[derive(Clone, Copy, PartialEq, Eq)]
pub enum Lead {
    Six,
    Eight,
}

impl Lead {
    /// How many digits it is.
    pub fn digits(self) -> u64
        ensures { result ≡ lead_digits self }
    {
        match self {
            Lead::Six => 6,
            Lead::Eight => 8,
        }
    }

    /// The lead of so many digits.
    pub fn of(digits: u64) -> Option<Lead>
        // the lead that is given is so many digits
        ensures found { IfSome result (λ lead. lead_digits lead ≡ digits) }
        // with none, no lead is so many digits
        ensures none { IfNone result ((lead : Lead) → lead_digits lead ≢ digits) }
    {
        match digits {
            6 => Some(Lead::Six),
            8 => Some(Lead::Eight),
            _ => None,
        }
    }
}
