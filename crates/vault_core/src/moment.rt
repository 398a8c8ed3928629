//! Moments.
ghost use Rattle.std.specs.Prelude.{◌≡◌, IsOk, IfErr, IfOk, ◌↔◌, max};
ghost use Rattle.vault_core.specs.Scalar.{IsMoment};

use crate::limit::LAST_MOMENT;
use std::marker::Model;
use vault_refusal::refusal::Refusal;

/// Whole seconds since 1970. Contracts see their number.
#[derive(Clone, Copy, PartialEq, Eq, PartialOrd, Ord)]
pub struct Moment {
    seconds: u64,
}

impl Model for Moment {
    ghost use Rattle.std.specs.Prelude.{ℕ};
    ghost use Rattle.vault_core.specs.Scalar.{IsMoment};

    ghost Value = { ℕ };

    ghost view = { λ m. m.seconds };

    ghost invariant = { λ m. IsMoment m.seconds };

    ghost inverse = { λ n. record { seconds = n } };
}

impl Moment {
    /// The moment of a number of seconds since 1970; else 6 BadMoment.
    pub fn new(seconds: u64) -> Result<Moment, Refusal>
        // a number is taken exactly where it is a moment
        ensures moment { IsOk result ↔ IsMoment seconds }
        // the refusal is `BadMoment`
        ensures refused { IfErr result (λ refused. refused ≡ Refusal.BadMoment) }
        // the moment is the number
        ensures value { IfOk result (λ m. m ≡ seconds) }
    {
        if seconds > LAST_MOMENT {
            return Err(Refusal::BadMoment);
        }
        Ok(Moment { seconds })
    }

    /// The seconds since 1970.
    pub fn seconds(self) -> u64
        // the number is the moment's own
        ensures value { result ≡ self }
        // a moment's number is in range
        ensures moment { IsMoment self }
    {
        self.seconds
    }

    /// The later one of the two.
    pub fn later(self, other: Moment) -> Moment
        ensures { result ≡ max self other }
    {
        if self.seconds < other.seconds {
            other
        } else {
            self
        }
    }
}
