//! Where moments and drawn digits come from.
ghost use Rattle.std.specs.Prelude.{◌≡◌, ℕ, ◌+◌, ◌<◌, ◌^◌, true, [], ◌∷◌, ◌++◌, IfOk, OnOk, OnErr, IsErr};

use crate::moment::Moment;
use vault_pan::draw::Digits;

/// A source has no pair to give.
#[derive(Clone, Copy, PartialEq, Eq)]
pub struct SourceFault;

/// Gives a moment and drawn digits, one pair for each command. Contracts see the pairs that it gave.
pub trait Source {
    ghost use Rattle.std.specs.Prelude.{ℕ, List, Bool};

    ghost given: { Self → List (ℕ × List ℕ) };

    ghost count_left: { Self → ℕ };

    ghost has_refused: { Self → Bool };

    // the one is the other one, some calls before
    ghost precedes: { Self → Self → Type 0 };

    /// The next pair.
    fn next(&mut self) -> Result<(Moment, Digits), SourceFault>
        // with Ok, the pair stands behind those that were given before
        ensures gives { IfOk result (λ pair. given self.new ≡ given self.old ++ (pair.0, pair.1) ∷ []) }
        // with Ok, one pair fewer is left
        ensures counts { OnOk result (count_left self.old ≡ count_left self.new + 1) }
        // with Ok, whether it ever refused stays as it was
        ensures goes_on { OnOk result (has_refused self.new ≡ has_refused self.old) }
        // with Err, no pair was given
        ensures keeps { OnErr result (given self.new ≡ given self.old) }
        // after Err it has refused
        ensures refuses { OnErr result (has_refused self.new ≡ true) }
        // where no pair is left, it is an Err
        ensures spent { count_left self.old ≡ 0 → IsErr result }
        // the source is the same, further on
        ensures later { precedes self.old self.new };

    /// At most how many pairs it will give.
    fn left(&self) -> u64
        ensures { result ≡ count_left self.now };

    /// Whether it once had no pair to give.
    fn refused(&self) -> bool
        ensures { result ≡ has_refused self.now };

    // no call was made
    ghost reflexive: { (s : Self) → precedes s s };

    // calls, and then more of them
    ghost transitive: { (r s t : Self) → precedes r s → precedes s t → precedes r t };
}

/// Gives one moment and one set of digits a number of times.
#[derive(Clone, Copy)]
pub struct FixedSource {
    now: Moment,
    digits: Digits,
    given: u64,
    left: u64,
    refused: bool,
    ghost counted: { given + left < 2 ^ 64 },
}

impl FixedSource {
    ghost use Rattle.vault_core.specs.Sources.{GivesStill};

    /// Gives this moment and these digits this many times.
    pub fn new(now: Moment, digits: Digits, times: u64) -> FixedSource
        ensures { GivesStill result 0 times now digits }
    {
        FixedSource {
            now,
            digits,
            given: 0,
            left: times,
            refused: false,
        }
    }
}

impl Source for FixedSource {
    ghost use Rattle.std.proofs.Common.{refl, ◌∙◌};
    ghost use Rattle.vault_core.specs.Sources.{SamePair, pairs_of, GivesItsOwn};

    ghost given = { pairs_of };

    ghost count_left = { λ s. s.left };

    ghost has_refused = { λ s. s.refused };

    ghost precedes = { SamePair };

    fn next(&mut self) -> Result<(Moment, Digits), SourceFault>
        // with Ok, the pair stands behind those that were given before
        ensures gives { IfOk result (λ pair. pairs_of self.new ≡ pairs_of self.old ++ (pair.0, pair.1) ∷ []) }
        // with Ok, one pair fewer is left
        ensures counts { OnOk result (self.old.left ≡ self.new.left + 1) }
        // with Ok, whether it ever refused stays as it was
        ensures goes_on { OnOk result (self.new.refused ≡ self.old.refused) }
        // with Err, no pair was given
        ensures keeps { OnErr result (pairs_of self.new ≡ pairs_of self.old) }
        // after Err it has refused
        ensures refuses { OnErr result (self.new.refused ≡ true) }
        // where no pair is left, it is an Err
        ensures spent { self.old.left ≡ 0 → IsErr result }
        // the pair that it gives stays the same
        ensures later { SamePair self.old self.new }
        // it gives its own pair, and refuses only where none is left
        ensures its_own { GivesItsOwn self.old self.new result }
    {
        if self.left == 0 {
            self.refused = true;
            return Err(SourceFault);
        }
        self.left -= 1;
        self.given += 1;
        Ok((self.now, self.digits))
    }

    fn left(&self) -> u64 {
        self.left
    }

    fn refused(&self) -> bool {
        self.refused
    }

    ghost reflexive = { λ s. (refl, refl) };

    ghost transitive = { λ r s t p q. (q.0 ∙ p.0, q.1 ∙ p.1) };
}
