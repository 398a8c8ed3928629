//! The rule of the ends of rights.
ghost use Rattle.std.specs.Prelude.{◌≡◌};
ghost use Rattle.std.specs.List.{list_all};
ghost use Rattle.vault_rules.specs.Rules as rules;

use crate::rows::RawRight;
use crate::rules::bounds::{LAST_MOMENT, is_within};

/// Rule 15: the end of each right, where it has one, is a moment.
pub fn have_ends(rights: &[RawRight]) -> bool
    ensures { result ≡ list_all rules.has_end rights.now }
{
    rights.iter().all(|r| has_end(r))
}

/// Whether a right's end, where it has one, is a moment.
fn has_end(r: &RawRight) -> bool
    ensures { result ≡ rules.has_end r.now }
{
    match r.ends {
        Some(ends) => is_within(0, LAST_MOMENT, ends),
        None => true,
    }
}
