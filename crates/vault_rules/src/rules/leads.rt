//! The rule of leads.
ghost use Rattle.std.specs.Prelude.{◌≡◌};
ghost use Rattle.std.specs.List.{list_all};
ghost use Rattle.vault_rules.specs.Rules as rules;

use crate::rows::RawMerchant;
use vault_pan::lead::Lead;

/// Rule 14: each merchant's masks show at most 6 or 8 digits at the left.
pub fn have_leads(merchants: &[RawMerchant]) -> bool
    ensures { result ≡ list_all rules.has_lead merchants.now }
{
    merchants.iter().all(|m| has_lead(m))
}

/// Whether a merchant's lead is one.
fn has_lead(m: &RawMerchant) -> bool
    ensures { result ≡ rules.has_lead m.now }
{
    m.lead == Lead::Six.digits() as i64 || m.lead == Lead::Eight.digits() as i64
}
