//! The rule of live multi-use entries.
ghost use Rattle.std.specs.Prelude.{◌≡◌, List, [], OnOk, true};
ghost use Rattle.vault_rules.specs.Found.{WhereFound};
ghost use Rattle.vault_rules.specs.Index.{IsSeenKey};
ghost use Rattle.vault_rules.specs.NextRow.{TakesOneMore};
ghost use Rattle.vault_rules.specs.Rules as rules;
ghost use Rattle.vault_rules.specs.declared.rows.RawCard.{RawCard as CardRow};
ghost use Rattle.vault_rules.specs.declared.rows.RawMerchant.{RawMerchant as MerchantRow};

use crate::index::found::Found;
use crate::packed::packed;
use crate::rows::RawEntry;
use crate::texts::is_pan;
use std::alloc::{AllocError, Global};
use std::collections::BTreeSet;

/// The usage of an entry that is for many purchases.
const MULTI: i64 = 2;

/// The merchants and the numbers of the live multi-use entries that came, up to the first that came twice.
#[derive(Drop)]
pub struct Live<'a> {
    /// Rule 9: no number has two live multi-use entries at one merchant.
    pub(crate) alone: bool,
    keys: BTreeSet<(u128, &'a str)>,
}

impl<'a> Live<'a> {
    ghost use Rattle.vault_rules.specs.Seen.{AreLive};

    /// None came yet.
    pub(crate) fn new(alloc: Global) -> Live<'a>
        ensures { (merchants : List MerchantRow) (cards : List CardRow) → AreLive merchants cards result [] }
    {
        Live {
            alone: true,
            keys: BTreeSet::new(alloc),
        }
    }

    /// Takes the next entry. Only memory can fail.
    pub(crate) fn take(&mut self, found: &Found<'a, '_>) -> Result<(), AllocError>
        ensures { OnOk result (WhereFound found.now (λ merchants cards.
            TakesOneMore (AreLive merchants cards) self.old self.new found.now.entry.now)) }
    {
        if !self.alone {
            return Ok(());
        }
        if let Some(key) = live_key(found) {
            self.alone = self.keys.insert(key)?;
        }
        Ok(())
    }
}

/// The number and the merchant of a multi-use entry that is live at its merchant's moment, where the number
/// is a card number.
fn live_key<'a>(found: &Found<'a, '_>) -> Option<(u128, &'a str)>
    ensures { WhereFound found.now (λ merchants cards.
        rules.has_number cards found.now.entry.now ≡ true
        → IsSeenKey result (rules.live_key merchants cards found.now.entry.now)) }
{
    let merchant = found.merchant?;
    let Some(card) = &found.card else {
        return None;
    };
    let number = card.number.bytes();
    if is_live(merchant.moment, found.entry) && is_pan(number) {
        Some((packed(number), merchant.name.as_str()))
    } else {
        None
    }
}

/// Whether an entry is a multi-use one that is live at a moment.
fn is_live(moment: i64, e: &RawEntry) -> bool
    ensures { result ≡ rules.is_live_multi moment e.now }
{
    e.usage == MULTI && e.revoked.is_none() && moment < e.expires
}
