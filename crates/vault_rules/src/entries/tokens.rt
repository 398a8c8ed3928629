//! The tokens of merchants that exist.
ghost use Rattle.std.specs.Prelude.{◌≡◌, true, List, [], OnOk, string_bytes};
ghost use Rattle.std.specs.Prelude.{unwrap_or};
ghost use Rattle.vault_rules.specs.Found.{WhereFound};
ghost use Rattle.vault_rules.specs.Index.{at_text};
ghost use Rattle.vault_rules.specs.Lookups.{is_known, token_usage};
ghost use Rattle.vault_rules.specs.NextRow.{TakesOneMore};
ghost use Rattle.vault_rules.specs.declared.rows.RawMerchant.{RawMerchant as MerchantRow};

use crate::index::counted::count_one;
use crate::index::first::put_first;
use crate::index::found::Found;
use crate::packed::packed;
use crate::rows::RawMerchant;
use crate::texts::is_token;
use std::alloc::{AllocError, Global};
use std::collections::BTreeMap;

/// How many entries each merchant has, and the usage of each token, by its number and its merchant's name.
#[derive(Drop)]
pub struct Tokens<'a> {
    held: BTreeMap<&'a str, usize>,
    usages: BTreeMap<(u128, &'a str), i64>,
}

impl<'a> Tokens<'a> {
    ghost use Rattle.vault_rules.specs.Seen.{HoldTokens, WhereTokens};

    /// None came yet.
    pub(crate) fn new(alloc: Global) -> Tokens<'a>
        ensures { (merchants : List MerchantRow) → HoldTokens merchants result [] }
    {
        Tokens {
            held: BTreeMap::new(alloc),
            usages: BTreeMap::new(alloc),
        }
    }

    /// Takes the next entry. Only memory can fail.
    pub(crate) fn take(&mut self, found: &Found<'a, '_>) -> Result<(), AllocError>
        // with Ok, of an entry with its own merchant, the entries held are those before and this one
        ensures { OnOk result (WhereFound found.now (λ merchants cards.
            TakesOneMore (HoldTokens merchants) self.old self.new found.now.entry.now)) }
    {
        let Some(merchant) = found.merchant else {
            return Ok(());
        };
        let name = merchant.name.as_str();
        count_one(&mut self.held, name)?;
        let token = found.entry.token.as_bytes();
        if is_token(token) {
            put_first(&mut self.usages, (packed(token), name), found.entry.usage)?;
        }
        Ok(())
    }

    /// How many entries a merchant has.
    pub(crate) fn held(&self, merchant: &str) -> usize
        ensures { result ≡ unwrap_or (at_text self.now.held merchant.now) 0 }
    {
        self.held.get(merchant).copied().unwrap_or(0)
    }

    /// The usage of a merchant's token, where each entry has a merchant and a token.
    pub(crate) fn usage(&self, merchant: &'a RawMerchant, token: &[u8]) -> Option<i64>
        // it is the usage of the first entry of the token, where that merchant exists and each entry has a
        // merchant and a token
        ensures { WhereTokens self.now (λ merchants raws.
            is_known merchants (string_bytes merchant.now.name) ≡ true
            → result ≡ token_usage raws (string_bytes merchant.now.name) token.now) }
    {
        if !is_token(token) {
            return None;
        }
        self.usages
            .get(&(packed(token), merchant.name.as_str()))
            .copied()
    }
}
