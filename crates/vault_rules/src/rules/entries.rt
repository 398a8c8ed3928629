//! The rules of entries, of one after the other.
ghost use Rattle.std.specs.Prelude.{◌≡◌, pos, ◌+ℤ◌, ◌&&◌, true, List, []};
ghost use Rattle.std.specs.Option.{option_map_or};
ghost use Rattle.vault_rules.specs.Found.{WhereFound};
ghost use Rattle.vault_rules.specs.NextRow.{TakesOneMore};
ghost use Rattle.vault_rules.specs.Rules as rules;
ghost use Rattle.vault_rules.specs.declared.rows.RawCard.{RawCard as CardRow};
ghost use Rattle.vault_rules.specs.declared.rows.RawMerchant.{RawMerchant as MerchantRow};

use crate::index::found::Found;
use crate::rows::RawEntry;
use crate::rules::bounds::{LONGEST_LIFE, is_within};
use crate::rules::cards::has_card;
use crate::texts::{fits, is_pan, is_token};

/// Which of the rules of entries all that came keep.
#[derive(Clone, Copy, Drop)]
pub struct EntryRules {
    /// 5: the merchant exists, and the token is 10 to 19 digits that fail the check.
    pub(crate) tokens: bool,
    /// 6: the number of the card row, where there is one, is a card number, as long as the token and with its
    /// last four digits.
    pub(crate) numbers: bool,
    /// 7: where the merchant exists, the usage, the birth, the time of expiry and that of the revocation are
    /// within their bounds.
    pub(crate) timed: bool,
    /// 8: where it is purged, and its merchant exists, it is revoked or has expired.
    pub(crate) kept: bool,
    /// Of 13: the card, unless it is purged, is a card row of its merchant.
    pub(crate) pointed: bool,
}

impl EntryRules {
    ghost use Rattle.vault_rules.specs.Seen.{KeepRules};

    /// None came yet.
    pub(crate) fn new() -> EntryRules
        ensures { (merchants : List MerchantRow) (cards : List CardRow)
            → KeepRules merchants cards result [] }
    {
        EntryRules {
            tokens: true,
            numbers: true,
            timed: true,
            kept: true,
            pointed: true,
        }
    }

    /// Takes the next entry.
    pub(crate) fn take(&mut self, found: &Found)
        ensures { WhereFound found.now (λ merchants cards.
            TakesOneMore (KeepRules merchants cards) self.old self.new found.now.entry.now) }
    {
        self.tokens = self.tokens && has_token(found);
        self.numbers = self.numbers && has_number(found);
        self.timed = self.timed && is_timed_there(found);
        self.kept = self.kept && is_kept_there(found);
        self.pointed = self.pointed && has_card(found);
    }
}

/// Whether an entry's merchant exists and its token is one.
fn has_token(found: &Found) -> bool
    ensures { WhereFound found.now (λ merchants cards.
        result ≡ rules.has_token merchants found.now.entry.now) }
{
    found.merchant.is_some() && is_token(found.entry.token.as_bytes())
}

/// Whether an entry's number, where there is one, is a card number that its token fits.
fn has_number(found: &Found) -> bool
    ensures { WhereFound found.now (λ merchants cards.
        result ≡ rules.has_number cards found.now.entry.now) }
{
    match &found.card {
        Some(card) => {
            let number = card.number.bytes();
            is_pan(number) && fits(found.entry.token.as_bytes(), number)
        }
        None => true,
    }
}

/// Whether an entry keeps rule 7 at its merchant's moment.
fn is_timed_there(found: &Found) -> bool
    ensures { WhereFound found.now (λ merchants cards.
        result ≡ rules.at_moments merchants rules.is_timed found.now.entry.now) }
{
    match found.merchant {
        Some(merchant) => is_timed(merchant.moment, found.entry),
        None => true,
    }
}

/// Whether an entry keeps that rule at a moment.
fn is_timed(moment: i64, e: &RawEntry) -> bool
    ensures { result ≡ rules.is_timed moment e.now }
{
    is_within(1, 2, e.usage) && is_within(0, moment, e.birth) && ends_in_time(moment, e)
}

/// Whether an entry expires, and is revoked, within the bounds at a moment.
fn ends_in_time(moment: i64, e: &RawEntry) -> bool
    ensures { result
        ≡ rules.is_within (e.now.birth +ℤ pos 1) (e.now.birth +ℤ pos 3155760000) e.now.expires
        && option_map_or (rules.is_within e.now.birth moment) e.now.revoked true }
{
    expires_in_time(e.birth, e.expires) && is_revoked_in_time(moment, e)
}

/// Whether an expiry is 1 to 3155760000 seconds after a birth.
fn expires_in_time(birth: i64, expires: i64) -> bool
    ensures { result ≡ rules.is_within (birth +ℤ pos 1) (birth +ℤ pos 3155760000) expires }
{
    match expires.checked_sub(birth) {
        Some(life) => 1 <= life && life <= LONGEST_LIFE,
        None => false,
    }
}

/// Whether an entry is revoked from its birth to a moment, where it is.
fn is_revoked_in_time(moment: i64, e: &RawEntry) -> bool
    ensures { result ≡ option_map_or (rules.is_within e.now.birth moment) e.now.revoked true }
{
    match e.revoked {
        Some(revoked) => is_within(e.birth, moment, revoked),
        None => true,
    }
}

/// Whether an entry keeps rule 8 at its merchant's moment.
fn is_kept_there(found: &Found) -> bool
    ensures { WhereFound found.now (λ merchants cards.
        result ≡ rules.at_moments merchants rules.is_kept found.now.entry.now) }
{
    let e = found.entry;
    match found.merchant {
        Some(merchant) => {
            e.card.is_some() || e.revoked.is_some() || e.expires <= merchant.moment
        }
        None => true,
    }
}
