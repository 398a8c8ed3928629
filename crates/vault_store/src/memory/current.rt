//! Tokens that can be given again.
ghost use Rattle.std.specs.Prelude.{◌≡◌, IfSome, IfNone};
ghost use Rattle.vault_core.specs.Keys.{Bytes};
ghost use Rattle.vault_core.specs.Repeats.{is_reusable as is_reusable_lem};
ghost use Rattle.vault_store.specs.Live.{IsLiveToken};

use std::collections::BTreeMap;
use vault_core::moment::Moment;
use vault_core::name::MerchantId;
use vault_core::reply::State;
use vault_core::row::{Entry, EntryState};
use vault_core::usage::Use;
use vault_pan::pan::Pan;
use vault_pan::token::Token;

/// A live multi-use token of a card number at a merchant.
pub fn live_token(
    entries: &BTreeMap<(MerchantId, Token), Entry>,
    merchant: MerchantId,
    pan: &Pan,
    at: Moment,
) -> Option<Token>
    // a token that is given is a live multi-use one of the number at the merchant
    ensures some { IfSome result (IsLiveToken entries.now merchant pan.now at) }
    // without one, the merchant has no live multi-use token of the number
    ensures none { IfNone result ((token : Bytes) → ¬ (IsLiveToken entries.now merchant pan.now at token)) }
{
    for ((owner, token), entry) in entries.iter() {
        if *owner == merchant && is_reusable(entry, pan, at) {
            return Some(*token);
        }
    }
    None
}

/// Whether an entry is a live multi-use one of a card number.
fn is_reusable(entry: &Entry, pan: &Pan, at: Moment) -> bool
    ensures { result ≡ is_reusable_lem pan.now at entry.now }
{
    let live = EntryState::Kept {
        number: *pan,
        state: State::Live,
    };
    entry.usage == Use::Multi && entry.state(at) == live
}
