//! Tokens whose numbers can be purged.
ghost use Rattle.std.specs.Prelude.{◌≡◌, ℕ, IfOk, take};
ghost use Rattle.vault_core.specs.Dead.{dead_tokens, is_dead as is_dead_lem};
ghost use Rattle.vault_core.specs.Keys.{entry_cmp};
ghost use Rattle.vault_core.specs.Vault.{Vault};
ghost use Rattle.vault_core.specs.Window.{moment_at};
ghost use Rattle.vault_store.specs.Shown.{Shows};

use std::alloc::{AllocError, Global};
use std::collections::BTreeMap;
use vault_core::moment::Moment;
use vault_core::name::MerchantId;
use vault_core::reply::State;
use vault_core::row::{Entry, EntryState};
use vault_pan::token::Token;

/// The first `limit` tokens of a merchant that are dead at the moment of a command, in order.
pub fn dead_among(
    alloc: Global,
    entries: &BTreeMap<(MerchantId, Token), Entry>,
    merchant: MerchantId,
    at: Moment,
    limit: usize,
) -> Result<Vec<Token>, AllocError>
    ensures { IfOk result (λ tokens. (V : Vault) (now : ℕ) → Shows entry_cmp entries.now V.entries
        → moment_at V merchant now ≡ at → tokens.items ≡ take limit (dead_tokens V merchant now)) }
{
    let mut tokens = Vec::new(alloc);
    for ((owner, token), entry) in entries.iter() {
        if tokens.len() == limit {
            return Ok(tokens);
        }
        if *owner == merchant && is_dead(entry, at) {
            tokens.push(*token)?;
        }
    }
    Ok(tokens)
}

/// Whether an entry has its number and isn't live.
fn is_dead(entry: &Entry, at: Moment) -> bool
    ensures { result ≡ is_dead_lem entry.now at }
{
    match entry.state(at) {
        EntryState::Purged => false,
        EntryState::Kept { state, .. } => state != State::Live,
    }
}
