//! The numbers of a merchant's dead tokens, purged one after the other.
ghost use Rattle.std.specs.Prelude.{◌≡◌, Err, false};
ghost use Rattle.vault_store.specs.Applied.{is_broken};
ghost use Rattle.vault_engine.specs.Passing.{passage};
ghost use Rattle.vault_changes.specs.Failing.{BreaksByStore};
ghost use Rattle.vault_jobs.specs.Sweeps.{Sweeps};
ghost use Rattle.vault_store.specs.LookUps.{WasHonest};

use vault_batch::asker::Asker;
use vault_changes::carry::carry_all;
use vault_changes::purges::Purges;
use vault_core::limit::MOST_TOKENS;
use vault_core::moment::Moment;
use vault_store::tables::Tables;
use vault_store::vault::{Fault, Vault};

/// How many dead tokens are asked for at a time.
const PAGE: usize = 1000;

/// How often they are asked for at most: one is purged each time but the last.
const MOST_PAGES: u64 = MOST_TOKENS + 1;

/// Purges the numbers of the merchant's dead tokens at a moment, in the order of their texts, until none is
/// left or one is refused: by 8 where the caller isn't entitled. Those before it stay purged.
///
/// 20 Memory: memory was refused. 21 Store: the store failed.
pub fn sweep<T: Tables>(
    vault: &mut Vault<T>,
    asker: &Asker,
    now: Moment,
) -> Result<Result<u64, u8>, Fault>
    requires unbroken { is_broken vault.old ≡ false }
    // on an honest disk, the numbers of all dead tokens are purged and counted, or those before a purge that
    // was refused or failed
    ensures swept { Sweeps asker.now now (passage T.Tables vault.old vault.new) result }
    ensures broken { BreaksByStore vault.new result }
    ensures disk_honest { WasHonest T.Tables vault.old vault.new }
{
    let purges = Purges {
        caller: asker.caller,
        merchant: asker.merchant,
        now,
    };
    let mut count: u64 = 0;
    for _ in 0..MOST_PAGES {
        let tokens = match vault.dead(asker.merchant, now, PAGE) {
            Ok(tokens) => tokens,
            Err(fault) => return Err(fault),
        };
        if tokens.is_empty() {
            return Ok(Ok(count));
        }
        match carry_all(vault, &purges, tokens.as_slice()) {
            Ok(Ok(())) => {}
            Ok(Err(number)) => return Ok(Err(number)),
            Err(fault) => return Err(fault),
        }
        count = count.saturating_add(tokens.len() as u64);
    }
    Err(Fault::Store)
}
