//! The first dead tokens of a merchant, purged.
ghost use Rattle.std.specs.Prelude.{◌≡◌, ◌≤◌, Err, IfErr, IfOk, List, false, length, take, true};
ghost use Rattle.vault_core.specs.Dead.{dead_tokens};
ghost use Rattle.vault_core.specs.Keys.{Bytes};
ghost use Rattle.vault_core.specs.Vault.{Vault as Content};
ghost use Rattle.vault_store.specs.Applied.{is_broken};
ghost use Rattle.vault_engine.specs.Passing.{OfKept, passage};
ghost use Rattle.vault_listen.specs.declared.fault.ListenFault.TheVariants.{Store};
ghost use Rattle.vault_changes.specs.Failing.{BreaksByStore};
ghost use Rattle.vault_changes.specs.Purges.{purges_of};
ghost use Rattle.vault_changes.specs.Settling.{FailsToRead};
ghost use Rattle.vault_live.specs.Carrying.{news_in};
ghost use Rattle.vault_live.specs.Sweeping.{AsksFirst, IsDue, IsSaidOfFirst};
ghost use Rattle.vault_live.specs.Turns.{Attends};
ghost use Rattle.vault_store.specs.LookUps.{WasHonest};

use crate::first_commands::{Carried, End, MOST, carry_first};
use crate::news::News;
use vault_changes::moments::{is_far_ahead, is_far_behind, moment_of};
use vault_changes::purges::Purges;
use vault_core::moment::Moment;
use vault_core::name::{Caller, MerchantId};
use vault_listen::fault::ListenFault;
use vault_pan::token::Token;
use vault_refusal::refusal::Refusal;
use vault_store::tables::Tables;
use vault_store::vault::{Fault, Vault};

/// A merchant, and the caller by whom its dead tokens are purged.
#[derive(Clone, Copy, Drop)]
pub struct Sweeper {
    pub merchant: MerchantId,
    pub caller: Caller,
}

/// What is due of a merchant.
#[derive(Drop)]
pub(crate) enum Due {
    /// Nothing: no token is dead.
    Nothing,
    /// Tokens are dead, but the merchant's moment is far ahead of the clock's.
    Ahead,
    /// Tokens are dead, but it is far behind.
    Behind,
    /// The purges of these tokens.
    Purges(Vec<Token>),
}

/// The first dead tokens of a merchant at a moment. Nothing changes.
///
/// 20 Memory: memory was refused. 21 Store: the store failed.
fn dead_first<T: Tables>(
    vault: &mut Vault<T>,
    merchant: MerchantId,
    now: Moment,
) -> Result<Vec<Token>, Fault>
    requires unbroken { is_broken vault.old ≡ false }
    // with Ok, on an honest disk, these are the first of each vault that was held, and that one is kept
    ensures found { IfOk result (λ tokens. OfKept (passage T.Tables vault.old vault.new)
        (λ V. tokens.items ≡ take 100 (dead_tokens V merchant now))) }
    ensures failed { IfErr result (FailsToRead (passage T.Tables vault.old vault.new)) }
    ensures broken { BreaksByStore vault.new result }
    ensures disk_honest { WasHonest T.Tables vault.old vault.new }
{
    match vault.dead(merchant, now, MOST) {
        Ok(tokens) => Ok(tokens),
        Err(fault) => Err(fault),
    }
}

/// What is due of a merchant at a moment. Nothing changes.
///
/// 20 Memory: memory was refused. 21 Store: the store failed.
fn purges_due<T: Tables>(
    vault: &mut Vault<T>,
    merchant: MerchantId,
    now: Moment,
) -> Result<Due, Fault>
    requires unbroken { is_broken vault.old ≡ false }
    // with Ok, on an honest disk, it is due by each vault that was held, and that one is kept
    ensures due { IfOk result (λ due. OfKept (passage T.Tables vault.old vault.new)
        (IsDue merchant now due)) }
    ensures failed { IfErr result (FailsToRead (passage T.Tables vault.old vault.new)) }
    ensures broken { BreaksByStore vault.new result }
    ensures disk_honest { WasHonest T.Tables vault.old vault.new }
{
    let tokens = dead_first(vault, merchant, now)?;
    if tokens.is_empty() {
        return Ok(Due::Nothing);
    }
    match moment_of(vault, merchant)? {
        Some(moment) if is_far_ahead(moment, now) => Ok(Due::Ahead),
        Some(moment) if is_far_behind(moment, now) => Ok(Due::Behind),
        _ => Ok(Due::Purges(tokens)),
    }
}

/// What is said of the first of a merchant's purges, and whether more may be due at once.
///
/// 63 Store: the store failed.
fn purged(merchant: MerchantId, carried: Carried, now: Moment) -> Result<(News, bool), ListenFault>
    // this is said of the first of any caller's purges, where so many are done
    ensures said { IfOk result (λ it. (V : Content) (caller : Bytes) (tokens : List Bytes)
        → carried.done ≤ length tokens
        → IsSaidOfFirst it.0 carried.done (purges_of caller merchant now tokens) V) }
    // where the store failed it is an Err
    ensures store { carried.end ≡ End.Store → result ≡ Err Store }
    // the fault is Store, and the store failed
    ensures fault { IfErr result (λ fault. (fault ≡ Store) × (carried.end ≡ End.Store)) }
{
    if carried.done > 0 && carried.end != End::Store {
        return Ok((News::Purged(merchant, carried.done, now), true));
    }
    match carried.end {
        End::Refused(number) => Ok((News::Unswept(merchant, number, now), false)),
        End::Store => Err(ListenFault::Store),
        _ => Ok((News::Nothing, false)),
    }
}

/// Purges the first dead tokens of a merchant at a moment, a hundred at most, where the merchant's moment is
/// near. Answers what is said, and whether more may be due at once.
///
/// 63 Store: the store failed.
pub(crate) fn sweep_first<T: Tables>(
    vault: &mut Vault<T>,
    sweeper: Sweeper,
    now: Moment,
) -> Result<(News, bool), ListenFault>
    requires unbroken { is_broken vault.old ≡ false }
    // the first of the purges are carried out, this is said of them, and the vault that they leave is kept;
    // with Store a crash decides on one more
    ensures attends { Attends (AsksFirst sweeper now) (passage T.Tables vault.old vault.new)
        (news_in result) }
    // the vault is broken after Store only
    ensures broken { is_broken vault.new ≡ true → result ≡ Err Store }
    ensures disk_honest { WasHonest T.Tables vault.old vault.new }
{
    let (caller, merchant) = (sweeper.caller, sweeper.merchant);
    let tokens = match purges_due(vault, merchant, now) {
        Ok(Due::Nothing) => return Ok((News::Nothing, false)),
        Ok(Due::Ahead) => {
            let number = Refusal::MomentAhead.number();
            return Ok((News::Unswept(merchant, number, now), false));
        }
        Ok(Due::Behind) => return Ok((News::Waits(merchant, now), false)),
        Ok(Due::Purges(tokens)) => tokens,
        Err(Fault::Memory) => return Ok((News::Nothing, false)),
        Err(Fault::Store) => return Err(ListenFault::Store),
        Err(Fault::Reopen) => return Err(ListenFault::Store),
    };
    let purges = Purges {
        caller,
        merchant,
        now,
    };
    let carried = carry_first(vault, &purges, tokens.as_slice());
    purged(merchant, carried, now)
}
