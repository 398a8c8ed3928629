//! Tokens that are brought back to their card numbers.
ghost use Rattle.std.specs.Prelude.{◌≡◌, true};
ghost use Rattle.vault_refusal.specs.Refusal.{number_of};
ghost use Rattle.vault_core.specs.Changes.{Decides, RefusesBy, RefusesQuietly, YieldsAt};
ghost use Rattle.vault_core.specs.Parts.{command_by};
ghost use Rattle.vault_core.specs.Named.{denies};
ghost use Rattle.vault_core.specs.Redeem.{denial, gift, redemption};
ghost use Rattle.vault_core.specs.Vault.{state_of, time_at};

use crate::changes::{Changes, Count};
use crate::command::{Command, TokenCommand};
use crate::decide::{moved, refused};
use crate::limit::MOST_COUNT;
use crate::moment::Moment;
use crate::name::MerchantId;
use crate::reply::{Reply, State};
use crate::row::{Entry, EntryState, MerchantRow};
use crate::window::Window;
use vault_pan::pan::Pan;
use vault_refusal::refusal::Refusal;

/// A card number is asked for.
pub fn detokenize(w: &Window, asked: &TokenCommand) -> (Reply, Changes)
    ensures settles { Decides w.now (command_by Command.Detokenize asked.now) result }
    ensures refusals { RefusesQuietly (command_by Command.Detokenize asked.now) result.0 result.1 }
{
    let Some(row) = w.merchant else {
        return refused(Refusal::NoMerchant);
    };
    if !w.right {
        return denied(asked.merchant, &row, asked.moment, Refusal::NoRight);
    }
    match w.named {
        None => denied(asked.merchant, &row, asked.moment, Refusal::NoToken),
        Some(entry) => redeemed(asked.merchant, &row, asked.moment, &entry),
    }
}

/// The token is known.
fn redeemed(merchant: MerchantId, row: &MerchantRow, now: Moment, entry: &Entry) -> (Reply, Changes)
    // in each vault that has the row as the merchant's, the decision is the outcome of the entry's state
    ensures yields { YieldsAt merchant row.now (λ V known. redemption V merchant now known
        (state_of entry.now (time_at known now))) result }
    // a refusal changes nothing, but that a denial is counted
    ensures denials { RefusesBy denies merchant result.0 result.1 }
{
    let (number, state) = match entry.state(row.moment.later(now)) {
        EntryState::Kept { number, state } => (number, state),
        EntryState::Purged => return denied(merchant, row, now, Refusal::Purged),
    };
    match state {
        State::Live => given(merchant, row, now, number),
        State::Revoked => denied(merchant, row, now, Refusal::Revoked),
        State::Expired => denied(merchant, row, now, Refusal::Expired),
    }
}

/// A number is given and counted, or refused where no more can be counted.
fn given(merchant: MerchantId, row: &MerchantRow, now: Moment, number: Pan) -> (Reply, Changes)
    // in each vault that has the row as the merchant's, the decision is the gift of the number
    ensures yields { YieldsAt merchant row.now (λ V known. gift V merchant now known number) result }
    // a refusal changes nothing, but that a denial is counted
    ensures denials { RefusesBy denies merchant result.0 result.1 }
{
    if row.given == MOST_COUNT {
        return refused(Refusal::Full);
    }
    let changes = Changes {
        lives: Some(moved(merchant, row, now)),
        count: Some(Count::Given),
        ..Changes::none()
    };
    (Reply::Number(number), changes)
}

/// A number is denied and that is counted, or refused where no more can be counted.
fn denied(merchant: MerchantId, row: &MerchantRow, now: Moment, reason: Refusal) -> (Reply, Changes)
    // the reason is one by which a number is denied
    requires { denies (number_of reason) ≡ true }
    // in each vault that has the row as the merchant's, the decision is the denial for this reason
    ensures yields { YieldsAt merchant row.now
        (λ V known. denial V merchant now known (number_of reason)) result }
    // a refusal changes nothing, but that a denial is counted
    ensures denials { RefusesBy denies merchant result.0 result.1 }
{
    if row.denied == MOST_COUNT {
        return refused(Refusal::Full);
    }
    let changes = Changes {
        lives: Some(moved(merchant, row, now)),
        count: Some(Count::Denied),
        ..Changes::none()
    };
    (Reply::Refused(reason.number()), changes)
}
