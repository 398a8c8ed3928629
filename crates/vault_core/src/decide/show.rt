//! Tokens that are asked about, and counts.
ghost use Rattle.vault_core.specs.Changes.{Decides, RefusesQuietly, no_changes};
ghost use Rattle.std.specs.Prelude.{◌≡◌};
ghost use Rattle.vault_core.specs.Parts.{command_by};

use crate::changes::Changes;
use crate::command::{Command, TokenCommand};
use crate::decide::refused;
use crate::moment::Moment;
use crate::name::{Caller, MerchantId};
use crate::reply::Reply;
use crate::row::EntryState;
use crate::window::Window;
use vault_pan::mask::mask;
use vault_refusal::refusal::Refusal;

/// A token is asked about.
pub fn view(w: &Window, asked: &TokenCommand) -> (Reply, Changes)
    ensures settles { Decides w.now (command_by Command.View asked.now) result }
    ensures refusals { RefusesQuietly (command_by Command.View asked.now) result.0 result.1 }
    // nothing changes
    ensures silent { result.1 ≡ no_changes }
{
    let Some(row) = w.merchant else {
        return refused(Refusal::NoMerchant);
    };
    if !w.right {
        return refused(Refusal::NoRight);
    }
    let Some(entry) = w.named else {
        return refused(Refusal::NoToken);
    };
    let (number, state) = match entry.state(row.moment.later(asked.moment)) {
        EntryState::Kept { number, state } => (number, state),
        EntryState::Purged => return refused(Refusal::Purged),
    };
    let reply = Reply::Shown {
        masked: mask(&number, row.lead),
        usage: entry.usage,
        birth: entry.birth,
        expires: entry.expires,
        state,
    };
    (reply, Changes::none())
}

/// A merchant's counts are asked for.
pub fn audit(w: &Window, caller: Caller, merchant: MerchantId, now: Moment) -> (Reply, Changes)
    ensures settles { Decides w.now (Command.Audit caller merchant now) result }
    ensures refusals { RefusesQuietly (Command.Audit caller merchant now) result.0 result.1 }
    // nothing changes
    ensures silent { result.1 ≡ no_changes }
{
    let Some(row) = w.merchant else {
        return refused(Refusal::NoMerchant);
    };
    if !w.right {
        return refused(Refusal::NoRight);
    }
    let counts = Reply::Counts {
        made: row.made,
        given: row.given,
        denied: row.denied,
    };
    (counts, Changes::none())
}
