//! Tokens whose lives are ended, and whose card numbers are purged.
ghost use Rattle.vault_core.specs.Changes.{Decides, RefusesQuietly};
ghost use Rattle.vault_core.specs.Parts.{command_by};

use crate::changes::Changes;
use crate::command::{Command, TokenCommand};
use crate::decide::{moved, refused};
use crate::reply::{Reply, State};
use crate::row::{Entry, EntryState};
use crate::window::Window;
use vault_refusal::refusal::Refusal;

/// A token's life is ended.
pub fn revoke(w: &Window, asked: &TokenCommand) -> (Reply, Changes)
    ensures settles { Decides w.now (command_by Command.Revoke asked.now) result }
    ensures refusals { RefusesQuietly (command_by Command.Revoke asked.now) result.0 result.1 }
{
    let Some(row) = w.merchant else {
        return refused(Refusal::NoMerchant);
    };
    if !w.right {
        return refused(Refusal::NoRight);
    }
    let Some(entry) = w.named else {
        return refused(Refusal::NoToken);
    };
    let at = row.moment.later(asked.moment);
    if let EntryState::Purged = entry.state(at) {
        return refused(Refusal::Purged);
    }
    let retired = Entry {
        revoked: Some(entry.revoked.unwrap_or(at)),
        ..entry
    };
    let changes = Changes {
        lives: Some(moved(asked.merchant, &row, asked.moment)),
        entry: Some((asked.merchant, asked.token, retired)),
        ..Changes::none()
    };
    (Reply::Done, changes)
}

/// A token's card number is purged; everything else of its entry stays.
pub fn purge(w: &Window, asked: &TokenCommand) -> (Reply, Changes)
    ensures settles { Decides w.now (command_by Command.Purge asked.now) result }
    ensures refusals { RefusesQuietly (command_by Command.Purge asked.now) result.0 result.1 }
{
    let Some(row) = w.merchant else {
        return refused(Refusal::NoMerchant);
    };
    if !w.right {
        return refused(Refusal::NoRight);
    }
    let Some(entry) = w.named else {
        return refused(Refusal::NoToken);
    };
    let changes = Changes {
        lives: Some(moved(asked.merchant, &row, asked.moment)),
        ..Changes::none()
    };
    let state = match entry.state(row.moment.later(asked.moment)) {
        EntryState::Kept { state, .. } => state,
        EntryState::Purged => return (Reply::Done, changes),
    };
    if let State::Live = state {
        return refused(Refusal::StillLive);
    }
    let purged = Entry {
        number: None,
        ..entry
    };
    let changes = Changes {
        entry: Some((asked.merchant, asked.token, purged)),
        ..changes
    };
    (Reply::Done, changes)
}
