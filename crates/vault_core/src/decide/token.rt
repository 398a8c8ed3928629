//! Tokens that are asked for.
ghost use Rattle.std.specs.Prelude.{◌≡◌, IsSome};
ghost use Rattle.vault_core.specs.Changes.{Decides, RefusesQuietly, Yields, no_changes, record_changes};
ghost use Rattle.vault_core.specs.Repeats.{is_repeat as is_repeat_lem};
ghost use Rattle.vault_core.specs.Parts.{command_of};
ghost use Rattle.vault_core.specs.Tokens.{new_request as new_request_lem};
ghost use Rattle.vault_core.specs.Vault.{Vault, Merchant, life_for};
ghost use Rattle.vault_core.specs.Window.{ShowsMerchant};

use crate::changes::{Changes, Count};
use crate::command::TokenRequest;
use crate::decide::{moved, refused};
use crate::limit::MOST_TOKENS;
use crate::reply::Reply;
use crate::row::{Entry, MerchantRow, Record};
use crate::usage::Use;
use crate::window::Window;
use vault_pan::token::Token;
use vault_refusal::refusal::Refusal;

/// A token is asked for.
pub fn tokenize(w: &Window, asked: &TokenRequest) -> (Reply, Changes)
    ensures settles { Decides w.now (command_of asked.now) result }
    ensures refusals { RefusesQuietly (command_of asked.now) result.0 result.1 }
    // a request that the window shows to be recorded changes nothing
    ensures repeats { IsSome w.now.recorded → result.1 ≡ no_changes }
{
    if let Some((earlier, entry)) = w.recorded {
        if !is_repeat(asked, &earlier, &entry) {
            return refused(Refusal::NumberReused);
        }
        let reply = Reply::Token {
            token: earlier.token,
            expires: entry.expires,
        };
        return (reply, Changes::none());
    }
    let Some(row) = w.merchant else {
        return refused(Refusal::NoMerchant);
    };
    new_request(w, asked, &row)
}

/// Whether a request comes again with its merchant, use and number.
fn is_repeat(asked: &TokenRequest, earlier: &Record, entry: &Entry) -> bool
    ensures { result ≡ is_repeat_lem asked.now.merchant asked.now.usage asked.now.pan earlier.now entry.now }
{
    let same_number = match entry.number {
        Some(number) => number == asked.pan,
        None => earlier.token.fits(&asked.pan),
    };
    earlier.merchant == asked.merchant && earlier.usage == asked.usage && same_number
}

/// A new request at a merchant that is known.
fn new_request(w: &Window, asked: &TokenRequest, row: &MerchantRow) -> (Reply, Changes)
    // in each vault whose known merchant the window and the row show, the decision is the outcome of a new
    // request
    ensures yields { (V : Vault) (known : Merchant)
        → ShowsMerchant V asked.now known w.now row.now
        → Yields V (new_request_lem V asked.now known) result }
    ensures refusals { RefusesQuietly (command_of asked.now) result.0 result.1 }
{
    if !w.right {
        return refused(Refusal::NoRight);
    }
    let life = life_of(row, asked.usage);
    if life == 0 {
        return refused(Refusal::WrongUse);
    }
    if let Some((token, entry)) = w.current {
        return again(asked, row, token, &entry);
    }
    if row.made == MOST_TOKENS {
        return refused(Refusal::Full);
    }
    let Some(token) = w.candidate else {
        return refused(Refusal::NoCandidate);
    };
    let birth = row.moment.later(asked.moment);
    let entry = Entry {
        number: Some(asked.pan),
        usage: asked.usage,
        birth,
        expires: birth.seconds().saturating_add(life),
        revoked: None,
    };
    let (reply, changes) = again(asked, row, token, &entry);
    let changes = Changes {
        count: Some(Count::Made),
        entry: Some((asked.merchant, token, entry)),
        ..changes
    };
    (reply, changes)
}

/// How long a merchant's tokens of this use live.
fn life_of(row: &MerchantRow, usage: Use) -> u64
    ensures { result ≡ life_for usage row.now.single_life row.now.multi_life }
{
    match usage {
        Use::Single => row.single_life,
        Use::Multi => row.multi_life,
    }
}

/// The token of an entry is given, and the request is recorded.
fn again(asked: &TokenRequest, row: &MerchantRow, token: Token, entry: &Entry) -> (Reply, Changes)
    // the reply is the token, with the entry's end
    ensures value { result.0 ≡ Reply.Token token entry.now.expires }
    // the request is recorded with the token, and the merchant's moment moves
    ensures changes { result.1 ≡ record_changes asked.now row.now token }
{
    let record = Record {
        merchant: asked.merchant,
        token,
        usage: asked.usage,
    };
    let changes = Changes {
        lives: Some(moved(asked.merchant, row, asked.moment)),
        recorded: Some((asked.caller, asked.request, record)),
        ..Changes::none()
    };
    let reply = Reply::Token {
        token,
        expires: entry.expires,
    };
    (reply, changes)
}
