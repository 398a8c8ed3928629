//! What a command answers, and what it changes.
ghost use Rattle.std.specs.Prelude.{◌≡◌};
ghost use Rattle.vault_refusal.specs.Refusal.{number_of};
ghost use Rattle.vault_core.specs.Changes.{Decides, FitsVault, RefusesQuietly};
ghost use Rattle.vault_core.specs.Changes.{moved_lives, no_changes};
ghost use Rattle.vault_core.specs.Parts.{command_with};
ghost use Rattle.vault_core.specs.Proper.{HasLivesInRange, IsProper};
ghost use Rattle.vault_core.specs.Window.{WritesNothing};

mod merchant;
mod redeem;
mod retire;
mod show;
mod token;

use crate::changes::Changes;
use crate::command::Command;
use crate::moment::Moment;
use crate::name::MerchantId;
use crate::parts::Parts;
use crate::reply::Reply;
use crate::row::{Lives, MerchantRow};
use crate::window::Window;
use merchant::{grant, set_merchant, withdraw};
use redeem::detokenize;
use retire::{purge, revoke};
use show::{audit, view};
use token::tokenize;
use vault_refusal::refusal::Refusal;

/// The answer to a command and what it changes, from the rows that it needs.
///
/// A SetMerchant is refused by 18, a Grant and a Withdraw by 7, a Tokenize by 10, 7, 8, 9, 11 and 12,
/// a Detokenize by 7, 8, 13, 14, 15, 16 and 11, a View and a Revoke by 7, 8, 13 and 14, a Purge
/// by 7, 8, 13 and 17, an Audit by 7 and 8. The first that applies is answered.
pub fn decide(w: &Window, c: &Command) -> (Reply, Changes)
    requires { HasLivesInRange c.now }
    ensures settles { Decides w.now c.now result }
    // of whatever sound vault the window is, the changes fit it
    ensures fits { FitsVault w.now c.now result.1 }
    ensures refusals { RefusesQuietly c.now result.0 result.1 }
    // a View, an Audit, and a Tokenize that the window shows to be recorded change nothing
    ensures silent { WritesNothing w.now c.now → result.1 ≡ no_changes }
{
    settle(w, &Parts::of(c))
}

/// The answer to a command that is taken apart, and what it changes.
#[tactic(auto, using(crate::proofs::Fitting::fits_vault))]
pub fn settle(w: &Window, parts: &Parts) -> (Reply, Changes)
    // all parts of the command are values of their types
    requires { IsProper (command_with parts.now) }
    ensures settles { Decides w.now (command_with parts.now) result }
    // of whatever sound vault the window is, the changes fit it
    ensures fits { FitsVault w.now (command_with parts.now) result.1 }
    ensures refusals { RefusesQuietly (command_with parts.now) result.0 result.1 }
    // a View, an Audit, and a Tokenize that the window shows to be recorded change nothing
    ensures silent { WritesNothing w.now (command_with parts.now) → result.1 ≡ no_changes }
{
    by_kind(w, parts)
}

/// Each kind of command is answered in its own function.
fn by_kind(w: &Window, parts: &Parts) -> (Reply, Changes)
    // all parts of the command are values of their types
    requires { IsProper (command_with parts.now) }
    ensures settles { Decides w.now (command_with parts.now) result }
    ensures refusals { RefusesQuietly (command_with parts.now) result.0 result.1 }
    // a View, an Audit, and a Tokenize that the window shows to be recorded change nothing
    ensures silent { WritesNothing w.now (command_with parts.now) → result.1 ≡ no_changes }
{
    match parts {
        Parts::SetMerchant(merchant, handed) => set_merchant(w, *merchant, *handed),
        Parts::Grant(caller, merchant, right, until, now) => grant(
            w, *caller, *merchant, *right, *until, *now,
        ),
        Parts::Withdraw(caller, merchant, right, now) => withdraw(
            w, *caller, *merchant, *right, *now,
        ),
        Parts::Tokenize(asked) => tokenize(w, asked),
        Parts::Detokenize(asked) => detokenize(w, asked),
        Parts::View(asked) => view(w, asked),
        Parts::Revoke(asked) => revoke(w, asked),
        Parts::Purge(asked) => purge(w, asked),
        Parts::Audit(caller, merchant, now) => audit(w, *caller, *merchant, *now),
    }
}

/// A refusal, which changes nothing.
fn refused(refusal: Refusal) -> (Reply, Changes)
    ensures { result ≡ (Reply.Refused (number_of refusal), no_changes) }
{
    (Reply::Refused(refusal.number()), Changes::none())
}

/// The merchant's moment moves.
fn moved(merchant: MerchantId, row: &MerchantRow, now: Moment) -> (MerchantId, Lives)
    ensures { result ≡ moved_lives merchant row.now now }
{
    let moment = row.moment.later(now);
    (
        merchant,
        Lives {
            moment,
            ..row.lives()
        },
    )
}
