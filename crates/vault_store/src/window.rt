//! The rows of the tables that one command needs.
ghost use Rattle.std.specs.Prelude.{◌≡◌, option_map};
ghost use Rattle.std.specs.Option.{option_map_or};
ghost use Rattle.vault_store.specs.LookUps.{LooksUp};
ghost use Rattle.vault_core.specs.Draw.{chosen_token};
ghost use Rattle.vault_core.specs.Parts.{AsksByRight, command_with};
ghost use Rattle.vault_core.specs.Repeats.{current, record_with_entry, reusable as reusable_lem};
ghost use Rattle.vault_core.specs.Vault.{Vault, entitled};
ghost use Rattle.vault_core.specs.Window.{IsWindow, ShowsRequest, ShowsToken, moment_at};
ghost use Rattle.vault_store.specs.ReadRows.{row_moment};

use crate::tables::{Tables, TablesFault};
use vault_core::command::{Command, TokenCommand, TokenRequest};
use vault_core::moment::Moment;
use vault_core::name::{Caller, MerchantId};
use vault_core::parts::Parts;
use vault_core::right::Right;
use vault_core::row::{Entry, MerchantRow, Record};
use vault_core::usage::Use;
use vault_core::window::Window;
use vault_pan::draw::candidate;
use vault_pan::token::Token;

/// The window of a command: what the tables hold at the places that it needs.
pub fn window<T: Tables>(tables: &mut T, c: &Command) -> Result<Window, TablesFault>
    ensures { LooksUp T.Tables tables.old tables.new result (λ V found. IsWindow V c.now found) }
{
    window_of(tables, &Parts::of(c))
}

/// The window of a command that is taken apart.
pub(crate) fn window_of<T: Tables>(tables: &mut T, parts: &Parts) -> Result<Window, TablesFault>
    // the parts of a command on a token have its own right
    requires { AsksByRight parts.now }
    // what is found is the window of the command that has these parts
    ensures { LooksUp T.Tables tables.old tables.new result
        (λ V found. IsWindow V (command_with parts.now) found) }
{
    match parts {
        Parts::SetMerchant(merchant, _) => {
            let row = tables.merchant(*merchant)?;
            let merchants = tables.merchants()?;
            Ok(Window {
                merchant: row,
                merchants,
                ..Window::empty()
            })
        }
        Parts::Grant(_, merchant, ..) | Parts::Withdraw(_, merchant, ..) => {
            let row = tables.merchant(*merchant)?;
            Ok(Window {
                merchant: row,
                ..Window::empty()
            })
        }
        Parts::Tokenize(asked) => request_window(tables, asked),
        Parts::Detokenize(asked)
        | Parts::View(asked)
        | Parts::Revoke(asked)
        | Parts::Purge(asked) => token_window(tables, asked),
        Parts::Audit(caller, merchant, now) => {
            let row = tables.merchant(*merchant)?;
            let at = moment_of(&row, *now);
            let right = is_entitled(tables, *caller, *merchant, Right::Audit, at)?;
            Ok(Window {
                merchant: row,
                right,
                ..Window::empty()
            })
        }
    }
}

/// The window of a command on a token.
fn token_window<T: Tables>(tables: &mut T, asked: &TokenCommand) -> Result<Window, TablesFault>
    ensures { LooksUp T.Tables tables.old tables.new result (λ V found. ShowsToken V asked.now found) }
{
    let merchant = tables.merchant(asked.merchant)?;
    let at = moment_of(&merchant, asked.moment);
    let right = is_entitled(tables, asked.caller, asked.merchant, asked.right, at)?;
    let named = tables.entry(asked.merchant, asked.token)?;
    Ok(Window {
        merchant,
        right,
        named,
        ..Window::empty()
    })
}

/// The window of a Tokenize. Where its record stands nothing else is read, and where a live token is given
/// again no candidate is looked for.
fn request_window<T: Tables>(tables: &mut T, asked: &TokenRequest) -> Result<Window, TablesFault>
    ensures { LooksUp T.Tables tables.old tables.new result (λ V found. ShowsRequest V asked.now found) }
{
    let recorded = recorded_entry(tables, asked)?;
    if recorded.is_some() {
        return Ok(Window {
            recorded,
            ..Window::empty()
        });
    }
    let merchant = tables.merchant(asked.merchant)?;
    let at = moment_of(&merchant, asked.moment);
    let right = is_entitled(tables, asked.caller, asked.merchant, Right::Tokenize, at)?;
    let current = reusable(tables, asked, at)?;
    let known = Window {
        merchant,
        right,
        current,
        ..Window::empty()
    };
    if current.is_some() {
        return Ok(known);
    }
    let candidate = first_good(tables, asked)?;
    Ok(Window { candidate, ..known })
}

/// The moment of a command at a merchant.
pub fn moment_of(merchant: &Option<MerchantRow>, now: Moment) -> Moment
    ensures { result ≡ row_moment merchant.now now }
{
    match merchant {
        Some(row) => row.moment.later(now),
        None => now,
    }
}

/// Whether a caller is entitled at a moment to what a right allows at a merchant.
fn is_entitled<T: Tables>(
    tables: &mut T,
    caller: Caller,
    merchant: MerchantId,
    right: Right,
    at: Moment,
) -> Result<bool, TablesFault>
    ensures { LooksUp T.Tables tables.old tables.new result
        (λ V found. found ≡ entitled V caller merchant right at) }
{
    match tables.right(caller, merchant, right)? {
        Some(grant) => Ok(grant.lasts(at)),
        None => Ok(false),
    }
}

/// The record of the request, with its entry.
fn recorded_entry<T: Tables>(
    tables: &mut T,
    asked: &TokenRequest,
) -> Result<Option<(Record, Entry)>, TablesFault>
    ensures { LooksUp T.Tables tables.old tables.new result
        (λ V found. found ≡ record_with_entry V asked.now.caller asked.now.request) }
{
    let Some(earlier) = tables.recorded(asked.caller, asked.request)? else {
        return Ok(None);
    };
    match tables.entry(earlier.merchant, earlier.token)? {
        Some(entry) => Ok(Some((earlier, entry))),
        None => Ok(None),
    }
}

/// The live multi-use token of the number, with its entry, where one is asked for.
fn reusable<T: Tables>(
    tables: &mut T,
    asked: &TokenRequest,
    at: Moment,
) -> Result<Option<(Token, Entry)>, TablesFault>
    ensures { LooksUp T.Tables tables.old tables.new result
        (λ V found. moment_at V asked.now.merchant at ≡ at
        → found ≡ reusable_lem asked.now.usage (current V asked.now.merchant asked.now.pan at)) }
{
    match asked.usage {
        Use::Single => Ok(None),
        Use::Multi => {
            let Some(token) = tables.current(asked.merchant, asked.pan, at)? else {
                return Ok(None);
            };
            match tables.entry(asked.merchant, token)? {
                Some(entry) => Ok(Some((token, entry))),
                None => Ok(None),
            }
        }
    }
}

/// The first candidate of the draw that fails the check and that the merchant never had.
fn first_good<T: Tables>(tables: &mut T, asked: &TokenRequest) -> Result<Option<Token>, TablesFault>
    ensures { LooksUp T.Tables tables.old tables.new result
        (λ V found. found ≡ chosen_token V asked.now.merchant asked.now.pan asked.now.digits) }
{
    for k in 0..20 {
        if let Some(token) = candidate(&asked.digits, k, &asked.pan) {
            if tables.entry(asked.merchant, token)?.is_none() {
                return Ok(Some(token));
            }
        }
    }
    Ok(None)
}
