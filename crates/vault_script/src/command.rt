//! The commands that lines ask for.
use vault_core::command::Command;
use vault_core::moment::Moment;
use vault_core::name::{Caller, MerchantId};
use vault_core::request::RequestNo;
use vault_core::right::Right;
use vault_core::usage::Use;
use vault_pan::draw::Digits;
use vault_pan::lead::Lead;
use vault_pan::pan::Pan;
use vault_pan::token::Token;

/// The word at a place of a line.
pub fn word<'a>(line: &'a str, place: usize) -> Option<&'a str> {
    line.split(' ').nth(place)
}

/// The number at a place of a line.
pub fn number(line: &str, place: usize) -> Option<u64> {
    word(line, place)?.parse::<u64>().ok()
}

/// The moment at a place of a line.
pub fn moment(line: &str, place: usize) -> Option<Moment> {
    Moment::new(number(line, place)?).ok()
}

/// The merchant at a place of a line.
pub fn merchant(line: &str, place: usize) -> Option<MerchantId> {
    MerchantId::read(word(line, place)?.as_bytes()).ok()
}

/// The caller at a place of a line.
pub fn caller(line: &str, place: usize) -> Option<Caller> {
    Caller::read(word(line, place)?.as_bytes()).ok()
}

/// The right at a place of a line.
fn right(line: &str, place: usize) -> Option<Right> {
    Right::read(word(line, place)?.as_bytes())
}

/// The token at a place of a line.
fn token(line: &str, place: usize) -> Option<Token> {
    Token::read(word(line, place)?.as_bytes()).ok()
}

/// `set MERCHANT SINGLE MULTI NOW`, with the lead of six digits.
fn set(line: &str) -> Option<Command> {
    Some(Command::SetMerchant {
        merchant: merchant(line, 1)?,
        single_life: number(line, 2)?,
        multi_life: number(line, 3)?,
        lead: Lead::Six,
        now: moment(line, 4)?,
    })
}

/// `grant CALLER MERCHANT RIGHT NOW`, for good.
fn grant(line: &str) -> Option<Command> {
    Some(Command::Grant {
        caller: caller(line, 1)?,
        merchant: merchant(line, 2)?,
        right: right(line, 3)?,
        until: None,
        now: moment(line, 4)?,
    })
}

/// The request number, the use, the card number and the digits of a `tokenize`.
fn wish(line: &str) -> Option<(RequestNo, Use, Pan, Digits)> {
    let request = RequestNo::read(word(line, 3)?.as_bytes()).ok()?;
    let usage = Use::read(word(line, 4)?.as_bytes()).ok()?;
    let pan = Pan::read(word(line, 5)?.as_bytes()).ok()?;
    let digit = word(line, 6)?.parse::<u8>().ok()?;
    Some((request, usage, pan, Digits::new(&[digit; 300])?))
}

/// `tokenize CALLER MERCHANT REQUEST USE NUMBER DIGIT NOW`, where all 300 digits are one.
fn tokenize(line: &str) -> Option<Command> {
    let (request, usage, pan, digits) = wish(line)?;
    Some(Command::Tokenize {
        caller: caller(line, 1)?,
        merchant: merchant(line, 2)?,
        request,
        usage,
        pan,
        digits,
        now: moment(line, 7)?,
    })
}

/// `detokenize`, `view`, `revoke` or `purge CALLER MERCHANT TOKEN NOW`.
fn on_token(line: &str) -> Option<Command> {
    let (caller, merchant) = (caller(line, 1)?, merchant(line, 2)?);
    let (token, now) = (token(line, 3)?, moment(line, 4)?);
    let command = match word(line, 0)? {
        "detokenize" => Command::Detokenize {
            caller,
            merchant,
            token,
            now,
        },
        "view" => Command::View {
            caller,
            merchant,
            token,
            now,
        },
        "revoke" => Command::Revoke {
            caller,
            merchant,
            token,
            now,
        },
        "purge" => Command::Purge {
            caller,
            merchant,
            token,
            now,
        },
        _ => return None,
    };
    Some(command)
}

/// `audit CALLER MERCHANT NOW`.
fn audit(line: &str) -> Option<Command> {
    Some(Command::Audit {
        caller: caller(line, 1)?,
        merchant: merchant(line, 2)?,
        now: moment(line, 3)?,
    })
}

/// The command that a line asks.
pub fn asked(line: &str) -> Option<Command> {
    match word(line, 0)? {
        "set" => set(line),
        "grant" => grant(line),
        "tokenize" => tokenize(line),
        "audit" => audit(line),
        _ => on_token(line),
    }
}
