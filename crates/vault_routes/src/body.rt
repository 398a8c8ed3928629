//! The body of a message that asks for a token: in its plainest form, or in any other by the JSON reader.
ghost use Rattle.std.specs.Prelude.{◌≡◌, IfOk, option_map, string_bytes, IfSome, Some};
ghost use Rattle.serde_json.specs.View.{view};
ghost use Rattle.vault_routes.specs.Body.{asked_in, json_in, texts_of};
ghost use Rattle.std.specs.List.{list_all};
ghost use Rattle.vault_routes.specs.Plain.{is_plain_byte, plain_body};

use serde_json::Value;
use std::alloc::{AllocError, Global};
use std::str;

/// The two texts of a body that asks for a token. There is no `Debug`, which would show a number.
#[derive(Drop)]
pub struct TokenBody {
    /// The text that stands for the card number.
    pub number: String,
    /// The text that stands for the use.
    pub usage: String,
}

// The JSON value of the bytes, where they are one.
fn read_json(alloc: Global, bytes: &[u8]) -> Result<Option<Value>, AllocError>
    // with Ok, it is the JSON value that the bytes are, or none where they are none
    ensures { IfOk result (λ value. json_in bytes.now ≡ option_map view value) }
{
    match Value::from_slice(alloc, bytes) {
        Ok(value) => Ok(Some(value)),
        Err(fault) if fault.is_memory() => Err(AllocError),
        Err(_) => Ok(None),
    }
}

// The texts `number` and `use` of a value that asks for a token.
fn asked_texts(value: &Value) -> Option<(&str, &str)>
    // the texts of `number` and `use`, where the value is an object of just these two members, and both are
    // texts
    ensures { option_map (λ t. (t.0.now, t.1.now)) result ≡ texts_of (view value.now) }
{
    let members = value.as_object()?;
    if members.len() != 2 {
        return None;
    }
    let number = value.get("number")?.as_str()?;
    let usage = value.get("use")?.as_str()?;
    Some((number, usage))
}

impl TokenBody {
    /// Reads a body: nothing where it is no JSON object with exactly the members `number` and `use`, both
    /// texts. Where a member stands twice, its last value counts.
    pub fn read(alloc: Global, bytes: &[u8]) -> Result<Option<TokenBody>, AllocError>
        ensures { IfOk result (λ body. asked_in bytes.now
            ≡ option_map (λ b. (string_bytes b.number, string_bytes b.usage)) body) }
    {
        if let Some((number, usage)) = plain_texts(bytes) {
            return Ok(Some(TokenBody::of(alloc, number, usage)?));
        }
        let Some(value) = read_json(alloc, bytes)? else {
            return Ok(None);
        };
        let Some((number, usage)) = asked_texts(&value) else {
            return Ok(None);
        };
        Ok(Some(TokenBody::of(alloc, number, usage)?))
    }

    // The body of these texts.
    fn of(alloc: Global, number: &str, usage: &str) -> Result<TokenBody, AllocError>
        ensures { IfOk result (λ body. (string_bytes body.number ≡ number.now)
            × (string_bytes body.usage ≡ usage.now)) }
    {
        Ok(TokenBody {
            number: String::from_str(alloc, number)?,
            usage: String::from_str(alloc, usage)?,
        })
    }
}

/// What stands before the number.
const BEFORE: &[u8] = b"{\"number\":\"";

/// What stands between the number and the use.
const BETWEEN: &[u8] = b"\",\"use\":\"";

/// What stands behind the use.
const BEHIND: &[u8] = b"\"}";

/// Whether bytes are digits and small letters.
fn are_plain(bytes: &[u8]) -> bool
    ensures { result ≡ list_all is_plain_byte bytes.now }
{
    bytes
        .iter()
        .all(|b| b.is_ascii_digit() || b.is_ascii_lowercase())
}

/// The two texts of bytes that have no space, `number` first, whatever these are.
fn parts(bytes: &[u8]) -> Option<(&[u8], &[u8])>
    ensures { IfSome result (λ texts. bytes.now ≡ plain_body texts.0.now texts.1.now) }
{
    let rest = bytes.strip_prefix(BEFORE)?;
    let end = rest.iter().position(|byte| *byte == b'"')?;
    let (number, rest) = rest.split_at(end);
    let usage = rest.strip_prefix(BETWEEN)?.strip_suffix(BEHIND)?;
    Some((number, usage))
}

/// The two texts of a body in its plainest form: `number` and then `use`, no space, and digits and small
/// letters alone in both.
#[tactic(auto, using(crate::proofs::PlainBodies::plain_asks))]
pub(crate) fn plain_texts(bytes: &[u8]) -> Option<(&str, &str)>
    // they are what the body asks with
    ensures { IfSome result (λ texts. asked_in bytes.now ≡ Some (texts.0.now, texts.1.now)) }
{
    let (number, usage) = parts(bytes)?;
    if !are_plain(number) || !are_plain(usage) {
        return None;
    }
    let _text = str::from_utf8(bytes).ok()?;
    let number = str::from_utf8(number).ok()?;
    let usage = str::from_utf8(usage).ok()?;
    Some((number, usage))
}
