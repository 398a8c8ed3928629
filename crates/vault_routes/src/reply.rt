//! What a reply comes to as an answer: its status and its JSON body.
ghost use Rattle.std.specs.Prelude.{◌≡◌, ◌++◌, IfOk, decimal, ◌↔◌};
ghost use Rattle.vault_routes.specs.Reply.{body_text, refusal_text as refused_text};
ghost use Rattle.vault_routes.specs.Reply.{shown_text as shown_lem};
ghost use Rattle.vault_core.specs.declared.reply.Reply.TheVariants.{Refused};
ghost use Rattle.vault_refusal.specs.Refusal.{number_of};
ghost use Rattle.vault_routes.specs.Status.{status_for as code_for, status_of as code_of};
ghost use Rattle.vault_wire.specs.Status.{IsStatus};

use std::alloc::{AllocError, Global};
use vault_core::reply::Reply;
use vault_refusal::refusal::{OTHER_STATUS, Refusal, status_at};

/// The text of a refusal, by its number.
pub fn refusal_text(alloc: Global, number: u8) -> Result<Vec<u8>, AllocError>
    ensures { IfOk result (λ v. v.items ≡ refused_text number) }
{
    Ok(format!(in alloc; "{{\"refused\":{number}}}")?.into_bytes())
}

// The text with a member's text behind it, and what comes next.
fn with(mut text: Vec<u8>, value: &[u8], next: &[u8]) -> Result<Vec<u8>, AllocError>
    // with Ok, the value and what comes next stand behind the text
    ensures { IfOk result (λ v. v.items ≡ text.items ++ value.now ++ next.now) }
{
    text.extend_from_slice(value)?;
    text.extend_from_slice(next)?;
    Ok(text)
}

// The text with a number's digits behind it, and what comes next.
fn numbered(alloc: Global, text: Vec<u8>, number: u64, next: &[u8]) -> Result<Vec<u8>, AllocError>
    // with Ok, the number's digits and what comes next stand behind the text
    ensures { IfOk result (λ v. v.items ≡ text.items ++ decimal number ++ next.now) }
{
    let digits = format!(in alloc; "{number}")?;
    with(text, digits.as_bytes(), next)
}

// The text of what a token stands for, by its words.
fn shown_text(
    alloc: Global,
    masked: &[u8],
    usage: &[u8],
    birth: u64,
    expires: u64,
    state: &[u8],
) -> Result<Vec<u8>, AllocError>
    // with Ok, it is the text of what a token stands for, of these parts
    ensures { IfOk result (λ v. v.items ≡ shown_lem masked.now usage.now birth expires state.now) }
{
    let text = Vec::from_slice(alloc, b"{\"birth\":")?;
    let text = numbered(alloc, text, birth, b",\"expires\":")?;
    let text = numbered(alloc, text, expires, b",\"masked\":\"")?;
    let text = with(text, masked, b"\",\"state\":\"")?;
    let text = with(text, state, b"\",\"use\":\"")?;
    Ok(with(text, usage, b"\"}")?)
}

// The text of a merchant's counts.
fn counts_text(alloc: Global, made: u64, given: u64, denied: u64) -> Result<Vec<u8>, AllocError>
    // with Ok, it is the text of these counts
    ensures { IfOk result (λ v. v.items ≡ body_text (Reply.Counts made given denied)) }
{
    let text = format!(in alloc; "{{\"denied\":{denied},\"given\":{given},\"made\":{made}}}")?;
    Ok(text.into_bytes())
}

/// The text of a reply: an object with its members in the order of their names, and no space.
pub fn body_of(alloc: Global, reply: &Reply) -> Result<Vec<u8>, AllocError>
    ensures { IfOk result (λ v. v.items ≡ body_text reply.now) }
{
    match reply {
        Reply::Done => Vec::from_slice(alloc, b"{\"done\":true}"),
        Reply::Token { token, expires } => {
            let text = format!(in alloc; "{{\"expires\":{expires},\"token\":\"")?;
            with(text.into_bytes(), token.digits(), b"\"}")
        }
        Reply::Number(number) => {
            let text = Vec::from_slice(alloc, b"{\"number\":\"")?;
            with(text, number.digits(), b"\"}")
        }
        Reply::Shown {
            masked,
            usage,
            birth,
            expires,
            state,
        } => {
            let usage = usage.word().as_bytes();
            let state = state.word().as_bytes();
            shown_text(
                alloc,
                masked.text(),
                usage,
                birth.seconds(),
                *expires,
                state,
            )
        }
        Reply::Counts {
            made,
            given,
            denied,
        } => counts_text(alloc, *made, *given, *denied),
        Reply::Refused(number) => refusal_text(alloc, *number),
    }
}

/// The status of a refusal.
#[tactic(auto, using(crate::proofs::Statuses::status_is, crate::proofs::Statuses::status_itself))]
pub fn status_by(refusal: Refusal) -> u16
    // it is the status of its number
    ensures code { result ≡ code_for (number_of refusal) }
    // the service answers with this status
    ensures status { IsStatus result }
{
    refusal.status()
}

/// The status of a refusal, by its number. A number that none has is answered by 507.
#[tactic(auto, using(crate::proofs::Statuses::status_is, crate::proofs::Statuses::with_57))]
pub fn status_for(refusal: u8) -> u16
    // it is the status of the refusal of this number, or that of a number that none has
    ensures code { result ≡ code_for refusal }
    // the service answers with this status
    ensures status { IsStatus result }
    // it is 405 exactly for 57
    ensures allow { (result ≡ 405) ↔ (refusal ≡ 57) }
{
    status_at(refusal).unwrap_or(OTHER_STATUS)
}

/// The status of a reply: 200 unless it is a refusal.
pub fn status_of(reply: &Reply) -> u16
    // it is 200, or the status of the refusal
    ensures code { result ≡ code_of reply.now }
    // the service answers with this status
    ensures status { IsStatus result }
    // it is 405 exactly for a refusal by 57
    ensures allow { (result ≡ 405) ↔ (reply.now ≡ Refused 57) }
{
    match *reply {
        Reply::Refused(number) => status_for(number),
        Reply::Done
        | Reply::Token { .. }
        | Reply::Number(_)
        | Reply::Shown { .. }
        | Reply::Counts { .. } => 200,
    }
}
