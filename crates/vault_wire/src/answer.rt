//! The text of an answer.
ghost use Rattle.std.specs.Prelude.{◌≡◌, ◌++◌, IfOk, OnOk, option_map, string_bytes};
ghost use Rattle.vault_wire.specs.Answer.{allow_line, answer_bytes, close_line, field_line, length_line};
ghost use Rattle.vault_wire.specs.Answer.{status_line};
ghost use Rattle.vault_wire.specs.Status.{IsStatus, reason_of};

use std::alloc::{AllocError, Global};

// The status line.
fn status_text(alloc: Global, status: u16) -> Result<String, AllocError>
    ensures { IfOk result (λ s. string_bytes s ≡ status_line status) }
{
    let reason = reason_of(status);
    format!(in alloc; "HTTP/1.1 {status} {reason}\r\n")
}

// Adds a field.
fn push_field(text: &mut String, name: &str, value: &str) -> Result<(), AllocError>
    ensures { OnOk result (string_bytes text.new
        ≡ string_bytes text.old ++ field_line name.now value.now) }
{
    write!(text, "{name}: {value}\r\n")
}

// Adds the length of the body in bytes.
fn push_length(text: &mut String, length: usize) -> Result<(), AllocError>
    ensures { OnOk result (string_bytes text.new ≡ string_bytes text.old ++ length_line length) }
{
    write!(text, "Content-Length: {length}\r\n")
}

// Adds the methods that the target takes, where they are said.
fn push_allow(text: &mut String, allow: Option<&str>) -> Result<(), AllocError>
    ensures { let methods = option_map (λ s. s.now) allow.entry in
        OnOk result (string_bytes text.new ≡ string_bytes text.old ++ allow_line methods) }
{
    match allow {
        Some(methods) => push_field(text, "Allow", methods),
        None => Ok(()),
    }
}

// Adds that the connection closes, where it does.
fn push_close(text: &mut String, close: bool) -> Result<(), AllocError>
    ensures { OnOk result (string_bytes text.new ≡ string_bytes text.old ++ close_line close) }
{
    if close {
        return push_field(text, "Connection", "close");
    }
    Ok(())
}

/// The whole text of an answer with a JSON body. `allow` is the text of an `Allow` field, and
/// `close` says that the connection ends after it.
pub fn answer_text(
    alloc: Global,
    status: u16,
    allow: Option<&str>,
    body: &[u8],
    close: bool,
) -> Result<Vec<u8>, AllocError>
    requires { IsStatus status }
    ensures { let methods = option_map (λ s. s.now) allow.entry in
        IfOk result (λ v. v.items ≡ answer_bytes status methods body.now close) }
{
    let mut text = status_text(alloc, status)?;
    push_field(&mut text, "Content-Type", "application/json")?;
    push_length(&mut text, body.len())?;
    push_allow(&mut text, allow)?;
    push_close(&mut text, close)?;
    text.push_str("\r\n")?;
    let mut bytes = text.into_bytes();
    bytes.extend_from_slice(body)?;
    Ok(bytes)
}

/// The words behind a status code; none behind a code that the service doesn't answer with.
#[tactic(auto, unfolding(crate::specs::Status::reason_of))]
pub fn reason_of(status: u16) -> &'static str
    ensures { result.now ≡ reason_of status }
{
    match status {
        200 => "OK",
        400 => "Bad Request",
        403 => "Forbidden",
        404 => "Not Found",
        405 => "Method Not Allowed",
        409 => "Conflict",
        410 => "Gone",
        411 => "Length Required",
        413 => "Payload Too Large",
        422 => "Unprocessable Entity",
        431 => "Request Header Fields Too Large",
        503 => "Service Unavailable",
        507 => "Insufficient Storage",
        _ => "",
    }
}
