//! What a vault holds, in lines.
ghost use Rattle.std.specs.Prelude.{◌≡◌, ◌++◌, IfOk, codes, decimal};
ghost use Rattle.std.specs.List.{flat_map};
ghost use Rattle.vault_core.specs.Words.{right_word};
ghost use Rattle.vault_changes.specs.Changes.{change_line, changes_text as changes_text_of, right_text};
ghost use Rattle.vault_changes.specs.Changes.{setting_text, until_text};
ghost use Rattle.vault_jobs.specs.ListingLines.{merchant_line, right_line, until_value};

use itoa::Buffer;
use std::alloc::{AllocError, Global};
use vault_changes::changes::ListedRight;
use vault_core::command::Command;
use vault_core::moment::Moment;
use vault_core::name::MerchantId;
use vault_core::right::Right;
use vault_core::row::MerchantRow;
use vault_merchants::read::ListedMerchant;
use vault_pan::lead::Lead;
use vault_store::listing::NamedRow;
use vault_store::tables::RightRow;

/// How a vault's merchants and rights are listed.
#[derive(Clone, Copy, PartialEq, Eq, Drop)]
pub enum Form {
    /// In words.
    Lines,
    /// A JSON object a line.
    Objects,
}

/// What is said of a vault.
#[derive(Drop)]
pub enum Shown {
    /// Its merchants and its rights.
    Listing(Form),
    /// What would change if the rights of a list were given at a moment, and, where the first is true, no
    /// others stayed.
    Changes(bool, Vec<ListedRight>, Moment),
    /// What would be set if the merchants of a list were set at a moment.
    Settings(Vec<ListedMerchant>, Moment),
}

/// The word of a right.
fn word_of(right: Right) -> &'static str
    ensures { result.now ≡ right_word right }
{
    match right {
        Right::Tokenize => "tokenize",
        Right::Detokenize => "detokenize",
        Right::View => "view",
        Right::Revoke => "revoke",
        Right::Purge => "purge",
        Right::Audit => "audit",
    }
}

/// The text with more behind it, and what comes next.
fn with(mut text: Vec<u8>, value: &[u8], next: &[u8]) -> Result<Vec<u8>, AllocError>
    ensures { IfOk result (λ v. v.items ≡ text.items ++ value.now ++ next.now) }
{
    text.extend_from_slice(value)?;
    text.extend_from_slice(next)?;
    Ok(text)
}

/// The text with a number's digits behind it, and what comes next.
fn numbered(text: Vec<u8>, number: u64, next: &[u8]) -> Result<Vec<u8>, AllocError>
    ensures { IfOk result (λ v. v.items ≡ text.items ++ decimal number ++ next.now) }
{
    let mut digits = Buffer::new();
    with(text, digits.format(number).as_bytes(), next)
}

/// The text with a merchant's line in words behind it.
fn with_merchant_line(
    text: Vec<u8>,
    name: &MerchantId,
    row: &MerchantRow,
) -> Result<Vec<u8>, AllocError>
    ensures { IfOk result (λ v. v.items ≡ text.items ++ merchant_line Form.Lines (name.now, row.now)) }
{
    let text = with(text, b"merchant ", name.bytes())?;
    let text = with(text, b"", b" single ")?;
    let text = numbered(text, row.single_life, b" multi ")?;
    let text = numbered(text, row.multi_life, b" lead ")?;
    let text = numbered(text, row.lead.digits(), b" moment ")?;
    let text = numbered(text, row.moment.seconds(), b" made ")?;
    let text = numbered(text, row.made, b" given ")?;
    let text = numbered(text, row.given, b" denied ")?;
    numbered(text, row.denied, b"\n")
}

/// The text with a merchant's object behind it.
fn with_merchant_object(
    text: Vec<u8>,
    name: &MerchantId,
    row: &MerchantRow,
) -> Result<Vec<u8>, AllocError>
    ensures { IfOk result (λ v. v.items ≡ text.items ++ merchant_line Form.Objects (name.now, row.now)) }
{
    let text = with(text, b"{\"merchant\":\"", name.bytes())?;
    let text = with(text, b"", b"\",\"single\":")?;
    let text = numbered(text, row.single_life, b",\"multi\":")?;
    let text = numbered(text, row.multi_life, b",\"lead\":")?;
    let text = numbered(text, row.lead.digits(), b",\"moment\":")?;
    let text = numbered(text, row.moment.seconds(), b",\"made\":")?;
    let text = numbered(text, row.made, b",\"given\":")?;
    let text = numbered(text, row.given, b",\"denied\":")?;
    numbered(text, row.denied, b"}\n")
}

/// The text with a merchant behind it.
fn with_merchant(text: Vec<u8>, form: Form, it: &NamedRow) -> Result<Vec<u8>, AllocError>
    ensures { IfOk result (λ v. v.items ≡ text.items ++ merchant_line form it.now) }
{
    match form {
        Form::Lines => with_merchant_line(text, &it.0, &it.1),
        Form::Objects => with_merchant_object(text, &it.0, &it.1),
    }
}

/// The text with a right's end behind it, where it has one.
fn with_until(text: Vec<u8>, until: Option<Moment>) -> Result<Vec<u8>, AllocError>
    ensures { IfOk result (λ v. v.items ≡ text.items ++ until_text until) }
{
    match until {
        None => Ok(text),
        Some(end) => {
            let text = with(text, b" until ", b"")?;
            numbered(text, end.seconds(), b"")
        }
    }
}

/// The text with a right's caller, merchant, word and end behind it.
fn with_right_text(
    text: Vec<u8>,
    caller: &[u8],
    merchant: &[u8],
    right: Right,
    until: Option<Moment>,
) -> Result<Vec<u8>, AllocError>
    ensures { IfOk result
        (λ v. v.items ≡ text.items ++ right_text caller.now merchant.now right until) }
{
    let text = with(text, caller, b" ")?;
    let text = with(text, merchant, b" ")?;
    let text = with(text, word_of(right).as_bytes(), b"")?;
    with_until(text, until)
}

/// The text with a right's end as a JSON value behind it, and what comes next.
fn with_until_value(
    text: Vec<u8>,
    until: Option<Moment>,
    next: &[u8],
) -> Result<Vec<u8>, AllocError>
    ensures { IfOk result (λ v. v.items ≡ text.items ++ until_value until ++ next.now) }
{
    match until {
        None => with(text, b"null", next),
        Some(end) => numbered(text, end.seconds(), next),
    }
}

/// The text with a right's line in words behind it.
fn with_right_line(text: Vec<u8>, it: &RightRow) -> Result<Vec<u8>, AllocError>
    ensures { IfOk result (λ v. v.items ≡ text.items ++ right_line Form.Lines it.now) }
{
    let text = with(text, b"right ", b"")?;
    let text = with_right_text(text, it.0.0.bytes(), it.0.1.0.bytes(), it.0.1.1, it.1.ends)?;
    with(text, b"\n", b"")
}

/// The text with a right's object behind it.
fn with_right_object(text: Vec<u8>, it: &RightRow) -> Result<Vec<u8>, AllocError>
    ensures { IfOk result (λ v. v.items ≡ text.items ++ right_line Form.Objects it.now) }
{
    let text = with(text, b"{\"caller\":\"", it.0.0.bytes())?;
    let text = with(text, b"\",\"merchant\":\"", it.0.1.0.bytes())?;
    let text = with(text, b"\",\"right\":\"", word_of(it.0.1.1).as_bytes())?;
    let text = with(text, b"\",\"until\":", b"")?;
    with_until_value(text, it.1.ends, b"}\n")
}

/// The text with a right behind it.
fn with_right(text: Vec<u8>, form: Form, it: &RightRow) -> Result<Vec<u8>, AllocError>
    ensures { IfOk result (λ v. v.items ≡ text.items ++ right_line form it.now) }
{
    match form {
        Form::Lines => with_right_line(text, it),
        Form::Objects => with_right_object(text, it),
    }
}

/// The merchants, a line each.
fn merchants_text(alloc: Global, form: Form, merchants: &[NamedRow]) -> Result<Vec<u8>, AllocError>
    ensures { IfOk result (λ v. v.items ≡ flat_map (merchant_line form) merchants.now) }
{
    let mut text = Vec::new(alloc);
    for it in merchants {
        text = with_merchant(text, form, it)?;
    }
    Ok(text)
}

/// The merchants and the rights, a line each.
pub(crate) fn list_text(
    alloc: Global,
    form: Form,
    merchants: &[NamedRow],
    rights: &[RightRow],
) -> Result<Vec<u8>, AllocError>
    ensures { IfOk result (λ v. v.items
        ≡ flat_map (merchant_line form) merchants.now ++ flat_map (right_line form) rights.now) }
{
    let mut text = merchants_text(alloc, form, merchants)?;
    for it in rights {
        text = with_right(text, form, it)?;
    }
    Ok(text)
}

/// The text with the line of a merchant that is set behind it.
fn with_setting_line(
    text: Vec<u8>,
    name: &MerchantId,
    single: u64,
    multi: u64,
    lead: Lead,
) -> Result<Vec<u8>, AllocError>
    ensures { IfOk result (λ v. v.items
        ≡ text.items ++ (codes "merchant " ++ setting_text name.now single multi lead ++ codes "\n")) }
{
    let text = with(text, b"merchant ", name.bytes())?;
    let text = with(text, b"", b" single ")?;
    let text = numbered(text, single, b" multi ")?;
    let text = numbered(text, multi, b" lead ")?;
    numbered(text, lead.digits(), b"\n")
}

/// The text with the line of a command behind it, if it sets a merchant, or gives or withdraws a right.
fn with_change(text: Vec<u8>, command: &Command) -> Result<Vec<u8>, AllocError>
    ensures { IfOk result (λ v. v.items ≡ text.items ++ change_line command.now) }
{
    let (word, caller, merchant, right, until) = match *command {
        Command::Grant {
            caller,
            merchant,
            right,
            until,
            ..
        } => ("grant ", caller, merchant, right, until),
        Command::Withdraw {
            caller,
            merchant,
            right,
            ..
        } => ("withdraw ", caller, merchant, right, None),
        Command::SetMerchant {
            merchant,
            single_life,
            multi_life,
            lead,
            ..
        } => return with_setting_line(text, &merchant, single_life, multi_life, lead),
        _ => return Ok(text),
    };
    let text = with(text, word.as_bytes(), b"")?;
    let text = with_right_text(text, caller.bytes(), merchant.bytes(), right, until)?;
    with(text, b"\n", b"")
}

/// The lines of commands that set merchants, and give and withdraw rights.
pub(crate) fn changes_text(alloc: Global, commands: &[Command]) -> Result<Vec<u8>, AllocError>
    ensures { IfOk result (λ v. v.items ≡ changes_text_of commands.now) }
{
    let mut text = Vec::new(alloc);
    for command in commands {
        text = with_change(text, command)?;
    }
    Ok(text)
}
