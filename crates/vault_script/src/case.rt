//! Cases: lines of questions to a vault, each with its answer.
use crate::command::{asked, caller, merchant, moment, number, word};
use crate::told::{fault_told, reply_told, text, tokens_told, unlike};
use std::alloc::Global;
use vault_core::command::Command;
use vault_core::moment::Moment;
use vault_core::name::{Caller, MerchantId};
use vault_core::reply::Reply;
use vault_core::right::Right;
use vault_core::row::Lives;
use vault_pan::token::Token;
use vault_store::memory::MemTables;
use vault_store::tables::Tables;
use vault_store::vault::{Fault, Vault};

/// A reply, or the fault that stopped a command.
type Answer = Result<Reply, Fault>;

/// All rights.
pub const RIGHTS: [Right; 6] = [
    Right::Tokenize,
    Right::Detokenize,
    Right::View,
    Right::Revoke,
    Right::Purge,
    Right::Audit,
];

/// What a vault answers to a command; none where a life is out of its range.
fn applied<T: Tables>(vault: &mut Vault<T>, command: &Command) -> Option<Answer> {
    if !command.proper() {
        return None;
    }
    Some(vault.apply(command))
}

/// `open CALLER MERCHANT SINGLE MULTI NOW`: the merchant is set, and the caller has all rights there for
/// good.
fn open<T: Tables>(vault: &mut Vault<T>, line: &str) -> Option<Answer> {
    let (caller, merchant, now) = (caller(line, 1)?, merchant(line, 2)?, moment(line, 5)?);
    let lives = Lives::usual(number(line, 3)?, number(line, 4)?, now);
    let set = Command::setting(merchant, lives);
    let mut answer = applied(vault, &set)?;
    for right in RIGHTS {
        let grant = Command::Grant {
            caller,
            merchant,
            right,
            until: None,
            now,
        };
        answer = applied(vault, &grant)?;
    }
    Some(answer)
}

/// What a vault answers to a line.
fn answer<T: Tables>(vault: &mut Vault<T>, line: &str) -> Option<Answer> {
    if line.starts_with("open ") {
        open(vault, line)
    } else {
        applied(vault, &asked(line)?)
    }
}

/// What a vault lists for `dead MERCHANT NOW LIMIT`.
fn dead<T: Tables>(vault: &mut Vault<T>, line: &str) -> Option<Result<Vec<Token>, Fault>> {
    let limit = word(line, 3)?.parse::<usize>().ok()?;
    Some(vault.dead(merchant(line, 1)?, moment(line, 2)?, limit))
}

/// The list of dead tokens in words.
fn dead_told<T: Tables>(alloc: Global, vault: &mut Vault<T>, line: &str) -> String {
    match dead(vault, line) {
        Some(Ok(tokens)) => tokens_told(alloc, &tokens),
        Some(Err(fault)) => fault_told(alloc, fault),
        None => text(alloc, "no list"),
    }
}

/// What a vault answers to a line, in words.
pub fn answer_told<T: Tables>(alloc: Global, vault: &mut Vault<T>, line: &str) -> String {
    if line.starts_with("dead ") {
        return dead_told(alloc, vault, line);
    }
    match answer(vault, line) {
        Some(Ok(reply)) => reply_told(alloc, &reply),
        Some(Err(fault)) => fault_told(alloc, fault),
        None => text(alloc, "no command"),
    }
}

/// Runs the lines of a case: `answered`, or the first one whose answer isn't the one that stands there.
pub fn wrong<T: Tables>(alloc: Global, vault: &mut Vault<T>, lines: &str) -> String {
    for line in lines.lines() {
        let (question, wanted) = line.split_once(" = ").unwrap_or((line, "an answer"));
        let told = answer_told(alloc, vault, question);
        if let Some(wrong) = unlike(alloc, line, told.as_str(), wanted) {
            return wrong;
        }
    }
    text(alloc, "answered")
}

/// The vault in memory that answers lines so; none where it answers one otherwise.
pub fn filled(alloc: Global, lines: &str) -> Option<Vault<MemTables>> {
    let mut vault = Vault::new(MemTables::new(alloc));
    if wrong(alloc, &mut vault, lines).as_str() == "answered" {
        Some(vault)
    } else {
        None
    }
}
