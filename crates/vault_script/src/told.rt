//! Replies and faults in words.
use std::alloc::Global;
use vault_core::reply::Reply;
use vault_pan::token::Token;
use vault_store::vault::Fault;

/// These words; nothing, for want of memory.
pub fn text(alloc: Global, words: &str) -> String {
    String::from_str(alloc, words).unwrap_or(String::new(alloc))
}

/// What is wrong with a line that is told this; nothing, where this is wanted.
pub fn unlike(alloc: Global, line: &str, told: &str, wanted: &str) -> Option<String> {
    if told == wanted {
        return None;
    }
    let wrong = format!(in alloc; "{line}: {told}");
    Some(wrong.unwrap_or(String::new(alloc)))
}

/// A reply in words.
pub fn reply_told(alloc: Global, reply: &Reply) -> String {
    let told = match reply {
        Reply::Done => String::from_str(alloc, "done"),
        Reply::Token { token, expires } => {
            let token = token.as_str();
            format!(in alloc; "{token} {expires}")
        }
        Reply::Number(number) => String::from_str(alloc, number.as_str()),
        Reply::Shown {
            masked,
            usage,
            birth,
            expires,
            state,
        } => {
            let (masked, usage, state) = (masked.as_str(), usage.word(), state.word());
            let birth = birth.seconds();
            format!(in alloc; "{masked} {usage} {birth} {expires} {state}")
        }
        Reply::Counts {
            made,
            given,
            denied,
        } => format!(in alloc; "{made} {given} {denied}"),
        Reply::Refused(number) => format!(in alloc; "refused {number}"),
    };
    told.unwrap_or(String::new(alloc))
}

/// Tokens in words: how many they are, and each behind a space.
pub fn tokens_told(alloc: Global, tokens: &[Token]) -> String {
    let count = tokens.len();
    let mut told = format!(in alloc; "{count}").unwrap_or(String::new(alloc));
    for token in tokens {
        let _ = told.push(' ');
        let _ = told.push_str(token.as_str());
    }
    told
}

/// A fault in words.
pub fn fault_told(alloc: Global, fault: Fault) -> String {
    let number = fault.refusal().number();
    let told = format!(in alloc; "stopped {number}");
    told.unwrap_or(String::new(alloc))
}
