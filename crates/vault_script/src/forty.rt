//! A script of forty requests: a shop is set and six rights are given, then 33 messages come in eleven
//! rounds, each with the next moment and the next digit. A round asks twice for a token of one card number by
//! one request, and then for the number of the token that its digits make.
use crate::worked::answer;
use std::alloc::{AllocError, Global};
use vault_core::moment::Moment;
use vault_core::source::{Source, SourceFault};
use vault_pan::draw::Digits;

/// The shop and the rights of `till-1`.
pub const SHOP: &str = "open till-1 shop1 60 0 1000 = done";

/// How many messages follow.
pub const MESSAGES: u64 = 33;

/// A round: the number of its request, the token that its digits make, when the token that was given expires,
/// and whether the number is given. Where no token was given, all candidates passed the check or were taken.
type Round = (u64, &'static str, Option<u64>, bool);

/// All rounds.
const ROUNDS: [Round; 11] = [
    (1, "1111111111111111", Some(1061), true),
    (2, "4444444444441111", Some(1064), true),
    (3, "7777777777771111", Some(1067), true),
    (4, "0000000000001111", Some(1070), true),
    (5, "3333333333331111", None, false),
    (6, "6666666666661111", None, false),
    (7, "9999999999991111", Some(1079), true),
    (8, "2222222222221111", Some(1082), true),
    (9, "5555555555551111", Some(1085), true),
    (10, "8888888888881111", Some(1088), true),
    (11, "1111111111111111", None, true),
];

/// The messages of a round.
fn asked(alloc: Global, round: Round) -> Result<String, AllocError> {
    let (request, token, _, _) = round;
    let body = "{\"number\":\"4111111111111111\",\"use\":\"single\"}";
    let size = body.len();
    let place = "/v1/merchants/shop1/tokens";
    let caller = "HTTP/1.1\r\nX-Vault-Caller: till-1\r\n";
    let once = format!(in alloc;
        "POST {place} {caller}X-Vault-Request: {request}\r\nContent-Length: {size}\r\n\r\n{body}"
    )?;
    let once = once.as_str();
    format!(in alloc; "{once}{once}POST {place}/{token}/number {caller}\r\n")
}

/// The answers to a round.
fn answered(alloc: Global, round: Round) -> Result<String, AllocError> {
    let (_, token, expires, is_given) = round;
    let once = match expires {
        Some(expires) => {
            let body = format!(in alloc; "{{\"expires\":{expires},\"token\":\"{token}\"}}")?;
            answer(alloc, "200 OK", "", body.as_str())?
        }
        None => answer(alloc, "503 Service Unavailable", "", "{\"refused\":12}")?,
    };
    let number = if is_given {
        answer(alloc, "200 OK", "", "{\"number\":\"4111111111111111\"}")?
    } else {
        answer(alloc, "400 Bad Request", "", "{\"refused\":3}")?
    };
    let (once, number) = (once.as_str(), number.as_str());
    format!(in alloc; "{once}{once}{number}")
}

/// All messages.
pub fn messages(alloc: Global) -> Result<String, AllocError> {
    let mut all = String::new(alloc);
    for round in ROUNDS {
        all.push_str(asked(alloc, round)?.as_str())?;
    }
    Ok(all)
}

/// All answers, where nothing stops them.
pub fn answers(alloc: Global) -> Result<String, AllocError> {
    let mut all = String::new(alloc);
    for round in ROUNDS {
        all.push_str(answered(alloc, round)?.as_str())?;
    }
    Ok(all)
}

/// Gives a message its moment and its digits: message 1 has 1001 and ones, and each further one the next
/// moment and the next digit.
#[derive(Drop)]
pub struct Pairs {
    given: Vec<(Moment, Digits)>,
    left: u64,
    refused: bool,
}

impl Pairs {
    /// The pairs of all messages.
    pub fn new(alloc: Global) -> Pairs {
        Pairs {
            given: Vec::new(alloc),
            left: MESSAGES,
            refused: false,
        }
    }

    /// The next pair.
    fn pair(&self) -> Option<(Moment, Digits)> {
        let place = MESSAGES.saturating_sub(self.left).saturating_add(1);
        let moment = Moment::new(place.saturating_add(1000)).ok()?;
        let digit = u8::try_from(place % 10).ok()?;
        Some((moment, Digits::new(&[digit; 300])?))
    }
}

impl Source for Pairs {
    ghost given = { λ s. s.given.items };

    ghost count_left = { λ s. s.left };

    ghost has_refused = { λ s. s.refused };

    ghost precedes = { λ r s. Unit {0} };

    fn next(&mut self) -> Result<(Moment, Digits), SourceFault> {
        if self.left > 0 {
            if let Some((moment, digits)) = self.pair() {
                if self.given.push((moment, digits)).is_ok() {
                    self.left -= 1;
                    return Ok((moment, digits));
                }
            }
        }
        self.refused = true;
        Err(SourceFault)
    }

    fn left(&self) -> u64 {
        self.left
    }

    fn refused(&self) -> bool {
        self.refused
    }

    ghost reflexive = { λ s. tt };

    ghost transitive = { λ r s t p q. tt };
}
