//! The replies to commands.
ghost use Rattle.std.specs.Prelude.{◌≡◌};
ghost use Rattle.vault_core.specs.Words.{state_word};

use crate::moment::Moment;
use crate::usage::Use;
use vault_pan::mask::Masked;
use vault_pan::pan::Pan;
use vault_pan::token::Token;

/// Whether a token can be redeemed.
#[derive(Clone, Copy, PartialEq, Eq)]
pub enum State {
    Live,
    /// Its life is over, and it wasn't revoked.
    Expired,
    /// It was revoked, whether its life is over or not.
    Revoked,
}

impl State {
    /// Its word.
    pub fn word(self) -> &'static str
        ensures { result.now ≡ state_word self }
    {
        match self {
            State::Live => "live",
            State::Expired => "expired",
            State::Revoked => "revoked",
        }
    }
}

/// What a command is answered.
#[derive(Clone, Copy, PartialEq, Eq)]
pub enum Reply {
    Done,
    /// A token, and the first second, since 1970, at which it isn't live.
    Token {
        token: Token,
        expires: u64,
    },
    /// The card number that a token stands for.
    Number(Pan),
    /// What a token stands for, with its number masked.
    Shown {
        masked: Masked,
        usage: Use,
        birth: Moment,
        /// The first second, since 1970, at which the token isn't live.
        expires: u64,
        state: State,
    },
    /// How many tokens a merchant made, and how often a number was given or denied there.
    Counts {
        made: u64,
        given: u64,
        denied: u64,
    },
    /// The number of a refusal.
    Refused(u8),
}
