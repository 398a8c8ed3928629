//! The commands of a vault.
ghost use Rattle.std.specs.Prelude.{IsTrue, ◌↔◌, ◌≡◌};
ghost use Rattle.vault_core.specs.Lives.{setting as setting_lem};
ghost use Rattle.vault_core.specs.Parts.{token_command, token_command_in, token_request};

use crate::limit::LONGEST_LIFE;
use crate::moment::Moment;
use crate::name::{Caller, MerchantId};
use crate::parts::Parts;
use crate::request::RequestNo;
use crate::right::Right;
use crate::row::Lives;
use crate::usage::Use;
use vault_pan::draw::Digits;
use vault_pan::lead::Lead;
use vault_pan::pan::Pan;
use vault_pan::token::Token;

/// What can be asked of a vault.
#[derive(Clone, Copy)]
pub enum Command {
    /// Makes a merchant, or sets its lives and its lead anew.
    SetMerchant {
        merchant: MerchantId,
        single_life: u64,
        multi_life: u64,
        lead: Lead,
        now: Moment,
    },
    /// Gives a caller a right at a merchant, up to an end or for good; one that is there gets this end.
    Grant {
        caller: Caller,
        merchant: MerchantId,
        right: Right,
        until: Option<Moment>,
        now: Moment,
    },
    /// Takes a right of a caller at a merchant away.
    Withdraw {
        caller: Caller,
        merchant: MerchantId,
        right: Right,
        now: Moment,
    },
    /// Asks for a token in place of a card number.
    Tokenize {
        caller: Caller,
        merchant: MerchantId,
        request: RequestNo,
        usage: Use,
        pan: Pan,
        digits: Digits,
        now: Moment,
    },
    /// Asks for the card number that a token stands for.
    Detokenize {
        caller: Caller,
        merchant: MerchantId,
        token: Token,
        now: Moment,
    },
    /// Asks what a token stands for, with its number masked.
    View {
        caller: Caller,
        merchant: MerchantId,
        token: Token,
        now: Moment,
    },
    /// Ends a token's life.
    Revoke {
        caller: Caller,
        merchant: MerchantId,
        token: Token,
        now: Moment,
    },
    /// Purges a token's card number for good; the token stays taken.
    Purge {
        caller: Caller,
        merchant: MerchantId,
        token: Token,
        now: Moment,
    },
    /// Asks for a merchant's counts.
    Audit {
        caller: Caller,
        merchant: MerchantId,
        now: Moment,
    },
}

/// The parts of a Tokenize.
#[derive(Clone, Copy)]
pub struct TokenRequest {
    pub caller: Caller,
    pub merchant: MerchantId,
    pub request: RequestNo,
    pub usage: Use,
    pub pan: Pan,
    pub digits: Digits,
    pub moment: Moment,
}

impl TokenRequest {
    /// The one with these parts.
    pub fn new(
        caller: Caller,
        merchant: MerchantId,
        request: RequestNo,
        usage: Use,
        pan: Pan,
        digits: Digits,
        moment: Moment,
    ) -> TokenRequest
        ensures { result ≡ token_request caller merchant request usage pan (moment, digits) }
    {
        TokenRequest {
            caller,
            merchant,
            request,
            usage,
            pan,
            digits,
            moment,
        }
    }
}

/// The parts of a command on one token, with the right that it asks for.
#[derive(Clone, Copy)]
pub struct TokenCommand {
    pub caller: Caller,
    pub merchant: MerchantId,
    pub token: Token,
    pub right: Right,
    pub moment: Moment,
}

impl TokenCommand {
    /// The one with these parts.
    pub fn new(
        caller: Caller,
        merchant: MerchantId,
        token: Token,
        right: Right,
        moment: Moment,
    ) -> TokenCommand
        ensures { result ≡ token_command caller merchant token right moment }
    {
        TokenCommand {
            caller,
            merchant,
            token,
            right,
            moment,
        }
    }
}

impl Command {
    ghost use Rattle.vault_core.specs.Proper.{HasLivesInRange, IsProper};

    /// The SetMerchant that sets a merchant to these lives, at their moment.
    pub fn setting(merchant: MerchantId, lives: Lives) -> Command
        ensures { result ≡ setting_lem merchant lives }
    {
        Command::SetMerchant {
            merchant,
            single_life: lives.single_life,
            multi_life: lives.multi_life,
            lead: lives.lead,
            now: lives.moment,
        }
    }

    /// Whether the lives of a SetMerchant are at most the longest one; true of every other command.
    pub fn proper(&self) -> bool
        // it is true exactly where the lives of a SetMerchant, if it is one, are in range
        ensures lives { IsTrue result ↔ HasLivesInRange self.now }
        // it is true exactly where all parts of the command are values of their types
        ensures parts { IsTrue result ↔ IsProper self.now }
    {
        match Parts::of(self) {
            Parts::SetMerchant(_, lives) => {
                lives.single_life <= LONGEST_LIFE && lives.multi_life <= LONGEST_LIFE
            }
            _ => true,
        }
    }

    /// The parts of a command on one token; nothing of every other command.
    pub fn token_command(&self) -> Option<TokenCommand>
        ensures { result ≡ token_command_in self.now }
    {
        match Parts::of(self) {
            Parts::Detokenize(asked)
            | Parts::View(asked)
            | Parts::Revoke(asked)
            | Parts::Purge(asked) => Some(asked),
            _ => None,
        }
    }
}
