//! The purges of a merchant's tokens.

use crate::carry::Orders;
use vault_core::command::Command;
use vault_core::moment::Moment;
use vault_core::name::{Caller, MerchantId};
use vault_pan::token::Token;

/// Each token of a list has its number purged by a caller, at a merchant and a moment.
#[derive(Clone, Copy)]
pub struct Purges {
    pub caller: Caller,
    pub merchant: MerchantId,
    pub now: Moment,
}

impl Orders<Token> for Purges {
    ghost use Rattle.vault_core.specs.declared.command.Command.TheVariants.{Purge};

    ghost command_of = { λ purges token. Purge purges.caller purges.merchant token purges.now };

    fn command(&self, token: &Token) -> Command {
        Command::Purge {
            caller: self.caller,
            merchant: self.merchant,
            token: *token,
            now: self.now,
        }
    }
}
