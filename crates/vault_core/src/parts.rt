//! Commands taken apart, with the parts of each in one value.
ghost use Rattle.std.specs.Prelude.{◌≡◌, IfSome};
ghost use Rattle.vault_core.specs.Name.{IsName};
ghost use Rattle.vault_core.specs.Parts.{AsksByRight, command_with};
ghost use Rattle.vault_core.specs.Proper.{HasLivesInRange, IsProper};
ghost use Rattle.vault_core.specs.Scalar.{IsMoment};

use crate::command::{Command, TokenCommand, TokenRequest};
use crate::moment::Moment;
use crate::name::{Caller, MerchantId};
use crate::right::Right;
use crate::row::Lives;

/// The parts of a command, one kind for each.
#[derive(Clone, Copy)]
pub enum Parts {
    SetMerchant(MerchantId, Lives),
    Grant(Caller, MerchantId, Right, Option<Moment>, Moment),
    Withdraw(Caller, MerchantId, Right, Moment),
    Tokenize(TokenRequest),
    Detokenize(TokenCommand),
    View(TokenCommand),
    Revoke(TokenCommand),
    Purge(TokenCommand),
    Audit(Caller, MerchantId, Moment),
}

impl Parts {
    /// Those of a command. A name or a moment that no call hands on is read, since what its type promises is
    /// known where it was.
    pub fn of(c: &Command) -> Parts
        // the command has these parts
        ensures command { command_with result ≡ c.now }
        // the parts of a command on a token have its own right
        ensures right { AsksByRight result }
        // where its lives are in range, all parts of the command are values of their types
        ensures typed { HasLivesInRange c.now → IsProper c.now }
    {
        match *c {
            Command::SetMerchant {
                merchant,
                single_life,
                multi_life,
                lead,
                now,
            } => {
                read_merchant(merchant);
                Parts::SetMerchant(merchant, Lives::new(single_life, multi_life, lead, now))
            }
            Command::Grant {
                caller,
                merchant,
                right,
                until,
                now,
            } => {
                read_end(&until);
                read_asker(caller, merchant, now);
                Parts::Grant(caller, merchant, right, until, now)
            }
            Command::Withdraw {
                caller,
                merchant,
                right,
                now,
            } => {
                read_asker(caller, merchant, now);
                Parts::Withdraw(caller, merchant, right, now)
            }
            Command::Tokenize {
                caller,
                merchant,
                request,
                usage,
                pan,
                digits,
                now,
            } => Parts::Tokenize(TokenRequest::new(
                caller, merchant, request, usage, pan, digits, now,
            )),
            Command::Detokenize {
                caller,
                merchant,
                token,
                now,
            } => Parts::Detokenize(TokenCommand::new(
                caller,
                merchant,
                token,
                Right::Detokenize,
                now,
            )),
            Command::View {
                caller,
                merchant,
                token,
                now,
            } => Parts::View(TokenCommand::new(caller, merchant, token, Right::View, now)),
            Command::Revoke {
                caller,
                merchant,
                token,
                now,
            } => Parts::Revoke(TokenCommand::new(caller, merchant, token, Right::Revoke, now)),
            Command::Purge {
                caller,
                merchant,
                token,
                now,
            } => Parts::Purge(TokenCommand::new(caller, merchant, token, Right::Purge, now)),
            Command::Audit {
                caller,
                merchant,
                now,
            } => {
                read_asker(caller, merchant, now);
                Parts::Audit(caller, merchant, now)
            }
        }
    }
}

/// Reads the parts that most commands have.
fn read_asker(caller: Caller, merchant: MerchantId, now: Moment)
    ensures { IsName caller × IsName merchant × IsMoment now }
{
    read_merchant(merchant);
    let _caller = caller.bytes();
    let _now = now.seconds();
}

/// Reads the name of a merchant.
fn read_merchant(merchant: MerchantId)
    ensures { IsName merchant }
{
    let _merchant = merchant.bytes();
}

/// Reads the end of a right, where there is one.
fn read_end(until: &Option<Moment>)
    ensures { IfSome until.now IsMoment }
{
    if let Some(end) = *until {
        let _end = end.seconds();
    }
}
