//! The command that a message asks for.
ghost use Rattle.std.specs.Prelude.{◌≡◌, Ok, IfOk, option_map};
ghost use Rattle.vault_core.specs.Proper.{HasLivesInRange};
ghost use Rattle.vault_routes.specs.Route.{route_of, target_of};
ghost use Rattle.vault_routes.specs.Wanted.{IsWanted, Wants, WantsAsker, WantsOrder, command_for, command_on};

use crate::body::TokenBody;
use crate::fault::HttpFault;
use crate::route::{Route, Routes};
use crate::table::{Action, TokenAction};
use std::alloc::Global;
use vault_core::command::Command;
use vault_core::moment::Moment;
use vault_core::name::{Caller, MerchantId};
use vault_core::request::RequestNo;
use vault_core::usage::Use;
use vault_pan::draw::Digits;
use vault_pan::pan::Pan;
use vault_pan::token::Token;
use vault_wire::message::Message;

// Who asks, at which merchant and when: what each command has.
#[derive(Clone, Copy)]
struct Asker {
    caller: Caller,
    merchant: MerchantId,
    now: Moment,
}

// What is asked with, where a token is asked for.
#[derive(Clone, Copy)]
struct Order {
    request: RequestNo,
    usage: Use,
    pan: Pan,
}

impl Asker {
    // Reads who asks of a message, at the merchant of this text.
    fn read(message: &Message, merchant: &str, now: Moment) -> Result<Asker, HttpFault>
        // Ok is the asker that the message wants; a fault but want of memory is the first refusal that
        // applies
        ensures wanted { IsWanted (WantsAsker message.now merchant.now now (λ a r. r ≡ Ok a)) result }
    {
        let Some(caller) = message.sole(b"x-vault-caller") else {
            return Err(HttpFault::BadFields);
        };
        let caller = Caller::read(caller)?;
        let merchant = MerchantId::read(merchant.as_bytes())?;
        Ok(Asker {
            caller,
            merchant,
            now,
        })
    }

    // The command that asks for a token.
    fn order(self, order: Order, digits: Digits) -> Command
        // it is the command that asks for a token by this order
        ensures asks { result ≡ command_for self order digits }
        // the lives that the command sets, if any, are in range
        ensures lives { HasLivesInRange result }
    {
        Command::Tokenize {
            caller: self.caller,
            merchant: self.merchant,
            request: order.request,
            usage: order.usage,
            pan: order.pan,
            digits,
            now: self.now,
        }
    }

    // The command that asks for this of a token.
    fn on(self, token: Token, action: TokenAction) -> Command
        // it is the command that asks for this of the token
        ensures asks { result ≡ command_on action self token }
        // the lives that the command sets, if any, are in range
        ensures lives { HasLivesInRange result }
    {
        let Asker {
            caller,
            merchant,
            now,
        } = self;
        match action {
            TokenAction::View => Command::View {
                caller,
                merchant,
                token,
                now,
            },
            TokenAction::Detokenize => Command::Detokenize {
                caller,
                merchant,
                token,
                now,
            },
            TokenAction::Revoke => Command::Revoke {
                caller,
                merchant,
                token,
                now,
            },
            TokenAction::Purge => Command::Purge {
                caller,
                merchant,
                token,
                now,
            },
        }
    }
}

impl Order {
    // Reads what a message asks for a token with.
    fn read(alloc: Global, message: &Message) -> Result<Order, HttpFault>
        // Ok is the order that the message wants; a fault but want of memory is the first refusal that
        // applies
        ensures wanted { IsWanted (WantsOrder message.now (λ o r. r ≡ Ok o)) result }
    {
        let Some(request) = message.sole(b"x-vault-request") else {
            return Err(HttpFault::BadFields);
        };
        let request = RequestNo::read(request)?;
        let Ok(body) = TokenBody::read(alloc, message.body()) else {
            return Err(HttpFault::ServiceMemory);
        };
        let texts = match body {
            Some(texts) => texts,
            None => return Err(HttpFault::BadBody),
        };
        let pan = Pan::read(texts.number.as_bytes())?;
        let usage = Use::read(texts.usage.as_bytes())?;
        Ok(Order {
            request,
            usage,
            pan,
        })
    }
}

/// The command of a message, with a moment and drawn digits, by the routes as `command_at` has it.
pub fn command_of(
    alloc: Global,
    routes: &Routes,
    message: &Message,
    now: Moment,
    digits: Digits,
) -> Result<Command, HttpFault>
    // Ok is the command that the message wants; a fault but want of memory is the first refusal that applies
    ensures wanted { IsWanted (Wants message.now now digits) result }
    // with Ok, the lives that the command sets, if any, are in range
    ensures lives { IfOk result HasLivesInRange }
{
    command_at(alloc, routes.find(message.target()), message, now, digits)
}

/// The command of a message, with a moment and drawn digits, where its target names this.
///
/// Refusals, the first that applies: 56 NoRoute, 57 BadMethod, 58 BadFields for X-Vault-Caller,
/// 4 BadName for its value and for the merchant, 3 BadToken; for a Tokenize 58 for
/// X-Vault-Request, 5 BadRequestNumber, 59 BadBody, 1 BadNumber, 2 BadCheck, 19 BadUse.
/// 64 Memory: there is no memory to read the body.
pub fn command_at(
    alloc: Global,
    route: Option<Route<'_>>,
    message: &Message,
    now: Moment,
    digits: Digits,
) -> Result<Command, HttpFault>
    requires { option_map target_of route ≡ route_of message.now.target }
    // Ok is the command that the message wants; a fault but want of memory is the first refusal that applies
    ensures wanted { IsWanted (Wants message.now now digits) result }
    // with Ok, the lives that the command sets, if any, are in range
    ensures lives { IfOk result HasLivesInRange }
{
    let Some(route) = route else {
        return Err(HttpFault::NoRoute);
    };
    let Some(action) = route.place.action(message.method()) else {
        return Err(HttpFault::BadMethod);
    };
    let asker = Asker::read(message, route.merchant, now)?;
    match action {
        Action::Tokenize => {
            let order = Order::read(alloc, message)?;
            Ok(asker.order(order, digits))
        }
        Action::OnToken(what) => {
            let token = Token::read(route.token.as_bytes())?;
            Ok(asker.on(token, what))
        }
        Action::Audit => Ok(Command::Audit {
            caller: asker.caller,
            merchant: asker.merchant,
            now: asker.now,
        }),
    }
}
