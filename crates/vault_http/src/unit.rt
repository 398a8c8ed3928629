//! A message as one thing that is asked.
ghost use Rattle.std.specs.Prelude.{◌≡◌, Err, IfOk, None, option_map};
ghost use Rattle.vault_wire.specs.Answer.{answer_bytes};
ghost use Rattle.vault_refusal.specs.Refusal.{number_of};
ghost use Rattle.vault_routes.specs.Route.{route_of, target_of};
ghost use Rattle.vault_routes.specs.Reply.{body_text, refusal_text as refused_text};
ghost use Rattle.vault_routes.specs.Status.{status_for as code_for, status_of as code_of};
ghost use Rattle.vault_http.specs.Exchanges.{methods_with};

use std::alloc::{AllocError, Global};
use vault_core::command::Command;
use vault_core::moment::Moment;
use vault_core::reply::Reply;
use vault_engine::unit::Unit;
use vault_pan::draw::Digits;
use vault_refusal::refusal::Refusal;
use vault_routes::fault::HttpFault;
use vault_routes::reply::{body_of, refusal_text, status_by, status_of};
use vault_routes::route::Route;
use vault_routes::wanted::command_at;
use vault_wire::answer::answer_text;
use vault_wire::message::Message;

/// A message, and what its target names.
#[derive(Clone, Copy)]
pub(crate) struct AskedMessage<'a> {
    pub(crate) message: &'a Message,
    pub(crate) route: Option<Route<'a>>,
    ghost named: { option_map target_of route ≡ route_of message.now.target },
}

/// The text of a reply.
fn written(alloc: Global, reply: &Reply, closes: bool) -> Result<Vec<u8>, AllocError>
    ensures { IfOk result (λ out. out.items
        ≡ answer_bytes (code_of reply.now) None (body_text reply.now) closes) }
{
    let body = body_of(alloc, reply)?;
    answer_text(alloc, status_of(reply), None, &body, closes)
}

/// The text of a refusal, with the methods that go with it.
pub(crate) fn told(
    alloc: Global,
    refusal: Refusal,
    allow: Option<&str>,
    closes: bool,
) -> Result<Vec<u8>, AllocError>
    ensures { let methods = option_map (λ s. s.now) allow.entry in
        IfOk result (λ out. out.items ≡ answer_bytes (code_for (number_of refusal)) methods
        (refused_text (number_of refusal)) closes) }
{
    let body = refusal_text(alloc, refusal.number())?;
    answer_text(alloc, status_by(refusal), allow, &body, closes)
}

impl<'a> AskedMessage<'a> {
    /// The methods that go with a refusal of the message: those of its target, with 57 alone.
    fn methods(&self, refusal: Refusal) -> Option<&'static str>
        ensures { option_map (λ s. s.now) result ≡ methods_with self.now.message.now (Err refusal) }
    {
        match refusal {
            Refusal::BadMethod => Some(self.route?.place.methods()),
            _ => None,
        }
    }
}

impl<'a> Unit for AskedMessage<'a> {
    ghost use Rattle.vault_wire.specs.Parts.{Parts};
    ghost use Rattle.vault_routes.specs.Wanted.{Wants};
    ghost use Rattle.vault_http.specs.Exchanges.{answer_for};

    ghost Shown = { Parts };

    ghost shown = { λ asked. asked.message.now };

    ghost wants = { λ asked p pair. Wants p pair.0 pair.1 };

    ghost text = { answer_for };

    fn command(
        &self,
        alloc: Global,
        now: Moment,
        digits: Digits,
    ) -> Result<Result<Command, Refusal>, AllocError> {
        match command_at(alloc, self.route, self.message, now, digits) {
            Ok(command) => Ok(Ok(command)),
            Err(fault) => match fault {
                HttpFault::ServiceMemory => Err(AllocError),
                _ => Ok(Err(fault)),
            },
        }
    }

    fn replied(&self, alloc: Global, r: &Reply) -> Result<Vec<u8>, AllocError> {
        written(alloc, r, self.message.closes())
    }

    fn refused(&self, alloc: Global, refusal: Refusal) -> Result<Vec<u8>, AllocError> {
        told(alloc, refusal, self.methods(refusal), self.message.closes())
    }
}
