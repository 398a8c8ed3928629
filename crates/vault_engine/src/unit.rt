//! What is asked: one unit of an input.
ghost use Rattle.std.specs.Prelude.{◌≡◌, Ok, Err, IfOk};
ghost use Rattle.vault_core.specs.declared.reply.Reply.TheVariants as reply;
ghost use Rattle.vault_core.specs.declared.command.Command.{Command as Commanded};
ghost use Rattle.vault_engine.specs.Asking.{AreProper};
ghost use Rattle.vault_refusal.specs.Refusal.{number_of};

use std::alloc::{AllocError, Global};
use vault_core::command::Command;
use vault_core::moment::Moment;
use vault_core::reply::Reply;
use vault_pan::draw::Digits;
use vault_refusal::refusal::Refusal;

/// One unit of an input: a message, a row, a line.
pub trait Unit {
    ghost use Rattle.std.specs.Prelude.{ℕ, List};
    ghost use Rattle.vault_core.specs.declared.reply.Reply.{Reply};
    ghost use Rattle.vault_engine.specs.Asking.{Pair, Wanted};

    // a unit as contracts see it: its texts
    ghost Shown: { Type 0 };

    // this one
    ghost shown: { Self → Shown };

    // with a pair a unit asks for this, by whoever asks here
    ghost wants: { Self → Shown → Pair → Wanted → Type 0 };

    // the text that answers a unit, where it asks for this and is replied to so
    ghost text: { Shown → Wanted → Reply → List ℕ };

    /// The command that it asks for with a pair, or the refusal of it.
    fn command(
        &self,
        alloc: Global,
        now: Moment,
        digits: Digits,
    ) -> Result<Result<Command, Refusal>, AllocError>
        // with Ok, it is what the unit asks for with this pair
        ensures wanted { IfOk result (λ wanted. wants self.now (shown self.now) (now, digits) wanted) }
        // with Ok, the lives that its command sets, if any, are in range
        ensures proper { IfOk result AreProper };

    /// The text that answers it by the reply to its command.
    fn replied(&self, alloc: Global, r: &Reply) -> Result<Vec<u8>, AllocError>
        ensures { (c : Commanded) → IfOk result (λ out. out.items ≡ text (shown self.now) (Ok c) r.now) };

    /// The text that answers it by the number of its refusal.
    fn refused(&self, alloc: Global, refusal: Refusal) -> Result<Vec<u8>, AllocError>
        ensures { IfOk result (λ out. out.items
            ≡ text (shown self.now) (Err refusal) (reply.Refused (number_of refusal))) };
}
