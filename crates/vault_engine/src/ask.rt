//! One unit asked of a vault and answered.
ghost use Rattle.std.specs.Prelude.{◌≡◌, ◌↔◌, ◌⊎◌, ◌+◌, true, false, Err, IfErr, IfOk, OnOk};
ghost use Rattle.vault_core.specs.Proper.{HasLivesInRange};
ghost use Rattle.vault_core.specs.Table.{after};
ghost use Rattle.vault_core.specs.Vault.{Vault as Content};
ghost use Rattle.vault_store.specs.Applied.{Contains, RepliesTo, is_broken, tables_of};
ghost use Rattle.vault_engine.specs.Asking.{Wanted, kind};
ghost use Rattle.vault_engine.specs.Deciding.{Decided, StandsFor, Undecided, reply_in};
ghost use Rattle.vault_engine.specs.Passing.{passage, passing};
ghost use Rattle.vault_engine.specs.Stops.{IsAnswered, StopsAt, Tells, Trusts, failures};
ghost use Rattle.vault_engine.specs.Stops.{failures_unread, of_unit};

use crate::stop::Stop;
use crate::unit::Unit;
use std::alloc::{AllocError, Global};
use std::io::Write;
use vault_core::command::Command;
use vault_core::moment::Moment;
use vault_core::reply::Reply;
use vault_core::source::Source;
use vault_pan::draw::Digits;
use vault_refusal::refusal::Refusal;
use vault_store::tables::Tables;
use vault_store::vault::{Fault, Vault};
use vault_wire::watched::{Watched, send};

/// What a unit comes to.
#[derive(Clone, Copy, Drop)]
enum Outcome {
    /// The vault's reply to its command.
    Replied(Reply),
    /// The unit itself is refused.
    Refused(Refusal),
}

/// Answers a command by the vault, after what it changes was written.
fn apply<T: Tables>(vault: &mut Vault<T>, command: &Command) -> Result<Reply, Stop>
    // the lives that the command sets, if any, are in range
    requires { HasLivesInRange command.now }
    // the reply is the vault's, and the vault after the command is held
    ensures answered { T.is_honest (tables_of vault.new) → IfOk result (λ reply. (V : Content)
        → Contains T.holds vault.old V
        → RepliesTo command.now V (Contains T.holds vault.new) reply) }
    // where memory was refused, the vault stays
    ensures memory { result ≡ Err Stop.Memory
        → (V : Content) → Contains T.holds vault.old V → Contains T.holds vault.new V }
    // where the store failed, a crash leaves the vault before the command or after it
    ensures store { result ≡ Err Stop.Store → T.is_honest (tables_of vault.new)
        → (V : Content) → Contains T.holds vault.old V
        → T.leaves (tables_of vault.new) V (after V command.now) }
    // it stops by Memory or Store alone
    ensures only { IfErr result (λ e. (e ≡ Stop.Memory) ⊎ (e ≡ Stop.Store)) }
    // the vault is broken exactly after Store
    ensures broken { (result ≡ Err Stop.Store) ↔ (is_broken vault.new ≡ true) }
    // a stop but Memory tells which of source, reader, writer and vault has failed; all else stays as it was
    ensures own_failure { Tells result
        (failures false false false (is_broken vault.old))
        (failures false false false (is_broken vault.new)) }
    ensures trusted { Trusts T.Tables vault.old vault.new (result ≡ Err Stop.Store) }
{
    match vault.apply(command) {
        Ok(reply) => Ok(reply),
        Err(Fault::Memory) => Err(Stop::Memory),
        Err(Fault::Store) => Err(Stop::Store),
        Err(Fault::Reopen) => Err(Stop::Store),
    }
}

/// Decides what a unit asks for, after what it changes was written.
fn decide<U: Unit, T: Tables>(
    alloc: Global,
    unit: &U,
    vault: &mut Vault<T>,
    now: Moment,
    digits: Digits,
) -> Result<Outcome, Stop>
    // with Ok, the unit asked for something with this pair and came to this; on an honest disk the vault
    // after it is held
    ensures ok { IfOk result (λ outcome. Decided (kind (U.wants unit.now) U.text) (U.shown unit.now)
        (now, digits) outcome
        (passage T.Tables vault.old vault.new)) }
    // where memory was refused, the vault stays
    ensures memory { result ≡ Err Stop.Memory
        → (V : Content) → Contains T.holds vault.old V → Contains T.holds vault.new V }
    // where the store failed, the unit asked for something, and on an honest disk a crash leaves the vault
    // before or after it
    ensures store { result ≡ Err Stop.Store
        → Undecided (kind (U.wants unit.now) U.text) (U.shown unit.now) (now, digits)
        (passage T.Tables vault.old vault.new) }
    // it stops by Memory or Store alone
    ensures only { IfErr result (λ e. (e ≡ Stop.Memory) ⊎ (e ≡ Stop.Store)) }
    // a stop but Memory tells which of source, reader, writer and vault has failed; all else stays as it was
    ensures own_failure { Tells result
        (failures false false false (is_broken vault.old))
        (failures false false false (is_broken vault.new)) }
    ensures trusted { Trusts T.Tables vault.old vault.new (result ≡ Err Stop.Store) }
{
    match unit.command(alloc, now, digits) {
        Ok(Ok(command)) => match apply(vault, &command) {
            Ok(reply) => Ok(Outcome::Replied(reply)),
            Err(stop) => Err(stop),
        },
        Ok(Err(refusal)) => Ok(Outcome::Refused(refusal)),
        Err(_) => Err(Stop::Memory),
    }
}

/// The text that answers a unit.
fn text<U: Unit>(alloc: Global, unit: &U, outcome: &Outcome) -> Result<Vec<u8>, AllocError>
    ensures { (w : Wanted) → StandsFor outcome.now w
        → IfOk result (λ out. out.items ≡ U.text (U.shown unit.now) w (reply_in outcome.now)) }
{
    match outcome {
        Outcome::Replied(reply) => unit.replied(alloc, reply),
        Outcome::Refused(refusal) => unit.refused(alloc, *refusal),
    }
}

/// The reply of an outcome.
fn reply_of(outcome: &Outcome) -> Reply
    ensures { result ≡ reply_in outcome.now }
{
    match outcome {
        Outcome::Replied(reply) => *reply,
        Outcome::Refused(refusal) => Reply::Refused(refusal.number()),
    }
}

/// Asks one unit of a vault with the source's next pair, and hands out its text after what it changes was
/// written.
pub fn ask<U: Unit, W: Write, T: Tables, S: Source>(
    alloc: Global,
    unit: &U,
    writer: &mut Watched<W>,
    vault: &mut Vault<T>,
    source: &mut S,
) -> Result<Reply, Stop>
    // the unit asked for something with the pair that was taken, and its text went out after the write
    ensures answered { IfOk result (of_unit U.Unit unit.now IsAnswered (passing T.Tables S.given W.contents
        (vault.old, source.old, writer.old) (vault.new, source.new, writer.new))) }
    // by which cause it stopped, and what went out and is held then
    ensures stopped { IfErr result (of_unit U.Unit unit.now StopsAt (passing T.Tables S.given W.contents
        (vault.old, source.old, writer.old) (vault.new, source.new, writer.new))) }
    // a stop but Memory tells which of source, reader, writer and vault has failed; all else stays as it was
    ensures own_failure { Tells result
        (failures_unread (S.has_refused source.old) writer.old vault.old)
        (failures_unread (S.has_refused source.new) writer.new vault.new) }
    // one pair was taken
    ensures counted { OnOk result (S.count_left source.old ≡ S.count_left source.new + 1) }
    // the source is the same, further on
    ensures later { S.precedes source.old source.new }
    ensures trusted { Trusts T.Tables vault.old vault.new (result ≡ Err Stop.Store) }
{
    let Ok(pair) = source.next() else {
        return Err(Stop::Source);
    };
    let outcome = match decide(alloc, unit, vault, pair.0, pair.1) {
        Ok(outcome) => outcome,
        Err(stop) => return Err(stop),
    };
    let Ok(out) = text(alloc, unit, &outcome) else {
        return Err(Stop::Memory);
    };
    if send(writer, &out).is_err() {
        return Err(Stop::Write);
    }
    Ok(reply_of(&outcome))
}
