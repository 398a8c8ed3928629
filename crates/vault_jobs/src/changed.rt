//! The task of one command.
ghost use Rattle.std.specs.Prelude.{◌≡◌, IfErr, IfOk, codes, false};
ghost use Rattle.vault_core.specs.Proper.{HasLivesInRange};
ghost use Rattle.vault_core.specs.Vault.{Vault as Content};
ghost use Rattle.vault_store.specs.Applied.{is_broken};
ghost use Rattle.vault_engine.specs.Passing.{IsBefore, Keeps, Passage, passage};
ghost use Rattle.vault_changes.specs.Carried.{Carries};
ghost use Rattle.vault_changes.specs.Failing.{BreaksByStore};
ghost use Rattle.vault_changes.specs.Settling.{FailsToRead};
ghost use Rattle.vault_jobs.specs.Doing.{ChangeEnds, CommandsEnd};
ghost use Rattle.vault_jobs.specs.Notes.{IsNoted, has_right as has_right_in, is_among as is_among_in};
ghost use Rattle.vault_jobs.specs.Notes.{right_note, withdrawn_by};
ghost use Rattle.vault_jobs.specs.Streams.{output_of};
ghost use Rattle.vault_jobs.specs.Tasks.{BreaksTask};
ghost use Rattle.vault_jobs.specs.declared.task.Task.TheVariants.{Change};
ghost use Rattle.vault_store.specs.LookUps.{WasHonest};

use crate::answer::answer;
use crate::note::{Note, beside};
use crate::stop::Stop;
use crate::task::{Noted, Outcome};
use std::io::Write;
use vault_changes::change::change;
use vault_core::command::Command;
use vault_core::name::{Caller, MerchantId};
use vault_core::right::Right;
use vault_store::tables::{RightRow, Tables};
use vault_store::vault::{Fault, Vault};
use vault_wire::watched::Watched;

/// A right: its caller, its merchant and its word.
type RightKey = (Caller, (MerchantId, Right));

/// The right that a command takes away, where it takes one.
fn withdrawn(command: &Command) -> Option<RightKey>
    ensures { result ≡ withdrawn_by command.now }
{
    match *command {
        Command::Withdraw {
            caller,
            merchant,
            right,
            ..
        } => Some((caller, (merchant, right))),
        _ => None,
    }
}

/// Whether a right is among these.
fn is_among(held: &[RightRow], right: RightKey) -> bool
    ensures { result ≡ is_among_in held.now right }
{
    for it in held {
        if right.cmp(&it.0).is_eq() {
            return true;
        }
    }
    false
}

/// Whether a vault holds a right. Nothing changes.
///
/// 20 Memory: memory was refused. 21 Store: the store failed.
fn has_right<T: Tables>(vault: &mut Vault<T>, right: RightKey) -> Result<bool, Fault>
    requires unbroken { is_broken vault.old ≡ false }
    // on an honest disk, Ok says it of each vault that was held, and that one is held still, after a crash
    // too
    ensures told { let w : Passage = passage T.Tables vault.old vault.new in
        IfOk result (λ has. (V : Content) → IsBefore w V → (has ≡ has_right_in V right) × Keeps w V) }
    ensures failed { IfErr result (FailsToRead (passage T.Tables vault.old vault.new)) }
    ensures broken { BreaksByStore vault.new result }
    ensures disk_honest { WasHonest T.Tables vault.old vault.new }
{
    match vault.rights() {
        Ok(held) => Ok(is_among(held.as_slice(), right)),
        Err(fault) => Err(fault),
    }
}

/// What is noted where a right is taken away, by whether it is held.
fn note_of(has: bool) -> Option<Note>
    ensures { result ≡ right_note has }
{
    if has {
        None
    } else {
        Some(Note::NothingWithdrawn)
    }
}

/// Carries out a command, and says `done`.
fn do_command<W: Write, T: Tables>(
    vault: &mut Vault<T>,
    command: &Command,
    output: &mut Watched<W>,
) -> Result<Outcome, Stop>
    // the lives that the command sets, if any, are in range
    requires lives { HasLivesInRange command.now }
    requires unbroken { is_broken vault.old ≡ false }
    // with Done the line `done` went out; with Done or Write, on an honest disk, the command is done; else
    // nothing went out
    ensures does { CommandsEnd (Carries command.now (passage T.Tables vault.old vault.new)) (codes "done\n")
        result (output_of W.contents output.old output.new) }
    ensures breaks { BreaksTask vault.new result }
    ensures disk_honest { WasHonest T.Tables vault.old vault.new }
{
    match change(vault, command) {
        Ok(Ok(())) => match answer(output, &["done\n"]) {
            Ok(()) => Ok(Outcome::Done),
            Err(fault) => Err(Stop::Service(fault)),
        },
        Ok(Err(number)) => Ok(Outcome::Refused(number)),
        Err(fault) => Err(Stop::Vault(fault)),
    }
}

/// Carries out a command, and says `done`. Where it takes a right away that isn't there, that is noted.
pub(crate) fn do_change<W: Write, T: Tables>(
    vault: &mut Vault<T>,
    command: &Command,
    output: &mut Watched<W>,
) -> Noted
    // the lives that the command sets, if any, are in range
    requires lives { HasLivesInRange command.now }
    requires unbroken { is_broken vault.old ≡ false }
    // with Done the line `done` went out; with Done or Write, on an honest disk, the command is done; else
    // nothing went out
    ensures does { ChangeEnds command.now (passage T.Tables vault.old vault.new) result.0
        (output_of W.contents output.old output.new) }
    // beside a right that is taken away stands, on an honest disk, exactly that it wasn't held
    ensures noted { IsNoted (Change command.now) (passage T.Tables vault.old vault.new) result.0 result.1 }
    ensures breaks { BreaksTask vault.new result.0 }
    ensures disk_honest { WasHonest T.Tables vault.old vault.new }
{
    let Some(right) = withdrawn(command) else {
        return (do_command(vault, command, output), None);
    };
    match has_right(vault, right) {
        Ok(has) => beside(do_command(vault, command, output), note_of(has)),
        Err(fault) => (Err(Stop::Vault(fault)), None),
    }
}
