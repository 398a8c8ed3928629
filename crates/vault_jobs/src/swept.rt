//! The task of a sweep.
ghost use Rattle.std.specs.Prelude.{◌≡◌, false};
ghost use Rattle.vault_store.specs.Applied.{is_broken};
ghost use Rattle.vault_engine.specs.Passing.{passage};
ghost use Rattle.vault_jobs.specs.Doing.{SweepEnds, TimedSweepEnds};
ghost use Rattle.vault_jobs.specs.Notes.{IsNoted, is_too_early as is_too_early_for, moment_note};
ghost use Rattle.vault_jobs.specs.Streams.{output_of};
ghost use Rattle.vault_jobs.specs.Tasks.{BreaksTask};
ghost use Rattle.vault_jobs.specs.declared.task.Task.TheVariants.{Sweep};
ghost use Rattle.vault_store.specs.LookUps.{WasHonest};

use crate::answer::answer;
use crate::clock::Giver;
use crate::note::{Note, beside};
use crate::stop::Stop;
use crate::sweep::sweep;
use crate::task::{Noted, Outcome};
use itoa::Buffer;
use std::io::Write;
use vault_batch::asker::Asker;
use vault_changes::moments::{is_far_ahead, is_far_behind, moment_of};
use vault_core::moment::Moment;
use vault_refusal::refusal::Refusal;
use vault_store::tables::Tables;
use vault_store::vault::Vault;
use vault_wire::watched::Watched;

/// Purges the numbers of dead tokens, and says how many.
fn do_purges<W: Write, T: Tables>(
    vault: &mut Vault<T>,
    asker: Asker,
    now: Moment,
    output: &mut Watched<W>,
) -> Result<Outcome, Stop>
    requires unbroken { is_broken vault.old ≡ false }
    // with Done the line went out; with Done or Write, on an honest disk, all dead tokens' numbers are
    // purged; else nothing went out
    ensures swept { SweepEnds asker now (passage T.Tables vault.old vault.new) result
        (output_of W.contents output.old output.new) }
    ensures breaks { BreaksTask vault.new result }
    ensures disk_honest { WasHonest T.Tables vault.old vault.new }
{
    match sweep(vault, &asker, now) {
        Ok(Ok(count)) => {
            let mut digits = Buffer::new();
            match answer(output, &["purged ", digits.format(count), "\n"]) {
                Ok(()) => Ok(Outcome::Done),
                Err(fault) => Err(Stop::Service(fault)),
            }
        }
        Ok(Err(number)) => Ok(Outcome::Refused(number)),
        Err(fault) => Err(Stop::Vault(fault)),
    }
}

/// Whether a sweep is refused: at one that the clock told, where the merchant's is far ahead of it.
fn is_too_early(giver: Giver, now: Moment, moment: Option<Moment>) -> bool
    ensures { result ≡ is_too_early_for giver now moment }
{
    match giver {
        Giver::Words => false,
        Giver::Clock => match moment {
            Some(moment) => is_far_ahead(moment, now),
            None => false,
        },
    }
}

/// What is noted of a sweep, by the merchant's moment.
fn note_of(giver: Giver, now: Moment, moment: Option<Moment>) -> Option<Note>
    ensures { result ≡ moment_note giver now moment }
{
    let Some(moment) = moment else {
        return Some(Note::NoMerchant);
    };
    match giver {
        Giver::Words => None,
        Giver::Clock => {
            if is_far_behind(moment, now) {
                Some(Note::ClockAhead)
            } else {
                None
            }
        }
    }
}

/// Sweeps at a moment; but at one that the clock told not where the merchant's is far ahead of it. It is
/// noted where the vault doesn't know the merchant, and where its moment is far behind the clock's.
pub(crate) fn do_sweep<W: Write, T: Tables>(
    vault: &mut Vault<T>,
    asker: Asker,
    now: Moment,
    giver: Giver,
    output: &mut Watched<W>,
) -> Noted
    requires unbroken { is_broken vault.old ≡ false }
    // at the words' moment it sweeps; at the clock's, on an honest disk, only where the merchant's isn't far
    // ahead
    ensures swept { TimedSweepEnds giver asker now (passage T.Tables vault.old vault.new) result.0
        (output_of W.contents output.old output.new) }
    // beside a sweep stands, on an honest disk, exactly what the merchant's moment says
    ensures noted { IsNoted (Sweep asker now giver) (passage T.Tables vault.old vault.new) result.0 result.1 }
    ensures breaks { BreaksTask vault.new result.0 }
    ensures disk_honest { WasHonest T.Tables vault.old vault.new }
{
    match moment_of(vault, asker.merchant) {
        Ok(moment) if is_too_early(giver, now, moment) => {
            (Ok(Outcome::Refused(Refusal::MomentAhead.number())), None)
        }
        Ok(moment) => beside(
            do_purges(vault, asker, now, output),
            note_of(giver, now, moment),
        ),
        Err(fault) => (Err(Stop::Vault(fault)), None),
    }
}
