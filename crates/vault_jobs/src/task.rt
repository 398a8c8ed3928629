//! What is done with a vault.
ghost use Rattle.std.specs.Prelude.{◌≡◌, All, IfErr, false, length};
ghost use Rattle.vault_store.specs.Applied.{is_broken};
ghost use Rattle.vault_engine.specs.Passing.{passage};
ghost use Rattle.vault_jobs.specs.Causes.{IsCauseOf};
ghost use Rattle.vault_jobs.specs.Streams.{output_of, seen_over, streams};
ghost use Rattle.vault_jobs.specs.Doing.{BatchEnds, CommandsEnd, PipeEnds};
ghost use Rattle.vault_jobs.specs.Doing.{SetEnds, SettleEnds, ShowEnds, TaskDone};
ghost use Rattle.vault_jobs.specs.ListingLines.{shown_text};
ghost use Rattle.vault_changes.specs.Grants.{CarriesAll, grants_at};
ghost use Rattle.vault_changes.specs.Settings.{HasLives};
ghost use Rattle.vault_jobs.specs.Tasks.{BreaksBy, BreaksTask, IsProper, granted_line};
ghost use Rattle.vault_jobs.specs.declared.task.Task.{Task};
ghost use Rattle.vault_listen.specs.Live.{AreGiven};
ghost use Rattle.vault_store.specs.LookUps.{WasHonest};

use crate::answer::{answer, answer_text};
use crate::batch::batch_input;
use crate::changed::do_change;
use crate::clock::Giver;
use crate::grants::give_all;
use crate::note::Note;
use crate::pipe::pipe;
use crate::serve_task::ServeTask;
use crate::serving::serve_lists;
use crate::show::Shown;
use crate::shown::text_of;
use crate::source::{MOST_MESSAGES, MOST_ROWS, pairs};
use crate::stop::Stop;
use crate::swept::do_sweep;
use itoa::Buffer;
use std::alloc::Global;
use std::io::{Read, Write};
use vault_batch::asker::Asker;
use vault_batch::fault::BatchFault;
use vault_changes::changes::ListedRight;
use vault_changes::settings::set_merchants;
use vault_changes::settle::settle;
use vault_core::command::Command;
use vault_core::moment::Moment;
use vault_http::fault::ServeFault;
use vault_listen::network::Network;
use vault_listen::time::Timekeeper;
use vault_live::desk::Desk;
use vault_merchants::read::ListedMerchant;
use vault_pan::draw::Digits;
use vault_store::tables::Tables;
use vault_store::vault::Vault;
use vault_wire::watched::Watched;

/// What is done with a vault.
#[derive(Drop)]
pub enum Task {
    /// Carries out one command.
    Change(Command),
    /// Gives rights at a moment, to the first that is refused.
    Give(Vec<ListedRight>, Moment),
    /// Makes the rights exactly these at a moment, to the first change that is refused.
    Settle(Vec<ListedRight>, Moment),
    /// Sets the merchants of a list at a moment, those that aren't so, to the first that is refused.
    SetMerchants(Vec<ListedMerchant>, Moment),
    /// Purges the numbers of a merchant's dead tokens at a moment, until none is left or one is refused. At
    /// one that the clock told nothing is purged where the merchant's is far ahead of it.
    Sweep(Asker, Moment, Giver),
    /// Answers the rows of the input, with this moment and these digits, where they are fixed.
    Batch(Asker, Option<Moment>, Option<Digits>),
    /// Answers the messages of the input, with this moment and these digits, where they are fixed.
    Pipe(Option<Moment>, Option<Digits>),
    /// Serves connections. Before that, and again whenever they change, the merchants of a list are set and
    /// the rights made exactly those of a list, where there are such lists.
    Serve(ServeTask),
    /// Says what the vault holds.
    Show(Shown),
}

/// How a task ends that isn't stopped.
#[derive(Clone, Copy, PartialEq, Eq, Drop)]
pub enum Outcome {
    /// It is done.
    Done,
    /// It is refused, by this number.
    Refused(u8),
    /// Some rows of a batch are refused; their lines say so.
    SomeRefused,
}

/// How a task ends, and what is noted beside it.
pub type Noted = (Result<Outcome, Stop>, Option<Note>);

/// Gives rights, and says how many.
fn do_give<W: Write, T: Tables>(
    vault: &mut Vault<T>,
    rights: &[ListedRight],
    now: Moment,
    output: &mut Watched<W>,
) -> Result<Outcome, Stop>
    requires unbroken { is_broken vault.old ≡ false }
    // with Done the line went out; with Done or Write, on an honest disk, all rights are given; else nothing
    // went out
    ensures does { CommandsEnd (CarriesAll (grants_at now rights.now) (passage T.Tables vault.old vault.new))
        (granted_line (length rights.now)) result (output_of W.contents output.old output.new) }
    ensures breaks { BreaksTask vault.new result }
    ensures disk_honest { WasHonest T.Tables vault.old vault.new }
{
    match give_all(vault, rights, now) {
        Ok(Ok(())) => {
            let mut digits = Buffer::new();
            match answer(output, &["granted ", digits.format(rights.len()), "\n"]) {
                Ok(()) => Ok(Outcome::Done),
                Err(fault) => Err(Stop::Service(fault)),
            }
        }
        Ok(Err(number)) => Ok(Outcome::Refused(number)),
        Err(fault) => Err(Stop::Vault(fault)),
    }
}

/// Makes the rights exactly those of a list, and says how many were given and withdrawn.
fn do_settle<W: Write, T: Tables>(
    alloc: Global,
    vault: &mut Vault<T>,
    rows: &[ListedRight],
    now: Moment,
    output: &mut Watched<W>,
) -> Result<Outcome, Stop>
    requires unbroken { is_broken vault.old ≡ false }
    // with Done the line went out; with Done or Write, on an honest disk, all changes are done; else nothing
    // went out
    ensures does { SettleEnds now rows.now (passage T.Tables vault.old vault.new) result
        (output_of W.contents output.old output.new) }
    ensures breaks { BreaksTask vault.new result }
    ensures disk_honest { WasHonest T.Tables vault.old vault.new }
{
    match settle(alloc, vault, rows, now) {
        Ok((Ok(()), changes)) => {
            let [mut granted, mut withdrawn] = [Buffer::new(), Buffer::new()];
            let parts = [
                "granted ",
                granted.format(changes.granted),
                " withdrawn ",
                withdrawn.format(changes.withdrawn()),
                "\n",
            ];
            match answer(output, &parts) {
                Ok(()) => Ok(Outcome::Done),
                Err(fault) => Err(Stop::Service(fault)),
            }
        }
        Ok((Err(number), _)) => Ok(Outcome::Refused(number)),
        Err(fault) => Err(Stop::Vault(fault)),
    }
}

/// Sets the merchants of a list that aren't so, and says how many.
fn do_set_merchants<W: Write, T: Tables>(
    alloc: Global,
    vault: &mut Vault<T>,
    rows: &[ListedMerchant],
    now: Moment,
    output: &mut Watched<W>,
) -> Result<Outcome, Stop>
    // the lives of the list are lives
    requires lives { All HasLives rows.now }
    requires unbroken { is_broken vault.old ≡ false }
    // with Done the line went out; with Done or Write, on an honest disk, all are set; else nothing went out
    ensures does { SetEnds now rows.now (passage T.Tables vault.old vault.new) result
        (output_of W.contents output.old output.new) }
    ensures breaks { BreaksTask vault.new result }
    ensures disk_honest { WasHonest T.Tables vault.old vault.new }
{
    match set_merchants(alloc, vault, rows, now) {
        Ok((Ok(()), commands)) => {
            let mut digits = Buffer::new();
            match answer(
                output,
                &["merchants set ", digits.format(commands.len()), "\n"],
            ) {
                Ok(()) => Ok(Outcome::Done),
                Err(fault) => Err(Stop::Service(fault)),
            }
        }
        Ok((Err(number), _)) => Ok(Outcome::Refused(number)),
        Err(fault) => Err(Stop::Vault(fault)),
    }
}

/// Says what the vault holds.
fn do_show<W: Write, T: Tables>(
    alloc: Global,
    vault: &mut Vault<T>,
    shown: &Shown,
    output: &mut Watched<W>,
) -> Result<Outcome, Stop>
    requires unbroken { is_broken vault.old ≡ false }
    // on an honest disk, the vault's text went out with Done, a beginning with Write, else nothing; a crash
    // leaves the vault as before
    ensures does { ShowEnds (shown_text shown.now) (passage T.Tables vault.old vault.new) result
        (output_of W.contents output.old output.new) }
    ensures breaks { BreaksTask vault.new result }
    ensures disk_honest { WasHonest T.Tables vault.old vault.new }
{
    match text_of(alloc, vault, shown) {
        Ok(text) => match answer_text(output, text.as_slice()) {
            Ok(()) => Ok(Outcome::Done),
            Err(fault) => Err(Stop::Service(fault)),
        },
        Err(fault) => Err(Stop::Vault(fault)),
    }
}

/// Answers the rows of the input.
fn do_batch<K: Timekeeper, R: Read, W: Write, T: Tables>(
    rt: &HostRuntime,
    time: &K,
    asker: Asker,
    moment: Option<Moment>,
    digits: Option<Digits>,
    vault: &mut Vault<T>,
    input: &mut Watched<R>,
    output: &mut Watched<W>,
) -> Result<Outcome, Stop>
    requires unbroken { is_broken vault.old ≡ false }
    // the rows up to its end or stop are answered, each with the moment and digits that are fixed, else told
    // and drawn
    ensures does { BatchEnds (AreGiven (K.tells time.now) moment digits) asker
        (passage T.Tables vault.old vault.new) result (seen_over R.remaining input.old input.new W.contents
        output.old output.new) }
    // the reader or the writer stops it only where that failed, and the bytes of a batch only where they are
    // none
    ensures caused { IfErr result (λ stop. IsCauseOf stop (streams R.remaining input.old input.new W.contents
        output.old output.new)) }
    // the vault is broken exactly where the store failed
    ensures breaks { BreaksBy (Task.Batch asker moment digits) result (is_broken vault.new) }
    ensures disk_honest { WasHonest T.Tables vault.old vault.new }
{
    let Some(mut pairs) = pairs(rt, time, MOST_ROWS, moment, digits) else {
        return Err(Stop::Batch(BatchFault::Source));
    };
    match batch_input(rt.alloc(), input, output, vault, asker, &mut pairs) {
        Ok(counts) if counts.refused == 0 => Ok(Outcome::Done),
        Ok(_) => Ok(Outcome::SomeRefused),
        Err(fault) => Err(Stop::Batch(fault)),
    }
}

/// Answers the messages of the input.
fn do_pipe<K: Timekeeper, R: Read, W: Write, T: Tables>(
    rt: &HostRuntime,
    time: &K,
    moment: Option<Moment>,
    digits: Option<Digits>,
    vault: &mut Vault<T>,
    input: &mut Watched<R>,
    output: &mut Watched<W>,
) -> Result<Outcome, Stop>
    requires unbroken { is_broken vault.old ≡ false }
    // the messages up to its end or stop are answered, each with the moment and digits that are fixed, else
    // told and drawn
    ensures does { PipeEnds (AreGiven (K.tells time.now) moment digits) (passage T.Tables vault.old vault.new)
        result (seen_over R.remaining input.old input.new W.contents output.old output.new) }
    // the reader or the writer stops it only where that failed, and the bytes of a batch only where they are
    // none
    ensures caused { IfErr result (λ stop. IsCauseOf stop (streams R.remaining input.old input.new W.contents
        output.old output.new)) }
    // the vault is broken exactly where the store failed
    ensures breaks { BreaksBy (Task.Pipe moment digits) result (is_broken vault.new) }
    ensures disk_honest { WasHonest T.Tables vault.old vault.new }
{
    let Some(mut pairs) = pairs(rt, time, MOST_MESSAGES, moment, digits) else {
        return Err(Stop::Service(ServeFault::Source));
    };
    match pipe(rt.alloc(), input, output, vault, &mut pairs) {
        Ok(()) => Ok(Outcome::Done),
        Err(fault) => Err(Stop::Service(fault)),
    }
}

/// Does a task on a vault.
pub fn do_task<K: Timekeeper, N: Network, D: Desk, R: Read, W: Write, T: Tables>(
    rt: &HostRuntime,
    time: &K,
    network: &mut N,
    desk: &D,
    task: &Task,
    vault: &mut Vault<T>,
    input: &mut Watched<R>,
    output: &mut Watched<W>,
) -> Noted
    // the lives that the command of a `Change` sets, if any, and those of a list of merchants are in range
    requires proper { IsProper task.now }
    requires unbroken { is_broken vault.old ≡ false }
    // by how it ends: what it did to the vault, what it read and sent, what is noted, and which turns the
    // network tells of
    ensures does { TaskDone (N.tells, T.Tables, R.remaining, W.contents)
        (network.old, vault.old, input.old, output.old) (network.new, vault.new, input.new, output.new)
        (K.tells time.now, D.says desk.now) task.now result }
    ensures disk_honest { WasHonest T.Tables vault.old vault.new }
{
    match *task {
        Task::Change(ref command) => do_change(vault, command, output),
        Task::Give(ref rights, now) => (do_give(vault, rights, now, output), None),
        Task::Settle(ref rights, now) => {
            (do_settle(rt.alloc(), vault, rights, now, output), None)
        }
        Task::SetMerchants(ref rows, now) => {
            (do_set_merchants(rt.alloc(), vault, rows, now, output), None)
        }
        Task::Sweep(asker, now, giver) => do_sweep(vault, asker, now, giver, output),
        Task::Batch(asker, moment, digits) => {
            let ended = do_batch(rt, time, asker, moment, digits, vault, input, output);
            (ended, None)
        }
        Task::Pipe(moment, digits) => {
            (
                do_pipe(rt, time, moment, digits, vault, input, output),
                None,
            )
        }
        Task::Serve(ref service) => {
            let ended = serve_lists(rt, time, network, desk, service, vault, output);
            (ended, None)
        }
        Task::Show(ref shown) => (do_show(rt.alloc(), vault, shown, output), None),
    }
}
