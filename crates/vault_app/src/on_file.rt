//! What is done with the vault in a file.
ghost use Rattle.std.specs.Prelude.{◌≡◌, IsTrue, Option, Result};
ghost use Rattle.vault_jobs.specs.Streams.{WhereSeen};
ghost use Rattle.vault_jobs.specs.Tasks.{IsProper};
ghost use Rattle.vault_app.specs.Files.{EndsOnFile, IsShow, ending_for};
ghost use Rattle.vault_app.specs.World.{world_at};

use crate::ending::Ending;
use crate::note::Note;
use sqlite::FileStore;
use std::io::{Read, Write};
use vault_file::fault::NotOpened;
use vault_file::open::open_vault;
use vault_file::paths::Paths;
use vault_file::reopen::close;
use vault_jobs::note::Note as TaskNote;
use vault_jobs::stop::Stop;
use vault_jobs::task::{Outcome, Task, do_task};
use vault_listen::network::Network;
use vault_listen::time::Timekeeper;
use vault_live::desk::Desk;
use vault_recover::options::Cache;
use vault_recover::unopened::Unopened;
use vault_verdict::fault::OpenFault;
use vault_wire::watched::Watched;

/// How a job ends whose task came to this, with what is noted of it.
fn ending_of(outcome: Result<Outcome, Stop>, note: Option<TaskNote>) -> Ending
    ensures { result ≡ ending_for outcome note }
{
    match outcome {
        Ok(Outcome::Done) => match note {
            Some(note) => Ending::Noted(Note::Task(note)),
            None => Ending::Done,
        },
        Ok(Outcome::Refused(number)) => Ending::Refused(number),
        Ok(Outcome::SomeRefused) => Ending::SomeRefused,
        Err(stop) => Ending::Stopped(stop),
    }
}

/// How much of its file a task keeps in memory: a sweep writes each dead token's rows once, at places without
/// an order.
fn cache_for(task: &Task) -> Cache {
    match task {
        Task::Sweep(_, _, _) => Cache::Whole,
        _ => Cache::Large,
    }
}

/// Whether a task only says what a vault holds.
fn only_shows(task: &Task) -> bool
    // with true, the task only says what a vault holds
    ensures { IsTrue result → IsShow task.now }
{
    match task {
        Task::Show(_) => true,
        _ => false,
    }
}

/// Opens the vault in the file at a path, does a task with it, and closes the files. Where the task only says
/// what the file holds, one that isn't there isn't made, and one without a byte isn't written: it is refused
/// by 34, and by 32 where memory is refused while that is looked at.
pub(crate) fn do_on_file<P: Paths, K: Timekeeper, N: Network, D: Desk, R: Read, W: Write>(
    rt: &HostRuntime,
    path: &str,
    paths: P,
    time: &K,
    network: &mut N,
    desk: &D,
    task: &Task,
    input: &mut Watched<R>,
    output: &mut Watched<W>,
) -> (Ending, Option<FileStore<P::Disk>>)
    // the lives that the command of a `Change` sets, if any, are in range
    requires proper { IsProper task.now }
    // by how it ends: what was done with the vault in the files, or why they weren't opened, and which files
    // are left
    ensures does { WhereSeen (N.tells, R.remaining, W.contents)
        (network.old, input.old, output.old) (network.new, input.new, output.new) (EndsOnFile
        (world_at P.Paths (K.tells time.now) (D.says desk.now) paths) path.now result.1 task.now result.0) }
{
    if only_shows(task) {
        match paths.is_empty(rt, path) {
            Ok(true) => return (
                Ending::NotOpened(NotOpened::Refused(Unopened::Missing)),
                None,
            ),
            Ok(false) => {}
            Err(_) => return (Ending::NotOpened(NotOpened::Fault(OpenFault::Memory)), None),
        }
    }
    let mut vault = match open_vault(rt, path, paths, cache_for(task)) {
        Ok(vault) => vault,
        Err((fault, left)) => return (Ending::NotOpened(fault), left),
    };
    let (outcome, note) = do_task(rt, time, network, desk, task, &mut vault, input, output);
    let left = close(vault.into_tables().into_connection());
    (ending_of(outcome, note), Some(left))
}
