//! `rights`: the rights that a file lists.
ghost use Rattle.std.specs.Prelude.{◌≡◌, IfErr, IfOk};
ghost use Rattle.vault_words.specs.declared.jobs.Job.{Job};
ghost use Rattle.vault_app.specs.World.{said};
ghost use Rattle.vault_app.specs.Plans.{ComesToTask};
ghost use Rattle.vault_app.specs.Commands.RightsFile.{rights_task};
ghost use Rattle.vault_app.specs.Rights.{IsListed, IsUnlisted};
ghost use Rattle.vault_app.specs.TaskValues.{AreValues};

use crate::ending::Ending;
use std::io::ErrorKind;
use vault_changes::changes::ListedRight;
use vault_core::moment::Moment;
use vault_file::paths::Paths;
use vault_jobs::clock::moment;
use vault_jobs::show::Shown;
use vault_jobs::stop::Stop;
use vault_jobs::task::Task;
use vault_listen::time::Timekeeper;
use vault_live::subject::Subject;
use vault_rights::fault::RightsFault;
use vault_rights::read::read_rights;
use vault_words::commands::rights_file::RightsFileJob;

/// The rights that a file lists, or how the job ends without them: refused by 70 to 73 or 75, or stopped by 74
/// or, where the file can't be read, by 80.
fn read<P: Paths>(rt: &HostRuntime, paths: &P, path: &str) -> Result<Vec<ListedRight>, Ending>
    // with Ok, the rows are the rights that a text of the file names, in order and each once, with its latest
    // end
    ensures listed { IfOk result (λ rows. IsListed (P.says paths.now path.now) rows.items) }
    // with Err, it ends by the refusal of a text of the file, or by a stop, since no text was read
    ensures unlisted { IfErr result (IsUnlisted (P.says paths.now path.now)) }
{
    let text = match paths.read(rt, path) {
        Ok(text) => text,
        Err(error) => return Err(Ending::Stopped(Stop::Unread(Subject::Rights, error.kind()))),
    };
    match read_rights(rt.alloc(), &text) {
        Ok(rows) => Ok(rows),
        Err(RightsFault::Memory) => {
            let stop = Stop::Unread(Subject::Rights, ErrorKind::OutOfMemory);
            Err(Ending::Stopped(stop))
        }
        Err(fault) => Err(Ending::Refused(fault.refusal().number())),
    }
}

/// What is to be done with a list of rights, by what the words ask of it.
fn task_of(job: &RightsFileJob<'_>, rows: Vec<ListedRight>, now: Moment) -> Task
    ensures { result ≡ rights_task job.entry.now rows now }
{
    if job.dry_run {
        Task::Show(Shown::Changes(job.exact, rows, now))
    } else if job.exact {
        Task::Settle(rows, now)
    } else {
        Task::Give(rows, now)
    }
}

/// The rights that a file lists are given, each with its end, up to the first that is refused: by 7 where its
/// merchant isn't known. Where they are to be exact, the others are withdrawn then. Or it is only said what
/// would change. The vault's file isn't touched where the list isn't read.
pub(crate) fn task<P: Paths, K: Timekeeper>(
    rt: &HostRuntime,
    paths: &P,
    time: &K,
    job: &RightsFileJob<'_>,
) -> Result<Task, Ending>
    // Ok is the task that the words ask for; Err is how the job may end without a plan
    ensures task { ComesToTask (said (K.tells time.now) (P.says paths.now))
        (Job.Rights job.entry.now) result }
    // with Ok, the parts of the task are values of their types
    ensures proper { IfOk result AreValues }
{
    let rows = read(rt, paths, job.rights)?;
    match moment(time, job.now) {
        Ok(now) => Ok(task_of(job, rows, now)),
        Err(stop) => Err(Ending::Stopped(stop)),
    }
}
