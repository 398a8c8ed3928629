//! `merchants`: the merchants that a list has.
ghost use Rattle.std.specs.Prelude.{◌≡◌, IfErr, IfOk};
ghost use Rattle.vault_words.specs.declared.jobs.Job.{Job};
ghost use Rattle.vault_app.specs.World.{said};
ghost use Rattle.vault_app.specs.Plans.{ComesToTask};
ghost use Rattle.vault_app.specs.Commands.Merchants.{merchants_task};
ghost use Rattle.vault_app.specs.Merchants.{AreMerchantsOf, EndsWithoutMerchants};
ghost use Rattle.vault_app.specs.TaskValues.{AreValues};

use crate::ending::Ending;
use std::io::ErrorKind;
use vault_core::moment::Moment;
use vault_file::paths::Paths;
use vault_jobs::clock::moment;
use vault_jobs::show::Shown;
use vault_jobs::stop::Stop;
use vault_jobs::task::Task;
use vault_listen::time::Timekeeper;
use vault_live::subject::Subject;
use vault_merchants::fault::MerchantsFault;
use vault_merchants::read::{ListedMerchant, read_merchants};
use vault_words::commands::merchants::MerchantsJob;

/// The merchants that a file lists, or how the job ends without them: refused by 70, 72, 73 or 76, or stopped
/// by 74 or, where the file can't be read, by 80.
fn read<P: Paths>(rt: &HostRuntime, paths: &P, path: &str) -> Result<Vec<ListedMerchant>, Ending>
    // with Ok, the rows are the merchants that a text of the file has, in order
    ensures listed { IfOk result (λ rows. AreMerchantsOf (P.says paths.now path.now) rows.items) }
    // with Err, it ends by the refusal of a text of the file, or by a stop, since no text was read
    ensures unlisted { IfErr result (EndsWithoutMerchants (P.says paths.now path.now)) }
{
    let text = match paths.read(rt, path) {
        Ok(text) => text,
        Err(error) => return Err(Ending::Stopped(Stop::Unread(Subject::Merchants, error.kind()))),
    };
    match read_merchants(rt.alloc(), &text) {
        Ok(rows) => Ok(rows),
        Err(MerchantsFault::Memory) => {
            let stop = Stop::Unread(Subject::Merchants, ErrorKind::OutOfMemory);
            Err(Ending::Stopped(stop))
        }
        Err(fault) => Err(Ending::Refused(fault.refusal().number())),
    }
}

/// What is to be done with a list of merchants, by what the words ask of it.
fn task_of(job: &MerchantsJob<'_>, rows: Vec<ListedMerchant>, now: Moment) -> Task
    ensures { result ≡ merchants_task job.entry.now rows now }
{
    if job.dry_run {
        Task::Show(Shown::Settings(rows, now))
    } else {
        Task::SetMerchants(rows, now)
    }
}

/// The merchants that a file lists are set, those that the vault hasn't so, up to the first that is refused:
/// by 18 where there are as many merchants as there may be. Or it is only said what would change. The vault's
/// file isn't touched where the list isn't read.
pub(crate) fn task<P: Paths, K: Timekeeper>(
    rt: &HostRuntime,
    paths: &P,
    time: &K,
    job: &MerchantsJob<'_>,
) -> Result<Task, Ending>
    // Ok is the task that the words ask for; Err is how the job may end without a plan
    ensures task { ComesToTask (said (K.tells time.now) (P.says paths.now))
        (Job.Merchants job.entry.now) result }
    // with Ok, the parts of the task are values of their types
    ensures proper { IfOk result AreValues }
{
    let rows = read(rt, paths, job.list)?;
    match moment(time, job.now) {
        Ok(now) => Ok(task_of(job, rows, now)),
        Err(stop) => Err(Ending::Stopped(stop)),
    }
}
