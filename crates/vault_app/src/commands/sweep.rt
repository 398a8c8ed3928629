//! `sweep`: a merchant's dead tokens, whose card numbers are purged in the vault of a file.
ghost use Rattle.std.specs.Prelude.{IfOk};
ghost use Rattle.vault_words.specs.declared.jobs.Job.{Job};
ghost use Rattle.vault_app.specs.World.{told};
ghost use Rattle.vault_app.specs.Plans.{ComesToTask};
ghost use Rattle.vault_app.specs.TaskValues.{AreValues};

use crate::asker::asker_of;
use crate::ending::Ending;
use vault_jobs::clock::{Giver, moment};
use vault_jobs::task::Task;
use vault_listen::time::Timekeeper;
use vault_words::commands::sweep::SweepJob;

/// The card numbers of a merchant's dead tokens are purged. Refused by 4 where a name is none, and when it is
/// done by 8 where a token is dead and the caller may not purge; and by 81 where the words fix no moment and
/// the merchant's is far ahead of the clock's.
pub(crate) fn task<K: Timekeeper>(time: &K, job: &SweepJob<'_>) -> Result<Task, Ending>
    // Ok is the task that the words ask for; Err is how the job may end without a plan
    ensures task { ComesToTask (told (K.tells time.now)) (Job.Sweep job.entry.now) result }
    // with Ok, the parts of the task are values of their types
    ensures proper { IfOk result AreValues }
{
    let asker = match asker_of(job.caller, job.merchant) {
        Ok(asker) => asker,
        Err(placeholder) => return Err(Ending::Misnamed(placeholder)),
    };
    match moment(time, job.now) {
        Ok(now) => Ok(Task::Sweep(asker, now, Giver::of(job.now))),
        Err(stop) => Err(Ending::Stopped(stop)),
    }
}
