//! `batch`: rows answered by the vault of a file.
ghost use Rattle.std.specs.Prelude.{IfOk};
ghost use Rattle.vault_words.specs.declared.jobs.Job.{Job};
ghost use Rattle.vault_app.specs.Plans.{ComesToTask};
ghost use Rattle.vault_app.specs.World.{untold};
ghost use Rattle.vault_app.specs.TaskValues.{AreValues};

use crate::asker::asker_of;
use crate::ending::Ending;
use crate::typed::{fixed_digits, fixed_moment};
use vault_jobs::task::Task;
use vault_words::commands::batch::BatchJob;

/// Rows are answered in a caller's name at a merchant. Refused by 4 where a name is none.
pub(crate) fn task(job: &BatchJob<'_>) -> Result<Task, Ending>
    // Ok is the task that the words ask for; Err is how the job may end without a plan
    ensures task { ComesToTask untold (Job.Batch job.entry.now) result }
    // with Ok, the parts of the task are values of their types
    ensures proper { IfOk result AreValues }
{
    match asker_of(job.caller, job.merchant) {
        Ok(asker) => {
            let (now, digits) = (fixed_moment(job.now), fixed_digits(job.digits));
            Ok(Task::Batch(asker, now, digits))
        }
        Err(placeholder) => Err(Ending::Misnamed(placeholder)),
    }
}
