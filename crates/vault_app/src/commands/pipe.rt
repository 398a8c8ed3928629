//! `pipe`: messages answered by the vault of a file.
ghost use Rattle.vault_words.specs.declared.jobs.Job.{Job};
ghost use Rattle.vault_app.specs.Plans.{IsTaskOf};
ghost use Rattle.vault_app.specs.World.{untold};
ghost use Rattle.vault_app.specs.TaskValues.{AreValues};

use crate::typed::{fixed_digits, fixed_moment};
use vault_jobs::task::Task;
use vault_words::commands::pipe::PipeJob;

/// Messages are answered, with the moment and the digits that the words fix.
pub(crate) fn task(job: &PipeJob<'_>) -> Task
    // it is the task that the words ask for
    ensures task { IsTaskOf untold (Job.Pipe job.entry.now) result }
    // the parts of the task are values of their types
    ensures proper { AreValues result }
{
    Task::Pipe(fixed_moment(job.now), fixed_digits(job.digits))
}
