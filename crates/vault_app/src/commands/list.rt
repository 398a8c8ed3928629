//! `list`: the merchants and the rights that a file holds.
ghost use Rattle.vault_words.specs.declared.jobs.Job.{Job};
ghost use Rattle.vault_app.specs.Plans.{IsTaskOf};
ghost use Rattle.vault_app.specs.World.{untold};
ghost use Rattle.vault_app.specs.TaskValues.{AreValues};

use vault_jobs::show::{Form, Shown};
use vault_jobs::task::Task;
use vault_words::commands::list::ListJob;

/// The merchants and the rights are said, in words or as JSON objects.
pub(crate) fn task(job: &ListJob<'_>) -> Task
    // it is the task that the words ask for
    ensures task { IsTaskOf untold (Job.List job.entry.now) result }
    // the parts of the task are values of their types
    ensures proper { AreValues result }
{
    if job.json {
        Task::Show(Shown::Listing(Form::Objects))
    } else {
        Task::Show(Shown::Listing(Form::Lines))
    }
}
