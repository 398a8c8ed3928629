//! `merchant`: a merchant's lives and its lead.
ghost use Rattle.std.specs.Prelude.{IfOk};
ghost use Rattle.vault_core.specs.Scalar.{IsLife};
ghost use Rattle.vault_words.specs.declared.jobs.Job.{Job};
ghost use Rattle.vault_app.specs.World.{told};
ghost use Rattle.vault_app.specs.Plans.{ComesToTask};
ghost use Rattle.vault_app.specs.TaskValues.{AreValues};

use crate::ending::Ending;
use crate::placeholder::Placeholder;
use vault_core::command::Command;
use vault_core::name::MerchantId;
use vault_jobs::clock::moment;
use vault_jobs::task::Task;
use vault_listen::time::Timekeeper;
use vault_words::commands::merchant::MerchantJob;

/// A merchant is set. Refused by 4 where the name is none, and when it is done by 18 where there are as many
/// merchants as there may be.
pub(crate) fn task<K: Timekeeper>(time: &K, job: &MerchantJob<'_>) -> Result<Task, Ending>
    // the life of single-use tokens is in range
    requires single { IsLife job.now.single_life }
    // the life of multi-use tokens is in range
    requires multi { IsLife job.now.multi_life }
    // Ok is the task that the words ask for; Err is how the job may end without a plan
    ensures task { ComesToTask (told (K.tells time.now)) (Job.Merchant job.entry.now) result }
    // with Ok, the parts of the task are values of their types
    ensures proper { IfOk result AreValues }
{
    let Ok(merchant) = MerchantId::read(job.name.as_bytes()) else {
        return Err(Ending::Misnamed(Placeholder::Name));
    };
    let now = match moment(time, job.now) {
        Ok(now) => now,
        Err(stop) => return Err(Ending::Stopped(stop)),
    };
    Ok(Task::Change(Command::setting(merchant, job.lives(now))))
}
