//! `serve`: the vault of a file served on a port.
ghost use Rattle.std.specs.Prelude.{IfOk};
ghost use Rattle.vault_words.specs.declared.jobs.Job.{Job};
ghost use Rattle.vault_app.specs.Plans.{ComesToTask};
ghost use Rattle.vault_app.specs.World.{looked};
ghost use Rattle.vault_app.specs.TaskValues.{AreValues};

use crate::commands::followed::list_at;
use crate::ending::Ending;
use vault_jobs::lists::Lists;
use vault_jobs::serve_task::ServeTask;
use vault_jobs::task::Task;
use vault_listen::time::Timekeeper;
use vault_live::desk::Desk;
use vault_live::merchants::Merchants;
use vault_live::rights::Rights;
use vault_words::commands::serve::ServeJob;

/// More connections than any service lives to see: it goes on until it is ended.
const WITHOUT_END: u64 = u64::MAX;

/// So many connections are served on a port, or connections without an end. Where the words name a list of
/// merchants or a rights file, the merchants are set and the rights become exactly those before that, and the
/// service follows the files. A list whose last line isn't `# end` is refused by 70. The vault's file isn't
/// touched where a list isn't read.
pub(crate) fn task<K: Timekeeper, D: Desk>(
    rt: &HostRuntime,
    time: &K,
    desk: &D,
    job: &ServeJob<'_>,
) -> Result<Task, Ending>
    // Ok is the task that the words ask for; Err is how the job may end without a plan
    ensures task { ComesToTask (looked (K.tells time.now) (D.says desk.now)) (Job.Serve job.entry.now) result }
    // with Ok, the parts of the task are values of their types
    ensures proper { IfOk result AreValues }
{
    let connections = job.connections.unwrap_or(WITHOUT_END);
    let merchants = match list_at::<Merchants, K, D>(rt, time, desk, job.merchants) {
        Ok(merchants) => merchants,
        Err(ending) => return Err(ending),
    };
    let rights = match list_at::<Rights, K, D>(rt, time, desk, job.rights) {
        Ok(rights) => rights,
        Err(ending) => return Err(ending),
    };
    Ok(Task::Serve(ServeTask {
        port: job.port,
        connections,
        lists: Lists { merchants, rights },
    }))
}
