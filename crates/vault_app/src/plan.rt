//! What is to be done for a job.
ghost use Rattle.std.specs.Prelude.{IfOk, MatchResult};
ghost use Rattle.vault_app.specs.Plans.{EndsBefore, HasLives, IsPlanOf, IsProperPlan};
ghost use Rattle.vault_app.specs.World.{World, world_at};

use crate::commands::{
    batch, list, merchant, merchants, pipe, rights, rights_file, serve, sweep, trial,
};
use crate::ending::Ending;
use vault_file::paths::Paths;
use vault_jobs::task::Task;
use vault_jobs::trial::Trial;
use vault_listen::time::Timekeeper;
use vault_live::desk::Desk;
use vault_words::jobs::Job;

/// What is to be done for a job: its names, its rights and its moment are read.
#[derive(Drop)]
pub enum Plan<'a> {
    /// The messages of the input are answered by a vault in memory.
    Trial(Trial),
    /// The file at the path is checked whole.
    Check(&'a str),
    /// The file at the path moves to the newest schema.
    Migrate(&'a str),
    /// The task is done with the vault in the file at the path.
    Do(&'a str, Task),
}

/// The plan of a job, or how it ends without one: refused by a name, a right or a list, or stopped since
/// there is no moment (60) or the list isn't read (74, 80).
pub(crate) fn plan_of<'a, P: Paths, K: Timekeeper, D: Desk>(
    rt: &HostRuntime,
    paths: &P,
    time: &K,
    desk: &D,
    asked: &Job<'a>,
) -> Result<Plan<'a>, Ending>
    // the lives of the job are in range
    requires { HasLives asked.now }
    // Ok is the plan of the job; Err is how the job may end without one
    ensures planned { let world : World = world_at P.Paths (K.tells time.now) (D.says desk.now) paths.now in
        MatchResult result (IsPlanOf world asked.now) (EndsBefore world asked.now) }
    // with Ok, the parts of the plan's task are values of their types, or the life of its trial is in range
    ensures proper { IfOk result IsProperPlan }
{
    match asked {
        Job::Trial(job) => Ok(Plan::Trial(trial::plan(time, job)?)),
        Job::Merchant(job) => Ok(Plan::Do(job.file, merchant::task(time, job)?)),
        Job::Merchants(job) => Ok(Plan::Do(job.file, merchants::task(rt, paths, time, job)?)),
        Job::Grant(job) => Ok(Plan::Do(job.given.file, rights::grant(time, job)?)),
        Job::Withdraw(job) => Ok(Plan::Do(job.file, rights::withdraw(time, job)?)),
        Job::Rights(job) => Ok(Plan::Do(job.file, rights_file::task(rt, paths, time, job)?)),
        Job::Pipe(job) => Ok(Plan::Do(job.file, pipe::task(job))),
        Job::Batch(job) => Ok(Plan::Do(job.file, batch::task(job)?)),
        Job::Serve(job) => Ok(Plan::Do(job.file, serve::task(rt, time, desk, job)?)),
        Job::Sweep(job) => Ok(Plan::Do(job.file, sweep::task(time, job)?)),
        Job::List(job) => Ok(Plan::Do(job.file, list::task(job))),
        Job::Check(job) => Ok(Plan::Check(job.file)),
        Job::Migrate(job) => Ok(Plan::Migrate(job.file)),
    }
}
