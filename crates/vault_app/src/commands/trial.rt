//! `trial`: messages answered by a vault in memory.
ghost use Rattle.std.specs.Prelude.{IfOk, MatchResult};
ghost use Rattle.vault_core.specs.Scalar.{IsLife};
ghost use Rattle.vault_words.specs.declared.jobs.Job.{Job};
ghost use Rattle.vault_jobs.specs.Streams.{streams};
ghost use Rattle.vault_app.specs.World.{told};
ghost use Rattle.vault_app.specs.Plans.{EndsBefore};
ghost use Rattle.vault_app.specs.Commands.Trial.{IsTrialOf, TrialEnds};

use crate::ending::Ending;
use crate::placeholder::Placeholder;
use std::io::{Read, Write};
use vault_core::name::{Caller, MerchantId};
use vault_jobs::clock::moment;
use vault_jobs::stop::Stop;
use vault_jobs::trial::{Trial, serve_trial};
use vault_listen::time::Timekeeper;
use vault_wire::watched::Watched;
use vault_words::commands::trial::TrialJob;

/// What the trial is asked with. Refused by 4 where a name is none.
pub(crate) fn plan<K: Timekeeper>(time: &K, job: &TrialJob<'_>) -> Result<Trial, Ending>
    // the life of single-use tokens is in range
    requires { IsLife job.now.life }
    // Ok is the trial that the words ask for; Err is how the job may end without a plan
    ensures trial { MatchResult result (IsTrialOf (told (K.tells time.now)) job.entry.now)
        (EndsBefore (told (K.tells time.now)) (Job.Trial job.entry.now)) }
    // with Ok, the life of single-use tokens is in range
    ensures life { IfOk result (λ trial. IsLife trial.life) }
{
    let Ok(caller) = Caller::read(job.caller.as_bytes()) else {
        return Err(Ending::Misnamed(Placeholder::Caller));
    };
    let Ok(merchant) = MerchantId::read(job.merchant.as_bytes()) else {
        return Err(Ending::Misnamed(Placeholder::Merchant));
    };
    let made = match moment(time, job.now) {
        Ok(made) => made,
        Err(stop) => return Err(Ending::Stopped(stop)),
    };
    Ok(Trial {
        caller,
        merchant,
        life: job.life,
        made,
        moment: job.now,
        digits: job.digits,
    })
}

/// Answers the messages of the input by a vault in memory.
pub(crate) fn serve<K: Timekeeper, R: Read, W: Write>(
    rt: &HostRuntime,
    time: &K,
    trial: &Trial,
    input: &mut Watched<R>,
    output: &mut Watched<W>,
) -> Ending
    // the life of single-use tokens is in range
    requires { IsLife trial.now.life }
    // with Done, the messages are answered as in a trial; at a stop, which Store never is, a beginning of the
    // answers went out
    ensures { TrialEnds (K.tells time.now) trial.now result
        (streams R.remaining input.old input.new W.contents output.old output.new) }
{
    match serve_trial(rt, time, trial, input, output) {
        Ok(()) => Ending::Done,
        Err(fault) => Ending::Stopped(Stop::Service(fault)),
    }
}
