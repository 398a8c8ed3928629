//! `grant` and `withdraw`: a caller's right at a merchant.
ghost use Rattle.std.specs.Prelude.{◌≡◌, IfOk, MatchResult};
ghost use Rattle.vault_core.specs.Words.{right_word};
ghost use Rattle.vault_words.specs.declared.jobs.Job.{Job};
ghost use Rattle.vault_app.specs.World.{told};
ghost use Rattle.vault_app.specs.Plans.{ComesToTask};
ghost use Rattle.vault_app.specs.Asked.{AreNames, MisnamesRight};
ghost use Rattle.vault_app.specs.TaskValues.{AreValues};

use crate::ending::Ending;
use crate::placeholder::Placeholder;
use crate::typed::fixed_moment;
use vault_core::command::Command;
use vault_core::name::{Caller, MerchantId};
use vault_core::right::Right;
use vault_jobs::clock::moment;
use vault_jobs::task::Task;
use vault_listen::time::Timekeeper;
use vault_words::commands::rights::{GrantJob, RightJob};

/// Whose right at which merchant.
#[derive(Clone, Copy)]
struct Entitlement {
    caller: Caller,
    merchant: MerchantId,
    right: Right,
}

/// The names and the right of the words, or the placeholder of the first that is none.
fn read(job: &RightJob<'_>) -> Result<Entitlement, Placeholder>
    // with Ok both names are names; Err is the placeholder of the first that isn't, and else of the right
    ensures names { MatchResult result (λ _. AreNames job.entry.now) (MisnamesRight job.entry.now) }
    // with Ok, the names and the right are those of the words
    ensures value { IfOk result (λ asked. (asked.caller ≡ job.entry.now.caller.now)
        × (asked.merchant ≡ job.entry.now.merchant.now)
        × (job.entry.now.right.now ≡ right_word asked.right)) }
{
    let Ok(caller) = Caller::read(job.caller.as_bytes()) else {
        return Err(Placeholder::Caller);
    };
    let Ok(merchant) = MerchantId::read(job.merchant.as_bytes()) else {
        return Err(Placeholder::Merchant);
    };
    let Some(right) = Right::read(job.right.as_bytes()) else {
        return Err(Placeholder::Right);
    };
    Ok(Entitlement {
        caller,
        merchant,
        right,
    })
}

/// A caller gets a right at a merchant, up to an end or for good. Refused by 4 where a name is none, by 71
/// where the right is none, and when it is done by 7 where the merchant isn't known.
pub(crate) fn grant<K: Timekeeper>(time: &K, job: &GrantJob<'_>) -> Result<Task, Ending>
    // Ok is the task that the words ask for; Err is how the job may end without a plan
    ensures task { ComesToTask (told (K.tells time.now)) (Job.Grant job.entry.now) result }
    // with Ok, the parts of the task are values of their types
    ensures proper { IfOk result AreValues }
{
    let asked = match read(&job.given) {
        Ok(asked) => asked,
        Err(placeholder) => return Err(Ending::Misnamed(placeholder)),
    };
    let now = match moment(time, job.given.now) {
        Ok(now) => now,
        Err(stop) => return Err(Ending::Stopped(stop)),
    };
    Ok(Task::Change(Command::Grant {
        caller: asked.caller,
        merchant: asked.merchant,
        right: asked.right,
        until: fixed_moment(job.until),
        now,
    }))
}

/// A right of a caller at a merchant is taken away. Refused as a grant is.
pub(crate) fn withdraw<K: Timekeeper>(time: &K, job: &RightJob<'_>) -> Result<Task, Ending>
    // Ok is the task that the words ask for; Err is how the job may end without a plan
    ensures task { ComesToTask (told (K.tells time.now)) (Job.Withdraw job.entry.now) result }
    // with Ok, the parts of the task are values of their types
    ensures proper { IfOk result AreValues }
{
    let asked = match read(job) {
        Ok(asked) => asked,
        Err(placeholder) => return Err(Ending::Misnamed(placeholder)),
    };
    let now = match moment(time, job.now) {
        Ok(now) => now,
        Err(stop) => return Err(Ending::Stopped(stop)),
    };
    Ok(Task::Change(Command::Withdraw {
        caller: asked.caller,
        merchant: asked.merchant,
        right: asked.right,
        now,
    }))
}
