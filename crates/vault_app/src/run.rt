//! The program, but for what the process gives it.
ghost use Rattle.std.specs.Prelude.{◌≡◌, ◌≢◌, ◌↔◌, ◌⊎◌, IfErr, IfOk, map};
ghost use Rattle.std.specs.Prelude.{string_bytes};
ghost use Rattle.std.specs.IoError.{error_kind};
ghost use Rattle.vault_wire.specs.Watching.{inner_of, is_stopped};
ghost use Rattle.vault_wire.specs.declared.watched.Watched.{Watched};
ghost use Rattle.vault_jobs.specs.Streams.{WhereSeen};
ghost use Rattle.vault_live.specs.Told.{Tells};
ghost use Rattle.vault_words.specs.Why.{HasFewDigits};
ghost use Rattle.vault_app.specs.Ending.{SaysAtMost, bad_words_line, note_line, said_on};
ghost use Rattle.vault_app.specs.Ending.{stop_line};
ghost use Rattle.vault_app.specs.Jobs.{Does, DoesPlan, DoesRun};
ghost use Rattle.vault_app.specs.Plans.{EndsPlanless, IsPlanOf, IsProperPlan};
ghost use Rattle.vault_app.specs.Plans.{SaysWhy};
ghost use Rattle.vault_app.specs.Asked.{AsksFor, IsBatch};
ghost use Rattle.vault_app.specs.Notes.{MayNote};
ghost use Rattle.vault_app.specs.World.{World, world_at};

use crate::commands::check::tell_sizes;
use crate::commands::migrate::{has_no_vault, tell_moved};
use crate::commands::trial;
use crate::conclusion::Conclusion;
use crate::ending::Ending;
use crate::on_file::do_on_file;
use crate::plan::{Plan, plan_of};
use crate::report::report;
use sqlite::FileStore;
use std::convert::AsStr;
use std::io::{Error, ErrorKind, Read, Write};
use vault_file::check::check_file;
use vault_file::fault::NotOpened;
use vault_file::migrate::migrate_file;
use vault_file::paths::Paths;
use vault_jobs::stop::Stop;
use vault_listen::network::Network;
use vault_listen::time::Timekeeper;
use vault_live::desk::Desk;
use vault_live::told::tell;
use vault_store::vault::Fault;
use vault_verdict::fault::OpenFault;
use vault_wire::watched::Watched;
use vault_words::job::job;
use vault_words::jobs::JobFault;

/// What is to be done for the words, or how the program ends without it. Bad words are explained.
fn planned<'a, P: Paths, K: Timekeeper, D: Desk, A: AsStr, W: Write>(
    rt: &HostRuntime,
    paths: &P,
    time: &K,
    desk: &D,
    words: &'a [A],
    output: &mut Watched<W>,
) -> Result<Plan<'a>, Conclusion>
    // with Ok, nothing went out, and it is a plan of a job that the words ask for
    ensures planned { IfOk result (λ plan. (output.new ≡ output.old) × AsksFor (map A.text words.now)
        (λ job. IsPlanOf (world_at P.Paths (K.tells time.now) (D.says desk.now) paths.now) job plan)) }
    // with Ok, the parts of the plan's task are values of their types, or the life of its trial is in range
    ensures proper { IfOk result IsProperPlan }
    // with Err, the words' job ends without a plan, the words ask for none, or memory was refused; only help
    // is said
    ensures planless { IfErr result (λ it. EndsPlanless
        (world_at P.Paths (K.tells time.now) (D.says desk.now) paths.now) (map A.text words.now) it.ending
        (output.new ≡ output.old)) }
    // with Err, what is said of the words shows fewer than ten digits, too few for a card number
    ensures few { IfErr result (λ it. HasFewDigits (string_bytes it.why)) }
{
    let ending = match job(rt.alloc(), words) {
        Ok(asked) => match plan_of(rt, paths, time, desk, &asked) {
            Ok(plan) => return Ok(plan),
            Err(ending) => ending,
        },
        Err(JobFault::Help(text)) => {
            tell(output, &[text.as_str()]);
            Ending::Done
        }
        Err(JobFault::Version) => Ending::Version,
        Err(JobFault::BadWords(why)) => {
            return Err(Conclusion {
                ending: Ending::BadWords,
                why,
            });
        }
        Err(JobFault::Memory) => Ending::Stopped(Stop::Vault(Fault::Memory)),
    };
    Err(Conclusion::of(rt.alloc(), ending))
}

/// Carries out a plan over the files at its path.
fn carry_out<P: Paths, K: Timekeeper, N: Network, D: Desk, R: Read, W: Write>(
    rt: &HostRuntime,
    paths: P,
    time: &K,
    network: &mut N,
    desk: &D,
    plan: Plan<'_>,
    input: &mut Watched<R>,
    output: &mut Watched<W>,
) -> (Ending, Option<FileStore<P::Disk>>)
    // the parts of the plan's task are values of their types, or the life of its trial is in range
    requires { IsProperPlan plan }
    // by how it ends: what the plan did with the files at its path, which are left, and what was read and
    // sent
    ensures does { WhereSeen (N.tells, R.remaining, W.contents)
        (network.old, input.old, output.old) (network.new, input.new, output.new) (DoesPlan
        (world_at P.Paths (K.tells time.now) (D.says desk.now) paths) result.1 plan.entry result.0) }
{
    match plan {
        Plan::Trial(trial) => (trial::serve(rt, time, &trial, input, output), None),
        Plan::Check(path) => {
            let Ok(has_log) = paths.has_log(rt, path) else {
                let fault = NotOpened::Fault(OpenFault::Memory);
                return (Ending::NotOpened(fault), None);
            };
            let (checked, left) = check_file(rt, path, paths);
            (tell_sizes(checked, has_log, output), left)
        }
        Plan::Migrate(path) => {
            let was_empty = has_no_vault(rt, &paths, path);
            let (moved, left) = migrate_file(rt, path, paths);
            (tell_moved(moved, was_empty, output), left)
        }
        Plan::Do(path, task) => {
            do_on_file(rt, path, paths, time, network, desk, &task, input, output)
        }
    }
}

/// Does what the words ask for.
fn ended<P: Paths, K: Timekeeper, N: Network, D: Desk, A: AsStr, R: Read, W: Write>(
    rt: &HostRuntime,
    paths: P,
    time: &K,
    network: &mut N,
    desk: &D,
    words: &[A],
    input: &mut Watched<R>,
    output: &mut Watched<W>,
) -> (Conclusion, Option<FileStore<P::Disk>>)
    // by how it ends: what the words' job did with its files, which are left, and what was read and sent
    ensures does { WhereSeen (N.tells, R.remaining, W.contents)
        (network.old, input.old, output.old) (network.new, input.new, output.new) (Does
        (world_at P.Paths (K.tells time.now) (D.says desk.now) paths) result.1 (map A.text words.now)
        result.0.ending) }
    // what is said of the words shows fewer than ten digits, too few for a card number
    ensures few { HasFewDigits (string_bytes result.0.why) }
{
    match planned(rt, &paths, time, desk, words, output) {
        Ok(plan) => {
            let (ending, left) = carry_out(rt, paths, time, network, desk, plan, input, output);
            (Conclusion::of(rt.alloc(), ending), left)
        }
        Err(conclusion) => (conclusion, None),
    }
}

/// Reads the words, does their job over the three streams, says how it ended, and answers the exit status and
/// the files that it leaves. `paths` tells what stands at paths, `time` the moments that the words don't
/// fix; on `network` a service listens, and `desk` reads the lists that it follows.
///
/// The first word is the program's name. A line on the output or on the errors goes with each status but 0:
/// `refused n`, `vault: bad words` with lines that say why, `vault: file not opened n` or `n m`,
/// `vault: stopped n`. Behind 34 stands its cause, and behind the stop of a list that can't be read which one it
/// is. Beside `refused n` the errors say which word is no name or no right, if one is none, or
/// which list isn't whole.
/// With 0 they say what is to be noted: that a checked file has a log, that there was no vault to move, that
/// a merchant that was to be swept isn't known or is far behind the clock, or that there was nothing to
/// withdraw.
pub fn run<P: Paths, K: Timekeeper, N: Network, D: Desk, A: AsStr, R: Read, W: Write, E: Write>(
    rt: &HostRuntime,
    paths: P,
    time: &K,
    network: &mut N,
    desk: &D,
    words: &[A],
    input: &mut Watched<R>,
    output: &mut Watched<W>,
    errors: &mut Watched<E>,
) -> (u8, Option<FileStore<P::Disk>>)
    // the run did what the words ask, which gives its status, the files left, what was read and sent, and
    // what it said then
    ensures does { (told : Watched W) × WhereSeen (N.tells, R.remaining, W.contents)
        (network.old, input.old, output.old) (network.new, input.new, told) (λ v. DoesRun
        (world_at P.Paths (K.tells time.now) (D.says desk.now) paths) (map A.text words.now) result v
        (said_on W.contents told output.new) (said_on E.contents errors.old errors.new)) }
    // the status is 0, 1, 2, 3 or 4
    ensures status { (result.0 ≡ 0) ⊎ (result.0 ≡ 1) ⊎ (result.0 ≡ 2) ⊎ (result.0 ≡ 3) ⊎ (result.0 ≡ 4) }
    // with status 1, nothing went out on the errors, or which word of a job is no name or no right, or which
    // of its lists isn't whole
    ensures silent { let world : World = world_at P.Paths (K.tells time.now) (D.says desk.now) paths in
        result.0 ≡ 1 → SaysWhy world (map A.text words.now) (said_on E.contents errors.old errors.new) }
    // with status 0, nothing went out on the errors, or a note that the job which the words ask for may have
    ensures silent_done { result.0 ≡ 0 → SaysAtMost (said_on E.contents errors.old errors.new)
        (λ note. AsksFor (map A.text words.now) (MayNote note)) note_line }
    // with status 2 or 3, the input is unread
    ensures unread { (result.0 ≡ 2) ⊎ (result.0 ≡ 3) → input.new ≡ input.old }
    // with status 1, the input is unread, unless the words ask for a batch
    ensures unread_refused { result.0 ≡ 1 → (input.new ≡ input.old) ⊎ AsksFor (map A.text words.now) IsBatch }
    // with status 2 or 3, nothing went out on the output
    ensures unsent { (result.0 ≡ 2) ⊎ (result.0 ≡ 3) → output.new ≡ output.old }
{
    let (it, left) = ended(rt, paths, time, network, desk, words, input, output);
    (report(&it.ending, it.why.as_str(), output, errors), left)
}

/// Says why there are no words: memory was refused, or one of them isn't UTF-8.
pub fn no_words<W: Write, E: Write>(
    error: &Error,
    output: &mut Watched<W>,
    errors: &mut Watched<E>,
) -> u8
    // the status is 4 exactly where the error is want of memory
    ensures stopped { (result ≡ 4) ↔ (error_kind error.now ≡ ErrorKind.OutOfMemory) }
    // the status is 2 exactly where the error isn't want of memory
    ensures bad_words { (result ≡ 2) ↔ (error_kind error.now ≢ ErrorKind.OutOfMemory) }
    // with status 4, the errors say that it stopped by 20, unless the writer fails
    ensures says_stopped { result ≡ 4 → Tells
        (E.contents (inner_of errors.old)) (E.contents (inner_of errors.new))
        (is_stopped errors.new) (stop_line 20) }
    // with status 2, the errors say that the words are bad, unless the writer fails
    ensures says_bad_words { result ≡ 2 → Tells
        (E.contents (inner_of errors.old)) (E.contents (inner_of errors.new))
        (is_stopped errors.new) bad_words_line }
    // nothing went out on the output
    ensures unsent { output.new ≡ output.old }
{
    let ending = match error.kind() {
        ErrorKind::OutOfMemory => Ending::Stopped(Stop::Vault(Fault::Memory)),
        _ => Ending::BadWords,
    };
    report(&ending, "", output, errors)
}
