//! A vault in memory that answers the messages of an input.
ghost use Rattle.std.specs.Prelude.{◌≡◌, None, false, Err, IfErr, IfOk, OnErr, OnOk};
ghost use Rattle.vault_core.specs.Proper.{HasLivesInRange};
ghost use Rattle.vault_core.specs.Scalar.{IsLife};
ghost use Rattle.vault_core.specs.Vault.{Vault as Content};
ghost use Rattle.vault_store.specs.Applied.{Contains, is_broken};
ghost use Rattle.vault_store.specs.HeldInMemory.{IsHeld};
ghost use Rattle.vault_wire.specs.Watching.{is_stopped, underneath};
ghost use Rattle.vault_jobs.specs.Failing.{GoesOn};
ghost use Rattle.vault_jobs.specs.Causes.{IsCause};
ghost use Rattle.vault_jobs.specs.Trial.{IsCut, IsTrial, left_by, of_trial, trial_vault as trial_vault_lem};

use crate::pipe::pipe;
use crate::source::{MOST_MESSAGES, pairs};
use std::alloc::{AllocError, Global};
use std::io::{Read, Write};
use std::random::RandomSource;
use vault_core::command::Command;
use vault_core::moment::Moment;
use vault_core::name::{Caller, MerchantId};
use vault_core::right::Right;
use vault_core::row::Lives;
use vault_http::fault::ServeFault;
use vault_listen::time::Timekeeper;
use vault_pan::draw::Digits;
use vault_store::memory::MemTables;
use vault_store::vault::{Fault, Vault};
use vault_wire::watched::Watched;

/// What a trial is asked with.
#[derive(Clone, Copy)]
pub struct Trial {
    pub caller: Caller,
    pub merchant: MerchantId,
    /// The life of a single-use token, in seconds.
    pub life: u64,
    /// The moment of the merchant and of its rights.
    pub made: Moment,
    /// The moment of each message, where it is fixed.
    pub moment: Option<Moment>,
    /// The digits of each message, where they are fixed.
    pub digits: Option<Digits>,
}

/// Changes the vault by a command.
#[tactic(auto, unfolding(crate::specs::Trial::left_by))]
fn change(vault: &mut Vault<MemTables>, command: &Command) -> Result<(), AllocError>
    // the lives that the command sets, if any, are in range
    requires lives { HasLivesInRange command.now }
    requires unbroken { is_broken vault.old ≡ false }
    // with Ok, a vault that was held is held as the command leaves it
    ensures changed { OnOk result ((V : Content) → Contains IsHeld vault.old V
        → Contains IsHeld vault.new (left_by V command.now)) }
    ensures unbroken { is_broken vault.new ≡ false }
{
    match vault.apply(command) {
        Ok(_) => Ok(()),
        Err(Fault::Memory) => Err(AllocError),
        Err(Fault::Store) => unreachable!(),
        Err(Fault::Reopen) => unreachable!(),
    }
}

/// The vault of a trial: its merchant is set, with masks of six digits at the left, and its caller gets all
/// rights for good.
pub fn trial_vault(alloc: Global, trial: &Trial) -> Result<Vault<MemTables>, AllocError>
    // the life of single-use tokens is in range
    requires { IsLife trial.now.life }
    // with Ok, it holds the trial's vault
    ensures holds { IfOk result (λ vault. Contains IsHeld vault
        (trial_vault_lem trial.now.caller trial.now.merchant trial.now.life trial.now.made)) }
    ensures unbroken { IfOk result (λ vault. is_broken vault ≡ false) }
{
    let mut vault = Vault::new(MemTables::new(alloc));
    let set = Command::setting(trial.merchant, Lives::usual(trial.life, 0, trial.made));
    change(&mut vault, &set)?;
    give(&mut vault, trial, Right::Tokenize)?;
    give(&mut vault, trial, Right::Detokenize)?;
    give(&mut vault, trial, Right::View)?;
    give(&mut vault, trial, Right::Revoke)?;
    give(&mut vault, trial, Right::Purge)?;
    give(&mut vault, trial, Right::Audit)?;
    Ok(vault)
}

/// Gives the caller of the trial a right at its merchant, for good.
fn give(vault: &mut Vault<MemTables>, trial: &Trial, right: Right) -> Result<(), AllocError>
    requires unbroken { is_broken vault.old ≡ false }
    // with Ok, a vault that was held is held as the grant leaves it
    ensures given { OnOk result ((V : Content) → Contains IsHeld vault.old V
        → Contains IsHeld vault.new
        (left_by V (Command.Grant trial.now.caller trial.now.merchant right None trial.now.made))) }
    ensures unbroken { is_broken vault.new ≡ false }
{
    let grant = Command::Grant {
        caller: trial.caller,
        merchant: trial.merchant,
        right,
        until: None,
        now: trial.made,
    };
    change(vault, &grant)
}

/// Answers the messages of the input, up to its end, to a message that closes the connection, or to a
/// fault of the bytes, which is answered too. Each message has the moment and the digits that the trial
/// fixes, or else one that is told and drawn ones.
///
/// 60 Source: 1000 messages were answered and there is another one, no moment is told, or there is
/// nothing to draw digits from. 61 Read: the reader failed. 62 Write: the writer failed, perhaps only when
/// it was to hand on what it had taken. 64 Memory: memory was refused.
pub fn serve_trial<H: AllocGlobal + RandomSource, K: Timekeeper, R: Read, W: Write>(
    rt: &H,
    time: &K,
    trial: &Trial,
    input: &mut Watched<R>,
    output: &mut Watched<W>,
) -> Result<(), ServeFault>
    // the life of single-use tokens is in range
    requires { IsLife trial.now.life }
    // with Ok, the messages read up to the first that closes are answered by the trial's vault, and then a
    // fault
    ensures served { OnOk result (underneath W.contents
        (underneath R.remaining (of_trial (K.tells time.now) trial.now IsTrial) input.old input.new)
        output.old output.new) }
    // with Ok, the writer hasn't failed
    ensures writer_ok { GoesOn result output.new }
    // with Err, what was read begins with messages, and a beginning of the texts that answer some of them
    // went out
    ensures cut { OnErr result (underneath W.contents
        (underneath R.remaining (of_trial (K.tells time.now) trial.now IsCut) input.old input.new)
        output.old output.new) }
    // Read comes only where the reader failed, and Write only where the writer did
    ensures stopped { IfErr result (λ e. IsCause e (is_stopped input.new) (is_stopped output.new)) }
    // it is never stopped by Store
    ensures infallible { ¬ (result ≡ Err ServeFault.Store) }
{
    let alloc = rt.alloc();
    let mut vault = trial_vault(alloc, trial)?;
    let Some(mut pairs) = pairs(rt, time, MOST_MESSAGES, trial.moment, trial.digits) else {
        return Err(ServeFault::Source);
    };
    pipe(alloc, input, output, &mut vault, &mut pairs)
}
