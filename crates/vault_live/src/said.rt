//! What is said of changes that were carried out.
ghost use Rattle.std.specs.Prelude.{◌≡◌, ◌≤◌, ℕ, Err, IfErr, IfOk, length, take};
ghost use Rattle.vault_changes.specs.Grants.{AreDone};
ghost use Rattle.vault_core.specs.Vault.{Vault as Content};
ghost use Rattle.vault_listen.specs.declared.fault.ListenFault.TheVariants.{Store};
ghost use Rattle.vault_live.specs.First.{are_left};
ghost use Rattle.vault_live.specs.News.{IsSaidOf};

use crate::first_commands::{Carried, End};
use crate::kind::Kind;
use crate::news::News;
use vault_core::command::Command;
use vault_core::moment::Moment;
use vault_listen::fault::ListenFault;

/// What is said of the first so many of the commands, which are done.
fn news_of<L: Kind>(commands: &[Command], done: usize, now: Moment) -> News
    // no more are done than there are
    requires { done ≤ length commands.now }
    // this is said of them
    ensures { (V : Content) → AreDone done commands.now V → IsSaidOf result V (take done commands.now) }
{
    if done == 0 {
        return News::Nothing;
    }
    L::news(&commands[..done], now)
}

/// What is said of the first of a list's changes, and whether some are left to be done later.
///
/// 63 Store: the store failed.
pub(crate) fn outcome<L: Kind>(
    commands: &[Command],
    carried: Carried,
    now: Moment,
) -> Result<(News, bool), ListenFault>
    // no more are done than there are
    requires { carried.done ≤ length commands.now }
    // this is said of them
    ensures said { IfOk result (λ it. (V : Content) → AreDone carried.done commands.now V
        → IsSaidOf it.0 V (take carried.done commands.now)) }
    // whether some are left
    ensures left { IfOk result (λ it. it.1 ≡ are_left carried.end carried.done) }
    // where the first one is refused, this is said
    ensures refused { (number : ℕ) → carried.done ≡ 0 → carried.end ≡ End.Refused number
        → IfOk result (λ it. it.0 ≡ News.Refused L.about number now) }
    // where the store failed it is an Err
    ensures store { carried.end ≡ End.Store → result ≡ Err Store }
    // the fault is Store, and the store failed
    ensures fault { IfErr result (λ fault. (fault ≡ Store) × (carried.end ≡ End.Store)) }
{
    let news = news_of::<L>(commands, carried.done, now);
    match carried.end {
        End::All => Ok((news, false)),
        End::Enough => Ok((news, true)),
        End::Refused(number) => {
            if carried.done == 0 {
                return Ok((News::Refused(L::subject(), number, now), false));
            }
            Ok((news, true))
        }
        End::Memory => Ok((news, true)),
        End::Store => Err(ListenFault::Store),
    }
}
