//! A vault served on a port, with the lists that are followed.
ghost use Rattle.std.specs.Prelude.{◌≡◌, All, IfSome, false, true};
ghost use Rattle.vault_store.specs.Applied.{is_broken};
ghost use Rattle.vault_wire.specs.Watching.{is_stopped};
ghost use Rattle.vault_changes.specs.Settings.{HasLives};
ghost use Rattle.vault_jobs.specs.Doing.{EndsUnfailed, ListsServed, TaskServed};
ghost use Rattle.vault_jobs.specs.Lists.{follows};
ghost use Rattle.vault_jobs.specs.Tasks.{BreaksBy, BreaksTask, FailsStore};
ghost use Rattle.vault_jobs.specs.declared.task.Task.{Task};
ghost use Rattle.vault_store.specs.LookUps.{WasHonest};

use crate::beginning::begin;
use crate::listening::serve_at;
use crate::lists::{rights_of, shops_of, text_of};
use crate::serve_task::ServeTask;
use crate::stop::Stop;
use crate::task::Outcome;
use std::io::Write;
use vault_listen::network::Network;
use vault_listen::time::Timekeeper;
use vault_live::desk::Desk;
use vault_live::lists::{ListsKept, ListsOffice};
use vault_store::tables::Tables;
use vault_store::vault::Vault;
use vault_wire::watched::Watched;

/// Serves connections, and carries out between them what the lists ask for as they change.
fn serve_following<K: Timekeeper, N: Network, D: Desk, W: Write, T: Tables>(
    rt: &HostRuntime,
    time: &K,
    network: &mut N,
    desk: &D,
    service: &ServeTask,
    vault: &mut Vault<T>,
    output: &mut Watched<W>,
) -> Result<Outcome, Stop>
    requires unbroken { is_broken vault.old ≡ false }
    // it said its port, and its turns are those that the network tells of; or there was none, and on an
    // honest disk the vault stayed
    ensures does { TaskServed (N.tells, T.Tables, W.contents)
        (network.old, vault.old, output.old) (network.new, vault.new, output.new)
        (K.tells time.now, D.says desk.now, service.now) result }
    ensures broken { BreaksTask vault.new result }
    // and there always, where nothing is followed
    ensures store { follows service.now.lists ≡ false → FailsStore result → is_broken vault.new ≡ true }
    // and then, with Done, the writer hasn't failed
    ensures writer_ok { follows service.now.lists ≡ false → EndsUnfailed result (is_stopped output.new) }
    ensures disk_honest { WasHonest T.Tables vault.old vault.new }
{
    let lists = &service.lists;
    let office = ListsOffice {
        shops: shops_of(rt.alloc(), desk, &lists.merchants),
        rights: rights_of(rt.alloc(), desk, &lists.rights),
    };
    let mut kept = ListsKept::new(text_of(&lists.merchants), text_of(&lists.rights));
    serve_at(
        rt,
        time,
        network,
        service.port,
        service.connections,
        &office,
        &mut kept,
        vault,
        output,
    )
}

/// Serves connections. What the lists ask for is carried out before it listens, and again whenever they
/// change.
pub(crate) fn serve_lists<K: Timekeeper, N: Network, D: Desk, W: Write, T: Tables>(
    rt: &HostRuntime,
    time: &K,
    network: &mut N,
    desk: &D,
    service: &ServeTask,
    vault: &mut Vault<T>,
    output: &mut Watched<W>,
) -> Result<Outcome, Stop>
    // the lives of the merchants are lives
    requires lives { IfSome service.now.lists.merchants (λ it. All HasLives it.rows.items) }
    requires unbroken { is_broken vault.old ≡ false }
    // what the lists ask for is done before it listens, or there was no turn; from the vault that this leaves
    // it ends as a service
    ensures does { ListsServed (N.tells, T.Tables, W.contents)
        (network.old, vault.old, output.old) (network.new, vault.new, output.new)
        (K.tells time.now, D.says desk.now, service.now) result }
    // the vault is broken only where the store failed, and there always, unless a list is followed
    ensures breaks { BreaksBy (Task.Serve service.now) result (is_broken vault.new) }
    ensures disk_honest { WasHonest T.Tables vault.old vault.new }
{
    match begin(rt.alloc(), vault, &service.lists) {
        Ok(Ok(())) => serve_following(rt, time, network, desk, service, vault, output),
        Ok(Err(number)) => Ok(Outcome::Refused(number)),
        Err(fault) => Err(Stop::Vault(fault)),
    }
}
