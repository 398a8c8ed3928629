//! A vault served on a port.
ghost use Rattle.std.specs.Prelude.{◌≡◌, false, true};
ghost use Rattle.vault_store.specs.Applied.{is_broken};
ghost use Rattle.vault_wire.specs.Watching.{is_stopped};
ghost use Rattle.vault_jobs.specs.Doing.{EndsUnfailed, PortServed};
ghost use Rattle.vault_jobs.specs.Tasks.{BreaksTask, FailsStore};
ghost use Rattle.vault_store.specs.LookUps.{WasHonest};

use crate::answer::answer;
use crate::stop::Stop;
use crate::task::Outcome;
use itoa::Buffer;
use rand::make_rng;
use rand::rngs::StdRng;
use std::io::Write;
use vault_http::fault::ServeFault;
use vault_listen::network::Network;
use vault_listen::time::Timekeeper;
use vault_live::office::Office;
use vault_live::turns::serve_turns;
use vault_store::tables::Tables;
use vault_store::vault::Vault;
use vault_wire::watched::Watched;

/// Listens, says on which port, and serves so many connections by a vault. Between two of them it carries out
/// what the office asks for, and says so.
///
/// 60 Source: there is nothing to draw digits from, or the time jumped. 62 Write: the port can't be said. 63
/// Store: the store failed. 64 Memory: memory was refused. 80 Accept: listening or accepting was refused.
pub fn serve_at<K: Timekeeper, N: Network, O: Office, W: Write, T: Tables>(
    rt: &HostRuntime,
    time: &K,
    network: &mut N,
    port: u16,
    connections: u64,
    office: &O,
    kept: &mut O::Kept,
    vault: &mut Vault<T>,
    output: &mut Watched<W>,
) -> Result<Outcome, Stop>
    // what the office remembers is its own
    requires remembers { O.remembers office.now kept.old }
    requires unbroken { is_broken vault.old ≡ false }
    // it said its port, and its turns are those that the network tells of; or there was none, and on an
    // honest disk the vault stayed
    ensures does { PortServed (N.tells, T.Tables, W.contents)
        (network.old, vault.old, output.old) (network.new, vault.new, output.new)
        (K.tells time.now, O.asks office.now, port, connections) result }
    ensures broken { BreaksTask vault.new result }
    // and there always, where the office carries out nothing
    ensures store { O.acts office.now ≡ false → FailsStore result → is_broken vault.new ≡ true }
    // and then, with Done, the writer hasn't failed
    ensures writer_ok { O.acts office.now ≡ false → EndsUnfailed result (is_stopped output.new) }
    ensures disk_honest { WasHonest T.Tables vault.old vault.new }
{
    let Ok(mut generator) = make_rng::<StdRng, _>(rt) else {
        return Err(Stop::Service(ServeFault::Source));
    };
    let (mut peers, bound) = match network.listen(port) {
        Ok(listening) => listening,
        Err(fault) => return Err(Stop::Listener(fault)),
    };
    let mut digits = Buffer::new();
    if let Err(fault) = answer(output, &["listening ", digits.format(bound), "\n"]) {
        network.end(peers);
        return Err(Stop::Service(fault));
    }
    let ended = serve_turns(
        rt.alloc(),
        time,
        &mut generator,
        &mut peers,
        office,
        kept,
        connections,
        vault,
        output,
    );
    network.end(peers);
    match ended {
        Ok(()) => Ok(Outcome::Done),
        Err(fault) => Err(Stop::Listener(fault)),
    }
}
