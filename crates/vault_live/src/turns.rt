//! Connections of peers, served one after the other by one vault, with what is asked for between them.
ghost use Rattle.std.specs.Prelude.{◌≡◌, Err, false, true};
ghost use Rattle.vault_store.specs.Applied.{is_broken};
ghost use Rattle.vault_live.specs.Turns.{OneTurnLeaves, ServesTurns, TurnsLeave};
ghost use Rattle.vault_store.specs.LookUps.{WasHonest};

use crate::news::say;
use crate::office::Office;
use rand_core::Rng;
use std::alloc::Global;
use std::io::Write;
use std::time::Duration;
use vault_listen::fault::ListenFault;
use vault_listen::peers::Peers;
use vault_listen::service::serve_on;
use vault_listen::time::Timekeeper;
use vault_routes::route::Routes;
use vault_store::tables::Tables;
use vault_store::vault::Vault;
use vault_wire::watched::Watched;

/// For how many milliseconds a connection is waited for before the office is asked again.
const LOOK: u64 = 250;

/// Asks the office, says what came of it, and then serves one connection where one comes within a quarter of
/// a second. Answers how many came, lost or accepted: none or one.
fn serve_turn<P: Peers, O: Office, K: Timekeeper, G: Rng, W: Write, T: Tables>(
    alloc: Global,
    time: &K,
    generator: &mut G,
    routes: &Routes,
    peers: &mut P,
    office: &O,
    kept: &mut O::Kept,
    vault: &mut Vault<T>,
    output: &mut Watched<W>,
) -> Result<u64, ListenFault>
    // what the office remembers is its own
    requires remembers { O.remembers office.now kept.old }
    requires unbroken { is_broken vault.old ≡ false }
    // what came, from the vault that was held: what was asked for, which was said, and one connection at most
    ensures turned { ServesTurns P.tells T.Tables W.contents
        (peers.old, vault.old, output.old) (peers.new, vault.new, output.new)
        (OneTurnLeaves (K.tells time.now) (O.asks office.now) result) }
    // the vault is broken after Store only
    ensures broken { is_broken vault.new ≡ true → result ≡ Err ListenFault.Store }
    // where the office carries out nothing, it is broken after Store
    ensures store { O.acts office.now ≡ false → result ≡ Err ListenFault.Store → is_broken vault.new ≡ true }
    // and then nothing is said
    ensures quiet { O.acts office.now ≡ false → output.new ≡ output.old }
    // what the office remembers is its own still
    ensures remembers { O.remembers office.now kept.new }
    ensures disk_honest { WasHonest T.Tables vault.old vault.new }
{
    let news = match office.attend(kept, time, vault) {
        Ok(news) => news,
        Err(fault) => return Err(fault),
    };
    say(output, news);
    if peers.waits(Duration::from_millis(LOOK)) {
        return match serve_on(alloc, time, generator, routes, peers, 1, vault) {
            Ok(()) => Ok(1),
            Err(fault) => Err(fault),
        };
    }
    if time.has_jumped() {
        return Err(ListenFault::Source);
    }
    Ok(0)
}

/// Serves so many connections of peers, one after the other, by one vault, and carries out between them what
/// the office asks for, which is said: before each connection, and each quarter of a second in which none
/// comes.
///
/// 60 Source: the time has jumped, or isn't told. 63 Store: the store failed. 64 Memory: memory was refused
/// before the first connection. 80 Accept: no connection can be accepted.
pub fn serve_turns<P: Peers, O: Office, K: Timekeeper, G: Rng, W: Write, T: Tables>(
    alloc: Global,
    time: &K,
    generator: &mut G,
    peers: &mut P,
    office: &O,
    kept: &mut O::Kept,
    connections: u64,
    vault: &mut Vault<T>,
    output: &mut Watched<W>,
) -> Result<(), ListenFault>
    // what the office remembers is its own
    requires remembers { O.remembers office.now kept.old }
    requires unbroken { is_broken vault.old ≡ false }
    // turns came one after the other, each from the vault that those before it leave, and what was done in
    // them was said; the result says what the last one leaves
    ensures served { ServesTurns P.tells T.Tables W.contents
        (peers.old, vault.old, output.old) (peers.new, vault.new, output.new)
        (TurnsLeave (K.tells time.now) (O.asks office.now) connections result) }
    // the vault is broken after Store only
    ensures broken { is_broken vault.new ≡ true → result ≡ Err ListenFault.Store }
    // where the office carries out nothing, it is broken after Store
    ensures store { O.acts office.now ≡ false → result ≡ Err ListenFault.Store → is_broken vault.new ≡ true }
    // and then nothing is said
    ensures quiet { O.acts office.now ≡ false → output.new ≡ output.old }
    ensures disk_honest { WasHonest T.Tables vault.old vault.new }
{
    let Ok(routes) = Routes::new(alloc) else {
        return Err(ListenFault::Memory);
    };
    let mut left = connections;
    for _ in 0..u64::MAX {
        if left == 0 {
            return Ok(());
        }
        match serve_turn(
            alloc, time, generator, &routes, peers, office, kept, vault, output,
        ) {
            Ok(came) => left -= came,
            Err(fault) => return Err(fault),
        }
    }
    Err(ListenFault::Accept)
}
