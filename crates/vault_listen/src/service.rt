//! Connections of peers, served one after the other by one vault.
ghost use Rattle.std.specs.Prelude.{◌≡◌, ◌≢◌, ◌↔◌, false, true, Err, IsTrue};
ghost use Rattle.std.specs.Prelude.{MatchResult, Bool};
ghost use Rattle.vault_engine.specs.Stops.{NeverFails, Trusts};
ghost use Rattle.vault_store.specs.Applied.{is_broken};
ghost use Rattle.vault_engine.specs.Passing.{passage, sending};
ghost use Rattle.vault_listen.specs.Peers.{IsClosedBy, ServesLinks, ServesOne};
ghost use Rattle.vault_listen.specs.Service.{EndsServed, Leaves, WithPairs};
ghost use Rattle.vault_wire.specs.Watching.{underneath};
ghost use Rattle.vault_http.specs.Faults.{Tells, failures_of};
ghost use Rattle.vault_store.specs.LookUps.{WasHonest};

use crate::fault::ListenFault;
use crate::live::LiveSource;
use crate::peers::{Accepted, Peers};
use crate::time::Timekeeper;
use rand_core::Rng;
use std::alloc::Global;
use std::io::Write;
use std::time::Duration;
use vault_http::fault::ServeFault;
use vault_http::serve::serve_by;
use vault_http::served::Served;
use vault_routes::route::Routes;
use vault_store::tables::Tables;
use vault_store::vault::Vault;
use vault_wire::place::{Placed, Telling};
use vault_wire::watched::Watched;

/// Whether the store failed in a connection that ended so.
fn store_failed(ended: Result<Served, ServeFault>) -> bool
    ensures { IsTrue result ↔ (ended ≡ Err ServeFault.Store) }
{
    match ended {
        Err(ServeFault::Store) => true,
        Ok(_)
        | Err(ServeFault::Source | ServeFault::Read | ServeFault::Write | ServeFault::Memory) => {
            false
        }
    }
}

/// Serves an accepted connection, and closes it. Its only fault is 63 Store; any other end is that
/// connection's alone.
fn serve_link<P: Peers, K: Timekeeper, G: Rng, T: Tables>(
    alloc: Global,
    time: &K,
    generator: &mut G,
    routes: &Routes,
    peers: &mut P,
    link: Accepted<P::Reader, P::Writer>,
    vault: &mut Vault<T>,
) -> Result<(), ListenFault>
    // the connection is served by the vault, or stopped, and closed; it is an Err exactly where that ended by
    // Store
    ensures served { ServesOne (K.tells time.now) T.Tables vault.old vault.new
        (IsClosedBy P.Reader.remaining P.Writer.contents (P.tells peers.old) (P.tells peers.new) link)
        result }
    // with Ok, whether the vault is broken stays as it was; with Err, the fault is Store and the vault is
    // broken
    ensures store { MatchResult result (λ _. is_broken vault.new ≡ is_broken vault.old)
        (λ fault. (fault ≡ ListenFault.Store) × (is_broken vault.new ≡ true)) }
    ensures infallible { NeverFails T.may_fail vault.old (result ≡ Err ListenFault.Store) }
    ensures disk_honest { WasHonest T.Tables vault.old vault.new }
{
    let mut reader = Watched::new(link.reader);
    let mut writer = Watched::new(link.writer);
    let ended = serve_connection(
        alloc,
        time,
        generator,
        link.end,
        routes,
        &mut reader,
        &mut writer,
        vault,
    );
    peers.close(reader, writer, ended);
    if store_failed(ended) {
        return Err(ListenFault::Store);
    }
    Ok(())
}

/// Serves so many connections of peers, one after the other, by one vault: each that comes, whether it was
/// accepted or lost before.
///
/// A connection ends with its bytes, or at a message that closes it; after a fault of its bytes, which is
/// answered; after 1000 messages, at a message after its end, or where no moment is told (60); where
/// its peer fails (61, 62); or for want of memory (64). None of these ends the service.
///
/// 60 Source: after a connection the time has jumped, or couldn't be read at the start; nothing more is
/// accepted. 63 Store: the store failed, or the vault was broken before; nothing more is accepted. 80 Accept:
/// no connection can be accepted.
pub fn serve_on<P: Peers, K: Timekeeper, G: Rng, T: Tables>(
    alloc: Global,
    time: &K,
    generator: &mut G,
    routes: &Routes,
    peers: &mut P,
    connections: u64,
    vault: &mut Vault<T>,
) -> Result<(), ListenFault>
    // the connections that the peers tell of are served one after the other, and leave of the vault what the
    // result says
    ensures served { ServesLinks (K.tells time.now) P.tells T.Tables
        (peers.old, vault.old) (peers.new, vault.new)
        (λ xs w. Leaves (K.tells time.now) connections xs w result) }
    // after Store the vault is broken
    ensures store { result ≡ Err ListenFault.Store → is_broken vault.new ≡ true }
    // after any other result, whether the vault is broken stays as it was
    ensures others { result ≢ Err ListenFault.Store → is_broken vault.new ≡ is_broken vault.old }
    ensures infallible { NeverFails T.may_fail vault.old (result ≡ Err ListenFault.Store) }
    ensures disk_honest { WasHonest T.Tables vault.old vault.new }
{
    for _ in 0..connections {
        if let Some(link) = peers.accept()? {
            serve_link(alloc, time, generator, routes, peers, link, vault)?;
        }
        if time.has_jumped() {
            return Err(ListenFault::Source);
        }
    }
    Ok(())
}

/// The most messages of a connection.
pub const MESSAGES: u64 = 1000;

/// Answers the messages of one connection, at most 1000, each with a moment and digits of its own. None is
/// taken up from `end` on, by the time that passes.
///
/// 60 Source: the 1001st message, one after `end`, or no moment is told. 61 Read and 62 Write: the
/// reader or the writer failed. 63 Store: the store failed, or the vault was broken before. 64 Memory: memory
/// was refused.
pub fn serve_connection<K: Timekeeper, G: Rng, R: Placed, W: Write, T: Tables>(
    alloc: Global,
    time: &K,
    generator: &mut G,
    end: Option<Duration>,
    routes: &Routes,
    reader: &mut Watched<R>,
    writer: &mut Watched<W>,
    vault: &mut Vault<T>,
) -> Result<Served, ServeFault>
    // with at most 1000 pairs, each a moment told for it alone and a drawing, the messages are served, or the
    // service stopped
    ensures answered { WithPairs (K.tells time.now)
        (sending W.contents writer.old writer.new (passage T.Tables vault.old vault.new))
        (underneath R.remaining (EndsServed result) reader.old reader.new) }
    // a stop but Memory tells which of source, reader, writer and vault has failed; all else stays as it was
    ensures own_failure { (refused : Bool) × Tells result
        (failures_of false reader.old writer.old vault.old)
        (failures_of refused reader.new writer.new vault.new) }
    ensures trusted { Trusts T.Tables vault.old vault.new (result ≡ Err ServeFault.Store) }
{
    let mut source = LiveSource::ending(alloc, time.questions(), generator, MESSAGES, end);
    serve_by(alloc, routes, &Telling, reader, writer, vault, &mut source)
}
