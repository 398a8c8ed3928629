//! The connections that come to a TCP listener.
ghost use Rattle.std.specs.Prelude.{◌≡◌};

use crate::elapsed::Elapsed;
use crate::fault::ListenFault;
use crate::limits::Limits;
use crate::linger::end_peer;
use crate::peer::{PeerReader, PeerWriter};
use crate::peers::{Accepted, Peers};
use crate::stream::{PeerStream, comes};
use std::alloc::Global;
use std::io::ErrorKind;
use std::net::{OpenListener, TcpStream};
use std::os::fd::AsRawFd;
use std::rc::Rc;
use std::time::{Clock, Duration};
use vault_http::fault::ServeFault;
use vault_http::served::Served;
use vault_wire::watched::Watched;

/// Whether a failed accept lost one connection, and the listener can go on. A signal isn't among them: the
/// accept of `TcpListener` calls again after one.
fn loses_one(kind: ErrorKind) -> bool {
    match kind {
        ErrorKind::ConnectionAborted
        | ErrorKind::ConnectionReset
        | ErrorKind::HostUnreachable
        | ErrorKind::NetworkDown
        | ErrorKind::NetworkUnreachable => true,
        _ => false,
    }
}

/// The reader of a TCP connection's peer.
pub type TcpReader<'c, C> = PeerReader<PeerStream, &'c C>;

/// Its writer.
pub type TcpWriter<'c, C> = PeerWriter<PeerStream, &'c C>;

/// A TCP listener, and how many connections came to it.
///
/// A message that isn't whole in the time of a turn, since the connection was accepted or the answer before
/// it was taken, ends its connection (61), and so does an answer that isn't taken in that time (62), or the
/// end of the connection's own time (61, or 60 where the next message was read before). With the limits of a
/// service that is 5 seconds and 60. Unless its reader or writer failed, the peer is told at the close that
/// no more answers come, and what it still sends is thrown away, so that its answers reach it: at most
/// 64 KiB, for at most one turn. A peer that was quiet for 50 milliseconds, with no message begun, is ended
/// where another one waits. So a peer holds up the others for at most 70 seconds, and an idle one for 0.1. A
/// connection for which the clock can't be read or memory is refused is lost.
#[derive(Drop)]
pub struct TcpPeers<'c, L, C> {
    alloc: Global,
    listener: L,
    clock: &'c C,
    limits: Limits,
    came: u64,
}

impl<'c, L: OpenListener<Stream = TcpStream> + AsRawFd, C: Clock> TcpPeers<'c, L, C> {
    /// A listener to which none came yet, whose peers may take so long.
    pub fn new(alloc: Global, listener: L, clock: &'c C, limits: Limits) -> TcpPeers<'c, L, C>
        ensures { result.came ≡ 0 }
    {
        TcpPeers::after(alloc, listener, clock, limits, 0)
    }

    /// The same, after so many others.
    pub(crate) fn after(
        alloc: Global,
        listener: L,
        clock: &'c C,
        limits: Limits,
        came: u64,
    ) -> TcpPeers<'c, L, C>
        ensures { result.came ≡ came }
    {
        TcpPeers {
            alloc,
            listener,
            clock,
            limits,
            came,
        }
    }

    /// How many came.
    pub(crate) fn came(&self) -> u64
        ensures { result ≡ self.now.came }
    {
        self.came
    }

    /// The reader and the writer of a connection that is accepted now.
    fn opened(&self, stream: TcpStream) -> Option<Accepted<TcpReader<'c, C>, TcpWriter<'c, C>>> {
        let elapsed = Elapsed::new(self.clock, self.limits).ok()?;
        let end = Some(elapsed.end());
        let elapsed = Rc::new(self.alloc, elapsed).ok()?;
        let stream = PeerStream::new(self.alloc, stream, self.listener.as_raw_fd()).ok()?;
        let reader = PeerReader::new(stream.again().ok()?, elapsed.clone().ok()?);
        let writer = PeerWriter::new(stream, elapsed);
        Some(Accepted {
            reader,
            writer,
            end,
        })
    }
}

/// Nothing is told of the bytes, only how many connections came.
impl<'c, L: OpenListener<Stream = TcpStream> + AsRawFd, C: Clock> Peers for TcpPeers<'c, L, C> {
    ghost use Rattle.std.specs.Prelude.{◌++◌, ◌∷◌, [], List, None};
    ghost use Rattle.vault_wire.specs.Watching.{is_stopped};
    ghost use Rattle.vault_listen.specs.Peers.{Event, came_in};
    ghost use Rattle.vault_listen.specs.Peers.Event.{Closed};

    type Reader = TcpReader<'c, C>;

    type Writer = TcpWriter<'c, C>;

    ghost tells = { λ peers log. came_in log ≡ peers.came };

    fn waits(&self, most: Duration) -> bool {
        comes(self.listener.as_raw_fd(), most)
    }

    fn accept(
        &mut self,
    ) -> Result<Option<Accepted<TcpReader<'c, C>, TcpWriter<'c, C>>>, ListenFault> {
        let Some(came) = self.came.checked_add(1) else {
            return Err(ListenFault::Accept);
        };
        let stream = match self.listener.accept() {
            Ok((stream, _)) => Some(stream),
            Err(error) if loses_one(error.kind()) => None,
            Err(_) => return Err(ListenFault::Accept),
        };
        self.came = came;
        match stream {
            Some(stream) => Ok(self.opened(stream)),
            None => Ok(None),
        }
    }

    #[tactic(auto, using(crate::proofs::ServedConnections::closed_none))]
    fn close(
        &mut self,
        reader: Watched<TcpReader<'c, C>>,
        writer: Watched<TcpWriter<'c, C>>,
        ended: Result<Served, ServeFault>,
    )
        // with this close behind what was told, as many came
        ensures { (log : List Event) → came_in log ≡ self.old.came
            → came_in (log
            ++ Closed None None (is_stopped reader.entry) (is_stopped writer.entry) ended ∷ [])
            ≡ self.new.came }
    {
        end_peer(reader, ended);
    }
}
