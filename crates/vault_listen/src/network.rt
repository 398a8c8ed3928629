//! A host on whose ports peers connect.
ghost use Rattle.std.specs.Prelude.{◌≡◌, ◌≢◌, IfErr, IfOk, List};
ghost use Rattle.vault_listen.specs.Peers.{Event};
ghost use Rattle.vault_listen.specs.declared.fault.ListenFault.TheVariants.{Accept};

use crate::fault::ListenFault;
use crate::limits::Limits;
use crate::peers::Peers;
use crate::tcp::TcpPeers;
use std::io;
use std::net::TcpListener;
use std::rt::HostRuntime;

/// A host on whose ports peers connect. Contracts see what is told of them, as of `Peers`.
pub trait Network {
    ghost use Rattle.std.specs.Prelude.{List};
    ghost use Rattle.vault_listen.specs.Peers.{Event};

    type Peers: Peers + Drop;

    // such may the events so far have been
    ghost tells: { Self → List Event → Type 0 };

    /// Listens on a port, or on any free one where it is 0, and tells which.
    ///
    /// 80 Accept: the port can't be had.
    fn listen(&mut self, port: u16) -> Result<(Self::Peers, u16), ListenFault>
        // with Ok, the port is the one that was asked for, unless that is 0
        ensures port { IfOk result (λ it. port ≢ 0 → it.1 ≡ port) }
        // with Ok, what was told of the network is told of the peers
        ensures begins { IfOk result (λ it. (log : List Event) → tells self.old log
            → Self.Peers.tells it.0 log) }
        // the fault is Accept, and what was told of the network stays told
        ensures fails { IfErr result (λ fault. (fault ≡ Accept)
            × ((log : List Event) → tells self.old log → tells self.new log)) };

    /// Ends the listening of these peers.
    fn end(&mut self, peers: Self::Peers)
        // what was told of the peers is told of the network then
        ensures { (log : List Event) → Self.Peers.tells peers log → tells self.new log };
}

/// The only address that is listened on: nobody outside this machine reaches it.
const ADDRESS: &str = "127.0.0.1";

/// The ports of this machine, which nobody outside it reaches.
#[derive(Drop)]
pub struct Loopback<'h> {
    rt: &'h HostRuntime,
    limits: Limits,
    came: u64,
}

impl<'h> Loopback<'h> {
    /// The ports of this machine, on which nobody connected yet, for peers that may take so long.
    pub fn new(rt: &'h HostRuntime, limits: Limits) -> Loopback<'h> {
        Loopback {
            rt,
            limits,
            came: 0,
        }
    }
}

/// Listens on a port, or on any free one where it is 0, and tells which.
fn listener(rt: &HostRuntime, port: u16) -> io::Result<(TcpListener, u16)>
    ensures { IfOk result (λ it. port ≢ 0 → it.1 ≡ port) }
{
    let listener = TcpListener::bind(rt, (ADDRESS, port))?;
    let port = match port {
        0 => listener.local_addr()?.port(),
        _ => port,
    };
    Ok((listener, port))
}

/// Nothing is told of the bytes, only how many connections came.
impl<'h> Network for Loopback<'h> {
    ghost use Rattle.std.specs.Prelude.{◌≡◌};
    ghost use Rattle.vault_listen.specs.Peers.{came_in};

    type Peers = TcpPeers<'h, TcpListener, HostRuntime>;

    ghost tells = { λ ports log. came_in log ≡ ports.came };

    fn listen(
        &mut self,
        port: u16,
    ) -> Result<(TcpPeers<'h, TcpListener, HostRuntime>, u16), ListenFault> {
        let Ok((listener, port)) = listener(self.rt, port) else {
            return Err(ListenFault::Accept);
        };
        let peers = TcpPeers::after(self.rt.alloc(), listener, self.rt, self.limits, self.came);
        Ok((peers, port))
    }

    fn end(&mut self, peers: TcpPeers<'h, TcpListener, HostRuntime>) {
        self.came = peers.came();
    }
}
