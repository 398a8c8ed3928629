//! Where the connections of a service come from.
ghost use Rattle.std.specs.Prelude.{◌≡◌, ◌++◌, [], ◌∷◌, List, IfErr, IfOk};
ghost use Rattle.vault_listen.specs.Peers.{Event, closed_as, coming};
ghost use Rattle.vault_listen.specs.declared.fault.ListenFault.TheVariants.{Accept};

use crate::fault::ListenFault;
use std::io::Write;
use std::time::Duration;
use vault_http::fault::ServeFault;
use vault_http::served::Served;
use vault_wire::place::Placed;
use vault_wire::watched::Watched;

/// A connection that was accepted.
#[derive(Drop)]
pub struct Accepted<R, W> {
    /// Reads what its peer sends.
    pub reader: R,
    /// Writes what its peer takes.
    pub writer: W,
    /// From when on none of its messages is taken up, by the monotonic clock.
    pub end: Option<Duration>,
}

/// Peers, whose connections are accepted and closed one after the other.
///
/// Contracts see what is told of them: which connections came and were closed so far, with the bytes that
/// their readers had to give and their writers had taken, where those are known.
pub trait Peers {
    ghost use Rattle.std.specs.Prelude.{List};
    ghost use Rattle.vault_listen.specs.Peers.{Event};

    type Reader: Placed + Drop;

    type Writer: Write + Drop;

    // such may the events so far have been
    ghost tells: { Self → List Event → Type 0 };

    /// Whether a connection waits, or comes within this time.
    fn waits(&self, most: Duration) -> bool;

    /// Waits for the next connection. One that was lost before it was accepted comes too, without a stream.
    ///
    /// 80 Accept: none can be accepted.
    fn accept(&mut self) -> Result<Option<Accepted<Self::Reader, Self::Writer>>, ListenFault>
        // with Ok, this connection, accepted or lost, stands behind what was told before
        ensures comes { IfOk result (λ it. (log : List Event) → tells self.old log
            → tells self.new (log ++ coming Self.Reader.remaining Self.Writer.contents it ∷ [])) }
        // the fault is Accept, and what was told stays told
        ensures fails { IfErr result (λ fault. (fault ≡ Accept)
            × ((log : List Event) → tells self.old log → tells self.new log)) };

    /// Closes the connection that was accepted last, whose service ended so.
    fn close(
        &mut self,
        reader: Watched<Self::Reader>,
        writer: Watched<Self::Writer>,
        ended: Result<Served, ServeFault>,
    )
        // this close stands behind what was told before
        ensures { (log : List Event) → tells self.old log → tells self.new
            (log ++ closed_as Self.Reader.remaining Self.Writer.contents reader writer ended ∷ []) };
}
