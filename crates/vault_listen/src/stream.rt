//! The stream of a connection, whose waits end.
use libc::net::{POLLIN, poll};
use libc::types::pollfd;
use std::alloc::{AllocError, Global};
use std::io;
use std::io::{Read, Write};
use std::net::{Shutdown, TcpStream};
use std::os::fd::{AsRawFd, RawFd};
use std::rc::Rc;
use std::time::Duration;

/// What a look at a connection and at the door found.
#[derive(Clone, Copy, PartialEq, Eq)]
pub struct Seen {
    /// The peer sent something, or ended its side; or the look failed, which the next read tells.
    pub sent: bool,
    /// Another one is at the door.
    pub other: bool,
}

/// The stream of a connection. Contracts see what a look may find.
pub trait Stream: Read + Write {
    ghost use Rattle.vault_listen.specs.declared.stream.Seen.{Seen};

    // a look may find this
    ghost shows: { Self → Seen → Type 0 };

    /// Lets each read wait at most so long.
    fn let_reads_wait(&self, most: Duration) -> io::Result<()>;

    /// Lets each write wait at most so long.
    fn let_writes_wait(&self, most: Duration) -> io::Result<()>;

    /// Tells the peer that nothing more comes.
    fn end_answers(&self) -> io::Result<()>;

    /// Waits until the peer sends something, at most so long. At the door it looks too where it is told to.
    fn look(&self, most: Duration, at_door: bool) -> Seen
        ensures { shows self.now result };
}

/// The stream of a TCP connection, and the door to which others come.
#[derive(Drop)]
pub struct PeerStream {
    stream: Rc<TcpStream>,
    door: RawFd,
}

impl PeerStream {
    /// A stream that was accepted by the listener with this descriptor.
    pub fn new(alloc: Global, stream: TcpStream, door: RawFd) -> Result<PeerStream, AllocError> {
        let stream = Rc::new(alloc, stream)?;
        Ok(PeerStream { stream, door })
    }

    /// The same stream once more.
    pub fn again(&self) -> Result<PeerStream, AllocError> {
        Ok(PeerStream {
            stream: self.stream.clone()?,
            door: self.door,
        })
    }

    /// Its connection.
    pub fn connection(&self) -> &TcpStream {
        &self.stream
    }
}

impl Read for PeerStream {
    fn read(&mut self, buf: &mut [u8]) -> io::Result<usize> {
        let mut stream = self.connection();
        stream.read(buf)
    }
}

impl Write for PeerStream {
    fn write(&mut self, buf: &[u8]) -> io::Result<usize> {
        let mut stream = self.connection();
        stream.write(buf)
    }

    fn flush(&mut self) -> io::Result<()> {
        let mut stream = self.connection();
        stream.flush()
    }
}

/// A descriptor that is looked at for input.
fn input_of(fd: RawFd) -> pollfd {
    pollfd {
        fd,
        events: POLLIN,
        revents: 0,
    }
}

/// Waits until one of these has input, at most so long: how many have, or less than none where the look
/// fails.
fn ready(fds: &mut [pollfd], most: Duration) -> i32 {
    let millis = i32::try_from(most.as_millis()).unwrap_or(i32::MAX);
    poll(fds, millis)
}

/// Whether another one is at the door, or comes to it within this time. A look that fails counts as nobody:
/// who accepts after it might wait for ever.
pub(crate) fn comes(door: RawFd, most: Duration) -> bool {
    ready(&mut [input_of(door)], most) > 0
}

impl Stream for PeerStream {
    ghost shows = { λ _ _. Unit {0} };

    fn let_reads_wait(&self, most: Duration) -> io::Result<()> {
        self.connection().set_read_timeout(Some(most))
    }

    fn let_writes_wait(&self, most: Duration) -> io::Result<()> {
        self.connection().set_write_timeout(Some(most))
    }

    fn end_answers(&self) -> io::Result<()> {
        self.connection().shutdown(Shutdown::Write)
    }

    fn look(&self, most: Duration, at_door: bool) -> Seen {
        let mut both = [input_of(self.connection().as_raw_fd()), input_of(self.door)];
        let looked = match at_door {
            true => ready(&mut both, most),
            false => ready(&mut both[..1], most),
        };
        Seen {
            sent: looked < 0 || both[0].revents != 0,
            other: both[1].revents != 0,
        }
    }
}
