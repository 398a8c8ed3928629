//! The peer of a connection, which is read and written within the time that it has.
ghost use Rattle.std.specs.Prelude.{◌≡◌, true, false, IsErr};
ghost use Rattle.std.specs.Io.{ReadsAtMost};
ghost use Rattle.std.specs.Io.KnownBytes.{ReadConsumes};
ghost use Rattle.vault_listen.specs.Giving.{FindsOther};

use crate::elapsed::Elapsed;
use crate::limits::ALONE;
use crate::stream::{Seen, Stream};
use std::io;
use std::io::{ErrorKind, Read, Write};
use std::rc::Rc;
use std::time::{Clock, Duration};
use vault_wire::place::Placed;

/// Reads what a peer sends. A read fails once the time of the message or of the connection is over.
///
/// Between two messages, and before the first, a read fails too once the peer was quiet for 50 milliseconds
/// and another one waits: then it gave way.
#[derive(Drop)]
pub struct PeerReader<S, C> {
    stream: S,
    elapsed: Rc<Elapsed<C>>,
    is_between: bool,
    gave_way: bool,
}

impl<S: Stream, C: Clock + Drop> PeerReader<S, C> {
    /// The reader of a peer that has sent nothing yet.
    pub fn new(stream: S, elapsed: Rc<Elapsed<C>>) -> PeerReader<S, C>
        ensures stream { result.stream ≡ stream }
        ensures place { result.is_between ≡ true }
        ensures way { result.gave_way ≡ false }
    {
        PeerReader {
            stream,
            elapsed,
            is_between: true,
            gave_way: false,
        }
    }

    /// Whether it gave way to another one.
    pub fn gave_way(&self) -> bool
        ensures { result ≡ self.now.gave_way }
    {
        self.gave_way
    }

    /// Tells the peer that no more answers come, and gives it one more turn, at whose end its connection
    /// ends: 50 milliseconds where it gave way.
    pub(crate) fn begin_last_turn(&mut self) -> io::Result<()>
        // what the stream has left to give stays
        ensures bytes { S.remaining self.new.stream ≡ S.remaining self.old.stream }
    {
        self.stream.end_answers()?;
        self.is_between = false;
        self.elapsed.begin_last_turn(self.gave_way)
    }
}

impl<S: Stream, C: Clock + Drop> Read for PeerReader<S, C> {
    ghost remaining = { λ reader. S.remaining reader.stream };

    fn read(&mut self, buf: &mut [u8]) -> io::Result<usize>
        // no more bytes are read than there is room for
        ensures bound { ReadsAtMost result buf.new }
        // the bytes that are read are those that the stream gave up, where they are known; with Err it gave
        // up none
        ensures bytes { ReadConsumes (S.remaining self.old.stream) (S.remaining self.new.stream) result
            buf.new }
        // it gives way only between two messages, where its peer has sent nothing and another one waits, and
        // with an Err
        ensures way { self.old.gave_way ≡ false → self.new.gave_way ≡ true
            → (self.old.is_between ≡ true) × FindsOther (S.shows self.old.stream) × IsErr result }
    {
        let wait = self.elapsed.for_read()?;
        if self.is_between {
            match end_of_quiet(&self.stream, wait) {
                Quiet::Sent => {}
                Quiet::Other => {
                    self.gave_way = true;
                    return Err(ErrorKind::WouldBlock.into());
                }
                Quiet::Over => return Err(ErrorKind::TimedOut.into()),
            }
        }
        self.stream.let_reads_wait(wait)?;
        self.stream.read(buf)
    }
}

impl<S: Stream, C: Clock + Drop> Placed for PeerReader<S, C> {
    ghost stands = { λ reader is_between. reader.is_between ≡ is_between };

    fn stand(&mut self, is_between: bool)
        // what the stream has left to give stays
        ensures bytes { S.remaining self.new.stream ≡ S.remaining self.old.stream }
        // from now on it stands there
        ensures place { self.new.is_between ≡ is_between }
        // whether it gave way stays
        ensures way { self.new.gave_way ≡ self.old.gave_way }
    {
        self.is_between = is_between;
    }
}

/// Writes what a peer takes. A write fails once the time of the answer is over; a write that is cut short is
/// followed by one of the rest.
#[derive(Drop)]
pub struct PeerWriter<S, C> {
    stream: S,
    elapsed: Rc<Elapsed<C>>,
}

impl<S: Stream, C: Clock + Drop> PeerWriter<S, C> {
    /// The writer of a peer.
    pub fn new(stream: S, elapsed: Rc<Elapsed<C>>) -> PeerWriter<S, C>
        ensures { result.stream ≡ stream }
    {
        PeerWriter { stream, elapsed }
    }
}

impl<S: Stream, C: Clock + Drop> Write for PeerWriter<S, C> {
    ghost contents = { λ writer. S.contents writer.stream };

    fn write(&mut self, buf: &[u8]) -> io::Result<usize> {
        let wait = self.elapsed.for_write()?;
        self.stream.let_writes_wait(wait)?;
        let taken = self.stream.write(buf)?;
        self.elapsed.is_left(buf.len().saturating_sub(taken));
        Ok(taken)
    }

    fn flush(&mut self) -> io::Result<()> {
        self.stream.flush()
    }
}

/// How the quiet of a peer ended.
#[derive(Clone, Copy, PartialEq, Eq)]
pub(crate) enum Quiet {
    /// It sent something, or ended its side.
    Sent,
    /// Another one waits.
    Other,
    /// It lasted as long as it may.
    Over,
}

impl Quiet {
    /// How it ended, by a look at the peer and at the door.
    fn ended_by(seen: Seen) -> Quiet
        // a peer gives way only where it has sent nothing, and another one waits
        ensures way { result ≡ Quiet.Other → (seen.sent ≡ false) × (seen.other ≡ true) }
        // where it has sent something, that is read
        ensures sent { seen.sent ≡ true → result ≡ Quiet.Sent }
    {
        match (seen.sent, seen.other) {
            (true, _) => Quiet::Sent,
            (false, true) => Quiet::Other,
            (false, false) => Quiet::Over,
        }
    }
}

/// Waits until a peer sends something, or, once it was quiet for 50 milliseconds, until another one comes to
/// the door; and at most so long.
pub(crate) fn end_of_quiet<S: Stream>(stream: &S, wait: Duration) -> Quiet
    // a peer gives way only where a look finds that it has sent nothing, and that another one waits
    ensures { result ≡ Quiet.Other → FindsOther (S.shows stream.now) }
{
    let alone = Duration::from_millis(ALONE);
    if stream.look(wait.min(alone), false).sent {
        return Quiet::Sent;
    }
    Quiet::ended_by(stream.look(wait.saturating_sub(alone), true))
}
