//! Peers over a stream in memory: which of them give way, and what is read and written meanwhile.
use std::alloc::Global;
use std::cell::Cell;
use std::io;
use std::io::{Read, Write};
use std::rc::Rc;
use std::rt::Clock;
use std::time::Duration;
use vault_http::fault::ServeFault;
use vault_http::served::Served;
use vault_listen::elapsed::Elapsed;
use vault_listen::limits::Limits;
use vault_listen::linger::end_peer;
use vault_listen::peer::{PeerReader, PeerWriter};
use vault_listen::stream::{Seen, Stream};
use vault_wire::place::Telling;
use vault_wire::watched::Watched;

/// A stream that takes one byte at a call. Its peer sends these bytes, also where a look finds none yet.
#[derive(Drop)]
struct TestStream<'a> {
    bytes: &'a [u8],
    seen: Seen,
    /// How many of the bytes are read.
    read: &'a Cell<usize>,
    /// How often the peer was told that nothing more comes.
    ended: &'a Cell<usize>,
}

impl<'a> Read for TestStream<'a> {
    fn read(&mut self, buf: &mut [u8]) -> io::Result<usize> {
        let count = self.bytes.read(buf)?;
        self.read.set(self.read.get().saturating_add(count));
        Ok(count)
    }
}

impl<'a> Write for TestStream<'a> {
    fn write(&mut self, buf: &[u8]) -> io::Result<usize> {
        Ok(buf.len().min(1))
    }

    fn flush(&mut self) -> io::Result<()> {
        Ok(())
    }
}

impl<'a> Stream for TestStream<'a> {
    ghost shows = { λ _ _. Unit {0} };

    fn let_reads_wait(&self, _most: Duration) -> io::Result<()> {
        Ok(())
    }

    fn let_writes_wait(&self, _most: Duration) -> io::Result<()> {
        Ok(())
    }

    fn end_answers(&self) -> io::Result<()> {
        self.ended.set(self.ended.get().saturating_add(1));
        Ok(())
    }

    fn look(&self, _most: Duration, at_door: bool) -> Seen {
        Seen {
            sent: self.seen.sent,
            other: at_door && self.seen.other,
        }
    }
}

/// A clock by which no time passes.
#[derive(Clone, Copy)]
struct StillClock;

impl Clock for StillClock {
    fn monotonic(&self) -> io::Result<Duration> {
        Ok(Duration::from_secs(0))
    }

    fn since_1970(&self) -> io::Result<Duration> {
        Ok(Duration::from_secs(1000))
    }
}

/// Where a reader stands, what a look finds, what a read gives, and whether its peer has a last turn.
type Case = (bool, Seen, Option<usize>, bool);

const NOTHING: Seen = Seen {
    sent: false,
    other: false,
};

const OTHER: Seen = Seen {
    sent: false,
    other: true,
};

const BOTH: Seen = Seen {
    sent: true,
    other: true,
};

const CASES: [Case; 5] = [
    (true, NOTHING, None, false),
    (true, OTHER, None, true),
    (true, BOTH, Some(4), true),
    (false, OTHER, Some(4), true),
    (false, BOTH, Some(4), true),
];

/// How a service ends that reads so.
fn end_of(read: Option<usize>) -> Result<Served, ServeFault> {
    match read {
        Some(_) => Ok(Served {
            messages: 0,
            fault: None,
        }),
        None => Err(ServeFault::Read),
    }
}

/// Whether a reader reads and gives way so. In a last turn its peer is told once that nothing more comes, and
/// what it has sent by then is read; in none it isn't told, and nothing more is read.
fn ends_so(alloc: Global, case: Case) -> io::Result<bool> {
    let (is_between, seen, wanted, is_last) = case;
    let (read, ended) = (Cell::new(0), Cell::new(0));
    let stream = TestStream {
        bytes: b"late",
        seen,
        read: &read,
        ended: &ended,
    };
    let elapsed = Rc::new(alloc, Elapsed::new(StillClock, Limits::of_service())?)?;
    let mut reader = Watched::new(PeerReader::new(stream, elapsed));
    reader.tell(&Telling, is_between);
    let came = reader.read(&mut [0; 9]).ok();
    let is_read = came == wanted && read.get() == wanted.unwrap_or(0) && ended.get() == 0;
    end_peer(reader, end_of(came));
    let is_ended = match is_last {
        true => read.get() == 4 && ended.get() == 1,
        false => read.get() == 0 && ended.get() == 0,
    };
    Ok(is_read && is_ended)
}

#[test]
fn a_peer_gives_way_between_two_messages_alone_and_has_a_last_turn(rt: HostRuntime) {
    for case in CASES {
        assert!(rt; ends_so(rt.alloc(), case).unwrap_or(false));
    }
}

/// What is told of a write of two bytes over a stream that takes one.
fn told_of_a_cut(alloc: Global) -> io::Result<usize> {
    let (read, ended) = (Cell::new(0), Cell::new(0));
    let stream = TestStream {
        bytes: b"",
        seen: NOTHING,
        read: &read,
        ended: &ended,
    };
    let elapsed = Rc::new(alloc, Elapsed::new(StillClock, Limits::of_service())?)?;
    PeerWriter::new(stream, elapsed).write(b"ab")
}

#[test]
fn a_cut_answer_is_told_as_cut(rt: HostRuntime) {
    assert!(rt; told_of_a_cut(rt.alloc()).unwrap_or(0) == 1);
}
