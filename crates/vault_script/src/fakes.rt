//! Readers that give a little at a time, writers that take a little, and either that fails. All connections
//! and batches of the tests are over one reader and one writer, so that each is compiled once.
use std::cell::Cell;
use std::io;
use std::io::{Error, ErrorKind, Read, Write};
use vault_wire::place::Placed;

/// Gives so many bytes at a call, and fails at the call `bad`, counted from 1; counts its calls.
#[derive(Drop)]
pub struct SlowReader<'a> {
    pub bytes: &'a [u8],
    pub size: usize,
    pub calls: &'a Cell<usize>,
    pub bad: usize,
}

impl<'a> Read for SlowReader<'a> {
    fn read(&mut self, buf: &mut [u8]) -> io::Result<usize> {
        self.calls.set(self.calls.get().saturating_add(1));
        if self.calls.get() == self.bad {
            return Err(Error::from(ErrorKind::BrokenPipe));
        }
        let taken = self.size.min(self.bytes.len()).min(buf.len());
        let (now, later) = self.bytes.split_at(taken);
        buf[..taken].copy_from_slice(now);
        self.bytes = later;
        Ok(taken)
    }
}

/// How a write fails.
#[derive(Clone, Copy)]
pub enum WriteFailure {
    /// By an error of the kind `BrokenPipe`.
    Broken,
    /// By an error of the kind `Interrupted`.
    Interrupted,
    /// By taking no byte.
    TakesNone,
}

/// Takes one byte at a call, and fails at the call `bad`, counted from 1; counts its calls. A flush
/// that fails is an error of the kind `BrokenPipe`.
#[derive(Drop)]
pub struct SlowWriter<'a> {
    pub out: &'a mut Vec<u8>,
    pub calls: &'a Cell<usize>,
    pub bad: usize,
    pub failure: WriteFailure,
}

impl<'a> Write for SlowWriter<'a> {
    fn write(&mut self, buf: &[u8]) -> io::Result<usize> {
        self.calls.set(self.calls.get().saturating_add(1));
        if self.calls.get() == self.bad {
            return match self.failure {
                WriteFailure::Broken => Err(Error::from(ErrorKind::BrokenPipe)),
                WriteFailure::Interrupted => Err(Error::from(ErrorKind::Interrupted)),
                WriteFailure::TakesNone => Ok(0),
            };
        }
        match buf {
            [byte, ..] => {
                self.out.push(*byte)?;
                Ok(1)
            }
            [] => Ok(0),
        }
    }

    fn flush(&mut self) -> io::Result<()> {
        self.calls.set(self.calls.get().saturating_add(1));
        if self.calls.get() == self.bad {
            return Err(Error::from(ErrorKind::BrokenPipe));
        }
        Ok(())
    }
}

/// Gives a piece of its text at a call, and counts in `late` the calls at which an answer to the pieces
/// before is missing.
#[derive(Drop)]
pub struct PieceReader<'a> {
    /// The rest of the piece that was begun.
    rest: &'a [u8],
    /// The pieces after it, each with the answer that is due after it.
    pieces: &'a [(&'a str, &'a str)],
    /// How many bytes are due once the piece that was begun is read.
    due: usize,
    /// How many bytes are out.
    out: &'a Cell<usize>,
    /// At how many calls bytes were missing.
    late: &'a Cell<usize>,
}

impl<'a> PieceReader<'a> {
    /// Gives these pieces, each with the answer that is due after it.
    pub fn new(
        pieces: &'a [(&'a str, &'a str)],
        out: &'a Cell<usize>,
        late: &'a Cell<usize>,
    ) -> PieceReader<'a> {
        PieceReader {
            rest: b"",
            pieces,
            due: 0,
            out,
            late,
        }
    }

    /// Begins the next piece, if there is one.
    fn begin(&mut self) {
        if self.out.get() != self.due {
            self.late.set(self.late.get().saturating_add(1));
        }
        if let [(asked, answered), pieces @ ..] = self.pieces {
            self.rest = asked.as_bytes();
            self.due = self.due.saturating_add(answered.len());
            self.pieces = pieces;
        }
    }
}

impl<'a> Read for PieceReader<'a> {
    fn read(&mut self, buf: &mut [u8]) -> io::Result<usize> {
        if self.rest.is_empty() {
            self.begin();
        }
        let taken = self.rest.len().min(buf.len());
        let (now, later) = self.rest.split_at(taken);
        buf[..taken].copy_from_slice(now);
        self.rest = later;
        Ok(taken)
    }
}

/// Counts the bytes that it takes.
#[derive(Drop)]
pub struct CountingWriter<'a> {
    pub out: &'a Cell<usize>,
}

impl<'a> Write for CountingWriter<'a> {
    fn write(&mut self, buf: &[u8]) -> io::Result<usize> {
        self.out.set(self.out.get().saturating_add(buf.len()));
        Ok(buf.len())
    }

    fn flush(&mut self) -> io::Result<()> {
        Ok(())
    }
}

/// What a connection or a batch reads.
#[derive(Drop)]
pub enum TestReader<'a> {
    /// These bytes, as many as are asked for.
    Bytes(&'a [u8]),
    Slow(SlowReader<'a>),
    Pieces(PieceReader<'a>),
}

impl<'a> TestReader<'a> {
    /// Gives so many of these bytes at a call, counts its calls, and fails at the call `bad`.
    pub fn slow(
        bytes: &'a [u8],
        size: usize,
        calls: &'a Cell<usize>,
        bad: usize,
    ) -> TestReader<'a> {
        TestReader::Slow(SlowReader {
            bytes,
            size,
            calls,
            bad,
        })
    }
}

impl<'a> Read for TestReader<'a> {
    fn read(&mut self, buf: &mut [u8]) -> io::Result<usize> {
        match self {
            TestReader::Bytes(bytes) => bytes.read(buf),
            TestReader::Slow(reader) => reader.read(buf),
            TestReader::Pieces(reader) => reader.read(buf),
        }
    }
}

/// It doesn't ask where it stands.
impl<'a> Placed for TestReader<'a> {
    ghost stands = { λ _ _. Unit {0} };

    fn stand(&mut self, _is_between: bool) {}
}

/// What a connection or a batch writes to.
#[derive(Drop)]
pub enum TestWriter<'a> {
    /// It takes all bytes.
    Whole(&'a mut Vec<u8>),
    Slow(SlowWriter<'a>),
    Counting(CountingWriter<'a>),
}

impl<'a> TestWriter<'a> {
    /// Takes a byte at a call, counts its calls, and fails by an error at the call `bad`.
    pub fn slow(out: &'a mut Vec<u8>, calls: &'a Cell<usize>, bad: usize) -> TestWriter<'a> {
        TestWriter::failing(out, calls, bad, WriteFailure::Broken)
    }

    /// The same, where it fails so.
    pub fn failing(
        out: &'a mut Vec<u8>,
        calls: &'a Cell<usize>,
        bad: usize,
        failure: WriteFailure,
    ) -> TestWriter<'a> {
        TestWriter::Slow(SlowWriter {
            out,
            calls,
            bad,
            failure,
        })
    }
}

impl<'a> Write for TestWriter<'a> {
    fn write(&mut self, buf: &[u8]) -> io::Result<usize> {
        match self {
            TestWriter::Whole(out) => {
                out.extend_from_slice(buf)?;
                Ok(buf.len())
            }
            TestWriter::Slow(writer) => writer.write(buf),
            TestWriter::Counting(writer) => writer.write(buf),
        }
    }

    fn flush(&mut self) -> io::Result<()> {
        match self {
            TestWriter::Whole(_) => Ok(()),
            TestWriter::Slow(writer) => writer.flush(),
            TestWriter::Counting(writer) => writer.flush(),
        }
    }
}
