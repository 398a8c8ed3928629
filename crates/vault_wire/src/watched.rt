//! A reader or a writer that is watched for its first failure, and bytes that go out to such a writer.
ghost use Rattle.std.specs.Prelude.{◌≡◌, length, true, false, is_err, OnOk, ℕ, ◌<◌, take, OnErr, IsErr};
ghost use Rattle.std.specs.Io.{ReadsAtMost, WritesAtMost};
ghost use Rattle.std.specs.Io.KnownBytes.{Keeps, ReadConsumes, WriteAppends, Appends};
ghost use Rattle.vault_wire.specs.Watching.{inner_of, is_stopped, tells_failure};

use crate::place::Guide;
use std::error::Error;
use std::io::{ErrorKind, Read, Write};
use std::{fmt, io};

/// A reader or a writer whose first failure stops it: an `Err`, or a write that takes no byte of
/// some. From then on each call is an `Err` of the kind `Other`, and the inner one isn't called.
/// Before, each call is the inner one's.
#[derive(Drop)]
pub struct Watched<T> {
    inner: T,
    stopped: bool,
}

impl<T> Watched<T> {
    /// One that has not failed.
    pub fn new(inner: T) -> Watched<T>
        ensures inner { inner_of result ≡ inner }
        // it hasn't failed
        ensures fresh { is_stopped result ≡ false }
    {
        Watched {
            inner,
            stopped: false,
        }
    }

    /// Whether a call failed.
    pub fn failed(&self) -> bool
        ensures { result ≡ is_stopped self.now }
    {
        self.stopped
    }

    /// The reader or writer underneath.
    pub fn into_inner(self) -> T
        ensures { result ≡ inner_of self }
    {
        let Watched { inner, stopped: _ } = self;
        inner
    }
}

impl<R: Read> Watched<R> {
    /// Tells the reader underneath whether it stands between two messages.
    pub fn tell<G: Guide<R>>(&mut self, guide: &G, is_between: bool)
        // what it has left to give stays
        ensures bytes { R.remaining (inner_of self.new) ≡ R.remaining (inner_of self.old) }
        // it was told so
        ensures place { G.told (inner_of self.new) is_between }
        // whether a call failed stays
        ensures flag { is_stopped self.new ≡ is_stopped self.old }
    {
        guide.tell(&mut self.inner, is_between);
    }
}

impl<R: Read> Read for Watched<R> {
    ghost remaining = { λ w. R.remaining w.inner };

    fn read(&mut self, buf: &mut [u8]) -> io::Result<usize>
        // no more bytes are read than there is room for
        ensures bound { ReadsAtMost result buf.new }
        // the bytes that are read are those that the reader underneath gave up, where they are known; with
        // Err it gave up none
        ensures bytes { let old = R.remaining self.old.inner in let new = R.remaining self.new.inner in
            ReadConsumes old new result buf.new }
        // it has failed exactly after an Err
        ensures flag { self.new.stopped ≡ is_err result }
        // with Ok, it hadn't failed before
        ensures ok { OnOk result (self.old.stopped ≡ false) }
        // one that had failed reads nothing, and stays as it was
        ensures refused { self.old.stopped ≡ true → (self.new ≡ self.old) × (buf.new ≡ buf.old) }
    {
        if self.stopped {
            return Err(io::Error::from(ErrorKind::Other));
        }
        let read = self.inner.read(buf);
        self.stopped = read.is_err();
        read
    }
}

impl<W: Write> Write for Watched<W> {
    ghost contents = { λ w. W.contents w.inner };

    fn write(&mut self, buf: &[u8]) -> io::Result<usize>
        // no more bytes are taken than there are
        ensures bound { WritesAtMost result buf.now }
        // the bytes taken stand behind what the writer underneath held, where that is known; with Err that
        // stays
        ensures bytes { let old = W.contents self.old.inner in let new = W.contents self.new.inner in
            WriteAppends old new result buf.now }
        // it has failed exactly where the write took none of some bytes or was an Err
        ensures flag { self.new.stopped ≡ tells_failure (length buf.now) result }
        // with Ok, it hadn't failed before
        ensures ok { OnOk result (self.old.stopped ≡ false) }
        // one that had failed stays as it was
        ensures refused { self.old.stopped ≡ true → self.new ≡ self.old }
    {
        if self.stopped {
            return Err(io::Error::from(ErrorKind::Other));
        }
        let written = self.inner.write(buf);
        self.stopped = match &written {
            Ok(count) => *count == 0 && !buf.is_empty(),
            Err(_) => true,
        };
        written
    }

    fn flush(&mut self) -> io::Result<()>
        // what the writer underneath holds stays, where it is known
        ensures bytes { Keeps (W.contents self.old.inner) (W.contents self.new.inner) }
        // it has failed exactly after an Err
        ensures flag { self.new.stopped ≡ is_err result }
        // with Ok, it hadn't failed before
        ensures ok { OnOk result (self.old.stopped ≡ false) }
        // one that had failed stays as it was
        ensures refused { self.old.stopped ≡ true → self.new ≡ self.old }
    {
        if self.stopped {
            return Err(io::Error::from(ErrorKind::Other));
        }
        let flushed = self.inner.flush();
        self.stopped = flushed.is_err();
        flushed
    }
}

/// The writer took only a beginning of the bytes.
#[derive(Debug, Drop)]
pub struct WriteFailed;

impl fmt::Display for WriteFailed {
    ghost use Rattle.std.specs.Prelude.{Some, codes};

    ghost output = { λ _. Some (codes "the writer took only a beginning of the bytes") };

    fn fmt<W: fmt::Write>(&self, f: &mut fmt::Formatter<W>) -> fmt::Result {
        write!(f, "the writer took only a beginning of the bytes")
    }
}

impl Error for WriteFailed {}

/// Writes the bytes in order, and doesn't flush. After a failure a beginning of them is out, and
/// not all; nothing is where the writer had failed before.
pub fn send<W: Write>(writer: &mut Watched<W>, bytes: &[u8]) -> Result<(), WriteFailed>
    // with Ok, the bytes stand behind what the writer held, where that is known
    ensures ok { let old = W.contents (inner_of writer.old) in let new = W.contents (inner_of writer.new) in
        OnOk result (Appends old new bytes.now) }
    // with Err, a beginning of the bytes, and not all, stands behind what the writer held, where that is
    // known
    ensures err { let old = W.contents (inner_of writer.old) in let new = W.contents (inner_of writer.new) in
        OnErr result ((n : ℕ) × (n < length bytes.now) × Appends old new (take n bytes.now)) }
    // after Err the writer has failed
    ensures failed { OnErr result (is_stopped writer.new ≡ true) }
    // with Ok, whether the writer has failed stays as it was
    ensures goes { OnOk result (is_stopped writer.new ≡ is_stopped writer.old) }
    // where the writer had failed and there are bytes, it is an Err, and the writer stays as it was
    ensures refused { is_stopped writer.old ≡ true → 0 < length bytes.now
        → IsErr result × (writer.new ≡ writer.old) }
{
    let mut sent = 0;
    while sent < bytes.len() {
        match writer.write(&bytes[sent..]) {
            Ok(n) => {
                if writer.failed() {
                    return Err(WriteFailed);
                }
                sent += n;
            }
            Err(_) => return Err(WriteFailed),
        }
    }
    Ok(())
}
