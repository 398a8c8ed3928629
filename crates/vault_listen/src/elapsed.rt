//! The time that a connection and its turn have taken.
use crate::limits::{ALONE, Limits};
use std::cell::Cell;
use std::io;
use std::io::ErrorKind;
use std::time::{Clock, Duration};

/// The time of a connection, and of the message or the answer that is under way on it. Its reader and its
/// writer share it.
#[derive(Drop)]
pub struct Elapsed<C> {
    clock: C,
    limits: Limits,
    /// When the connection ends, by the monotonic clock.
    end: Cell<Duration>,
    /// When the message or the answer that is under way began.
    begun: Cell<Duration>,
    /// How many bytes of an answer are still to be taken.
    rest: Cell<usize>,
}

impl<C: Clock + Drop> Elapsed<C> {
    /// The time of a connection that is accepted now.
    pub fn new(clock: C, limits: Limits) -> io::Result<Elapsed<C>> {
        let now = clock.monotonic()?;
        Ok(Elapsed {
            clock,
            limits,
            end: Cell::new(now.saturating_add(limits.connection)),
            begun: Cell::new(now),
            rest: Cell::new(0),
        })
    }

    /// When the connection ends.
    pub fn end(&self) -> Duration {
        self.end.get()
    }

    /// How much time is left of a turn that has begun; an error where none is.
    fn left(&self, now: Duration) -> io::Result<Duration> {
        let taken = now.saturating_sub(self.begun.get());
        let left = self.limits.turn.saturating_sub(taken);
        if left.is_zero() {
            return Err(ErrorKind::TimedOut.into());
        }
        Ok(left)
    }

    /// How much time is left for a read; an error where none is.
    pub(crate) fn for_read(&self) -> io::Result<Duration> {
        let now = self.clock.monotonic()?;
        let until_end = self.end.get().saturating_sub(now);
        let wait = self.left(now)?.min(until_end);
        if wait.is_zero() {
            return Err(ErrorKind::TimedOut.into());
        }
        Ok(wait)
    }

    /// How much time is left for a write, which begins an answer or goes on with one; an error where none is.
    pub(crate) fn for_write(&self) -> io::Result<Duration> {
        let now = self.clock.monotonic()?;
        if self.rest.get() == 0 {
            self.begun.set(now);
        }
        self.left(now)
    }

    /// So many bytes of an answer are still to be taken. One that was taken whole begins the time of the next
    /// message.
    pub(crate) fn is_left(&self, rest: usize) {
        self.rest.set(rest);
        if rest != 0 {
            return;
        }
        if let Ok(now) = self.clock.monotonic() {
            self.begun.set(now);
        }
    }

    /// Begins the last turn, at whose end the connection ends. One that gives way has no more than 50
    /// milliseconds for it.
    pub(crate) fn begin_last_turn(&self, gives_way: bool) -> io::Result<()> {
        let now = self.clock.monotonic()?;
        let turn = match gives_way {
            true => Duration::from_millis(ALONE).min(self.limits.turn),
            false => self.limits.turn,
        };
        self.end.set(now.saturating_add(turn));
        self.begun.set(now);
        Ok(())
    }
}
