//! A clock of the tests' own.
use std::cell::Cell;
use std::io;
use std::io::{Error, ErrorKind};
use std::rt::Clock;
use std::time::Duration;

/// A clock that somebody sets: it tells these seconds one after the other, and the last from then on, each
/// beside how many have passed by a clock that nobody sets. Where it tells none it stands, and where it has
/// no second it can't be read. All tests are by this clock, so that a service is compiled for one.
#[derive(Drop)]
pub struct TestClock<'a> {
    told: &'a [(Option<u64>, u64)],
    stands: Option<u64>,
    step: u64,
    next: Cell<usize>,
    passed: Cell<u64>,
    stepped: Cell<u64>,
}

impl<'a> TestClock<'a> {
    fn new(told: &'a [(Option<u64>, u64)], stands: Option<u64>, step: u64) -> TestClock<'a> {
        TestClock {
            told,
            stands,
            step,
            next: Cell::new(0),
            passed: Cell::new(0),
            stepped: Cell::new(0),
        }
    }

    /// A clock that tells these.
    pub fn telling(told: &'a [(Option<u64>, u64)]) -> TestClock<'a> {
        TestClock::new(told, None, 0)
    }

    /// A clock that stands at a number of seconds, and by which no time passes.
    pub fn at(seconds: u64) -> TestClock<'a> {
        TestClock::new(&[], Some(seconds), 0)
    }

    /// A clock that can't be read.
    pub fn unread() -> TestClock<'a> {
        TestClock::new(&[], None, 0)
    }

    /// A clock that stands at 1000, and by which so many seconds pass each time that it is asked how many
    /// did.
    pub fn stepping(step: u64) -> TestClock<'a> {
        TestClock::stepping_at(1000, step)
    }

    /// The same at another number of seconds.
    pub fn stepping_at(seconds: u64, step: u64) -> TestClock<'a> {
        TestClock::new(&[], Some(seconds), step)
    }
}

impl<'a> Clock for TestClock<'a> {
    fn monotonic(&self) -> io::Result<Duration> {
        self.stepped
            .set(self.stepped.get().saturating_add(self.step));
        let passed = self.passed.get().saturating_add(self.stepped.get());
        Ok(Duration::from_secs(passed))
    }

    fn since_1970(&self) -> io::Result<Duration> {
        let next = self.next.get();
        let second = match self.told.get(next).or(self.told.last()) {
            Some((second, passed)) => {
                self.next.set(next.saturating_add(1));
                self.passed.set(*passed);
                *second
            }
            None => self.stands,
        };
        match second {
            Some(second) => Ok(Duration::from_secs(second)),
            None => Err(Error::from(ErrorKind::Other)),
        }
    }
}
