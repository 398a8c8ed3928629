//! The time, as contracts can speak of it.
ghost use Rattle.std.specs.Prelude.{◌≡◌, ◌+◌, IfNone, IfSome, IsTrue, OnSome, ◌↔◌};
ghost use Rattle.vault_listen.specs.Clocks.{GoesAlong};

use std::io;
use std::time::{Clock, Duration, SystemTime, UNIX_EPOCH};
use vault_core::moment::Moment;

/// The most seconds by which a clock may be ahead of a steady one, or behind it.
const MOST_DRIFT: u64 = 300;

/// The questions of one source for the moment, asked one after the other.
///
/// Contracts see which moment may be told at which question, and how many were told. So a moment that is told
/// for one message serves no other, and whoever gives one of them for each message asks for none ahead.
pub trait Questions {
    ghost use Rattle.std.specs.Prelude.{ℕ};

    // at this question, counted from 0, it may tell this moment
    ghost tells: { Self → ℕ → ℕ → Type 0 };

    // how many moments were told
    ghost told: { Self → ℕ };

    /// The time in Unix seconds, where it can be read, is a moment and hasn't jumped.
    fn moment(&mut self) -> Option<Moment>
        // a moment that is given is told at the question behind those before
        ensures tells { IfSome result (tells self.old (told self.old)) }
        // with Some, one moment more was told
        ensures counts { OnSome result (told self.new ≡ told self.old + 1) }
        // with None, none was
        ensures keeps { IfNone result (told self.new ≡ told self.old) }
        // what may be told from now on might have been before
        ensures same { (turn now : ℕ) → tells self.new turn now → tells self.old turn now };

    /// How much time has passed, by a clock that nobody sets.
    fn passed(&self) -> io::Result<Duration>;
}

/// Tells the time to sources, each of which has questions of its own.
pub trait Timekeeper {
    ghost use Rattle.std.specs.Prelude.{◌≡◌, ℕ};

    type Questions: Questions + Drop;

    // at this question of a source it may tell this moment
    ghost tells: { Self → ℕ → ℕ → Type 0 };

    /// The questions of one source, none of which was asked.
    fn questions(&self) -> Self::Questions
        // no moment was told
        ensures fresh { Self.Questions.told result ≡ 0 }
        // they tell what may be told at their turns
        ensures same { (turn now : _) → Self.Questions.tells result turn now → tells self.now turn now };

    /// Whether the time has jumped since the start, as far as it can be read now; and always where it
    /// couldn't be read at the start, so that no moment is ever told.
    fn has_jumped(&self) -> bool;
}

/// Whether a clock that told this second at the start goes along with a steady one, by which so many seconds
/// passed until now: the two differ by at most 300 seconds.
fn goes_along(start: u64, passed: u64, now: u64) -> bool
    ensures { IsTrue result ↔ GoesAlong start passed now }
{
    let due = u128::from(start) + u128::from(passed);
    let now = u128::from(now);
    let most = u128::from(MOST_DRIFT);
    now <= due + most && due <= now + most
}

/// The clock's second, where it can be read.
fn second_of<C: Clock>(clock: &C) -> Option<u64> {
    let now = SystemTime::now(clock).ok()?;
    let since = now.duration_since(UNIX_EPOCH).ok()?;
    Some(since.as_secs())
}

/// Two readings of one moment: the clock's second, and how much time has passed by a clock that nobody sets.
#[derive(Clone, Copy, Drop)]
struct Reading {
    second: u64,
    passed: Duration,
}

impl Reading {
    /// Both of them now, where both can be read.
    fn of<C: Clock>(clock: &C) -> Option<Reading> {
        let second = second_of(clock)?;
        let passed = clock.monotonic().ok()?;
        Some(Reading { second, passed })
    }

    /// Whether the clock went along with the steady one from this reading to a later one.
    fn leads_to(&self, later: &Reading) -> bool {
        let passed = later.passed.saturating_sub(self.passed);
        goes_along(self.second, passed.as_secs(), later.second)
    }
}

/// The time by a clock, which tells it anew at each turn; it is read at the start too, to see whether it
/// jumps. No contract says what a clock told: tests do.
#[derive(Drop)]
pub struct ClockTime<'c, C> {
    clock: &'c C,
    start: Option<Reading>,
}

impl<'c, C: Clock> ClockTime<'c, C> {
    /// The time by this clock, which is read now.
    pub fn new(clock: &'c C) -> ClockTime<'c, C> {
        ClockTime {
            clock,
            start: Reading::of(clock),
        }
    }

    // The clock's second, where it is a moment and the clock went along with the steady one since the start.
    fn moment(&self) -> Option<Moment> {
        let start = self.start?;
        let now = Reading::of(self.clock)?;
        if start.leads_to(&now) {
            Moment::new(now.second).ok()
        } else {
            None
        }
    }
}

impl<'c, C: Clock> Timekeeper for ClockTime<'c, C> {
    type Questions = ClockQuestions<'c, C>;

    ghost tells = { λ _ _ _. Unit {0} };

    fn questions(&self) -> ClockQuestions<'c, C> {
        let time = ClockTime {
            clock: self.clock,
            start: self.start,
        };
        ClockQuestions { time, told: 0 }
    }

    fn has_jumped(&self) -> bool {
        let Some(start) = self.start else {
            return true;
        };
        match Reading::of(self.clock) {
            Some(now) => !start.leads_to(&now),
            None => false,
        }
    }
}

/// The questions of one source to a clock.
#[derive(Drop)]
pub struct ClockQuestions<'c, C> {
    time: ClockTime<'c, C>,
    told: u64,
}

impl<'c, C: Clock> Questions for ClockQuestions<'c, C> {
    ghost tells = { λ _ _ _. Unit {0} };

    ghost told = { λ s. s.told };

    fn moment(&mut self) -> Option<Moment> {
        let now = self.time.moment()?;
        self.told = self.told.checked_add(1)?;
        Some(now)
    }

    fn passed(&self) -> io::Result<Duration> {
        self.time.clock.monotonic()
    }
}
