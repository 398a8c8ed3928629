//! Rounds over the merchants that are swept.

use std::time::Duration;

/// How many seconds pass between two rounds.
const BETWEEN: u64 = 60;

/// How many pass behind a merchant that isn't swept, though tokens of it are dead.
const BEHIND: u64 = 1;

/// How often it is said of a merchant that it isn't: once in so many seconds, a day.
const SAID: u64 = 86_400;

/// How far a round has come, by a clock that nobody sets.
#[derive(Clone, Copy, Drop)]
pub(crate) struct Round {
    /// The row that is looked at next.
    pub(crate) at: usize,
    /// When the last look ended behind which there is a pause, and how many seconds that takes.
    pause: Option<(Duration, u64)>,
    /// Whether it is said in this round which merchants aren't swept.
    pub(crate) says: bool,
    /// When the last round ended in which it was.
    said: Option<Duration>,
}

/// Whether so many seconds have passed since then.
fn has_passed(since: Duration, seconds: u64, now: Duration) -> bool {
    now.saturating_sub(since) >= Duration::from_secs(seconds)
}

impl Round {
    /// A first round, which begins at once.
    pub(crate) fn new() -> Round {
        Round {
            at: 0,
            pause: None,
            says: true,
            said: None,
        }
    }

    /// Whether it goes on now.
    pub(crate) fn is_due(&self, now: Duration) -> bool {
        match self.pause {
            Some((since, seconds)) => has_passed(since, seconds, now),
            None => true,
        }
    }

    /// It goes on with this row.
    pub(crate) fn stay(&mut self, at: usize) {
        self.at = at;
        self.pause = None;
    }

    /// It goes on behind this row, of which nothing was due.
    pub(crate) fn pass(&mut self, at: usize) {
        self.at = at.saturating_add(1);
        self.pause = None;
    }

    /// It goes on behind this row, whose merchant isn't swept.
    pub(crate) fn wait(&mut self, at: usize, now: Duration) {
        self.at = at.saturating_add(1);
        self.pause = Some((now, BEHIND));
    }

    /// It has ended, and the next one comes after a pause.
    pub(crate) fn end(&mut self, now: Duration) {
        if self.says {
            self.said = Some(now);
        }
        self.says = match self.said {
            Some(said) => has_passed(said, SAID, now),
            None => true,
        };
        self.at = 0;
        self.pause = Some((now, BETWEEN));
    }
}
