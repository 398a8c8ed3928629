//! What is noted beside a task that is done.
ghost use Rattle.std.specs.Prelude.{◌≡◌};
ghost use Rattle.vault_jobs.specs.Notes.{beside as beside_of};

use crate::stop::Stop;
use crate::task::{Noted, Outcome};

/// What is noted beside a task that is done.
#[derive(Clone, Copy, PartialEq, Eq, Drop)]
pub enum Note {
    /// The vault doesn't know the merchant whose dead tokens were to be purged.
    NoMerchant,
    /// The clock, which told a sweep's moment, is more than 31 days ahead of the merchant's.
    ClockAhead,
    /// The right that was to be taken away wasn't there.
    NothingWithdrawn,
}

/// How a task ended, with what is noted where it is done.
pub(crate) fn beside(ended: Result<Outcome, Stop>, note: Option<Note>) -> Noted
    // it ended so
    ensures ended { result.0 ≡ ended }
    // the note stands beside it where it is done, and else none does
    ensures note { result.1 ≡ beside_of ended note }
{
    match ended {
        Ok(Outcome::Done) => (ended, note),
        _ => (ended, None),
    }
}
