//! How long a peer may take.
use std::time::Duration;

/// How many seconds a message may take to come whole, and an answer to be taken.
pub const PATIENCE: u64 = 5;

/// How many seconds a connection lasts at most.
pub const LONGEST: u64 = 60;

/// For how many milliseconds a peer that sends nothing is left alone, though another one waits.
pub const ALONE: u64 = 50;

/// How long a peer may take.
#[derive(Clone, Copy)]
pub struct Limits {
    /// For a message to come whole, since its connection was accepted or the answer before it was taken; and
    /// for an answer to be taken whole.
    pub turn: Duration,
    /// For all messages of a connection.
    pub connection: Duration,
}

impl Limits {
    /// Those of a service.
    pub fn of_service() -> Limits {
        Limits {
            turn: Duration::from_secs(PATIENCE),
            connection: Duration::from_secs(LONGEST),
        }
    }
}
