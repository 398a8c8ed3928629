//! How many rows a batch answered.
ghost use Rattle.std.specs.Prelude.{◌≡◌, ◌+◌, ◌≤◌};

/// How many rows a batch answered, and how.
#[derive(Clone, Copy, PartialEq, Eq, Drop)]
pub struct Counts {
    /// All rows.
    pub rows: u64,
    /// The rows whose line has a token.
    pub tokens: u64,
    /// The other rows.
    pub refused: u64,
}

impl Counts {
    /// Of so many rows, of which so many have a token.
    pub(crate) fn new(rows: u64, tokens: u64) -> Counts
        // no more have a token than there are rows
        requires { tokens ≤ rows }
        // there are so many rows
        ensures rows { result.rows ≡ rows }
        // so many have a token
        ensures tokens { result.tokens ≡ tokens }
        // each row has a token or is refused
        ensures both { result.rows ≡ result.tokens + result.refused }
    {
        Counts {
            rows,
            tokens,
            refused: rows - tokens,
        }
    }
}
