//! What is remembered of a list that is followed.
ghost use Rattle.vault_live.specs.Following.{IsFresh};

use crate::follower::Followed;
use std::time::Duration;

/// What is left of the changes that the list in force asks for.
#[derive(Clone, Copy, PartialEq, Eq, Drop)]
pub(crate) enum Left {
    /// Nothing.
    Nothing,
    /// Some of them.
    Changes,
    /// All of them: they are refused since the vault lacks a merchant.
    Merchant,
}

/// What is remembered from one look to the next.
#[derive(Drop)]
pub struct Remembered<'x, R> {
    pub(crate) list: Followed<'x>,
    /// The rows of the text that was taken last, where one was.
    pub(crate) rows: Option<Vec<R>>,
    /// What is left of their changes.
    pub(crate) left: Left,
    /// Whether they are new to whom they are handed out.
    pub(crate) is_new: bool,
    /// How many looks there were, with the one before the service listened.
    pub(crate) look: u64,
    /// When the last one was, by a clock that nobody sets.
    pub(crate) last: Option<Duration>,
    /// Whether the last look read nothing.
    pub(crate) unread: bool,
}

impl<'x, R> Remembered<'x, R> {
    /// The changes of this text are done, which look 0 found, and nothing was looked at since.
    pub fn new(text: &'x [u8]) -> Remembered<'x, R>
        ensures { IsFresh result text.now }
    {
        Remembered {
            list: Followed::new(text),
            rows: None,
            left: Left::Nothing,
            is_new: false,
            look: 1,
            last: None,
            unread: false,
        }
    }
}
