//! The few rows of a vault that one command needs.
ghost use Rattle.std.specs.Prelude.{◌≡◌};

use crate::row::{Entry, MerchantRow, Record};
use vault_pan::token::Token;

/// What a vault holds at the places that a command needs.
#[derive(Clone, Copy)]
pub struct Window {
    /// The merchant that the command names.
    pub merchant: Option<MerchantRow>,
    /// How many merchants there are.
    pub merchants: u64,
    /// Whether the caller has the right that the command needs.
    pub right: bool,
    /// The record of the request, with its entry.
    pub recorded: Option<(Record, Entry)>,
    /// The live multi-use token of the card number, with its entry, where one is asked for.
    pub current: Option<(Token, Entry)>,
    /// The first good candidate of the draw.
    pub candidate: Option<Token>,
    /// What the token that the command names stands for.
    pub named: Option<Entry>,
}

impl Window {
    ghost use Rattle.vault_core.specs.Window.{empty_window};

    /// A window that shows nothing.
    pub fn empty() -> Window
        ensures { result ≡ empty_window }
    {
        Window {
            merchant: None,
            merchants: 0,
            right: false,
            recorded: None,
            current: None,
            candidate: None,
            named: None,
        }
    }
}
