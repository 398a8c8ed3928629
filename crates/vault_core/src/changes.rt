//! The few rows of a vault that one command changes.
ghost use Rattle.std.specs.Prelude.{◌≡◌, ◌↔◌, IsTrue};
ghost use Rattle.vault_core.specs.Numbers.{count_number};

use crate::name::{Caller, MerchantId};
use crate::request::RequestNo;
use crate::right::Right;
use crate::row::{Entry, GrantRow, Lives, Record};
use vault_pan::token::Token;

/// Which count of the merchant goes up by one. The numbers stand in the stored rows.
#[derive(Clone, Copy, PartialEq, Eq)]
pub enum Count {
    Made = 1,
    Given,
    Denied,
}

impl Count {
    /// Its number.
    pub fn number(self) -> u8
        ensures { result ≡ count_number self }
    {
        self as u8
    }
}

/// What a command changes.
#[derive(Clone, Copy)]
pub struct Changes {
    /// What a merchant has from now on, but its counts.
    pub lives: Option<(MerchantId, Lives)>,
    pub count: Option<Count>,
    pub entry: Option<(MerchantId, Token, Entry)>,
    pub recorded: Option<(Caller, RequestNo, Record)>,
    /// A right that is there from now on, up to its end, or isn't.
    pub right: Option<(Caller, MerchantId, Right, Option<GrantRow>)>,
}

impl Changes {
    ghost use Rattle.vault_core.specs.Changes.{no_changes};

    /// No changes.
    pub fn none() -> Changes
        ensures { result ≡ no_changes }
    {
        Changes {
            lives: None,
            count: None,
            entry: None,
            recorded: None,
            right: None,
        }
    }

    /// Whether nothing changes.
    pub fn is_none(&self) -> bool
        ensures { IsTrue result ↔ (self.now ≡ no_changes) }
    {
        self.lives.is_none()
            && self.count.is_none()
            && self.entry.is_none()
            && self.recorded.is_none()
            && self.right.is_none()
    }
}
