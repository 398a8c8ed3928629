//! The rows of a vault.
ghost use Rattle.std.specs.Prelude.{◌≡◌};
ghost use Rattle.vault_core.specs.Lives.{counted_row, handed_lives, row_lives, usual_lives};
ghost use Rattle.vault_core.specs.Vault.{lasts, state_of};

use crate::moment::Moment;
use crate::name::MerchantId;
use crate::reply::State;
use crate::usage::Use;
use vault_pan::lead::Lead;
use vault_pan::pan::Pan;
use vault_pan::token::Token;

/// A merchant, with the counts of its tokens made, numbers given and numbers denied.
#[derive(Clone, Copy, PartialEq, Eq)]
pub struct MerchantRow {
    /// How many seconds a single-use token lives; 0 where they aren't offered.
    pub single_life: u64,
    /// How many seconds a multi-use token lives; 0 where they aren't offered.
    pub multi_life: u64,
    /// How many digits its masks show at the left, at most.
    pub lead: Lead,
    /// The greatest moment of the commands that changed something of the merchant.
    pub moment: Moment,
    pub made: u64,
    pub given: u64,
    pub denied: u64,
}

/// A merchant without its counts: how long its tokens live, how many digits its masks show, and its moment.
#[derive(Clone, Copy, PartialEq, Eq)]
pub struct Lives {
    pub single_life: u64,
    pub multi_life: u64,
    pub moment: Moment,
    pub lead: Lead,
}

impl Lives {
    /// Those of these parts.
    pub fn new(single_life: u64, multi_life: u64, lead: Lead, moment: Moment) -> Lives
        ensures { result ≡ handed_lives single_life multi_life lead moment }
    {
        Lives {
            single_life,
            multi_life,
            moment,
            lead,
        }
    }

    /// These lives of tokens, in seconds, with masks of six digits at the left.
    pub fn usual(single_life: u64, multi_life: u64, moment: Moment) -> Lives
        ensures { result ≡ usual_lives single_life multi_life moment }
    {
        Lives::new(single_life, multi_life, Lead::Six, moment)
    }

    /// The row of a merchant with these and its counts.
    pub fn row(&self, made: u64, given: u64, denied: u64) -> MerchantRow
        ensures { result ≡ counted_row self.now made given denied }
    {
        MerchantRow {
            single_life: self.single_life,
            multi_life: self.multi_life,
            lead: self.lead,
            moment: self.moment,
            made,
            given,
            denied,
        }
    }
}

impl MerchantRow {
    /// All but its counts.
    pub fn lives(&self) -> Lives
        ensures { result ≡ row_lives self.now }
    {
        Lives::new(self.single_life, self.multi_life, self.lead, self.moment)
    }
}

/// What a token stands for.
#[derive(Clone, Copy, PartialEq, Eq)]
pub struct Entry {
    /// The card number, unless it is purged.
    pub number: Option<Pan>,
    pub usage: Use,
    pub birth: Moment,
    /// The first second, since 1970, at which the token isn't live.
    pub expires: u64,
    pub revoked: Option<Moment>,
}

/// What became of an entry by a moment.
#[derive(Clone, Copy, PartialEq, Eq)]
pub enum EntryState {
    /// It has its number, and is live, revoked or expired.
    Kept { number: Pan, state: State },
    /// Its number is purged.
    Purged,
}

impl Entry {
    /// Its state at a moment.
    pub fn state(&self, at: Moment) -> EntryState
        ensures { result ≡ state_of self.now at }
    {
        let Some(number) = self.number else {
            return EntryState::Purged;
        };
        let state = if self.revoked.is_some() {
            State::Revoked
        } else if at.seconds() < self.expires {
            State::Live
        } else {
            State::Expired
        };
        EntryState::Kept { number, state }
    }
}

/// A right that a caller has at a merchant: up to an end, or for good.
#[derive(Clone, Copy, PartialEq, Eq)]
pub struct GrantRow {
    /// The first moment at which the caller doesn't have it any more.
    pub ends: Option<Moment>,
}

impl GrantRow {
    /// Whether the caller has it at a moment.
    pub fn lasts(&self, at: Moment) -> bool
        ensures { result ≡ lasts self.now at }
    {
        match self.ends {
            Some(end) => at.seconds() < end.seconds(),
            None => true,
        }
    }
}

/// What an accepted request was answered.
#[derive(Clone, Copy, PartialEq, Eq)]
pub struct Record {
    pub merchant: MerchantId,
    pub token: Token,
    pub usage: Use,
}
