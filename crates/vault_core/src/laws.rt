//! Laws over every list of commands from a sound vault.
ghost use Rattle.std.specs.Prelude.{◌≡◌};
ghost use Rattle.vault_core.specs.Isolation.{StepsAreIsolated, RunsAreIsolated};
ghost use Rattle.vault_core.specs.Sound.{Sound};
ghost use Rattle.vault_core.specs.Vault.{empty_vault};
ghost use Rattle.vault_core.specs.Laws.{StaysSound, TokensFail, NumbersNeverShare, RepeatsAnswerFirst};
ghost use Rattle.vault_core.specs.Laws.{UnacceptedCanBeLeftOut};
ghost use Rattle.vault_core.specs.Yields.{LiveTokensYield, CountsFollow};

use crate::limit::{LAST_MOMENT, LONGEST_LIFE, MOST_COUNT, MOST_MERCHANTS, MOST_TOKENS};

/// The limits, in numerals.
pub fn limits_are()
    ensures merchants { MOST_MERCHANTS ≡ 10000 }
    ensures tokens { MOST_TOKENS ≡ 1000000 }
    ensures count { MOST_COUNT ≡ 4611686018427387903 }
    ensures life { LONGEST_LIFE ≡ 3155760000 }
    ensures moment { LAST_MOMENT ≡ 253402300799 }
{}

/// The empty vault is sound.
pub fn empty_is_sound()
    ensures { Sound empty_vault }
{}

/// Every vault that commands leave is sound.
pub fn stays_sound()
    ensures { StaysSound }
{}

/// No token passes the card check.
pub fn tokens_fail()
    ensures { TokensFail }
{}

/// No two card numbers ever share a merchant's token.
pub fn numbers_never_share()
    ensures { NumbersNeverShare }
{}

/// A repeated request is answered its first token and expires.
pub fn repeats_answer_first()
    ensures { RepeatsAnswerFirst }
{}

/// Every live token yields its number to those entitled.
pub fn live_tokens_yield()
    ensures { LiveTokensYield }
{}

/// Each number given is one step of its merchant's count, and so is each number denied.
pub fn counts_follow()
    ensures { CountsFollow }
{}

/// What a caller is answered at a merchant depends on that merchant's rows and that caller's records alone.
pub fn steps_are_isolated()
    ensures { StepsAreIsolated }
{}

/// Other merchants' commands change no reply, while merchants fit and each caller asks for tokens at one
/// merchant.
pub fn runs_are_isolated()
    ensures { RunsAreIsolated }
{}

/// Commands that aren't accepted can be left out, and the last vault is the same.
pub fn unaccepted_can_be_left_out()
    ensures { UnacceptedCanBeLeftOut }
{}
