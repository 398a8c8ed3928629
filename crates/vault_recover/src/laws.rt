//! Laws over every history of a store: whatever was stopped, reopened and migrated on the way.
//!
//! A call of `Vault::apply` that answers is the step `Answered`, and one without an answer is `Undecided`;
//! `open` and `check` are `Reopened`; `migrate` and `migrate_all` are `Migrated`.
ghost use Rattle.vault_recover.specs.Histories.{EntriesComeOnce, EveryVaultIsSound, GivenIsWithin};
ghost use Rattle.vault_recover.specs.Histories.{RequestsAnswerOnce};

/// Each vault that a history leaves is sound.
pub fn every_vault_is_sound()
    ensures { EveryVaultIsSound }
{}

/// All tokens that were ever answered to a caller's request are one, with one expires.
pub fn requests_answer_once()
    ensures { RequestsAnswerOnce }
{}

/// At most one step makes an entry for a caller's request.
pub fn entries_come_once()
    ensures { EntriesComeOnce }
{}

/// A merchant's count of numbers given is at least that of the numbers that were answered, and at most that
/// and the Detokenize commands of which no answer came.
pub fn given_is_within()
    ensures { GivenIsWithin }
{}
