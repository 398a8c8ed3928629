//! The least rule that rows break.
ghost use Rattle.std.specs.Prelude.{◌≡◌, ◌≤◌, ℕ, IfNone, IfSome, None, Some, true, length};
ghost use Rattle.std.specs.Prelude.{slice_index_or};
ghost use Rattle.vault_rules.specs.AllRows.{Rows};
ghost use Rattle.vault_rules.specs.Rules.{IsLeastBroken, keeps};
ghost use Rattle.vault_rules.specs.Seen.{HasRows};
ghost use Rattle.vault_rules.specs.Verdicts.{AreVerdicts, IsFirstBroken};

use crate::records::Records;
use crate::rows::{RawRight, RawVersion};
use crate::rules::callers::are_rights;
use crate::rules::cards::are_cards;
use crate::rules::counts::{are_counted, are_counts};
use crate::rules::ends::have_ends;
use crate::rules::leads::have_leads;
use crate::rules::merchants::{are_lasting, are_named, is_current};

/// How many rules there are.
const RULES: usize = 15;

/// The least number of a rule that the rows break, from 1 on. The records came behind the entries, the
/// merchants, the counts and the cards.
pub fn least_broken(
    versions: &[RawVersion],
    replaced: u64,
    records: &Records,
    rights: &[RawRight],
) -> Option<u8>
    // where these are the rows, none means that they keep each rule
    ensures none { (rows : Rows) → HasRows rows versions.now replaced records.now rights.now
        → result ≡ None → (r : ℕ) → keeps rows r ≡ true }
    // where these are the rows, they break the rule that is given, and none below it
    ensures some { (rows : Rows) → HasRows rows versions.now replaced records.now rights.now
        → (rule : ℕ) → result ≡ Some rule → IsLeastBroken rows rule }
{
    let kept = verdicts(versions, replaced, records, rights);
    first_broken(&kept)
}

/// Whether the rows keep each rule, from 1 on, up to the first that they break.
fn verdicts(
    versions: &[RawVersion],
    replaced: u64,
    records: &Records,
    rights: &[RawRight],
) -> [bool; RULES]
    // where these are the rows, each verdict is so of its rule, as long as each before it is kept
    ensures { (rows : Rows) → HasRows rows versions.now replaced records.now rights.now
        → AreVerdicts rows result }
{
    let entries = &records.entries;
    let index = &entries.index;
    let rules = &entries.rules;
    [
        is_current(versions, replaced),
        are_named(index.merchants),
        are_lasting(index.merchants),
        are_counts(index),
        rules.tokens,
        rules.numbers,
        rules.timed,
        rules.kept,
        entries.live.alone,
        are_counted(entries),
        records.kept,
        are_rights(index, rights),
        are_cards(entries),
        have_leads(index.merchants),
        have_ends(rights),
    ]
}

/// The number of the first rule that isn't kept.
fn first_broken(kept: &[bool]) -> Option<u8>
    // there are at most 255
    requires { length kept.now ≤ 255 }
    // with none, each is kept
    ensures none { IfNone result ((place : ℕ) → slice_index_or kept.now place true ≡ true) }
    // the one that is given isn't kept, and each before it is
    ensures some { IfSome result (IsFirstBroken kept.now) }
{
    let mut rule = 0u8;
    for is_kept in kept {
        rule += 1;
        if !*is_kept {
            return Some(rule);
        }
    }
    None
}
