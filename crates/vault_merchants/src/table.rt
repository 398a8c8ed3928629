//! The whole numbers of a merchant's table, the lives and the lead that they are, and who sweeps.
ghost use Rattle.std.specs.Prelude.{◌≡◌, ℕ, ℤ, Option, IfSome, IfNone, IsTrue, codes, option_map};
ghost use Rattle.std.specs.Bool.{Decides};
ghost use Rattle.toml.specs.Data.{get_member, integer, string};
ghost use Rattle.toml.specs.View.{table_view};
ghost use Rattle.vault_core.specs.Keys.{Bytes};
ghost use Rattle.vault_core.specs.Name.{IsName};
ghost use Rattle.vault_pan.specs.declared.lead.Lead.{Lead as LeadOf};
ghost use Rattle.vault_merchants.specs.ListedMerchants.{AreLivesOf, HasOnly, IsKnown, IsLeadOf};
ghost use Rattle.vault_merchants.specs.ListedMerchants.{IsLifeOf, IsTableOf};

use toml::Table;
use vault_core::limit::LONGEST_LIFE;
use vault_core::name::Caller;
use vault_pan::lead::Lead;

/// The whole numbers of a table: those of its two lives, and of its lead, where it says one.
pub(crate) type Numbers = (i64, i64, Option<i64>);

/// Whether a key is one of the four.
fn is_known(key: &str) -> bool
    ensures { Decides result (IsKnown key.now) }
{
    key == "single" || key == "multi" || key == "lead" || key == "sweep"
}

/// Whether a table has no other key.
fn has_only_known(members: &Table) -> bool
    ensures { Decides result (HasOnly (table_view members.now)) }
{
    for (key, _) in members.iter() {
        if !is_known(key.as_str()) {
            return false;
        }
    }
    true
}

/// The whole number at a key, where one stands there.
fn number_at(members: &Table, key: &str) -> Option<i64>
    // a number that is given stands there
    ensures stands { IfSome result (λ n. get_member key.now (table_view members.now) ≡ Some (integer n)) }
    // where none is given, no whole number stands there
    ensures none { IfNone result
        ((n : ℤ) → ¬ (get_member key.now (table_view members.now) ≡ Some (integer n))) }
{
    let number = members.get(key)?.as_integer()?;
    Some(number)
}

/// The whole number that a table says its lead is, or that it says none; nothing, where it says something
/// else.
fn lead_at(members: &Table) -> Option<Option<i64>>
    // a number that is given stands there, or nothing does
    ensures stands { IfSome result
        (λ lead. get_member (codes "lead") (table_view members.now) ≡ option_map integer lead) }
    // where nothing is given, neither is so
    ensures none { IfNone result ((lead : Option ℤ)
        → ¬ (get_member (codes "lead") (table_view members.now) ≡ option_map integer lead)) }
{
    match members.get("lead") {
        None => return Some(None),
        Some(_) => {}
    }
    let number = number_at(members, "lead")?;
    Some(Some(number))
}

/// The caller whose name stands at a key, where one stands there.
fn caller_at(members: &Table, key: &str) -> Option<Caller>
    // a name that is given stands there
    ensures stands { IfSome result (λ name. (get_member key.now (table_view members.now) ≡ Some (string name))
        × IsName name) }
    // where none is given, no name of a caller stands there
    ensures none { IfNone result ((name : Bytes) → IsName name
        → ¬ (get_member key.now (table_view members.now) ≡ Some (string name))) }
{
    let text = members.get(key)?.as_str()?;
    match Caller::read(text.as_bytes()) {
        Ok(name) => Some(name),
        Err(_) => None,
    }
}

/// The caller who sweeps by a table, or that it says none; nothing, where it says something else.
fn sweeper_at(members: &Table) -> Option<Option<Caller>>
    // a name that is given stands there, or nothing does
    ensures stands { IfSome result
        (λ name. (get_member (codes "sweep") (table_view members.now) ≡ option_map string name)
        × IfSome name IsName) }
    // where nothing is given, neither is so
    ensures none { IfNone result ((name : Option Bytes) → IfSome name IsName
        → ¬ (get_member (codes "sweep") (table_view members.now) ≡ option_map string name)) }
{
    match members.get("sweep") {
        None => return Some(None),
        Some(_) => {}
    }
    let name = caller_at(members, "sweep")?;
    Some(Some(name))
}

/// The numbers of a table of exactly these, and who sweeps, where it says so.
pub(crate) fn parts_of(members: &Table) -> Option<(Numbers, Option<Caller>)>
    // parts that are given are the table's, and it has nothing else
    ensures are { IfSome result (λ it. IsTableOf (table_view members.now) it.0.0 it.0.1 it.0.2 it.1) }
    // where none are given, the table isn't of exactly such parts
    ensures none { IfNone result ((single multi : ℤ) (lead : Option ℤ) (sweeper : Option Bytes)
        → ¬ IsTableOf (table_view members.now) single multi lead sweeper) }
{
    if !has_only_known(members) {
        return None;
    }
    let single = number_at(members, "single")?;
    let multi = number_at(members, "multi")?;
    let lead = lead_at(members)?;
    let sweeper = sweeper_at(members)?;
    Some(((single, multi, lead), sweeper))
}

/// The life that a number is.
fn life_of(number: i64) -> Option<u64>
    // a life that is given is the number
    ensures is { IfSome result (IsLifeOf number) }
    // where none is given, the number is no life
    ensures none { IfNone result ((life : ℕ) → ¬ IsLifeOf number life) }
{
    if number < 0 {
        return None;
    }
    let life = number as u64;
    if life > LONGEST_LIFE {
        return None;
    }
    Some(life)
}

/// The lead that a number is; six, where there is none.
fn lead_of(number: Option<i64>) -> Option<Lead>
    // a lead that is given is the number's
    ensures is { IfSome result (IsLeadOf number) }
    // where none is given, the number is no lead's
    ensures none { IfNone result ((lead : LeadOf) → ¬ IsLeadOf number lead) }
{
    let Some(number) = number else {
        return Some(Lead::Six);
    };
    if number < 0 {
        return None;
    }
    Lead::of(number as u64)
}

/// The lives and the lead that numbers are.
pub(crate) fn lives_of(numbers: Numbers) -> Option<(u64, u64, Lead)>
    // what is given are the numbers
    ensures are { IfSome result (λ it. AreLivesOf numbers.0 numbers.1 numbers.2 it.0 it.1 it.2) }
    // where nothing is given, one of them is no life, or no lead
    ensures none { IfNone result ((single multi : ℕ) (lead : LeadOf)
        → ¬ AreLivesOf numbers.0 numbers.1 numbers.2 single multi lead) }
{
    let single = life_of(numbers.0)?;
    let multi = life_of(numbers.1)?;
    let lead = lead_of(numbers.2)?;
    Some((single, multi, lead))
}
