//! Whether rows are those of a sound vault.
ghost use Rattle.std.specs.Prelude.{◌≡◌};
ghost use Rattle.vault_verdict.specs.Refusals.{TellsNoVersion};
ghost use Rattle.vault_verdict.specs.Judging.{IsVerdictOf};
ghost use Rattle.vault_verdict.specs.Versions.{is_other, other_than, other_version};
ghost use Rattle.vault_verdict.specs.Taken.{HasJudged};
ghost use Rattle.vault_rules.specs.AllRows.{Rows};
ghost use Rattle.vault_schema.specs.Versions.{number_of};

use crate::apart::are_apart;
use crate::behind::Behind;
use crate::fault::OpenFault;
use crate::sizes::Sizes;
use vault_rules::least::least_broken;
use vault_rules::rows::RawVersion;
use vault_schema::version::{NEWEST, Version};

/// Whether this is the row with the id 1, and says another version than this one.
fn is_other(row: &RawVersion, version: i64) -> bool
    ensures { result ≡ is_other version row.now }
{
    row.id == 1 && row.version != version
}

/// The version of the row with the id 1, where it isn't this one.
pub fn other_than(versions: &[RawVersion], version: i64) -> Option<i64>
    ensures { result ≡ other_than version versions.now }
{
    versions
        .iter()
        .find(|row| is_other(row, version))
        .map(|row| row.version)
}

/// The version of the row with the id 1, where it isn't that of the schema.
pub(crate) fn other_in(versions: &[RawVersion], version: Version) -> Option<i64>
    ensures { result ≡ other_than (number_of version) versions.now }
{
    other_than(versions, version.number())
}

/// The version of the row with the id 1, where it isn't the newest.
pub(crate) fn other_version(versions: &[RawVersion]) -> Option<i64>
    ensures { result ≡ other_version versions.now }
{
    other_in(versions, NEWEST)
}

/// The sizes of rows that keep each rule; 31 names the least that they break.
pub(crate) fn judge(versions: &[RawVersion], behind: &Behind) -> Result<Sizes, OpenFault>
    // this is the verdict on the rows that were taken: their sizes, or 31 with the least rule that they
    // break, or 33
    ensures verdict { (rows : Rows) → HasJudged rows versions.now behind.now → IsVerdictOf rows result }
    ensures versioned { TellsNoVersion result }
{
    let records = &behind.records;
    if let Some(rule) = least_broken(versions, behind.replaced, records, &behind.rights) {
        return Err(OpenFault::Damaged(rule));
    }
    if !are_apart(behind) {
        return Err(OpenFault::Store);
    }
    Ok(Sizes::of(records))
}
