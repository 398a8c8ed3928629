//! No rowid comes twice: rows that were read in the order of their rowids show it themselves.
ghost use Rattle.std.specs.Prelude.{◌≡◌, IsTrue, List};
ghost use Rattle.std.specs.List.{list_all};
ghost use Rattle.vault_verdict.specs.Apart.{AreApart, AreByRowid, TellsApart};
ghost use Rattle.vault_tables.specs.MerchantTexts.{merchant_values};
ghost use Rattle.vault_tables.specs.RightTexts.{right_values};
ghost use Rattle.vault_tables.specs.CountTexts.{count_values};
ghost use Rattle.vault_verdict.specs.Taken.{HasJudged};
ghost use Rattle.vault_rules.specs.AllRows.{Rows};
ghost use Rattle.vault_rules.specs.declared.rows.RawVersion.{RawVersion as VersionRow};

use crate::behind::Behind;
use vault_rules::rows::{RawCount, RawMerchant, RawRight};

/// Whether each rowid of `merchants` is below the next.
fn merchants(rows: &[RawMerchant]) -> bool
    ensures { TellsApart merchant_values (λ raw. raw.rowid) rows.now result }
{
    rows.is_sorted_by(|earlier, later| earlier.rowid < later.rowid)
}

/// Whether each rowid of `counts` is below the next.
fn counts(rows: &[RawCount]) -> bool
    ensures { TellsApart count_values (λ raw. raw.rowid) rows.now result }
{
    rows.is_sorted_by(|earlier, later| earlier.rowid < later.rowid)
}

/// Whether each rowid of `rights` is below the next.
fn rights(rows: &[RawRight]) -> bool
    ensures { TellsApart right_values (λ raw. raw.rowid) rows.now result }
{
    rows.is_sorted_by(|earlier, later| earlier.rowid < later.rowid)
}

/// Whether all of these are so.
fn all_of(told: [bool; 6]) -> bool
    ensures { result ≡ list_all (λ is. is) told }
{
    told.iter().all(|is| *is)
}

/// Whether no rowid of a table comes twice, where the rows came in the order of their rowids; rows in another
/// order may be told apart or not.
pub(crate) fn are_apart(behind: &Behind) -> bool
    // with true, no rowid comes twice in a table of the rows that were taken
    ensures apart { (rows : Rows) (versions : List VersionRow) → HasJudged rows versions behind.now
        → IsTrue result → AreApart rows }
    // where the rows of each table ascend by their rowids and none comes twice, it is true
    ensures only { (rows : Rows) (versions : List VersionRow) → HasJudged rows versions behind.now
        → AreByRowid rows → AreApart rows → IsTrue result }
{
    let records = &behind.records;
    let entries = records.entries();
    let index = entries.index();
    all_of([
        merchants(index.merchants()),
        counts(index.counts()),
        index.cards().rowids().rises(),
        entries.rowids().rises(),
        records.rowids().rises(),
        rights(&behind.rights),
    ])
}
