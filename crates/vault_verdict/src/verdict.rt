//! Whether a file's rows are those of a sound vault.
ghost use Rattle.std.specs.Prelude.{◌≡◌, [], IfOk};
ghost use Rattle.sqlite.specs.Held.{state};
ghost use Rattle.sqlite.specs.State.{HasCleanDisk};
ghost use Rattle.vault_verdict.specs.Refusals.{IsBrokenWhereFull, IsOtherIn, IsStill, IsUntouched};
ghost use Rattle.vault_verdict.specs.Refusals.{LeavesSeen, RowsBreak, TellsNoVersion, TellsOther};
ghost use Rattle.vault_verdict.specs.Refusals.{TellsUnread, TellsUnreadIn};
ghost use Rattle.vault_verdict.specs.Opened.{AreOldersIn, IsOtherVersion};
ghost use Rattle.vault_verdict.specs.Opened.{IsSoundIn, IsSoundOf};
ghost use Rattle.vault_verdict.specs.ReadAs.{IsFullIn};
ghost use Rattle.vault_verdict.specs.Reading.{IsOurs, IsQuiet};
ghost use Rattle.vault_verdict.specs.Judging.{Judges, JudgesAll, WhereCards, first_rows, named_in};
ghost use Rattle.vault_verdict.specs.Judging.{named_rows};
ghost use Rattle.vault_rules.specs.HeldRows.{HoldCards};
ghost use Rattle.vault_schema.specs.Schema.{newest_schema};
ghost use Rattle.vault_schema.specs.Versions.{newest, schema_of};

use crate::behind::read_behind;
use crate::fault::OpenFault;
use crate::first_rows::{First, read_first};
use crate::judge::{judge, other_in};
use crate::sizes::Sizes;
use crate::whole_tables::{self, WithCards, version_rows};
use sqlite::{Alter, Connection};
use std::alloc::Global;
use vault_rules::index::Index;
use vault_rules::rows::RawVersion;
use vault_schema::version::{NEWEST, Version};
use vault_tables::entries::old::OldEntry;

/// A vault that was judged to be sound: how much it holds, and the entries of schema 1 as they stand there.
#[derive(Drop)]
pub struct Judged {
    pub sizes: Sizes,
    pub olders: Vec<OldEntry>,
}

/// What rows come to of which the cards were taken.
fn judge_behind<'a, S: Alter>(
    alloc: Global,
    conn: &mut Connection<S>,
    version: Version,
    versions: &[RawVersion],
    olders: &[OldEntry],
    index: Index<'a>,
) -> Result<Sizes, OpenFault>
    // in the version's schema, on an honest disk, rows that weren't read aren't judged, and of all others
    // this is the verdict
    ensures told { WhereCards index.entry (λ cards. Judges S.Store version
        (first_rows (named_rows versions.now index.entry) olders.now cards) result conn.old conn.new) }
    ensures versioned { TellsNoVersion result }
    // in the version's schema, on an honest disk, a crash leaves nothing new; no doubt goes away, and no
    // transaction begins
    ensures nothing_new { IsStill S.Store version conn.old conn.new }
{
    let behind = read_behind(alloc, conn, version, olders, index)?;
    judge(versions, &behind)
}

/// What rows come to of which no card was taken yet.
fn judge_cards<'a, S: Alter>(
    alloc: Global,
    conn: &mut Connection<S>,
    version: Version,
    versions: &[RawVersion],
    index: Index<'a>,
) -> Result<Judged, OpenFault>
    // in the version's schema, on an honest disk, rows that weren't read aren't judged, and of all others
    // this is the verdict
    ensures told { HoldCards index.entry.merchants.now index.entry.cards []
        → JudgesAll S.Store version (named_rows versions.now index.entry) result conn.old conn.new }
    ensures versioned { TellsNoVersion result }
    // in the version's schema, on an honest disk, a crash leaves nothing new; no doubt goes away, and no
    // transaction begins
    ensures nothing_new { IsStill S.Store version conn.old conn.new }
{
    let WithCards { olders, index } = whole_tables::cards(alloc, conn, version, index)?;
    let sizes = judge_behind(alloc, conn, version, versions, &olders, index)?;
    Ok(Judged { sizes, olders })
}

/// What the first rows come to, and those behind them.
fn judge_first<S: Alter>(
    alloc: Global,
    conn: &mut Connection<S>,
    version: Version,
    versions: &[RawVersion],
    first: &First,
) -> Result<Judged, OpenFault>
    // in the version's schema, on an honest disk, rows that weren't read aren't judged, and of all others
    // this is the verdict
    ensures told { JudgesAll S.Store version (named_in versions.now first.now) result conn.old conn.new }
    ensures versioned { TellsNoVersion result }
    // in the version's schema, on an honest disk, a crash leaves nothing new; no doubt goes away, and no
    // transaction begins
    ensures nothing_new { IsStill S.Store version conn.old conn.new }
{
    let index = Index::of(alloc, &first.merchants, &first.counts)?;
    judge_cards(alloc, conn, version, versions, index)
}

/// Reads all tables of a version as those of the newest one, and says what they hold where they stand for a
/// sound vault.
pub fn verdict<S: Alter>(
    alloc: Global,
    conn: &mut Connection<S>,
    version: Version,
) -> Result<Judged, OpenFault>
    // with Ok, on an honest disk, full rows of the version stand for a sound vault of these sizes
    ensures sound { HasCleanDisk (state S.Store conn.new)
        → IfOk result (λ it. IsFullIn version (state S.Store conn.old).now
        → IsSoundIn version (state S.Store conn.old).now it.sizes) }
    // with Ok, on an honest disk, where the version has no cards and full rows, these are its entries, in
    // some order
    ensures olders { HasCleanDisk (state S.Store conn.new)
        → IfOk result (λ it. IsFullIn version (state S.Store conn.old).now
        → AreOldersIn version (state S.Store conn.old).now.trees it.olders.items) }
    // with Ok, on an honest disk, nothing changed in the schema of the version
    ensures kept { IsUntouched S.Store version conn.old conn.new result }
    // on an honest disk, 31 says the least rule that the rows break, where they are full and the version's
    ensures damaged { RowsBreak S.Store conn.old conn.new result
        (IsBrokenWhereFull version) }
    // on an honest disk, 30 says the other version that is told, where the schema is this version's
    ensures versioned { TellsOther S.Store conn.old conn.new result
        (IsOtherIn version) }
    // on an honest disk, 33 comes to full rows of the version only where a table isn't read or a rowid comes
    // twice
    ensures unread { TellsUnreadIn S.Store version conn.old conn.new result }
    // on an honest disk, after 30 and 31 the connection sees what it saw, where the schema is this version's
    ensures unchanged { LeavesSeen S.Store conn.old conn.new result
        ((state S.Store conn.old).now.schema ≡ schema_of version) }
    // in the version's schema, on an honest disk, a crash leaves nothing new; no doubt goes away, and no
    // transaction begins
    ensures nothing_new { IsStill S.Store version conn.old conn.new }
{
    let versions = version_rows(alloc, conn)?;
    if let Some(other) = other_in(&versions, version) {
        return Err(OpenFault::WrongSchema(other));
    }
    let first = read_first(alloc, conn, version)?;
    judge_first(alloc, conn, version, &versions, &first)
}

/// The verdict over a file in the newest version.
pub fn newest_verdict<S: Alter>(alloc: Global, conn: &mut Connection<S>) -> Result<Sizes, OpenFault>
    // with Ok, on an honest disk, full rows in the newest schema stand for a sound vault of these sizes
    ensures sound { HasCleanDisk (state S.Store conn.new)
        → IfOk result
        (λ sizes. IsOurs (state S.Store conn.old).now → IsSoundOf (state S.Store conn.old).now sizes) }
    // with Ok, on an honest disk, nothing changed in the newest schema
    ensures kept { IsUntouched S.Store newest conn.old conn.new result }
    // on an honest disk, 31 says the least rule that the rows break, where they are full and the newest
    // version's
    ensures damaged { RowsBreak S.Store conn.old conn.new result
        (IsBrokenWhereFull newest) }
    // on an honest disk, in the newest schema, 30 says the other version that the database tells
    ensures versioned { TellsOther S.Store conn.old conn.new result
        (λ db n. db.schema ≡ newest_schema → IsOtherVersion db n) }
    // on an honest disk, 33 comes to a vault's tables with full rows only where one isn't read or a rowid
    // comes twice
    ensures unread { TellsUnread S.Store conn.old conn.new result }
    // on an honest disk, after 30 and 31 the connection sees what it saw, where the schema is the newest
    ensures unchanged { LeavesSeen S.Store conn.old conn.new result
        ((state S.Store conn.old).now.schema ≡ newest_schema) }
    // in the newest schema, on an honest disk, a crash leaves nothing new; no doubt goes away, and no
    // transaction begins
    ensures nothing_new { IsQuiet (state S.Store conn.old) (state S.Store conn.new) }
{
    match verdict(alloc, conn, NEWEST) {
        Ok(it) => Ok(it.sizes),
        Err(fault) => Err(fault),
    }
}
