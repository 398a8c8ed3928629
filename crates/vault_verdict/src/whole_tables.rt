//! Each table is read by one query, in the order of its rowids; what an older version can't hold has its
//! default.
ghost use Rattle.std.specs.Prelude.{◌≡◌, ◌≤◌, ◌⊎◌, List, IfErr, IfOk, OnOk, cond};
ghost use Rattle.sqlite.specs.Effect.{IsDatabase};
ghost use Rattle.sqlite.specs.Held.{state};
ghost use Rattle.sqlite.specs.State.{IsUnchanged};
ghost use Rattle.sqlite.specs.Table.{Table};
ghost use Rattle.sqlite_schema.specs.declared.schema.Index.{Index as SqlIndex};
ghost use Rattle.sql_tables.specs.Schema.{grown};
ghost use Rattle.sql_tables.specs.States.{Reads};
ghost use Rattle.vault_verdict.specs.Refusals.{IsStillVersioned};
ghost use Rattle.sql_tables.specs.Reading.{InSchema, IsUnread, ReadsTable, TakesTable};
ghost use Rattle.sql_tables.specs.Scans.{table_look};
ghost use Rattle.vault_rules.specs.declared.rows.RawCard.{RawCard as CardRow};
ghost use Rattle.vault_rules.specs.declared.rows.RawEntry.{RawEntry as EntryRow};
ghost use Rattle.vault_schema.specs.Layers.{is_from};
ghost use Rattle.vault_schema.specs.Schemas.{v1};
ghost use Rattle.vault_schema.specs.Schemas.{v2};
ghost use Rattle.vault_schema.specs.Versions.{schema_of};
ghost use Rattle.vault_tables.specs.declared.entries.old.TheConstants.{READ_OLD_ENTRIES};
ghost use Rattle.vault_verdict.specs.Opened.{AreVersions};
ghost use Rattle.vault_tables.specs.CountTexts.{count_scan};
ghost use Rattle.vault_tables.specs.EntryTexts.{old_entry_scan, old_entry_values};
ghost use Rattle.vault_tables.specs.RecordTexts.{record_scan};
ghost use Rattle.vault_verdict.specs.ReadAs.{IsUnreadReplaced, merchants_look, rights_look};
ghost use Rattle.vault_verdict.specs.ReadAs.{left_in as left_spec, replaced_in};
ghost use Rattle.vault_verdict.specs.ReadIn.{RefusesIn};
ghost use Rattle.vault_verdict.specs.Reading.{AreEntriesIn, AreOldCards, AreVersionsUnread, InVersioned};
ghost use Rattle.vault_verdict.specs.Reading.{IsUnreadCards, IsUnreadEntries, ReadsCards, TakesCards};
ghost use Rattle.vault_tables.specs.Taken.{CardsTaken, EntriesTaken, RecordsTaken};

use crate::made;
use sql_tables::fault::StoreFault;
use sql_tables::left::any_left;
use sql_tables::raws::shown;
use sql_tables::whole::{read_all, take_all};
use sqlite::{Alter, Connection};
use std::alloc::Global;
use vault_rules::entries::Entries;
use vault_rules::index::Index;
use vault_rules::records::Records;
use vault_rules::rows::{RawCount, RawMerchant, RawRight, RawVersion};
use vault_schema::version::Version;
use vault_tables::cards::Cards;
use vault_tables::counts::Counts;
use vault_tables::entries::Entries as EntriesTable;
use vault_tables::entries::old::OldEntry;
use vault_tables::merchants::Merchants;
use vault_tables::merchants::old::OldMerchants;
use vault_tables::records::Records as RecordsTable;
use vault_tables::rights::Rights;
use vault_tables::rights::old::OldRights;
use vault_tables::versions::{READ_VERSIONS, Versions};

/// The rows of `vault`, in whatever schema that has it.
pub fn version_rows<S: Alter>(
    alloc: Global,
    conn: &mut Connection<S>,
) -> Result<Vec<RawVersion>, StoreFault>
    // where the schema has a version, on an honest disk, Ok gives the rows of `vault`, in some order
    ensures told { InVersioned S.Store conn.old conn.new
        (λ db. IfOk result (λ raws. AreVersions db.trees raws.items)) }
    // where the schema has a version, on an honest disk, Ok means that the database is sound
    ensures live { InVersioned S.Store conn.old conn.new (λ db. OnOk result (IsDatabase db)) }
    // where the schema has a version, on an honest disk, nothing changed with Ok
    ensures kept { InVersioned S.Store conn.old conn.new
        (λ _. OnOk result (IsUnchanged (state S.Store conn.old) (state S.Store conn.new))) }
    // where the schema has a version, on an honest disk, Store comes only where the rows of `vault` aren't
    // read
    ensures refused { InVersioned S.Store conn.old conn.new
        (λ db. IfErr result (λ e. e ≡ StoreFault.Store → AreVersionsUnread S.Store db conn.new)) }
    // in a schema with a version, on an honest disk, a crash leaves nothing new; no doubt goes away, and no
    // transaction begins
    ensures nothing_new { IsStillVersioned S.Store conn.old conn.new }
{
    shown::<S, Versions>(alloc, conn, READ_VERSIONS)
}

/// The merchants of a version.
pub(crate) fn merchants<S: Alter>(
    alloc: Global,
    conn: &mut Connection<S>,
    version: Version,
) -> Result<Vec<RawMerchant>, StoreFault>
    ensures { ReadsTable S.Store (merchants_look version) result conn.old conn.new }
{
    if version.is_from(Version::Three) {
        read_all::<S, Merchants>(alloc, conn)
    } else {
        read_all::<S, OldMerchants>(alloc, conn)
    }
}

/// The rows of `counts`, in each version.
pub(crate) fn counts<S: Alter>(
    alloc: Global,
    conn: &mut Connection<S>,
) -> Result<Vec<RawCount>, StoreFault>
    ensures { (v : Version) → ReadsTable S.Store (table_look count_scan (schema_of v)) result conn.old
        conn.new }
{
    read_all::<S, Counts>(alloc, conn)
}

/// What takes the rows of `records`, in each version.
pub(crate) fn records<'a, S: Alter>(
    conn: &mut Connection<S>,
    start: Records<'a>,
) -> Result<Records<'a>, StoreFault>
    ensures { (v : Version) → TakesTable S.Store (table_look record_scan (schema_of v))
        (RecordsTaken start.entry) result conn.old conn.new }
{
    take_all::<S, RecordsTable, _>(conn, start)
}

/// The rights of a version.
pub(crate) fn rights<S: Alter>(
    alloc: Global,
    conn: &mut Connection<S>,
    version: Version,
) -> Result<Vec<RawRight>, StoreFault>
    ensures { ReadsTable S.Store (rights_look version) result conn.old conn.new }
{
    if version.is_from(Version::Four) {
        read_all::<S, Rights>(alloc, conn)
    } else {
        read_all::<S, OldRights>(alloc, conn)
    }
}

/// The rows of `entries`, the table of schema 1.
fn old_entries<S: Alter>(
    alloc: Global,
    conn: &mut Connection<S>,
) -> Result<Vec<OldEntry>, StoreFault>
    ensures { ReadsTable S.Store (table_look old_entry_scan v1) result conn.old conn.new }
{
    read_all::<S, OldEntry>(alloc, conn)
}

/// What took cards; with it the entries of schema 1, as they stand there.
#[derive(Drop)]
pub(crate) struct WithCards<'a> {
    pub olders: Vec<OldEntry>,
    pub index: Index<'a>,
}

/// The entries of schema 1, and what takes a card for each number of them.
fn first_cards<'a, S: Alter>(
    alloc: Global,
    conn: &mut Connection<S>,
    start: Index<'a>,
) -> Result<WithCards<'a>, StoreFault>
    // it only reads: no doubt goes away, and in schema 1, on an honest disk, nothing changes with Ok
    ensures reads { Reads v1 result (state S.Store conn.old) (state S.Store conn.new) }
    // in schema 1, on an honest disk, Ok gives the entries and has taken the cards of them
    ensures told { InSchema S.Store v1 conn.old conn.new (λ db. IfOk result (λ it.
        (raws : List CardRow) × CardsTaken start.entry it.index raws × AreOldCards db it.olders.items raws)) }
    // in schema 1, on an honest disk, Store comes only where the entries aren't read
    ensures refused { RefusesIn S.Store v1 conn.old conn.new result
        (IsUnread S.Store READ_OLD_ENTRIES.now old_entry_values) }
{
    let olders = old_entries(alloc, conn)?;
    let index = made::cards(alloc, &olders, start)?;
    Ok(WithCards { olders, index })
}

/// What takes the cards of a later schema.
fn later_cards<'a, S: Alter>(
    alloc: Global,
    conn: &mut Connection<S>,
    start: Index<'a>,
) -> Result<WithCards<'a>, StoreFault>
    // it only reads: no doubt goes away, and in schema 2 or one grown from it, on an honest disk, nothing
    // changes with Ok
    ensures reads { (others : List Table) (indexes : List SqlIndex) → Reads (grown v2 others indexes) result
        (state S.Store conn.old) (state S.Store conn.new) }
    // in schema 2 or one grown from it, on an honest disk, Ok has taken the cards
    ensures told { (others : List Table) (indexes : List SqlIndex) → InSchema S.Store
        (grown v2 others indexes) conn.old conn.new (λ db. IfOk result (TakesCards db start.entry)) }
    // in schema 2 or one grown from it, on an honest disk, Store comes only where cards or entries aren't
    // read
    ensures refused { (others : List Table) (indexes : List SqlIndex) → RefusesIn S.Store
        (grown v2 others indexes) conn.old conn.new result (IsUnreadCards S.Store) }
{
    let index = take_all::<S, Cards, _>(conn, start)?;
    Ok(WithCards {
        olders: Vec::new(alloc),
        index,
    })
}

/// What takes the cards of a version.
pub(crate) fn cards<'a, S: Alter>(
    alloc: Global,
    conn: &mut Connection<S>,
    version: Version,
    start: Index<'a>,
) -> Result<WithCards<'a>, StoreFault>
    ensures { ReadsCards S.Store version start.entry result conn.old conn.new }
{
    if version.is_from(Version::Two) {
        later_cards(alloc, conn, start)
    } else {
        first_cards(alloc, conn, start)
    }
}

/// What takes the entries of a version, of which those of schema 1 are given.
pub(crate) fn entries<'a, S: Alter>(
    alloc: Global,
    conn: &mut Connection<S>,
    version: Version,
    olders: &[OldEntry],
    start: Entries<'a>,
) -> Result<Entries<'a>, StoreFault>
    // it only reads the database, or leaves it alone
    ensures reads { Reads (schema_of version) result (state S.Store conn.old) (state S.Store conn.new)
        ⊎ (conn.new ≡ conn.old) }
    // in the version's schema, on an honest disk, Ok has taken its entries
    ensures told { InSchema S.Store (schema_of version) conn.old conn.new (λ db. IfOk result
        (λ it. (raws : List EntryRow) × EntriesTaken start.entry it raws
        × AreEntriesIn version db olders.now raws)) }
    // in the version's schema, on an honest disk, Store comes only where its entries or its cards aren't read
    ensures refused { RefusesIn S.Store (schema_of version) conn.old conn.new result
        (IsUnreadEntries S.Store version) }
{
    if version.is_from(Version::Two) {
        take_all::<S, EntriesTable, _>(conn, start)
    } else {
        made::entries(alloc, olders, start)
    }
}

/// So many where a version is the one that replaced a table, or a later one; before it none.
fn counted(version: Version, first: Version, many: u64) -> u64
    ensures { result ≡ cond (is_from first version) many 0 }
{
    if version.is_from(first) { many } else { 0 }
}

/// How many of the tables that a version replaced have rows, where each of them that has some counts 1.
fn left_in(version: Version, entries: u64, merchants: u64, rights: u64) -> u64
    requires entries { entries ≤ 1 }
    requires merchants { merchants ≤ 1 }
    requires rights { rights ≤ 1 }
    ensures { result ≡ left_spec version entries merchants rights }
{
    let entries = counted(version, Version::Two, entries);
    let merchants = counted(version, Version::Three, merchants);
    let rights = counted(version, Version::Four, rights);
    entries + merchants + rights
}

/// How many of the tables that were replaced still have rows, in a version.
pub(crate) fn replaced<S: Alter>(
    alloc: Global,
    conn: &mut Connection<S>,
    version: Version,
) -> Result<u64, StoreFault>
    // it only reads: no doubt goes away, and in the version's schema, on an honest disk, nothing changes with
    // Ok
    ensures reads { Reads (schema_of version) result (state S.Store conn.old) (state S.Store conn.new) }
    // in the version's schema, on an honest disk, Ok counts them
    ensures told { InSchema S.Store (schema_of version) conn.old conn.new
        (λ db. IfOk result (λ n. n ≡ replaced_in version db.trees)) }
    // in the version's schema, on an honest disk, Store comes only where one of them isn't read
    ensures refused { RefusesIn S.Store (schema_of version) conn.old conn.new result
        (IsUnreadReplaced S.Store) }
{
    let entries = any_left::<S, OldEntry>(alloc, conn)?;
    let merchants = any_left::<S, OldMerchants>(alloc, conn)?;
    let rights = any_left::<S, OldRights>(alloc, conn)?;
    Ok(left_in(version, entries, merchants, rights))
}
