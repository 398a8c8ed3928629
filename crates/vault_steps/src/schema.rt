//! The schema of a vault's tables.
ghost use Rattle.std.specs.Prelude.{◌≡◌, ◌↔◌, IsTrue, Err, false, OnOk};
ghost use Rattle.sqlite.specs.Held.{state};
ghost use Rattle.sqlite.specs.State.{HasCleanDisk};
ghost use Rattle.sql_tables.specs.Schema.{no_schema};
ghost use Rattle.sql_tables.specs.Transactions.{Between, During, KeepsDoubts, Proceeds};
ghost use Rattle.vault_schema.specs.Versions.{newest};
ghost use Rattle.vault_core.specs.Vault.{empty_vault};
ghost use Rattle.vault_tables.specs.Calls.{IsWithin};
ghost use Rattle.vault_schema.specs.Holds.{Holds, LeavesFirst};
ghost use Rattle.vault_schema.specs.Making.{IsRowless, IsBegun, IsReady};
ghost use Rattle.vault_schema.specs.Schemas.{v1 as first_schema};
ghost use Rattle.vault_schema.specs.Schemas.{v2 as second_schema};
ghost use Rattle.vault_schema.specs.Stands.{lookups_of};

use sql_tables::run::step;
use sqlite::{Alter, Connection, Error, Transaction};
use sqlite_schema::schema::Schema;
use vault_tables::cards::CREATE_CARDS;
use vault_tables::counts::CREATE_COUNTS;
use vault_tables::entries::old::{CREATE_OLD_ENTRIES, CREATE_OLD_ENTRIES_NUMBER};
use vault_tables::entries::{CREATE_ENTRIES, CREATE_ENTRIES_CARD};
use vault_tables::merchants::old::CREATE_OLD_MERCHANTS;
use vault_tables::records::CREATE_RECORDS;
use vault_tables::rights::old::CREATE_OLD_RIGHTS;
use vault_tables::versions::{CREATE_LATER, CREATE_VAULT, PUT_VERSION};

/// Why no schema was made.
#[derive(Clone, Copy, PartialEq, Eq)]
pub enum SchemaFault {
    /// The database has tables, indexes or views; nothing changed.
    Taken,
    /// The database failed.
    Store,
}

/// Whether a schema has no table, index or view.
fn is_blank(schema: &Schema) -> bool
    ensures { IsTrue result ↔ (schema.now ≡ no_schema) }
{
    schema.tables.is_empty() && schema.indexes.is_empty() && schema.views.is_empty()
}

/// Makes the tables of schema 1, inside a transaction.
fn create_first<S: Alter>(tx: &mut Transaction<'_, S>) -> Result<(), Error>
    ensures goes_on { Proceeds S.Store tx.old tx.new }
    // with Ok, on an honest disk, a transaction in a database without a table got the rowless tables of
    // schema 1
    ensures done { During S.Store tx.old tx.new (λ old new. HasCleanDisk new → OnOk result ((base : _)
        → IsBegun old base → IsRowless first_schema 6 new base)) }
{
    step(tx, CREATE_VAULT, &[])?;
    step(tx, CREATE_OLD_MERCHANTS, &[])?;
    step(tx, CREATE_COUNTS, &[])?;
    step(tx, CREATE_OLD_ENTRIES, &[])?;
    step(tx, CREATE_OLD_ENTRIES_NUMBER, &[])?;
    step(tx, CREATE_RECORDS, &[])?;
    step(tx, CREATE_OLD_RIGHTS, &[])?;
    Ok(())
}

/// Makes the tables that schema 2 has besides, inside a transaction.
fn create_second<S: Alter>(tx: &mut Transaction<'_, S>) -> Result<(), Error>
    ensures goes_on { Proceeds S.Store tx.old tx.new }
    // with Ok, on an honest disk, the rowless tables of schema 1 became those of schema 2, over the same last
    // commit
    ensures done { During S.Store tx.old tx.new (λ old new. HasCleanDisk new → OnOk result ((base : _)
        → IsRowless first_schema 6 old base → IsRowless second_schema 8 new base)) }
{
    step(tx, CREATE_CARDS, &[])?;
    step(tx, CREATE_ENTRIES, &[])?;
    step(tx, CREATE_ENTRIES_CARD, &[])
}

/// Makes the tables that later schemas have besides and writes the version, inside a transaction.
fn create_last<S: Alter>(tx: &mut Transaction<'_, S>) -> Result<(), Error>
    ensures goes_on { Proceeds S.Store tx.old tx.new }
    // with Ok, on an honest disk, the rowless tables of schema 2 became the newest, which stand for the empty
    // vault
    ensures done { During S.Store tx.old tx.new (λ old new. HasCleanDisk new → OnOk result ((base : _)
        → IsRowless second_schema 8 old base → IsWithin newest new base (lookups_of empty_vault))) }
{
    for text in CREATE_LATER {
        step(tx, text, &[])?;
    }
    step(tx, PUT_VERSION, &[])
}

/// Makes all tables and writes the version, inside a transaction.
fn create_tables<S: Alter>(tx: &mut Transaction<'_, S>) -> Result<(), Error>
    ensures goes_on { Proceeds S.Store tx.old tx.new }
    // with Ok, on an honest disk, a transaction in a database without a table got tables that stand for the
    // empty vault
    ensures done { During S.Store tx.old tx.new (λ old new. HasCleanDisk new → OnOk result ((base : _)
        → IsBegun old base → IsWithin newest new base (lookups_of empty_vault))) }
{
    create_first(tx)?;
    create_second(tx)?;
    create_last(tx)
}

/// Makes all tables of the empty vault in one transaction.
fn create_all<S: Alter>(conn: &mut Connection<S>) -> Result<(), Error>
    requires idle { conn.old.in_transaction ≡ false }
    ensures idle { conn.new.in_transaction ≡ false }
    ensures clean { KeepsDoubts S.Store conn.old conn.new }
    // with Ok, on an honest disk, where there was no table, a ready connection holds the empty vault
    ensures done { Between S.Store conn.old conn.new (λ old new. HasCleanDisk new
        → OnOk result (IsReady old → old.now.schema ≡ no_schema → Holds new empty_vault)) }
    // on an honest disk, where there was no table, a crash leaves of a ready connection what was committed or
    // the empty vault
    ensures crash { Between S.Store conn.old conn.new (λ old new. HasCleanDisk new
        → IsReady old → old.now.schema ≡ no_schema → LeavesFirst new old.committed.trees) }
{
    let mut tx = conn.transaction();
    create_tables(&mut tx)?;
    tx.commit()
}

/// Makes the tables of the empty vault in a database that has no tables, indexes or views. What a crash
/// leaves is the database as it was, or the empty vault.
pub fn make_schema<S: Alter>(conn: &mut Connection<S>) -> Result<(), SchemaFault>
    requires idle { conn.old.in_transaction ≡ false }
    ensures idle { conn.new.in_transaction ≡ false }
    ensures clean { KeepsDoubts S.Store conn.old conn.new }
    // with Ok, there was no table, index or view
    ensures blank { OnOk result ((state S.Store conn.old).now.schema ≡ no_schema) }
    // with Ok, on an honest disk, a ready connection holds the empty vault
    ensures done { Between S.Store conn.old conn.new (λ old new. HasCleanDisk new
        → OnOk result (IsReady old → Holds new empty_vault)) }
    // `Taken` is answered exactly where there was a table, an index or a view
    ensures taken { (result ≡ Err SchemaFault.Taken) ↔ (¬ ((state S.Store conn.old).now.schema ≡ no_schema)) }
    // after `Taken` the connection is as it was
    ensures unchanged { result ≡ Err SchemaFault.Taken → conn.new ≡ conn.old }
    // on an honest disk, of a ready connection a crash leaves what was committed or the empty vault
    ensures crash { Between S.Store conn.old conn.new (λ old new. HasCleanDisk new → IsReady old
        → LeavesFirst new old.committed.trees) }
{
    if !is_blank(conn.schema()) {
        return Err(SchemaFault::Taken);
    }
    match create_all(conn) {
        Ok(()) => Ok(()),
        Err(_) => Err(SchemaFault::Store),
    }
}
