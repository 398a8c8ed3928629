//! Room for schema 2: its tables are made, and the entries of schema 1 go.
ghost use Rattle.sql_tables.specs.States.{Within};
ghost use Rattle.sql_tables.specs.Transactions.{LeadsTo};
ghost use Rattle.vault_tables.specs.Calls.{IsWithin};
ghost use Rattle.vault_schema.specs.Schemas.{v2};
ghost use Rattle.vault_schema.specs.Versions.{WithinOf};
ghost use Rattle.vault_steps.specs.Entries.{without_entries};
ghost use Rattle.vault_steps.specs.Room.{entries_going, tables_made};

use crate::entries::PIECE;
use sql_tables::run::step;
use sqlite::{Alter, Error, Transaction, params};
use vault_schema::version::Version;
use vault_tables::cards::CREATE_CARDS;
use vault_tables::entries::old::EMPTY_OLD_ENTRIES;
use vault_tables::entries::{CREATE_ENTRIES, CREATE_ENTRIES_CARD};
use vault_tables::versions::SET_SECOND;

/// Takes the entries of schema 1 away whose rowids aren't above this one.
const DROP_ENTRIES: &str = "DELETE FROM entries WHERE rowid <= ?1";

/// Makes the tables that come with schema 2.
fn make_tables<S: Alter>(tx: &mut Transaction<'_, S>) -> Result<(), Error>
    ensures { LeadsTo S.Store tx.old tx.new result (WithinOf Version.One) (λ h. Within v2 (tables_made h)) }
{
    step(tx, CREATE_CARDS, &[])?;
    step(tx, CREATE_ENTRIES, &[])?;
    step(tx, CREATE_ENTRIES_CARD, &[])
}

/// Takes so many pieces of the entries away, those with the first rowids first: the database keeps the rows
/// of a statement in memory until it ends. An entry has its place as its rowid, where none ever went.
fn drop_entries<S: Alter>(tx: &mut Transaction<'_, S>, pieces: usize) -> Result<(), Error>
    ensures { LeadsTo S.Store tx.old tx.new result
        (λ h. Within v2 (entries_going h))
        (λ h. Within v2 (entries_going h)) }
{
    for piece in 0..pieces {
        let last = i64::try_from((piece + 1).saturating_mul(PIECE)).unwrap_or(i64::MAX);
        step(tx, DROP_ENTRIES, params![last])?;
    }
    Ok(())
}

/// Makes the tables that come with schema 2, takes the entries away, in so many pieces, and says the version.
pub(crate) fn make_room<S: Alter>(tx: &mut Transaction<'_, S>, pieces: usize) -> Result<(), Error>
    ensures { LeadsTo S.Store tx.old tx.new result
        (WithinOf Version.One)
        (λ h base st. IsWithin Version.Two st base (without_entries h)) }
{
    make_tables(tx)?;
    drop_entries(tx, pieces)?;
    step(tx, EMPTY_OLD_ENTRIES, &[])?;
    step(tx, SET_SECOND, &[])
}
