//! A vault in an older schema is checked whole before it moves.
ghost use Rattle.std.specs.Prelude.{◌≡◌, IfNone, IfOk, IfSome, OnOk};
ghost use Rattle.sqlite.specs.Effect.{IsDatabase};
ghost use Rattle.sqlite.specs.State.{HasCleanDisk};
ghost use Rattle.sql_tables.specs.Transactions.{Between};
ghost use Rattle.vault_verdict.specs.Refusals.{IsBrokenWhereFull, IsOtherIn, IsStill, IsUntouched};
ghost use Rattle.vault_verdict.specs.Refusals.{RowsBreak, TellsOther};
ghost use Rattle.vault_core.specs.Vault.{Vault};
ghost use Rattle.vault_migrate.specs.Moved.{IsOlder};
ghost use Rattle.vault_schema.specs.Holds.{HoldsIn};
ghost use Rattle.vault_schema.specs.Stands.{lookups_of};
ghost use Rattle.vault_schema.specs.Versions.{schema_of};
ghost use Rattle.vault_steps.specs.Entries.{AreFor, AreStorable, joined};
ghost use Rattle.vault_verdict.specs.Opened.{StandsSoundIn};
ghost use Rattle.vault_verdict.specs.ReadAs.{IsFullIn};

use crate::typed::typed_entries;
use sqlite::{Alter, Connection};
use sqlite_schema::schema::Schema;
use std::alloc::Global;
use vault_schema::version::{NEWEST, Version};
use vault_steps::entries::Piece;
use vault_tables::versions::version_of;
use vault_verdict::fault::OpenFault;
use vault_verdict::verdict::{Judged, verdict};

/// The older version whose schema this is.
pub(crate) fn older_in(schema: &Schema) -> Option<Version>
    // the version that is given is an older one
    ensures older { IfSome result (λ v. IsOlder v) }
    // the schema is that of the version that is given
    ensures found { IfSome result (λ v. schema.now ≡ schema_of v) }
    // where none is given, the schema is no older version's
    ensures none { IfNone result ((v : Version) → IsOlder v → ¬ (schema.now ≡ schema_of v)) }
{
    match version_of(schema) {
        Some(found) if !found.is_from(NEWEST) => Some(found),
        _ => None,
    }
}

/// Checks a vault whole in the version that it has, and answers what the step from there is given: the
/// entries of schema 1, and else none.
pub(crate) fn judged<S: Alter>(
    alloc: Global,
    conn: &mut Connection<S>,
    version: Version,
) -> Result<Vec<Piece>, OpenFault>
    // the end of each entry that is given fits an integer of the database
    ensures storable { IfOk result (λ xs. AreStorable xs.items) }
    // on an honest disk, Ok gives the entries of a vault held in a version without cards; of another this
    // says nothing
    ensures given { Between S.Store conn.old conn.new (λ old new. HasCleanDisk new → IfOk result (λ xs.
        (V : Vault) → HoldsIn version V old → AreFor version (joined xs.items) (lookups_of V))) }
    // with Ok, on an honest disk, a vault that was held in the version is held in it still
    ensures held { Between S.Store conn.old conn.new (λ old new. HasCleanDisk new → OnOk result
        ((V : Vault) → HoldsIn version V old → HoldsIn version V new)) }
    // with Ok, on an honest disk, full rows of the version are a sound database and stand for a sound vault
    ensures sound { Between S.Store conn.old conn.new (λ old new. HasCleanDisk new → OnOk result
        (IsFullIn version old.now → IsDatabase old.now × StandsSoundIn version old.now)) }
    // with Ok, on an honest disk, nothing changed in the schema of the version
    ensures kept { IsUntouched S.Store version conn.old conn.new result }
    // on an honest disk, 31 says the least rule that the rows break, where they are full and the version's
    ensures damaged { RowsBreak S.Store conn.old conn.new result (IsBrokenWhereFull version) }
    // on an honest disk, 30 says the other version that is told, where the schema is this version's
    ensures versioned { TellsOther S.Store conn.old conn.new result (IsOtherIn version) }
    // in the version's schema, on an honest disk, a crash leaves nothing new; no doubt goes away, and no
    // transaction begins
    ensures nothing_new { IsStill S.Store version conn.old conn.new }
{
    let Judged { sizes: _, olders } = verdict(alloc, conn, version)?;
    Ok(typed_entries(alloc, olders)?)
}
