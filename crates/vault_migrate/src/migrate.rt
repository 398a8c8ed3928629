//! A vault's file is checked whole in the schema that it has, and moves up.
ghost use Rattle.std.specs.Prelude.{◌≡◌, false, None, IfOk, OnOk};
ghost use Rattle.sqlite.specs.Held.{state};
ghost use Rattle.sqlite.specs.State.{HasCleanDisk};
ghost use Rattle.sql_tables.specs.Schema.{no_schema};
ghost use Rattle.vault_core.specs.Vault.{Vault};
ghost use Rattle.vault_migrate.specs.Migrated.{MakesOrChecks, Migrates, Moves};
ghost use Rattle.vault_migrate.specs.Moved.{IsKnown, IsNoOlder, IsSoundWhereFull, LeavesClimbed};
ghost use Rattle.vault_migrate.specs.Moved.{LeavesMoved, LeavesSome, LeavesStep};
ghost use Rattle.vault_schema.specs.Holds.{HoldsIn};
ghost use Rattle.vault_schema.specs.Schema.{newest_schema};
ghost use Rattle.vault_schema.specs.Stands.{newest};
ghost use Rattle.vault_schema.specs.Versions.{next_of, number_of, schema_of};
ghost use Rattle.vault_verdict.specs.Opened.{StandsSoundIn};
ghost use Rattle.vault_verdict.specs.ReadAs.{IsFullIn};

use crate::movable::{judged, older_in};
use sqlite::{Alter, Connection};
use std::alloc::Global;
use vault_schema::version::{NEWEST, Version};
use vault_steps::climb::climb;
use vault_steps::schema::{SchemaFault, make_schema};
use vault_steps::upgrade::upgrade;
use vault_tables::versions::has_version;
use vault_verdict::check::check;
use vault_verdict::fault::OpenFault;

/// Checks a vault in an older version, and moves it to the next.
fn move_up<S: Alter>(
    alloc: Global,
    conn: &mut Connection<S>,
    version: Version,
) -> Result<i64, OpenFault>
    requires idle { conn.old.in_transaction ≡ false }
    requires unlimited { conn.old.step_limit ≡ None }
    // Ok says the version after this one
    ensures next { IfOk result (λ n. n ≡ number_of (next_of version)) }
    ensures moves { Moves S.Store version (next_of version) conn.old conn.new result }
    // on an honest disk, a crash leaves a vault that was held in the version in it or in the next
    ensures crash { HasCleanDisk (state S.Store conn.new) → (V : Vault)
        → HoldsIn version V (state S.Store conn.old) → LeavesStep version V (state S.Store conn.new) }
{
    let _settled = conn.is_autocommit();
    let entries = judged(alloc, conn, version)?;
    match upgrade(conn, version, entries) {
        Ok(()) => Ok(version.next().number()),
        Err(_) => Err(OpenFault::Store),
    }
}

/// Checks a vault in an older version, and moves it to the newest, step by step.
fn climb_up<S: Alter>(
    alloc: Global,
    conn: &mut Connection<S>,
    version: Version,
) -> Result<i64, OpenFault>
    requires idle { conn.old.in_transaction ≡ false }
    requires unlimited { conn.old.step_limit ≡ None }
    // Ok says the newest version
    ensures newest { IfOk result (λ n. n ≡ number_of newest) }
    ensures moves { Moves S.Store version newest conn.old conn.new result }
    // with Ok, on an honest disk, what had full rows in the version stood for a sound vault in it
    ensures stood { HasCleanDisk (state S.Store conn.new)
        → OnOk result (IsFullIn version (state S.Store conn.old).now
        → StandsSoundIn version (state S.Store conn.old).now) }
    // on an honest disk, a crash leaves a vault that was held in the version in some version
    ensures crash { HasCleanDisk (state S.Store conn.new) → (V : Vault)
        → HoldsIn version V (state S.Store conn.old) → LeavesSome V (state S.Store conn.new) }
{
    let _settled = conn.is_autocommit();
    let entries = judged(alloc, conn, version)?;
    match climb(alloc, conn, version, entries) {
        Ok(()) => Ok(NEWEST.number()),
        Err(_) => Err(OpenFault::Store),
    }
}

/// Makes the newest schema in a store without any table; else checks the vault in it, and changes nothing.
fn make_or_check<S: Alter>(alloc: Global, conn: &mut Connection<S>) -> Result<i64, OpenFault>
    requires idle { conn.old.in_transaction ≡ false }
    // Ok says the newest version
    ensures newest { IfOk result (λ version. version ≡ number_of newest) }
    // the empty vault is made, or the vault that is there is checked
    ensures does { MakesOrChecks S.Store conn.old conn.new result }
    // with Ok, the schema was the newest, or there was no table
    ensures known { OnOk result (¬ ((state S.Store conn.old).now.schema ≡ newest_schema)
        → (state S.Store conn.old).now.schema ≡ no_schema) }
{
    match make_schema(conn) {
        Ok(()) => Ok(NEWEST.number()),
        Err(SchemaFault::Taken) => {
            // What a crash leaves of a refusal follows by cases of this.
            let _told = has_version(conn.schema());
            check(alloc, conn)?;
            Ok(NEWEST.number())
        }
        Err(SchemaFault::Store) => Err(OpenFault::Store),
    }
}

/// Moves a store one version up, and answers the version that it has then. A vault in an older schema is
/// checked whole there, and moves in one transaction; one in the newest schema is checked, and nothing
/// changes; a store without any table gets the tables of the empty vault.
///
/// Refused by 30 with the version that the file says, where it isn't its schema's; or as a check refuses it,
/// where its schema is another; by 31 with the least rule that the rows break, where those of an older schema
/// are read as those of the newest: a merchant without a lead has six digits, a right without an end never
/// ends, and each number of schema 1 is a card of its own; by 32 where memory ran out; by 33 where the
/// database failed, or holds what isn't a vault's. After 30, 31 and 32 a vault in an older schema is as it
/// was. A sound vault in any schema, and a store without a table, is refused by neither 30 nor 31.
///
/// In a history of the store (`vault_recover::laws`) it is the step `Migrated`.
pub fn migrate<S: Alter>(alloc: Global, conn: &mut Connection<S>) -> Result<i64, OpenFault>
    requires idle { conn.old.in_transaction ≡ false }
    requires unlimited { conn.old.step_limit ≡ None }
    // in the schema of a version, Ok says the next one
    ensures next { IfOk result (λ n. (v : Version) → (state S.Store conn.old).now.schema ≡ schema_of v
        → n ≡ number_of (next_of v)) }
    // where the schema is no older version's, Ok says the newest one
    ensures made { IfOk result (λ n. IsNoOlder (state S.Store conn.old).now → n ≡ number_of newest) }
    // a store in some version is moved to the next, as `Migrates` says
    ensures migrates { Migrates S.Store next_of conn.old conn.new result }
    // on an honest disk, a crash leaves a vault in its version or the next; without a table, that or the
    // empty one
    ensures crash { HasCleanDisk (state S.Store conn.new)
        → LeavesMoved (state S.Store conn.old) (state S.Store conn.new) }
{
    match older_in(conn.schema()) {
        Some(version) => move_up(alloc, conn, version),
        None => make_or_check(alloc, conn),
    }
}

/// Moves a store to the newest version, and answers it. A vault in an older schema is checked whole there
/// once, and moves by one transaction a step; all else is as one step up does it.
///
/// Refused as one step up is. What a stop leaves is the vault in some version on its way.
///
/// In a history of the store (`vault_recover::laws`) it is the step `Migrated`, however many it takes.
pub fn migrate_all<S: Alter>(alloc: Global, conn: &mut Connection<S>) -> Result<i64, OpenFault>
    requires idle { conn.old.in_transaction ≡ false }
    requires unlimited { conn.old.step_limit ≡ None }
    // Ok says the newest version
    ensures newest { IfOk result (λ n. n ≡ number_of newest) }
    // a store in some version is moved to the newest, as `Migrates` says
    ensures migrates { Migrates S.Store (λ v. newest) conn.old conn.new result }
    // with Ok, the schema was a version's, or there was no table
    ensures known { OnOk result (IsKnown (state S.Store conn.old).now) }
    // with Ok, on an honest disk, what had full rows in a version stood for a sound vault in it
    ensures stood { HasCleanDisk (state S.Store conn.new)
        → OnOk result (IsSoundWhereFull (state S.Store conn.old).now) }
    // on an honest disk, a crash leaves a vault in some version; without a table, that or the empty one
    ensures crash { HasCleanDisk (state S.Store conn.new)
        → LeavesClimbed (state S.Store conn.old) (state S.Store conn.new) }
{
    match older_in(conn.schema()) {
        Some(version) => climb_up(alloc, conn, version),
        None => make_or_check(alloc, conn),
    }
}
