//! The version that a database says, told before anything else of it.
ghost use Rattle.std.specs.Prelude.{◌≡◌, ℤ, None, Some};
ghost use Rattle.sqlite.specs.Held.{state};
ghost use Rattle.sqlite.specs.State.{HasCleanDisk, IsUnchanged};
ghost use Rattle.vault_verdict.specs.Refusals.{IsStillVersioned};
ghost use Rattle.vault_verdict.specs.Faults.{IsJudged};
ghost use Rattle.vault_verdict.specs.Opened.{IsNoDamage, TellsVersion};
ghost use Rattle.vault_verdict.specs.Versions.{other_version};
ghost use Rattle.vault_schema.specs.Versioned.{HasVersion};

use crate::fault::OpenFault;
use crate::judge::other_version;
use crate::whole_tables::version_rows;
use sqlite::{Alter, Connection};
use std::alloc::Global;
use vault_rules::rows::RawVersion;
use vault_tables::versions::has_version;

/// The refusal by another version that these rows say; else this one.
fn told_by(versions: &[RawVersion], refusal: OpenFault) -> OpenFault
    // where the rows tell another version, it is 30 with that one
    ensures other { (n : ℤ) → other_version versions.now ≡ Some n → result ≡ OpenFault.WrongSchema n }
    // where they tell no other, it is the refusal that is handed in
    ensures this { other_version versions.now ≡ None → result ≡ refusal }
{
    match other_version(versions) {
        Some(version) => OpenFault::WrongSchema(version),
        None => refusal,
    }
}

/// The refusal of a database that isn't a vault's in this schema: another version that it says comes first.
pub fn version_or<S: Alter>(
    alloc: Global,
    conn: &mut Connection<S>,
    refusal: OpenFault,
) -> OpenFault
    // where the schema has no version, it is the refusal that is handed in, and nothing changes
    ensures none { ¬ HasVersion (state S.Store conn.old).now.schema
        → (result ≡ refusal) × (conn.new ≡ conn.old) }
    // on an honest disk, 30 or 31 is another version that is told, or where none is, the refusal that is
    // handed in
    ensures told { HasCleanDisk (state S.Store conn.new) → IsJudged result
        → TellsVersion (state S.Store conn.old).now refusal result }
    // where the refusal that is handed in isn't 31, this isn't
    ensures undamaged { IsNoDamage refusal → IsNoDamage result }
    // on an honest disk, after 30 and 31 the connection sees what it saw, where the schema has a version
    ensures unchanged { HasCleanDisk (state S.Store conn.new) → HasVersion (state S.Store conn.old).now.schema
        → IsJudged result → IsUnchanged (state S.Store conn.old) (state S.Store conn.new) }
    // in a schema with a version, on an honest disk, a crash leaves nothing new; no doubt goes away, and no
    // transaction begins
    ensures nothing_new { IsStillVersioned S.Store conn.old conn.new }
{
    if !has_version(conn.schema()) {
        return refusal;
    }
    match version_rows(alloc, conn) {
        Ok(versions) => told_by(&versions, refusal),
        Err(fault) => fault.into(),
    }
}
