//! Whose tables a file holds.
ghost use Rattle.std.specs.Prelude.{◌≡◌, map, Decides};
ghost use Rattle.sql_tables.specs.Schema.{no_schema};
ghost use Rattle.vault_verdict.specs.Names as spec;

use sqlite_schema::schema::Schema;
use vault_schema::version::{INDEXES, NAMES, TABLES};
use vault_tables::versions::is_newest;

/// Whose tables a file holds.
#[derive(Clone, Copy, PartialEq, Eq)]
pub enum Holder {
    /// No table, index or view.
    Nobody,
    /// The tables and indexes of a vault, as this program makes them, and no others.
    Vault,
    /// Some of a vault's names, and not all, or others beside them.
    Mixed,
    /// None of a vault's names, or all of them alone in another order or form.
    Other,
}

/// Whether a table, an index, or a view or another object has this name.
fn is_taken(schema: &Schema, name: &str) -> bool
    ensures { result ≡ spec.is_taken schema.now name.now }
{
    let name = name.as_bytes();
    schema.table_named(name).is_some()
        || schema.index_named(name).is_some()
        || schema.view_named(name).is_some()
}

/// Whether one of these names is taken.
fn any_taken(schema: &Schema, names: &[&str]) -> bool
    ensures { result ≡ spec.any_taken schema.now (map (λ name. name.now) names.now) }
{
    match names {
        [] => false,
        [name, names @ ..] => is_taken(schema, name) || any_taken(schema, names),
    }
}

/// Whether one of them is missing.
fn any_missing(schema: &Schema, names: &[&str]) -> bool
    ensures { result ≡ spec.any_missing schema.now (map (λ name. name.now) names.now) }
{
    match names {
        [] => false,
        [name, names @ ..] => !is_taken(schema, name) || any_missing(schema, names),
    }
}

/// Whether there are as many tables and indexes as a vault has, and nothing else.
fn is_numbered(schema: &Schema) -> bool
    ensures { Decides result (spec.IsNumbered schema.now) }
{
    schema.tables.len() == TABLES && schema.indexes.len() == INDEXES && schema.views.is_empty()
}

/// Whether some of these names are taken, and not all of them, or others stand beside them.
fn is_mixed(schema: &Schema, names: &[&str]) -> bool
    ensures { Decides result (spec.IsMixed schema.now (map (λ name. name.now) names.now)) }
{
    any_taken(schema, names) && (any_missing(schema, names) || !is_numbered(schema))
}

/// Whether there is no table, index or view.
fn is_blank(schema: &Schema) -> bool
    ensures { Decides result (schema.now ≡ no_schema) }
{
    schema.tables.is_empty() && schema.indexes.is_empty() && schema.views.is_empty()
}

/// Whose tables a schema has.
pub fn holder_in(schema: &Schema) -> Holder
    ensures { spec.IsOf result schema.now }
{
    if is_blank(schema) {
        Holder::Nobody
    } else if is_newest(schema) {
        Holder::Vault
    } else if is_mixed(schema, &NAMES) {
        Holder::Mixed
    } else {
        Holder::Other
    }
}
