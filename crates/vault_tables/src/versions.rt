//! The versions: the table that says which one a file is in, and what makes and says a later one.
//! The schema of each, as a database shows it.
ghost use Rattle.std.specs.Prelude.{◌≡◌, Decides, IfSome, IfNone};
ghost use Rattle.vault_schema.specs.Schemas.{v1, v2, v3, v4};
ghost use Rattle.vault_schema.specs.Versioned.{HasVersion};
ghost use Rattle.vault_schema.specs.Schema.{newest_schema};
ghost use Rattle.vault_schema.specs.Versions.{schema_of};
ghost use Rattle.vault_tables.specs.VersionTexts.{version_values};

use crate::cards::{CARDS_KEY, CARDS_SHAPE};
use crate::counts::{COUNTS_KEY, COUNTS_SHAPE};
use crate::entries::old::{OLD_ENTRIES_KEY, OLD_ENTRIES_NUMBER, OLD_ENTRIES_SHAPE};
use crate::entries::{ENTRIES_CARD, ENTRIES_KEY, ENTRIES_SHAPE};
use crate::merchants::old::{OLD_MERCHANTS_KEY, OLD_MERCHANTS_SHAPE};
use crate::merchants::{CREATE_MERCHANTS, MERCHANTS_KEY, MERCHANTS_SHAPE};
use crate::records::{RECORDS_KEY, RECORDS_SHAPE};
use crate::rights::old::{OLD_RIGHTS_KEY, OLD_RIGHTS_SHAPE};
use crate::rights::{CREATE_RIGHTS, RIGHTS_KEY, RIGHTS_SHAPE};
use sql_tables::columns::Columns;
use sql_tables::fault::StoreFault;
use sql_tables::raws::Raw;
use sql_tables::shapes::ColumnShape::{Optional, Present};
use sql_tables::shapes::{SchemaShape, TableShape, is_schema, is_table};
use sqlite::Row;
use sqlite_schema::schema::Kind::Integer;
use sqlite_schema::schema::Schema;
use vault_rules::rows::RawVersion;
use vault_schema::version::Version;

/// Makes the table of the version.
pub const CREATE_VAULT: &str =
    "CREATE TABLE vault (id INTEGER PRIMARY KEY, version INTEGER NOT NULL) STRICT";

/// The version, in the row with the id 1; the id stands in the rowid.
pub(crate) const VERSIONS_SHAPE: TableShape<'static> = TableShape {
    name: "vault",
    tree: 0,
    columns: &[Optional("id", Integer), Present("version", Integer)],
    rowid: Some(0),
    primary: &[0],
    uniques: &[],
};

/// The whole of `vault`, by its id.
pub const READ_VERSIONS: &str = "SELECT id, version FROM vault ORDER BY id";

/// The table.
pub struct Versions;

impl Raw for Versions {
    type Of = RawVersion;

    ghost values = { version_values };

    fn read(row: &Row) -> Result<RawVersion, StoreFault> {
        let mut columns = Columns::of(row);
        let raw = RawVersion {
            id: columns.next()?,
            version: columns.next()?,
        };
        columns.end()?;
        Ok(raw)
    }
}

/// Writes the version over that of schema 1.
pub const SET_SECOND: &str = "UPDATE vault SET version = 2 WHERE id = 1";

/// Writes the version over that of schema 2.
pub const SET_THIRD: &str = "UPDATE vault SET version = 3 WHERE id = 1";

/// Writes the version over that of schema 3.
pub const SET_FOURTH: &str = "UPDATE vault SET version = 4 WHERE id = 1";

/// The texts that make the tables that came since schema 2, in their order.
pub const CREATE_LATER: [&str; 2] = [CREATE_MERCHANTS, CREATE_RIGHTS];

/// Writes the version of a new vault.
pub const PUT_VERSION: &str = "INSERT INTO vault VALUES (1, 4)";

/// All tables and indexes of schema 1, with their trees.
const FIRST: SchemaShape<'static> = SchemaShape {
    tables: &[
        VERSIONS_SHAPE,
        OLD_MERCHANTS_SHAPE,
        COUNTS_SHAPE,
        OLD_ENTRIES_SHAPE,
        RECORDS_SHAPE,
        OLD_RIGHTS_SHAPE,
    ],
    indexes: &[
        OLD_MERCHANTS_KEY,
        COUNTS_KEY,
        OLD_ENTRIES_KEY,
        OLD_ENTRIES_NUMBER,
        RECORDS_KEY,
        OLD_RIGHTS_KEY,
    ],
};

/// Whether a schema is that of version 1.
pub fn is_v1(schema: &Schema) -> bool
    ensures { Decides result (schema.now ≡ v1) }
{
    is_schema(schema, &FIRST)
}

/// All tables and indexes of schema 2, with their trees.
const SECOND: SchemaShape<'static> = SchemaShape {
    tables: &[
        VERSIONS_SHAPE,
        OLD_MERCHANTS_SHAPE,
        COUNTS_SHAPE,
        OLD_ENTRIES_SHAPE,
        RECORDS_SHAPE,
        OLD_RIGHTS_SHAPE,
        CARDS_SHAPE,
        ENTRIES_SHAPE,
    ],
    indexes: &[
        OLD_MERCHANTS_KEY,
        COUNTS_KEY,
        OLD_ENTRIES_KEY,
        OLD_ENTRIES_NUMBER,
        RECORDS_KEY,
        OLD_RIGHTS_KEY,
        CARDS_KEY,
        ENTRIES_KEY,
        ENTRIES_CARD,
    ],
};

/// Whether a schema is that of version 2.
pub fn is_v2(schema: &Schema) -> bool
    ensures { Decides result (schema.now ≡ v2) }
{
    is_schema(schema, &SECOND)
}

/// All tables and indexes of schema 3, with their trees.
const THIRD: SchemaShape<'static> = SchemaShape {
    tables: &[
        VERSIONS_SHAPE,
        OLD_MERCHANTS_SHAPE,
        COUNTS_SHAPE,
        OLD_ENTRIES_SHAPE,
        RECORDS_SHAPE,
        OLD_RIGHTS_SHAPE,
        CARDS_SHAPE,
        ENTRIES_SHAPE,
        MERCHANTS_SHAPE,
    ],
    indexes: &[
        OLD_MERCHANTS_KEY,
        COUNTS_KEY,
        OLD_ENTRIES_KEY,
        OLD_ENTRIES_NUMBER,
        RECORDS_KEY,
        OLD_RIGHTS_KEY,
        CARDS_KEY,
        ENTRIES_KEY,
        ENTRIES_CARD,
        MERCHANTS_KEY,
    ],
};

/// Whether a schema is that of version 3.
pub fn is_v3(schema: &Schema) -> bool
    ensures { Decides result (schema.now ≡ v3) }
{
    is_schema(schema, &THIRD)
}

/// All tables and indexes of schema 4, with their trees.
const FOURTH: SchemaShape<'static> = SchemaShape {
    tables: &[
        VERSIONS_SHAPE,
        OLD_MERCHANTS_SHAPE,
        COUNTS_SHAPE,
        OLD_ENTRIES_SHAPE,
        RECORDS_SHAPE,
        OLD_RIGHTS_SHAPE,
        CARDS_SHAPE,
        ENTRIES_SHAPE,
        MERCHANTS_SHAPE,
        RIGHTS_SHAPE,
    ],
    indexes: &[
        OLD_MERCHANTS_KEY,
        COUNTS_KEY,
        OLD_ENTRIES_KEY,
        OLD_ENTRIES_NUMBER,
        RECORDS_KEY,
        OLD_RIGHTS_KEY,
        CARDS_KEY,
        ENTRIES_KEY,
        ENTRIES_CARD,
        MERCHANTS_KEY,
        RIGHTS_KEY,
    ],
};

/// Whether a schema is that of version 4.
pub fn is_v4(schema: &Schema) -> bool
    ensures { Decides result (schema.now ≡ v4) }
{
    is_schema(schema, &FOURTH)
}

/// Whether the table of the version stands first, as it does in each schema of a vault, and there is no view.
pub fn has_version(schema: &Schema) -> bool
    ensures { Decides result (HasVersion schema.now) }
{
    match schema.tables.as_slice() {
        [table, ..] => is_table(table, &VERSIONS_SHAPE) && schema.views.is_empty(),
        [] => false,
    }
}

/// The version whose schema this is.
pub fn version_of(schema: &Schema) -> Option<Version>
    // the schema is that of the version that is given
    ensures found { IfSome result (λ v. schema.now ≡ schema_of v) }
    // where none is given, the schema is no version's
    ensures none { IfNone result ((v : _) → ¬ (schema.now ≡ schema_of v)) }
{
    if is_v4(schema) {
        Some(Version::Four)
    } else if is_v3(schema) {
        Some(Version::Three)
    } else if is_v2(schema) {
        Some(Version::Two)
    } else if is_v1(schema) {
        Some(Version::One)
    } else {
        None
    }
}

/// Whether a schema is that of the newest version.
pub fn is_newest(schema: &Schema) -> bool
    ensures { Decides result (schema.now ≡ newest_schema) }
{
    is_v4(schema)
}
