//! Schemas as a program writes them down, and whether a database has such a one.
mod columns;
mod keys;
mod tables;

use sqlite_schema::schema::Kind;
pub use tables::{is_schema, is_table};

/// A column of a STRICT table, by its name and its type.
pub enum ColumnShape<'a> {
    /// It is never NULL.
    Present(&'a str, Kind),
    /// It may be NULL.
    Optional(&'a str, Kind),
}

/// A STRICT table: `rowid` is the column that is the rowid, `primary` has the columns of the key, and
/// `uniques` those of each unique key.
pub struct TableShape<'a> {
    pub name: &'a str,
    pub tree: u32,
    pub columns: &'a [ColumnShape<'a>],
    pub rowid: Option<usize>,
    pub primary: &'a [usize],
    pub uniques: &'a [&'a [usize]],
}

/// An index whose columns ascend.
pub struct IndexShape<'a> {
    pub name: &'a str,
    pub tree: u32,
    pub table: u32,
    pub columns: &'a [usize],
    pub is_unique: bool,
}

/// Tables and indexes, in the order in which they were made, and nothing else.
pub struct SchemaShape<'a> {
    pub tables: &'a [TableShape<'a>],
    pub indexes: &'a [IndexShape<'a>],
}
