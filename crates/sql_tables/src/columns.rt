//! The columns of a row as values of Rust.
ghost use Rattle.std.specs.Prelude.{◌≡◌, ◌≢◌, ◌∷◌, [], refl, Some, None, string_bytes, IfErr, IfOk, OnOk};
ghost use Rattle.std.proofs.Common.{inl, inr};
ghost use Rattle.std.proofs.lemmas.Str.{IsUtf8-had, IsUtf8-string_bytes};
ghost use Rattle.sqlite.specs.Order.{Row as SqlRow};
ghost use Rattle.sqlite.specs.declared.types.Value.{Value};
ghost use Rattle.sqlite.specs.declared.types.Value.TheVariants.{Int};
ghost use Rattle.sql_tables.specs.Values.{int_value, maybe_text_value, row_text_value, text_value};
ghost use Rattle.sql_tables.specs.KeptTexts.{text_bytes};

use crate::fault::StoreFault;
use crate::text::RowText;
use sqlite::Row;
use sqlite::types::FromSql;
use std::marker::Model;

/// What a column of a table holds.
pub trait Column: FromSql + Drop {
    // The value that stands for it, which alone reads as it does, and can be read.
    ghost shows: { Self → Value };

    ghost alone: { (value : Value) (read : Self) → Self.FromSql.reads_as value read → value ≡ shows read };

    ghost readable: { (read : Self) → Self.FromSql.is_readable (shows read) };
}

impl Column for i64 {
    ghost shows = { Int };

    ghost alone = { λ value read same. same };

    ghost readable = { λ read. (read, refl) };
}

impl Column for String {
    ghost shows = { text_value };

    ghost alone = { λ value read same. same };

    ghost readable = { λ read. (string_bytes read, refl, IsUtf8-string_bytes read) };
}

impl Column for Option<i64> {
    ghost shows = { int_value };

    ghost alone = { λ value. elim [ None ↦ λ same. same | Some number ↦ λ same. same.1 ] };

    ghost readable = { elim [ None ↦ inl refl | Some number ↦ inr (number, refl) ] };
}

impl Column for RowText {
    ghost shows = { row_text_value };

    ghost alone = { λ value read same. same };

    ghost readable = { λ read. (text_bytes read, refl, IsUtf8-had _ read.ok) };
}

impl Column for Option<RowText> {
    ghost shows = { maybe_text_value };

    ghost alone = { λ value. elim [ None ↦ λ same. same | Some text ↦ λ same. same.1 ] };

    ghost readable = { elim [
      | None ↦ inl refl
      | Some text ↦ inr (text_bytes text, refl, IsUtf8-had _ text.ok)
    ] };
}

/// The columns of a row that are still to be read.
#[derive(Drop)]
pub struct Columns<'a> {
    row: &'a Row,
    at: usize,
}

impl<'a> Model for Columns<'a> {
    ghost use Rattle.std.specs.Prelude.{List, drop};
    ghost use Rattle.sqlite.specs.declared.types.Value.{Value as SqlValue};

    ghost Value = { List SqlValue };

    ghost view = { λ columns. drop columns.at columns.row.now };
}

impl<'a> Columns<'a> {
    /// All of them.
    pub fn of(row: &'a Row) -> Columns<'a>
        ensures { result ≡ row.now }
    {
        Columns { row, at: 0 }
    }

    /// Reads the first of them.
    pub fn next<C: Column>(&mut self) -> Result<C, StoreFault>
        // with Ok, the value read stood before the columns that are left now
        ensures value { IfOk result (λ read. self.old ≡ C.shows read ∷ self.new) }
        // after Store, no value of this type stood first
        ensures refused { IfErr result (λ e. e ≡ StoreFault.Store
            → (shown : C) (rest : SqlRow) → self.old ≢ C.shows shown ∷ rest) }
    {
        if self.at >= self.row.column_count() {
            return Err(StoreFault::Store);
        }
        let read = self.row.get(self.at)?;
        self.at += 1;
        Ok(read)
    }

    /// Whether all were read.
    pub fn end(&self) -> Result<(), StoreFault>
        // with Ok, no column is left
        ensures none { OnOk result (self.now ≡ []) }
        // after Store, a column is left
        ensures refused { IfErr result (λ e. e ≡ StoreFault.Store → self.now ≢ []) }
    {
        if self.at < self.row.column_count() {
            return Err(StoreFault::Store);
        }
        Ok(())
    }
}
