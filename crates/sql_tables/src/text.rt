//! The texts of rows that are kept.
ghost use Rattle.std.specs.Prelude.{◌≡◌, ◌≤◌, IfOk, IsUtf8, length, string_bytes};
ghost use Rattle.sqlite.specs.Values.{text_refusal};
ghost use Rattle.sqlite.specs.declared.types.Value.TheVariants.{Text};
ghost use Rattle.sql_tables.specs.Places.{bytes_at};

use sqlite::types::{FromSql, FromSqlError, ValueRef};
use std::alloc::{AllocError, Global};
use std::marker::Model;
use std::str;

/// The most bytes that lie in a value itself: a name has 16 at most, a token and a number 19.
const IN_PLACE: usize = 20;

/// At most 20 bytes, which lie here.
#[derive(Drop)]
struct Cells {
    bytes: [u8; IN_PLACE],
    len: u8,
}

impl Model for Cells {
    ghost use Rattle.std.specs.Prelude.{◌≡◌, ℕ, ◌≤◌, List, length, take};

    ghost Value = { List ℕ };

    ghost view = { λ s. take s.len s.bytes };

    ghost invariant = { λ s. s.len ≤ 20 };
}

impl Cells {
    /// A copy of bytes.
    fn of(bytes: &[u8]) -> Cells
        // there are at most 20
        requires { length bytes.now ≤ 20 }
        // it has these bytes
        ensures { result ≡ bytes.now }
    {
        let mut filled = [0; IN_PLACE];
        filled[..bytes.len()].copy_from_slice(bytes);
        Cells {
            bytes: filled,
            len: bytes.len() as u8,
        }
    }

    /// The bytes.
    fn bytes(&self) -> &[u8]
        ensures { result.now ≡ self.now }
    {
        &self.bytes[..usize::from(self.len)]
    }
}

/// Where the bytes of a text are.
#[derive(Drop)]
enum Place {
    Here(Cells),
    Apart(Box<String>),
}

/// The text of a column. One of at most 20 bytes, as a name, a token and a number, takes no memory of its
/// own.
#[derive(Drop)]
pub struct RowText {
    place: Place,
    ghost ok: { ∥ IsUtf8 (bytes_at place) ∥₁ },
}

/// A text in memory of its own.
fn apart(alloc: Global, text: &str) -> Result<Place, AllocError>
    ensures { IfOk result (λ place. bytes_at place ≡ text.now) }
{
    match Box::new(alloc, String::from_str(alloc, text)?) {
        Ok(text) => Ok(Place::Apart(text)),
        Err(_) => Err(AllocError),
    }
}

/// Bytes that are a text.
fn as_text(bytes: &[u8]) -> &str
    // the bytes are UTF-8
    requires { IsUtf8 bytes.now }
    // the text has these bytes
    ensures { result.now ≡ bytes.now }
{
    let Ok(text) = str::from_utf8(bytes) else {
        unreachable!();
    };
    text
}

impl RowText {
    /// A copy of a text. Only memory can fail.
    fn of(alloc: Global, text: &str) -> Result<RowText, AllocError>
        ensures { IfOk result (λ it. bytes_at it.place ≡ text.now) }
    {
        let place = if text.len() <= IN_PLACE {
            Place::Here(Cells::of(text.as_bytes()))
        } else {
            apart(alloc, text)?
        };
        Ok(RowText { place })
    }

    /// The text.
    pub fn as_str(&self) -> &str
        ensures { result.now ≡ bytes_at self.now.place }
    {
        match &self.place {
            Place::Here(cells) => as_text(cells.bytes()),
            Place::Apart(text) => text.as_str(),
        }
    }

    /// A copy in memory of its own. Only memory can fail.
    pub fn to_string(&self, alloc: Global) -> Result<String, AllocError>
        ensures { IfOk result (λ text. string_bytes text ≡ bytes_at self.now.place) }
    {
        String::from_str(alloc, self.as_str())
    }
}

impl FromSql for RowText {
    ghost use Rattle.std.specs.Prelude.{◌≡◌, IsUtf8};

    ghost reads_as = { λ value text. value ≡ Text (bytes_at text.place) };

    ghost is_readable = { λ value. (bytes : _) × (value ≡ Text bytes) × IsUtf8 bytes };

    ghost refusal = { text_refusal };

    fn column_result(alloc: Global, value: ValueRef<'_>) -> Result<RowText, FromSqlError> {
        match value {
            ValueRef::Text(bytes) => match str::from_utf8(bytes) {
                Ok(text) => Ok(RowText::of(alloc, text)?),
                Err(_) => Err(FromSqlError::Utf8),
            },
            _ => Err(FromSqlError::InvalidType),
        }
    }
}
