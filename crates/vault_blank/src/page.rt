//! The page of a new file.
ghost use Rattle.std.specs.Prelude.{◌≡◌, ◌+◌, ◌≤◌, ◌++◌, length, take, drop, OnOk};
ghost use Rattle.std.specs.Io.KnownBytes.{Appends};
ghost use Rattle.vault_blank.specs.Page.{blank_database};

use std::io;
use std::io::Write;

/// A small page, since a commit writes whole pages and the rows here are short.
const PAGE_SIZE: u16 = 512;

/// The changes are kept in a write-ahead log, and not in a rollback journal.
const WRITE_AHEAD_LOG: u8 = 2;

/// The only ones that the format takes.
const PAYLOAD_FRACTIONS: [u8; 3] = [64, 32, 32];

/// The newest form of what the schema may say.
const SCHEMA_FORMAT: u32 = 4;

/// UTF-8.
const TEXT_ENCODING: u32 = 1;

/// The version of SQLite whose form the file has: 3.45.0.
const VERSION_NUMBER: u32 = 3_045_000;

/// A leaf of a table's tree.
const TABLE_LEAF: u8 = 13;

/// Writes the bytes at their place in the page.
fn put(page: &mut [u8], at: usize, bytes: &[u8])
    requires fits { at + length bytes.now ≤ length page.old }
    ensures { page.new ≡ take at page.old ++ bytes.now ++ drop (at + length bytes.now) page.old }
{
    page[at..at + bytes.len()].copy_from_slice(bytes);
}

/// The one page of a database without a table. What isn't put is 0.
pub fn blank_page() -> [u8; 512]
    // these are the bytes of a database without a table
    ensures bytes { result ≡ blank_database }
    ensures length { length result ≡ 512 }
{
    let mut page = [0; 512];
    put(&mut page, 0, b"SQLite format 3\0");
    put(&mut page, 16, &PAGE_SIZE.to_be_bytes());
    put(&mut page, 18, &[WRITE_AHEAD_LOG, WRITE_AHEAD_LOG]); // to write it, and to read it
    put(&mut page, 21, &PAYLOAD_FRACTIONS);
    put(&mut page, 24, &1u32.to_be_bytes()); // the first change
    put(&mut page, 28, &1u32.to_be_bytes()); // one page
    put(&mut page, 44, &SCHEMA_FORMAT.to_be_bytes());
    put(&mut page, 56, &TEXT_ENCODING.to_be_bytes());
    put(&mut page, 68, b"VAUL"); // whose file it is
    put(&mut page, 92, &1u32.to_be_bytes()); // the version is that of the first change
    put(&mut page, 96, &VERSION_NUMBER.to_be_bytes());
    put(&mut page, 100, &[TABLE_LEAF]);
    put(&mut page, 105, &PAGE_SIZE.to_be_bytes()); // no cell: they would begin at the page's end
    page
}

/// Writes the page, all of it. After an error a part of it may be written.
pub fn write_blank<W: Write>(writer: &mut W) -> io::Result<()>
    ensures { OnOk result (Appends (W.contents writer.old) (W.contents writer.new) blank_database) }
{
    writer.write_all(&blank_page())
}
