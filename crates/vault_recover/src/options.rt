//! How the database at a path is opened: how much is kept in memory, and when the log is copied.
ghost use Rattle.std.specs.Prelude.{◌≤◌, IfOk};

use sqlite::Options;
use std::fs::File;
use std::hash::{BuildHasher, RandomState};
use std::io::{ErrorKind, Read};
use std::rt::HostRuntime;
use std::{fs, io};

/// How much of a file is kept in memory, and how long its log may grow.
#[derive(Clone, Copy)]
pub enum Cache {
    /// 16 MiB, for a file that is read at many places and written.
    Large,
    /// 2 MiB, as the command-line shell of SQLite has, for a file that is read through once.
    Small,
    /// 512 KiB of pages that were read, and all written ones, for a file that is read through once and then
    /// written anew: no page goes to the log twice in a transaction.
    Moved,
    /// All of the file up to 256 MiB, and a log as long, for a file whose rows are written once each, at
    /// places without an order.
    Whole,
}

const LARGE: usize = 16_777_216;

const SMALL: usize = 2_097_152;

const LEAST: usize = 524_288;

/// A file with a million tokens, each with its card and its request, has 227 MiB.
const WHOLE: usize = 268_435_456;

/// How many bytes of pages the log grows by before they are copied into the database file: six times the
/// thousand pages of 4096 bytes that are usual.
const LOG: usize = 24_576_000;

impl Cache {
    /// How many bytes of pages that were read are kept of a file of this length.
    fn read(self, file: usize) -> usize {
        match self {
            Cache::Large => LARGE,
            Cache::Small => SMALL,
            Cache::Moved => LEAST,
            Cache::Whole => file.min(WHOLE).max(LARGE),
        }
    }

    /// How many bytes of pages that were written are kept before they go to the log.
    fn written(self) -> usize {
        match self {
            Cache::Large => LARGE,
            Cache::Small => SMALL,
            Cache::Moved => usize::MAX,
            Cache::Whole => LARGE,
        }
    }

    /// How many bytes of pages the log of a file of this length has before they are copied into it.
    fn logged(self, file: usize) -> usize {
        match self {
            Cache::Whole => file.min(WHOLE).max(LOG),
            _ => LOG,
        }
    }
}

/// The bytes of a page of a file that has no page yet.
const NEW_PAGE: usize = 4096;

/// Whatever a header says, no page has fewer bytes.
const SMALLEST_PAGE: usize = 512;

/// The bytes of a page, from the first bytes of a file: they stand in two of them, where 1 is 65536.
fn page_size_in(header: &[u8; 18]) -> usize
    ensures { 512 ≤ result }
{
    match u16::from_be_bytes([header[16], header[17]]) {
        1 => 65536,
        size => usize::from(size).max(SMALLEST_PAGE),
    }
}

/// How many bytes a page of a file has, and the file; a folder or a pipe isn't opened.
fn sizes_of(rt: &HostRuntime, path: &str) -> io::Result<(usize, usize)>
    ensures { IfOk result (λ sizes. 512 ≤ sizes.0) }
{
    let found = fs::metadata(rt, path)?;
    if !found.is_file() {
        return Err(ErrorKind::Unsupported.into());
    }
    let mut header = [0; 18];
    File::open(rt, path)?.read_exact(&mut header)?;
    let file = usize::try_from(found.len()).unwrap_or(usize::MAX);
    Ok((page_size_in(&header), file))
}

/// The options for the database at a path, by the size of its pages and its length. The salts of the log
/// begin from a random number.
pub(crate) fn options_for(rt: &HostRuntime, path: &str, cache: Cache) -> io::Result<Options> {
    let (page, file) = sizes_of(rt, path).unwrap_or((NEW_PAGE, 0));
    let seed = RandomState::new(rt)?.hash_one(&0u8);
    Ok(Options {
        cache_pages: cache.read(file) / page,
        spill_pages: cache.written() / page,
        checkpoint_frames: cache.logged(file) / page,
        seed,
    })
}
