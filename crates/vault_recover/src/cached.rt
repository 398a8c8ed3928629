//! How the kernel keeps a database's files in its memory.
//!
//! What is read is kept in pieces as large as the kernel reads ahead, of up to 2 MiB, and each later write of
//! a few kilobytes into such a piece passes over all of its blocks, as does each sync. What is read without
//! reading ahead is kept in single pages.
use std::fs::{self, File};
use std::io::{self, Read};
use std::os::fd::AsRawFd;
use std::rt::HostRuntime;

/// How many bytes are read at once.
const PIECE: usize = 262_144;

/// Reads a file to its end, and drops what it reads.
fn read_through(file: &mut File, piece: &mut [u8]) -> io::Result<()> {
    for _ in 0..u64::MAX {
        if file.read(piece)? == 0 {
            break;
        }
    }
    Ok(())
}

/// Has the kernel keep a file in single pages, as far as it doesn't keep it already.
fn keep_in_pages(rt: &HostRuntime, path: &str) -> io::Result<()> {
    let mut file = File::open(rt, path)?;
    let advised = libc::posix_fadvise(file.as_raw_fd(), 0, 0, libc::POSIX_FADV_RANDOM);
    if advised != 0 {
        return Err(io::Error::from_raw_os_error(advised));
    }
    let mut piece = vec![in rt.alloc(); 0u8; PIECE]?;
    read_through(&mut file, piece.as_mut_slice())
}

/// The same of the database file at a path, and of its log. The database has dropped what was kept of both
/// when it opened them, and is about to read them.
pub(crate) fn keep_both_in_pages(rt: &HostRuntime, path: &str) -> io::Result<()> {
    let real = fs::canonicalize(rt, path)?;
    let log = format!(in rt.alloc(); "{}-wal", real.as_str())?;
    keep_in_pages(rt, real.as_str())?;
    keep_in_pages(rt, log.as_str())
}
