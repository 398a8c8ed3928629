//! The log beside a file.
use crate::names_beside::log_name;
use std::alloc::{Alloc, AllocError};
use std::fs::Files;
use std::io::ErrorKind;
use std::{fs, io};

/// The length of the log, in bytes. It has the name of the file that a link leads to.
fn log_length<R: Files + Alloc>(rt: &R, path: &str) -> io::Result<u64> {
    let name = match fs::canonicalize(rt, path) {
        Ok(real) => log_name(rt.alloc(), real.as_str())?,
        Err(error) if error.kind() == ErrorKind::NotFound => log_name(rt.alloc(), path)?,
        Err(error) => return Err(error),
    };
    Ok(fs::symlink_metadata(rt, name.as_str())?.len())
}

/// Whether something stands in the log beside the file at a path. Where that can't be told, it is taken to;
/// but it fails where memory is refused.
pub fn has_log<R: Files + Alloc>(rt: &R, path: &str) -> Result<bool, AllocError> {
    match log_length(rt, path) {
        Ok(length) => Ok(length > 0),
        Err(error) => match error.kind() {
            ErrorKind::NotFound => Ok(false),
            ErrorKind::OutOfMemory => Err(AllocError),
            _ => Ok(true),
        },
    }
}
