//! What a folder holds after a call.
use std::io::ErrorKind;
use std::os::unix::fs::{MetadataExt, PermissionsExt};
use std::{fs, io};
use vault_blank::make::Made;
use vault_blank::page::blank_page;

/// Whether something has the name.
pub fn is_there(rt: &HostRuntime, path: &str) -> bool {
    fs::symlink_metadata(rt, path).is_ok()
}

/// What a call answers, in brief.
pub fn brief(outcome: &io::Result<Made>) -> Result<Made, ErrorKind> {
    match outcome {
        Ok(made) => Ok(*made),
        Err(error) => Err(error.kind()),
    }
}

/// Whether a file is the page, and then these bytes.
pub fn is_page(rt: &HostRuntime, path: &str, then: &[u8]) -> bool {
    let Ok(bytes) = fs::read(rt, path) else {
        return false;
    };
    match bytes.as_slice().split_at_checked(512) {
        Some((page, rest)) => page == blank_page().as_slice() && rest == then,
        None => false,
    }
}

/// How many names a folder holds.
fn count_names(rt: &HostRuntime, folder: &str) -> io::Result<u32> {
    let mut names = 0u32;
    for entry in fs::read_dir(rt, folder)? {
        entry?;
        names = names.saturating_add(1);
    }
    Ok(names)
}

/// Whether a file has one name and only its owner may read and write it.
fn is_private(rt: &HostRuntime, path: &str) -> io::Result<bool> {
    let found = fs::symlink_metadata(rt, path)?;
    Ok(found.nlink() == 1 && found.permissions().mode() & 0o777 == 0o600)
}

/// Whether the folder holds one file of one name, which its owner alone may use, and which is the page, and
/// then these bytes.
pub fn holds_page(rt: &HostRuntime, folder: &str, path: &str, then: &[u8]) -> bool {
    count_names(rt, folder).unwrap_or(0) == 1
        && is_private(rt, path).unwrap_or(false)
        && is_page(rt, path, then)
}
