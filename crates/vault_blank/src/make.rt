//! A new file is made at a path, whole or not at all.
//!
//! It is written under its second name, and gets its own by a link, which fails where something has that
//! name. Then the second name is taken away. Whoever makes the file holds its lock from before the first
//! byte until then, so of two programs one writes. A stop leaves no file, or the whole one, and perhaps the
//! second name; the next call goes on from there.
ghost use Rattle.std.specs.Prelude.{◌≡◌, [], IsErrAnd};
ghost use Rattle.std.specs.Fs.{permissions_mode};
ghost use Rattle.std.specs.IoError.{error_kind};

use crate::lock::Lock;
use crate::log::has_log;
use crate::names_beside::{folder_of, second_name};
use crate::page::write_blank;
use std::alloc::{Alloc, AllocError};
use std::fs::{Files, Metadata, OpenFile, OpenOptions, Permissions};
use std::io::ErrorKind;
use std::os::unix::fs::{MetadataExt, OpenOptionsExt, PermissionsExt};
use std::{fs, io};

/// What a call found or made at the path.
#[derive(Clone, Copy, PartialEq, Eq)]
pub enum Made {
    /// The new file is this call's.
    New,
    /// Something had the name already, or got it meanwhile. It is as it was.
    There,
}

/// How often a call begins again where another program changed the names meanwhile.
const TURNS: u32 = 8;

/// The owner alone may read and write the file.
const PRIVATE: u32 = 0o600;

/// The same as permissions: 384 is 600 in octal digits.
fn private() -> Permissions
    ensures { permissions_mode result ≡ 384 }
{
    Permissions::from_mode(PRIVATE)
}

/// What has the name, where something has; a link is not followed.
fn named<R: Files>(files: &R, name: &str) -> io::Result<Option<Metadata>> {
    match fs::symlink_metadata(files, name) {
        Ok(found) => Ok(Some(found)),
        Err(error) if error.kind() == ErrorKind::NotFound => Ok(None),
        Err(error) => Err(error),
    }
}

/// Whether nothing has the name, in a folder that is there; or a file without a byte and without a log has
/// it, or stands where a link of this name leads.
fn has_no_byte<R: Files + Alloc>(rt: &R, path: &str) -> io::Result<bool> {
    if named(rt, path)?.is_none() {
        return Ok(fs::metadata(rt, folder_of(path))?.is_dir());
    }
    let found = fs::metadata(rt, path)?;
    Ok(found.is_file() && found.len() == 0 && !has_log(rt, path)?)
}

/// The same, and false where it can't be told; but it fails where memory is refused.
pub fn is_empty<R: Files + Alloc>(rt: &R, path: &str) -> Result<bool, AllocError> {
    match has_no_byte(rt, path) {
        Ok(empty) => Ok(empty),
        Err(error) => match error.kind() {
            ErrorKind::OutOfMemory => Err(AllocError),
            _ => Ok(false),
        },
    }
}

/// Whether both are the same regular file, which has so many names.
fn is_same(one: &Metadata, other: &Metadata, names: u64) -> bool {
    let same = one.dev() == other.dev() && one.ino() == other.ino();
    same && one.is_file() && one.nlink() == names
}

/// Takes the name away, where it isn't gone already.
fn remove<R: Files>(files: &R, name: &str) -> io::Result<()> {
    match fs::remove_file(files, name) {
        Err(error) if error.kind() == ErrorKind::NotFound => Ok(()),
        outcome => outcome,
    }
}

/// Takes the second name away, and has the disk keep the names that are left.
fn leave_one<R: Files>(files: &R, path: &str, second: &str) -> io::Result<()> {
    remove(files, second)?;
    fs::open(files, folder_of(path))?.sync_all()
}

/// Whether something has the name. A file that is whole and has both names, as a stop left it, gets one.
fn is_there<R: Files>(files: &R, path: &str, second: &str) -> io::Result<bool> {
    let Some(found) = named(files, path)? else {
        return Ok(false);
    };
    if let Some(left) = named(files, second)? {
        if is_same(&found, &left, 2) {
            leave_one(files, path, second)?;
        }
    }
    Ok(true)
}

/// Opens what a stop left at the second name; `None` where it is gone meanwhile, or has another name too.
/// What is no regular file is refused.
fn open_left<R: Files>(files: &R, second: &str) -> io::Result<Option<R::File>> {
    match named(files, second)? {
        Some(left) if !left.is_file() => return Err(ErrorKind::Unsupported.into()),
        Some(left) if left.nlink() == 1 => {}
        Some(_) | None => return Ok(None),
    }
    match OpenOptions::new()
        .read(true)
        .write(true)
        .open(files, second)
    {
        Ok(file) => Ok(Some(file)),
        Err(error) if error.kind() == ErrorKind::NotFound => Ok(None),
        Err(error) => Err(error),
    }
}

/// Makes the second name, or opens what a stop left there.
fn open_second<R: Files>(files: &R, second: &str) -> io::Result<Option<R::File>> {
    match OpenOptions::new()
        .read(true)
        .write(true)
        .create_new(true)
        .mode(PRIVATE)
        .open(files, second)
    {
        Ok(file) => Ok(Some(file)),
        Err(error) if error.kind() == ErrorKind::AlreadyExists => open_left(files, second),
        Err(error) => Err(error),
    }
}

/// Whether the second name is this very file's, and its only one: it is not the file at the path.
fn is_named<R: Files>(files: &R, file: &R::File, second: &str) -> io::Result<bool> {
    let held = file.metadata()?;
    match named(files, second)? {
        Some(found) => Ok(is_same(&found, &held, 1)),
        None => Ok(false),
    }
}

/// Writes the page in place of whatever a stop left, and has the disk keep it.
fn fill<F: io::Write + OpenFile>(file: &mut F) -> io::Result<()> {
    file.set_permissions(private())?;
    file.set_len(0)?;
    write_blank(file)?;
    file.sync_all()
}

/// Gives the file its own name, unless something has it.
fn link<R: Files>(files: &R, path: &str, second: &str) -> io::Result<Made> {
    match fs::hard_link(files, second, path) {
        Ok(()) => Ok(Made::New),
        Err(error) if error.kind() == ErrorKind::AlreadyExists => Ok(Made::There),
        Err(error) => Err(error),
    }
}

/// Fills the file at the second name and links it. Where that fails, the second name is taken away, if it
/// can be.
fn fill_and_link<R: Files>(
    files: &R,
    file: &mut R::File,
    path: &str,
    second: &str,
) -> io::Result<Made> {
    let outcome = match fill(file) {
        Ok(()) => link(files, path, second),
        Err(error) => Err(error),
    };
    if outcome.is_err() {
        let _ = remove(files, second);
    }
    outcome
}

/// Makes the file where nothing has its name; `None` where the names changed meanwhile.
fn make_once<R: Files>(files: &R, path: &str, second: &str) -> io::Result<Option<Made>>
where
    R::File: Lock,
{
    let Some(mut file) = open_second(files, second)? else {
        return Ok(None);
    };
    file.hold()?;
    if !is_named(files, &file, second)? {
        return Ok(None);
    }
    let made = fill_and_link(files, &mut file, path, second)?;
    leave_one(files, path, second)?;
    drop(file);
    Ok(Some(made))
}

/// Makes a new file at a path where nothing has the name: a database without a table, which its owner alone
/// may read and write. What has the name, a file, a folder or a link, stays as it is.
///
/// Refused with `ErrorKind::WouldBlock` where another program makes the file at this moment, and with
/// `ErrorKind::Unsupported` where the path with `-new` behind it is no regular file or has other names.
/// After an error the file is there, whole, or it isn't.
pub fn make_blank<R: Files + Alloc>(rt: &R, path: &str) -> io::Result<Made>
where
    R::File: Lock,
    // an empty path is refused with `InvalidInput`
    ensures no_path { path.now ≡ [] → IsErrAnd result (λ e. error_kind e ≡ ErrorKind.InvalidInput) }
{
    if path.is_empty() {
        return Err(ErrorKind::InvalidInput.into());
    }
    let second = second_name(rt.alloc(), path)?;
    for _ in 0..TURNS {
        if is_there(rt, path, second.as_str())? {
            return Ok(Made::There);
        }
        if let Some(made) = make_once(rt, path, second.as_str())? {
            return Ok(made);
        }
    }
    Err(ErrorKind::Unsupported.into())
}
