//! Steps over a path as lines: what is done with what stands there, `=`, and what that tells.
use crate::told::text;
use std::alloc::Global;
use std::fs;
use std::os::unix::fs::{PermissionsExt, symlink};

/// `done`, or `not done`.
pub fn done_told(alloc: Global, is_done: bool) -> String {
    text(alloc, if is_done { "done" } else { "not done" })
}

/// Makes an empty folder, and tells whether that was done.
pub fn is_folder_made(rt: &HostRuntime, path: &str) -> bool {
    let _ = fs::remove_dir_all(rt, path);
    fs::create_dir(rt, path).is_ok()
}

/// Lets a file's owner read and write it and its group read it, and tells whether that was done.
fn is_mode_set(rt: &HostRuntime, path: &str) -> bool {
    fs::set_permissions(rt, path, fs::Permissions::from_mode(0o640)).is_ok()
}

/// Who may do what with a file.
pub fn mode(rt: &HostRuntime, path: &str) -> String {
    let alloc = rt.alloc();
    match fs::metadata(rt, path) {
        Ok(found) => {
            let mode = found.permissions().mode() & 0o777;
            format!(in alloc; "{mode:o}").unwrap_or(String::new(alloc))
        }
        Err(_) => text(alloc, "not there"),
    }
}

/// What stands at a path: `link`, `folder`, `file`, or `nothing`.
pub fn there(rt: &HostRuntime, path: &str) -> &'static str {
    match fs::symlink_metadata(rt, path) {
        Ok(found) => if found.is_symlink() {
            "link"
        } else if found.is_dir() {
            "folder"
        } else {
            "file"
        },
        Err(_) => "nothing",
    }
}

/// Makes a link that leads nowhere, and tells whether that was done.
fn is_linked(rt: &HostRuntime, path: &str) -> bool {
    symlink(rt, "nowhere", path).is_ok()
}

/// Writes this text to a file, or none, and tells whether that was done.
pub fn is_written(rt: &HostRuntime, path: &str, bytes: &[u8]) -> bool {
    fs::write(rt, path, bytes).is_ok()
}

/// Whether a file holds these bytes.
pub fn holds(rt: &HostRuntime, path: &str, bytes: &[u8]) -> bool {
    match fs::read(rt, path) {
        Ok(found) => found.as_slice() == bytes,
        Err(_) => false,
    }
}

/// Bytes that are no database, and longer than a page.
const NO_DATABASE: [u8; 5000] = [b'x'; 5000];

/// Whether a step over a path alone was done.
fn is_done(rt: &HostRuntime, step: &str, path: &str) -> bool {
    match step {
        "folder" => is_folder_made(rt, path),
        "remove" => fs::remove_dir_all(rt, path).is_ok(),
        "drop" => fs::remove_dir(rt, path).is_ok(),
        "delete" => fs::remove_file(rt, path).is_ok(),
        "empty" => is_written(rt, path, b""),
        "mine" => is_written(rt, path, b"mine"),
        "another" => is_written(rt, path, b"another"),
        "begun" => is_written(rt, path, b"SQLite"),
        "has-mine" => holds(rt, path, b"mine"),
        "has-another" => holds(rt, path, b"another"),
        "text" => is_written(rt, path, NO_DATABASE.as_slice()),
        "kept" => holds(rt, path, NO_DATABASE.as_slice()),
        "link" => is_linked(rt, path),
        "640" => is_mode_set(rt, path),
        "nothing" => there(rt, path) == "nothing",
        "linked" => there(rt, path) == "link",
        _ => false,
    }
}

/// What a step over a path alone tells; `not done`, where it is none.
pub fn path_told(rt: &HostRuntime, step: &str, path: &str) -> String {
    match step {
        "mode" => mode(rt, path),
        "there" => text(rt.alloc(), there(rt, path)),
        _ => done_told(rt.alloc(), is_done(rt, step, path)),
    }
}

/// The step of a line, and its path.
pub fn step_of(line: &str) -> Option<(&str, &str)> {
    let (step, _) = line.rsplit_once(" = ")?;
    step.split_once(' ')
}

/// Whether a line says what its step told; one that does not is printed, with what it told.
pub fn is_said(rt: &HostRuntime, line: &str, told: &str) -> bool {
    match line.rsplit_once(" = ") {
        Some((_, wanted)) => if told == wanted {
            return true;
        },
        None => {}
    }
    let _ = println!(rt; "{line}: {told}");
    false
}
