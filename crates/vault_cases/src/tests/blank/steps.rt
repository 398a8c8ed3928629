//! Steps over a new file as lines: what is done with it, `=`, and what that tells.
use super::folder::{brief, holds_page};
use std::fs;
use vault_blank::make::{Made, make_blank};
use vault_script::paths::{done_told, is_said, path_told, step_of};

/// What a call that makes a file answers: `new`, `there`, or the kind of its error.
fn made(rt: &HostRuntime, path: &str) -> String {
    let alloc = rt.alloc();
    let told = match brief(&make_blank(rt, path)) {
        Ok(Made::New) => String::from_str(alloc, "new"),
        Ok(Made::There) => String::from_str(alloc, "there"),
        Err(kind) => format!(in alloc; "{kind:?}"),
    };
    told.unwrap_or(String::new(alloc))
}

/// How many bytes a file has.
fn size(rt: &HostRuntime, path: &str) -> String {
    let alloc = rt.alloc();
    match fs::metadata(rt, path) {
        Ok(found) => {
            let size = found.len();
            format!(in alloc; "{size}").unwrap_or(String::new(alloc))
        }
        Err(_) => String::new(alloc),
    }
}

/// Whether a file gets a second name, where both stand in one line.
fn is_named_twice(rt: &HostRuntime, paths: &str) -> bool {
    match paths.split_once(' ') {
        Some((one, other)) => fs::hard_link(rt, one, other).is_ok(),
        None => false,
    }
}

/// Whether the page is all that the folder of a path holds.
pub fn is_alone(rt: &HostRuntime, path: &str) -> bool {
    match path.rsplit_once('/') {
        Some((folder, _)) => holds_page(rt, folder, path, b""),
        None => false,
    }
}

/// What a step over a path tells.
fn step_told(rt: &HostRuntime, step: &str, path: &str) -> String {
    match step {
        "make" => made(rt, path),
        "size" => size(rt, path),
        "hard" => done_told(rt.alloc(), is_named_twice(rt, path)),
        "page" => done_told(rt.alloc(), is_alone(rt, path)),
        _ => path_told(rt, step, path),
    }
}

/// Whether each of these lines tells what it says.
pub fn is_as_said(rt: &HostRuntime, lines: &str) -> bool {
    for line in lines.lines() {
        let Some((step, path)) = step_of(line) else {
            return false;
        };
        if !is_said(rt, line, step_told(rt, step, path).as_str()) {
            return false;
        }
    }
    true
}
