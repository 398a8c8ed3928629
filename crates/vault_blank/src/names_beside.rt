//! The names beside a file's own.
ghost use Rattle.std.specs.Prelude.{◌≡◌, ◌≢◌, [], List, ℕ, ◌++◌, codes, Some, None, IfOk};
ghost use Rattle.std.specs.Path.{path_parent};
ghost use Rattle.std.specs.String.{string_bytes};

use std::alloc::{AllocError, Allocator};
use std::path::Path;

/// The second name of a file, which it has until it is whole.
pub(crate) fn second_name<A: Allocator>(alloc: A, path: &str) -> Result<String<A>, AllocError>
    ensures { IfOk result (λ name. string_bytes name ≡ path.now ++ codes "-new") }
{
    let mut name = String::from_str(alloc, path)?;
    name.push_str("-new")?;
    Ok(name)
}

/// The name of a file's log.
pub(crate) fn log_name<A: Allocator>(alloc: A, path: &str) -> Result<String<A>, AllocError>
    ensures { IfOk result (λ name. string_bytes name ≡ path.now ++ codes "-wal") }
{
    let mut name = String::from_str(alloc, path)?;
    name.push_str("-wal")?;
    Ok(name)
}

/// The folder that a path lies in.
pub(crate) fn folder_of(path: &str) -> &str
    // a path without a parent is in the folder `.`
    ensures none { path_parent path.now ≡ None → result.now ≡ codes "." }
    // so is one whose parent is empty
    ensures here { path_parent path.now ≡ Some [] → result.now ≡ codes "." }
    // any other is in its parent
    ensures parent { (folder : List ℕ) → path_parent path.now ≡ Some folder → folder ≢ []
        → result.now ≡ folder }
{
    match Path::new(path).parent() {
        Some(folder) if !folder.as_str().is_empty() => folder.as_str(),
        Some(_) | None => ".",
    }
}
