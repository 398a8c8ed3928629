//! Databases in memory: opened, asked and ended. A connection is made and ended here alone.
use super::over::{Step, done_over};
use sqlite::{Connection, FileStore, Files, Options};
use sqlite_disk::{Fuse, Memory};
use std::alloc::Global;
use vault_script::told::text;

/// A file in memory that may stop after some calls. All tests are over this one kind, so that the database is
/// compiled for no other.
pub type TestDisk = Fuse<Memory>;

/// The files that a connection ends with.
fn ended(conn: Connection<FileStore<TestDisk>>) -> Files<TestDisk> {
    match conn.close_files() {
        Ok(files) => files,
        Err((_, store)) => store.close(),
    }
}

/// Does a step over files, and gives them again.
pub fn done(alloc: Global, files: Files<TestDisk>, step: Step<'_>) -> (String, Files<TestDisk>) {
    if !files.may_be_used() {
        return (text(alloc, "not connected"), files);
    }
    match Connection::open_files(alloc, files, Options::new(9)) {
        Ok(conn) => {
            let (told, conn) = done_over(alloc, conn, step);
            (told, ended(conn))
        }
        Err((_, left)) => (text(alloc, "not connected"), left.into_files()),
    }
}

/// Does steps over files in turn, and gives the files again; what each step tells ends with `; `.
pub fn all_done(
    alloc: Global,
    files: Files<TestDisk>,
    steps: &[Step<'_>],
) -> (String, Files<TestDisk>) {
    let mut files = files;
    let mut all = String::new(alloc);
    for step in steps {
        let (told, left) = done(alloc, files, *step);
        files = left;
        let _ = all.push_str(told.as_str());
        let _ = all.push_str("; ");
    }
    (all, files)
}

/// A file that never stops.
pub fn lasting(file: Memory) -> TestDisk {
    Fuse::new(file, u64::MAX)
}

/// Files without a byte, which never stop.
pub fn no_files(alloc: Global) -> Files<TestDisk> {
    Files {
        log: lasting(Memory::new(alloc)),
        db: lasting(Memory::new(alloc)),
    }
}

/// Whether this was told; what was told in its place is printed.
pub fn is_told(rt: &HostRuntime, told: &str, wanted: &str) -> bool {
    if told == wanted {
        return true;
    }
    let _ = println!(rt; "{told}");
    false
}
