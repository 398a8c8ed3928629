//! A Tokenize that is stopped at each call to the files in turn leaves its entry, its record and its count,
//! or none of them.
use super::over::Step;
use super::steps::{TestDisk, all_done, done, is_told, no_files};
use sqlite::Files;
use sqlite_disk::{Crash, Disk, Fuse, Memory};
use std::alloc::Global;

/// The request that is stopped.
const REQUEST: &str =
    "tokenize till-1 shop1 7 single 4111111111111111 0 1000 = 0000000000001111 1060";

/// More calls to a file than the request makes.
pub const MOST_CALLS: u64 = 1000;

/// Writes these bytes to an empty file, all on the disk, and tells whether that was done.
fn is_written<D: Disk>(file: &mut D, bytes: &[u8]) -> bool {
    if !file.may_be_used() || file.write_at(0, bytes).is_err() {
        return false;
    }
    file.may_be_used() && file.sync().is_ok()
}

/// A file with these bytes, or none where they weren't written.
pub fn copy(alloc: Global, bytes: &[u8]) -> Memory {
    let mut file = Memory::new(alloc);
    if is_written(&mut file, bytes) {
        file
    } else {
        Memory::new(alloc)
    }
}

/// What is done over files that stop, and what a crash may leave of it.
#[derive(Clone, Copy)]
pub struct Trial<'a> {
    /// The step, and what it tells once nothing stops it.
    pub step: Step<'a>,
    pub done: &'a str,
    /// What is asked after the crash.
    pub seen: Step<'a>,
    /// What that tells of a step that isn't done; where there are several such texts a `|` stands between
    /// two.
    pub before: &'a str,
    /// What that tells of a step that is done.
    pub after: &'a str,
}

/// What a step that may be stopped left.
#[derive(Clone, Copy)]
enum Left {
    /// The step is done, and all of it is seen.
    Done,
    /// The step was stopped, and what may be left of it is seen, or all.
    Stopped,
    /// Something else is seen, or nothing of a step that is done.
    Other,
}

/// Whether this is one of the texts between which a `|` stands.
pub fn is_among(texts: &str, told: &str) -> bool {
    for text in texts.split('|') {
        if text == told {
            return true;
        }
    }
    false
}

/// What a step left that told this, and of which this is seen.
fn found(rt: &HostRuntime, trial: &Trial<'_>, told: &str, seen: &str) -> Left {
    if told == trial.done {
        if is_told(rt, seen, trial.after) {
            Left::Done
        } else {
            Left::Other
        }
    } else if is_among(trial.before, seen) || is_told(rt, seen, trial.after) {
        Left::Stopped
    } else {
        Left::Other
    }
}

/// Does a step over files of which one may stop, and tells what a crash leaves of it.
fn stopped(rt: &HostRuntime, files: Files<TestDisk>, trial: &Trial<'_>) -> Left {
    let alloc = rt.alloc();
    let (told, mut files) = done(alloc, files, trial.step);
    files.log.crash();
    files.db.crash();
    let (seen, _files) = done(alloc, files, trial.seen);
    found(rt, trial, told.as_str(), seen.as_str())
}

/// Copies of files, of which one stops after so many calls.
pub fn fused(alloc: Global, base: &Files<TestDisk>, calls: u64, is_log: bool) -> Files<TestDisk> {
    let (log, db) = if is_log {
        (calls, u64::MAX)
    } else {
        (u64::MAX, calls)
    };
    Files {
        log: Fuse::new(copy(alloc, base.log.inner().bytes()), log),
        db: Fuse::new(copy(alloc, base.db.inner().bytes()), db),
    }
}

/// Stops the open and the step after no call to a file, after one, after two and so on, until the step is
/// done, and tells how many calls that took; none where a stop left something else, or the step is never
/// done.
fn calls_until_done(
    rt: &HostRuntime,
    base: &Files<TestDisk>,
    is_log: bool,
    trial: &Trial<'_>,
) -> Option<u64> {
    for calls in 0..MOST_CALLS {
        match stopped(rt, fused(rt.alloc(), base, calls, is_log), trial) {
            Left::Done => return Some(calls),
            Left::Stopped => {}
            Left::Other => return None,
        }
    }
    None
}

/// Whether a step over files of which one is stopped leaves what it may, or is done, and was stopped.
fn is_whole(rt: &HostRuntime, base: &Files<TestDisk>, is_log: bool, trial: &Trial<'_>) -> bool {
    match calls_until_done(rt, base, is_log, trial) {
        Some(calls) => calls > 0,
        None => false,
    }
}

/// Whether that is so over each of the two files in turn.
pub fn is_whole_where_stopped(rt: &HostRuntime, base: &Files<TestDisk>, trial: &Trial<'_>) -> bool {
    is_whole(rt, base, true, trial) && is_whole(rt, base, false, trial)
}

/// A shop is opened.
const SHOP: [Step<'static>; 1] = [Step::Ask("open till-1 shop1 60 0 1000 = done")];

/// The request, and what is counted after the crash.
const TRIAL: Trial<'static> = Trial {
    step: Step::Ask(REQUEST),
    done: "answered",
    seen: Step::Count,
    before: "0 0 0 ",
    after: "1 1 1 ",
};

/// Whether the request in an open shop is there whole or not at all where it is stopped.
fn is_request_whole(rt: &HostRuntime) -> bool {
    let (told, base) = all_done(rt.alloc(), no_files(rt.alloc()), SHOP.as_slice());
    is_told(rt, told.as_str(), "answered; ") && is_whole_where_stopped(rt, &base, &TRIAL)
}

#[test]
fn a_request_that_is_stopped_is_there_whole_or_not_at_all(rt: HostRuntime) {
    assert!(rt; is_request_whole(&rt));
}
