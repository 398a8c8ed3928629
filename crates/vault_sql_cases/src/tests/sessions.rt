//! The forty requests in sessions: each is stopped one call to a file later than the one before, and the next
//! sends all from the start, until one ends without a stop.
use super::over::Step;
use super::steps::{TestDisk, all_done, done, is_told, lasting, no_files};
use super::stops::{MOST_CALLS, copy, fused, is_among};
use sqlite::Files;
use sqlite_disk::Crash;
use std::alloc::Global;
use vault_script::forty::answers;

/// What a session leaves.
#[derive(Drop)]
pub struct Left {
    /// What went out.
    pub out: String,
    /// The files after the crash.
    pub files: Files<TestDisk>,
}

/// Does a step over files of which one stops after so many calls, and crashes.
pub fn session(
    alloc: Global,
    files: &Files<TestDisk>,
    calls: u64,
    is_log: bool,
    step: Step<'_>,
) -> Left {
    let (out, mut left) = done(alloc, fused(alloc, files, calls, is_log), step);
    left.log.crash();
    left.db.crash();
    let files = Files {
        log: lasting(copy(alloc, left.log.inner().bytes())),
        db: lasting(copy(alloc, left.db.inner().bytes())),
    };
    Left { out, files }
}

/// How many numbers went out in all sessions, and the files that the last one left.
#[derive(Drop)]
struct Sent {
    numbers: u64,
    files: Files<TestDisk>,
}

/// How many card numbers these answers bring.
fn numbers_in(out: &str) -> u64 {
    out.matches("{\"number\":").count() as u64
}

/// Whether a beginning of all answers went out, or the files weren't opened.
pub fn is_beginning(whole: &str, out: &str) -> bool {
    whole.starts_with(out) || is_among("not connected|33", out)
}

/// Whether a session left a beginning of all answers, and files that are sound.
fn is_left(rt: &HostRuntime, whole: &str, out: &str, seen: &str) -> bool {
    let is_so = seen.starts_with("sound ") && is_beginning(whole, out);
    if !is_so {
        let _ = println!(rt; "{seen}: {out}");
    }
    is_so
}

/// Sends all in sessions until one ends without a stop; none where a session leaves something else, or none
/// ends.
fn all_sessions(rt: &HostRuntime, whole: &str, is_log: bool) -> Option<Sent> {
    let alloc = rt.alloc();
    let mut files = no_files(alloc);
    let mut numbers = 0u64;
    for calls in 0..MOST_CALLS {
        let Left { out, files: left } = session(alloc, &files, calls, is_log, Step::Stream);
        let (seen, checked) = done(alloc, left, Step::Check);
        files = checked;
        let out = out.as_str();
        if !is_left(rt, whole, out, seen.as_str()) {
            return None;
        }
        numbers = numbers.saturating_add(numbers_in(out));
        if out == whole {
            return Some(Sent { numbers, files });
        }
    }
    None
}

/// The vault afterwards, and how many tokens it made and how often it gave a number.
const ENDED: [Step<'static>; 3] = [
    Step::Check,
    Step::Number("SELECT total FROM counts WHERE kind = 1"),
    Step::Number("SELECT total FROM counts WHERE kind = 2"),
];

/// Whether all is answered in the end, and the vault has counted at least the numbers that went out.
fn is_answered(rt: &HostRuntime, is_log: bool) -> bool {
    let alloc = rt.alloc();
    let whole = answers(alloc).unwrap_or(String::new(alloc));
    let Some(sent) = all_sessions(rt, whole.as_str(), is_log) else {
        return false;
    };
    let (told, _files) = all_done(alloc, sent.files, ENDED.as_slice());
    let Some(given) = told.as_str().strip_prefix("sound 1 8 8; 8; ") else {
        return is_told(rt, told.as_str(), "sound 1 8 8; 8; and more");
    };
    let given = given.trim_end_matches("; ").parse::<u64>().unwrap_or(0);
    sent.numbers > 0 && given >= sent.numbers
}

#[test]
fn sessions_with_a_log_that_stops_answer_one_token_a_request(rt: HostRuntime) {
    assert!(rt; is_answered(&rt, true));
}

#[test]
fn sessions_with_a_database_that_stops_answer_one_token_a_request(rt: HostRuntime) {
    assert!(rt; is_answered(&rt, false));
}
