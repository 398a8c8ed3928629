//! The forty requests, and a batch, that are stopped at each call to a file in turn: what they made and gave
//! is what was answered, or that of one message more; sent again, they are answered as without a stop.
use super::over::Step;
use super::sent::LINES;
use super::sessions::{Left, is_beginning, session};
use super::steps::{TestDisk, done, no_files};
use super::stops::MOST_CALLS;
use sqlite::Files;
use std::alloc::Global;
use vault_script::forty::answers;

/// What is sent.
#[derive(Clone, Copy)]
enum Sending {
    Stream,
    Rows,
}

impl Sending {
    /// The step that sends it.
    fn step(self) -> Step<'static> {
        match self {
            Sending::Stream => Step::Stream,
            Sending::Rows => Step::Rows,
        }
    }

    /// What goes out where nothing stops it.
    fn whole(self, alloc: Global) -> String {
        match self {
            Sending::Stream => answers(alloc).unwrap_or(String::new(alloc)),
            Sending::Rows => String::from_str(alloc, LINES).unwrap_or(String::new(alloc)),
        }
    }

    /// What stands once in each answer, in what is sent a byte of it at least.
    fn mark(self) -> &'static str {
        match self {
            Sending::Stream => "HTTP/1.1 ",
            Sending::Rows => ",106",
        }
    }

    /// How many of the first answers tell of a change: each row does, and each message but a repeat, which is
    /// the second of its round, where it is answered by a token or a number.
    fn accepted(self, whole: &str, first: usize) -> usize {
        match self {
            Sending::Rows => first.min(3),
            Sending::Stream => whole
                .split("HTTP/1.1 ")
                .skip(1)
                .take(first)
                .enumerate()
                .filter(|(place, answer)| place % 3 != 1 && answer.starts_with("200 "))
                .count(),
        }
    }
}

/// How many tokens were made and numbers given; `none` where the tables aren't there.
const COUNTED: Step<'static> = Step::Number(
    "SELECT coalesce(sum(total), 0) FROM counts WHERE kind < 3",
);

/// Whether this many tokens and numbers are those of the answers that went out, or of one more.
fn is_counted(sending: Sending, whole: &str, out: &str, counted: &str) -> bool {
    let Ok(counted) = counted.parse::<usize>() else {
        return out.matches(sending.mark()).count() == 0;
    };
    let begun = out.matches(sending.mark()).count();
    counted == sending.accepted(whole, begun)
        || counted == sending.accepted(whole, begun.saturating_add(1))
}

/// Whether files that a stop left hold what was answered, and answer all that is sent again.
fn is_answered_again(
    rt: &HostRuntime,
    sending: Sending,
    whole: &str,
    out: &str,
    files: Files<TestDisk>,
) -> bool {
    let (counted, files) = done(rt.alloc(), files, COUNTED);
    let (again, _files) = done(rt.alloc(), files, sending.step());
    let is_so = is_beginning(whole, out)
        && is_counted(sending, whole, out, counted.as_str())
        && again.as_str() == whole;
    if !is_so {
        let _ = println!(rt; "{counted}: {out}: {again}");
    }
    is_so
}

/// Whether that is so for each stop of one file, until nothing is stopped.
fn is_whole(rt: &HostRuntime, sending: Sending, is_log: bool) -> bool {
    let alloc = rt.alloc();
    let whole = sending.whole(alloc);
    let empty = no_files(alloc);
    for calls in 0..MOST_CALLS {
        let Left { out, files } = session(alloc, &empty, calls, is_log, sending.step());
        let out = out.as_str();
        if !is_answered_again(rt, sending, whole.as_str(), out, files) {
            return false;
        }
        if out == whole.as_str() {
            return calls > 0;
        }
    }
    false
}

#[test]
fn a_stream_whose_log_stops_is_answered_when_it_is_sent_again(rt: HostRuntime) {
    assert!(rt; is_whole(&rt, Sending::Stream, true));
}

#[test]
fn a_stream_whose_database_stops_is_answered_when_it_is_sent_again(rt: HostRuntime) {
    assert!(rt; is_whole(&rt, Sending::Stream, false));
}

#[test]
fn a_batch_that_is_stopped_is_answered_when_it_is_sent_again(rt: HostRuntime) {
    assert!(rt; is_whole(&rt, Sending::Rows, true));
    assert!(rt; is_whole(&rt, Sending::Rows, false));
}
