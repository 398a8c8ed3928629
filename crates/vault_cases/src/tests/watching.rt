//! Readers and writers that are watched for their first failure.
use std::alloc::Global;
use std::cell::Cell;
use std::io;
use std::io::{ErrorKind, Read, Write};
use vault_script::fakes::{TestReader, TestWriter, WriteFailure};
use vault_wire::watched::{Watched, send};

/// Whether this is what a call of a reader gives that fails at its call `bad`.
fn is_read(read: &io::Result<usize>, call: usize, bad: usize) -> bool {
    match read {
        Ok(count) => *count == 1,
        Err(e) if call == bad => e.kind() == ErrorKind::BrokenPipe,
        Err(e) => e.kind() == ErrorKind::Other,
    }
}

/// Whether a reader that fails at its call `bad` has failed from that call on, and isn't called after it.
fn is_stopped_reader(bad: usize) -> bool {
    let calls = Cell::new(0);
    let mut reader = Watched::new(TestReader::slow(b"aaaaaaaa", 1, &calls, bad));
    let mut place = [0];
    for call in 1..9 {
        let read = reader.read(&mut place);
        if !is_read(&read, call, bad) || reader.failed() != (call >= bad) {
            return false;
        }
    }
    calls.get() == bad
}

/// Whether a reader that is read to its end has not failed.
fn is_calm_at_its_end() -> bool {
    let mut reader = Watched::new(TestReader::Bytes(b"ab"));
    let mut places = [0; 4];
    let first = reader.read(&mut places);
    let second = reader.read(&mut places);
    matches!((first, second), (Ok(2), Ok(0))) && !reader.failed()
}

#[test]
fn a_reader_has_failed_only_after_its_own_error(rt: HostRuntime) {
    for bad in 1..6 {
        assert!(rt; is_stopped_reader(bad), "at call {bad}");
    }
    assert!(rt; is_calm_at_its_end());
}

/// Whether a writer that doesn't fail is sent five bytes in five calls, and is calm then and after.
fn is_sent_whole(alloc: Global) -> bool {
    let calls = Cell::new(0);
    let mut got = Vec::new(alloc);
    let mut out = Watched::new(TestWriter::slow(&mut got, &calls, 0));
    let sent = send(&mut out, b"hello").is_ok() && calls.get() == 5 && !out.failed();
    let empty = matches!(out.write(b""), Ok(0)) && !out.failed();
    let flushed = out.flush().is_ok() && !out.failed();
    sent && empty && flushed && got.as_slice() == b"hello".as_slice()
}

#[test]
fn all_bytes_go_out_one_at_a_time(rt: HostRuntime) {
    assert!(rt; is_sent_whole(rt.alloc()));
}

/// Whether a writer that fails at its call `bad` has taken the bytes before, fails from then on, and
/// isn't called again.
fn is_stopped_writer(alloc: Global, failure: WriteFailure, bad: usize) -> bool {
    let calls = Cell::new(0);
    let mut got = Vec::new(alloc);
    let mut out = Watched::new(TestWriter::failing(&mut got, &calls, bad, failure));
    let stopped = send(&mut out, b"hello").is_err() && out.failed();
    let stays = send(&mut out, b"again").is_err() && out.write(b"again").is_err();
    let flushed = out.flush().is_ok();
    let begun = b"hello".starts_with(&got) && got.len().saturating_add(1) == bad;
    stopped && stays && !flushed && begun && calls.get() == bad
}

/// How a writer fails.
const FAILURES: [(&str, WriteFailure); 2] = [
    ("interrupted", WriteFailure::Interrupted),
    ("without a byte", WriteFailure::TakesNone),
];

#[test]
fn a_failed_writer_has_a_beginning(rt: HostRuntime) {
    for (name, failure) in FAILURES {
        for bad in 1..6 {
            assert!(rt;
                is_stopped_writer(rt.alloc(), failure, bad),
                "{name} at call {bad}"
            );
        }
    }
}

/// Whether a writer whose flush fails is stopped, and isn't called again.
fn is_stopped_by_its_flush(alloc: Global) -> bool {
    let calls = Cell::new(0);
    let mut got = Vec::new(alloc);
    let mut out = Watched::new(TestWriter::failing(&mut got, &calls, 1, WriteFailure::Interrupted));
    let flushed = out.flush();
    flushed.is_err_and(|e| e.kind() == ErrorKind::BrokenPipe)
        && out.failed()
        && out.write(b"a").is_err()
        && calls.get() == 1
}

#[test]
fn a_failed_flush_stops_a_writer(rt: HostRuntime) {
    assert!(rt; is_stopped_by_its_flush(rt.alloc()));
}
