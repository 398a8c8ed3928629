//! Readers that give a little at a time, writers that take a little, and either that fails.
use super::connect_new;
use std::alloc::Global;
use std::cell::Cell;
use vault_http::fault::{ServeFault, refusal_of};
use vault_http::served::Served;
use vault_script::fakes::{CountingWriter, PieceReader, TestReader, TestWriter};
use vault_script::shops::repeated;
use vault_script::worked::{ANSWERED, ASKED};

/// How a connection ended.
type Ended = Option<Result<Served, ServeFault>>;

/// The end of a connection that was answered two messages.
const WHOLE: Ended = Some(Ok(Served {
    messages: 2,
    fault: None,
}));

/// A connection to a shop of its own, over a slow reader and a slow writer that fail at these calls.
fn connect_slow(alloc: Global, bytes: &[u8], bad: (usize, usize), output: &mut Vec<u8>) -> Ended {
    let (reads, writes) = (Cell::new(0), Cell::new(0));
    let reader = TestReader::slow(bytes, 1, &reads, bad.0);
    let writer = TestWriter::slow(output, &writes, bad.1);
    connect_new(alloc, reader, writer, 1000)
}

/// Whether two worked messages end so where a reader and a writer fail at these calls, and so many bytes of
/// their answers are out; all of them, where there are fewer.
fn ends_slowly(alloc: Global, bad: (usize, usize), ended: Ended, out: usize) -> bool {
    let Ok(asked) = repeated(alloc, ASKED, 2) else {
        return false;
    };
    let Ok(answered) = repeated(alloc, ANSWERED, 2) else {
        return false;
    };
    let mut output = Vec::new(alloc);
    let is_ended = connect_slow(alloc, asked.as_bytes(), bad, &mut output) == ended;
    let size = out.min(answered.len());
    is_ended && output.len() == size && answered.as_bytes().starts_with(&output)
}

#[test]
fn bytes_one_at_a_time_are_answered_alike(rt: HostRuntime) {
    assert!(rt; ends_slowly(rt.alloc(), (0, 0), WHOLE, usize::MAX));
}

/// Whether a reader that fails at its call `bad` ends the connection with 61, up to the read of the end.
fn is_ended_by_its_reader(alloc: Global, bad: usize) -> bool {
    let whole = ASKED.len();
    let two = whole.saturating_mul(2);
    if bad > two.saturating_add(1) {
        return ends_slowly(alloc, (bad, 0), WHOLE, usize::MAX);
    }
    let answers = if bad > two {
        2
    } else {
        usize::from(bad > whole)
    };
    let out = ANSWERED.len().saturating_mul(answers);
    ends_slowly(alloc, (bad, 0), Some(Err(ServeFault::Read)), out)
}

#[test]
fn a_reader_that_fails_ends_the_connection_with_61(rt: HostRuntime) {
    for bad in 1..400 {
        assert!(rt; is_ended_by_its_reader(rt.alloc(), bad), "at call {bad}");
    }
    assert!(rt; refusal_of(ServeFault::Read).number() == 61);
}

/// Whether a writer that fails at its call `bad` ends the connection with 62, up to the last byte.
fn is_ended_by_its_writer(alloc: Global, bad: usize) -> bool {
    if bad > ANSWERED.len().saturating_mul(2) {
        return ends_slowly(alloc, (0, bad), WHOLE, usize::MAX);
    }
    let out = bad.saturating_sub(1);
    ends_slowly(alloc, (0, bad), Some(Err(ServeFault::Write)), out)
}

#[test]
fn a_writer_that_fails_ends_the_connection_with_62(rt: HostRuntime) {
    for bad in 1..400 {
        assert!(rt; is_ended_by_its_writer(rt.alloc(), bad), "at call {bad}");
    }
    assert!(rt; refusal_of(ServeFault::Write).number() == 62);
}

/// The worked message five times, each with its answer.
const PIECES: [(&str, &str); 5] = [(ASKED, ANSWERED); 5];

/// Whether each read finds the answers to all messages before it out.
fn is_prompt(alloc: Global) -> bool {
    let (out, late) = (Cell::new(0), Cell::new(0));
    let reader = TestReader::Pieces(PieceReader::new(PIECES.as_slice(), &out, &late));
    let writer = TestWriter::Counting(CountingWriter { out: &out });
    let ended = connect_new(alloc, reader, writer, 1000);
    let served = Served {
        messages: 5,
        fault: None,
    };
    ended == Some(Ok(served)) && late.get() == 0 && out.get() == ANSWERED.len().saturating_mul(5)
}

#[test]
fn each_read_finds_all_answers_before_it_out(rt: HostRuntime) {
    assert!(rt; is_prompt(rt.alloc()));
}
