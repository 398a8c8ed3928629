//! Readers that give a little at a time, writers that take a little, and either that fails.
use super::{ANSWERED, ASKED, Ended, Told, is_told, run_new};
use std::alloc::Global;
use std::cell::Cell;
use vault_batch::fault::BatchFault;
use vault_script::fakes::{CountingWriter, PieceReader, TestReader, TestWriter};

/// The worked rows over a slow reader and a slow writer that fail at these calls.
fn run_slow(alloc: Global, bad: (usize, usize), output: &mut Vec<u8>) -> Ended {
    let (reads, writes) = (Cell::new(0), Cell::new(0));
    let reader = TestReader::slow(ASKED.as_bytes(), 1, &reads, bad.0);
    let writer = TestWriter::slow(output, &writes, bad.1);
    run_new(alloc, reader, writer, 100)
}

/// Whether the worked rows are answered whole where a reader and a writer fail at these calls.
fn is_whole(alloc: Global, bad: (usize, usize)) -> bool {
    let mut output = Vec::new(alloc);
    let ended = run_slow(alloc, bad, &mut output);
    is_told(ended, Told::Counted(2, 3)) && output.as_slice() == ANSWERED.as_bytes()
}

#[test]
fn bytes_one_at_a_time_are_answered_alike(rt: HostRuntime) {
    assert!(rt; is_whole(rt.alloc(), (0, 0)));
}

/// Whether a beginning of the lines is out, and the batch has stopped by this fault.
fn is_begun(ended: Ended, wanted: BatchFault, output: &[u8]) -> bool {
    match ended {
        Some((Err(fault), _)) => fault == wanted && ANSWERED.as_bytes().starts_with(output),
        _ => false,
    }
}

/// Whether a reader that fails at its call `bad` ends the batch with 41, up to the second read of the end.
fn is_ended_by_its_reader(alloc: Global, bad: usize) -> bool {
    if bad > ASKED.len().saturating_add(2) {
        return is_whole(alloc, (bad, 0));
    }
    let mut output = Vec::new(alloc);
    let ended = run_slow(alloc, (bad, 0), &mut output);
    is_begun(ended, BatchFault::Read, &output)
}

#[test]
fn a_reader_that_fails_ends_a_batch_with_41(rt: HostRuntime) {
    for bad in 1..200 {
        assert!(rt; is_ended_by_its_reader(rt.alloc(), bad), "at call {bad}");
    }
    assert!(rt; BatchFault::Read.refusal().number() == 41);
}

/// Whether a writer that fails at its call `bad` ends the batch with 42, up to the last byte.
fn is_ended_by_its_writer(alloc: Global, bad: usize) -> bool {
    if bad > ANSWERED.len() {
        return is_whole(alloc, (0, bad));
    }
    let mut output = Vec::new(alloc);
    let ended = run_slow(alloc, (0, bad), &mut output);
    is_begun(ended, BatchFault::Write, &output) && output.len().saturating_add(1) == bad
}

#[test]
fn a_writer_that_fails_ends_a_batch_with_42(rt: HostRuntime) {
    for bad in 1..200 {
        assert!(rt; is_ended_by_its_writer(rt.alloc(), bad), "at call {bad}");
    }
    assert!(rt; BatchFault::Write.refusal().number() == 42);
}

/// The worked rows, each with its line.
const PIECES: [(&str, &str); 6] = [
    ("request,number,use\n", "request,answer,detail\n"),
    ("1,4111111111111111,single\n", "1,0000000000001111,1060\n"),
    ("2,4111 1111 1111 1112,single\n", "2,refused,2\n"),
    ("x,4111111111111111,single\n", "0,refused,5\n"),
    ("3,0000000000,single\n", "3,refused,12\n"),
    ("1,4111111111111111,single\n", "1,0000000000001111,1060\n"),
];

/// Whether each read finds the lines of all rows before it out.
fn is_prompt(alloc: Global) -> bool {
    let (out, late) = (Cell::new(0), Cell::new(0));
    let reader = TestReader::Pieces(PieceReader::new(PIECES.as_slice(), &out, &late));
    let writer = TestWriter::Counting(CountingWriter { out: &out });
    let ended = run_new(alloc, reader, writer, 100);
    is_told(ended, Told::Counted(2, 3)) && late.get() == 0 && out.get() == ANSWERED.len()
}

#[test]
fn each_read_finds_the_lines_of_all_rows_before_it_out(rt: HostRuntime) {
    assert!(rt; is_prompt(rt.alloc()));
}
