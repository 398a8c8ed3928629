//! As many messages as a source gives pairs.
use super::connect_new;
use std::alloc::Global;
use vault_http::fault::{ServeFault, refusal_of};
use vault_http::served::Served;
use vault_script::fakes::{TestReader, TestWriter};
use vault_script::shops::repeated;
use vault_script::worked::{ANSWERED, ASKED};

/// Whether a source of one pair lets the first of two messages be answered, and ends the connection then.
fn is_ended_by_its_source(alloc: Global) -> bool {
    let Ok(asked) = repeated(alloc, ASKED, 2) else {
        return false;
    };
    let mut output = Vec::new(alloc);
    let reader = TestReader::Bytes(asked.as_bytes());
    let ended = connect_new(alloc, reader, TestWriter::Whole(&mut output), 1);
    ended == Some(Err(ServeFault::Source)) && output.as_slice() == ANSWERED.as_bytes()
}

#[test]
fn a_source_that_gives_no_pair_ends_the_connection(rt: HostRuntime) {
    assert!(rt; is_ended_by_its_source(rt.alloc()));
    assert!(rt; refusal_of(ServeFault::Source).number() == 60);
}

/// Whether so many messages end so, where the source gives 1000 pairs.
fn are_ended(alloc: Global, count: u64, ended: Result<Served, ServeFault>) -> bool {
    let Ok(asked) = repeated(alloc, "GET / HTTP/1.1\r\n\r\n", count) else {
        return false;
    };
    let mut output = Vec::new(alloc);
    let reader = TestReader::Bytes(asked.as_bytes());
    connect_new(alloc, reader, TestWriter::Whole(&mut output), 1000) == Some(ended)
}

/// A thousand messages are answered, and no fault.
const THOUSAND: Served = Served {
    messages: 1000,
    fault: None,
};

#[test]
fn a_thousand_messages_are_answered(rt: HostRuntime) {
    assert!(rt; are_ended(rt.alloc(), 1000, Ok(THOUSAND)));
    assert!(rt; are_ended(rt.alloc(), 1001, Err(ServeFault::Source)));
}
