//! The forty requests over ordered maps: in lumps of each size, by a reader that fails at each call, and by a
//! writer that does.
use std::alloc::Global;
use std::cell::Cell;
use vault_http::fault::ServeFault;
use vault_http::serve::serve;
use vault_http::served::Served;
use vault_script::fakes::{TestReader, TestWriter};
use vault_script::forty::{MESSAGES, Pairs, SHOP, answers, messages};
use vault_script::shops::shop;
use vault_wire::watched::Watched;

/// How the messages come: so many bytes at a call, with a reader and a writer that fail at these calls,
/// counted from 1.
#[derive(Clone, Copy)]
struct Sending {
    size: usize,
    bad_read: usize,
    bad_write: usize,
}

/// The end of a connection that was answered all messages.
const WHOLE: Served = Served {
    messages: MESSAGES,
    fault: None,
};

/// Sends messages to a shop of its own, and tells how that ended.
fn sent(
    alloc: Global,
    asked: &str,
    sending: Sending,
    out: &mut Vec<u8>,
) -> Result<Served, ServeFault> {
    let (reads, writes) = (Cell::new(0), Cell::new(0));
    let bytes = asked.as_bytes();
    let reader = TestReader::slow(bytes, sending.size, &reads, sending.bad_read);
    let writer = TestWriter::slow(out, &writes, sending.bad_write);
    let (mut reader, mut writer) = (Watched::new(reader), Watched::new(writer));
    let mut vault = shop(alloc, SHOP);
    let mut source = Pairs::new(alloc);
    serve(alloc, &mut reader, &mut writer, &mut vault, &mut source)
}

/// What is sent, and what goes out where nothing stops it.
#[derive(Drop)]
struct Script {
    asked: String,
    answered: String,
}

/// The forty requests; without a message for want of memory.
fn whole_script(alloc: Global) -> Script {
    Script {
        asked: messages(alloc).unwrap_or(String::new(alloc)),
        answered: answers(alloc).unwrap_or(String::new(alloc)),
    }
}

/// How a connection ended, where a beginning of the answers went out, and how many bytes of them; none where
/// something else did.
fn ended(
    alloc: Global,
    script: &Script,
    sending: Sending,
) -> Option<(Result<Served, ServeFault>, usize)> {
    let mut out = Vec::new(alloc);
    let ended = sent(alloc, script.asked.as_str(), sending, &mut out);
    if script.answered.as_bytes().starts_with(&out) {
        Some((ended, out.len()))
    } else {
        None
    }
}

/// Whether the messages are answered alike in lumps of each size.
fn are_answered_in_lumps(rt: &HostRuntime) -> bool {
    let script = whole_script(rt.alloc());
    let whole = Some((Ok(WHOLE), script.answered.len()));
    for size in 1..=200 {
        let sending = Sending {
            size,
            bad_read: 0,
            bad_write: 0,
        };
        if ended(rt.alloc(), &script, sending) != whole {
            let _ = println!(rt; "in lumps of {size} bytes");
            return false;
        }
    }
    true
}

#[test]
fn forty_requests_are_answered_alike_in_lumps_of_each_size(rt: HostRuntime) {
    assert!(rt; are_answered_in_lumps(&rt));
}

/// Whether a reader of 16 bytes that fails at each call ends the connection with 61, and a beginning of the
/// answers is out, until it no longer fails.
fn are_ended_by_the_reader(rt: &HostRuntime) -> bool {
    let script = whole_script(rt.alloc());
    let whole = Some((Ok(WHOLE), script.answered.len()));
    for bad_read in 1..1000 {
        let sending = Sending {
            size: 16,
            bad_read,
            bad_write: 0,
        };
        let now = ended(rt.alloc(), &script, sending);
        if now == whole {
            return bad_read.saturating_sub(2) == script.asked.len().div_ceil(16);
        }
        if !is_stopped(now, ServeFault::Read) {
            let _ = println!(rt; "read at call {bad_read}");
            return false;
        }
    }
    false
}

/// Whether a connection was ended by this.
fn is_stopped(now: Option<(Result<Served, ServeFault>, usize)>, fault: ServeFault) -> bool {
    match now {
        Some((ended, _)) => ended == Err(fault),
        None => false,
    }
}

#[test]
fn a_reader_that_fails_among_forty_requests_ends_them_with_61(rt: HostRuntime) {
    assert!(rt; are_ended_by_the_reader(&rt));
}

/// Whether a writer of one byte that fails at each call ends the connection with 62, and exactly the bytes
/// before are out, until it no longer fails.
fn are_ended_by_the_writer(rt: &HostRuntime) -> bool {
    let script = whole_script(rt.alloc());
    for bad_write in 1..=script.answered.len() {
        let sending = Sending {
            size: 4096,
            bad_read: 0,
            bad_write,
        };
        let stopped = Some((Err(ServeFault::Write), bad_write.saturating_sub(1)));
        if ended(rt.alloc(), &script, sending) != stopped {
            let _ = println!(rt; "write at call {bad_write}");
            return false;
        }
    }
    script.answered.len() > 3000
}

#[test]
fn a_writer_that_fails_among_forty_requests_ends_them_with_62(rt: HostRuntime) {
    assert!(rt; are_ended_by_the_writer(&rt));
}
