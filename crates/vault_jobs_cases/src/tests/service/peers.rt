//! Peers that are silent, cut short, gone or in the way: the service goes on to the next one.
use super::fakes::TestListener;
use super::{SHOP, is_served, is_served_within, is_told, listen, open_peer, peer, serve_within};
use crate::tests::clocks::TestClock;
use std::alloc::Global;
use std::io;
use std::io::{Read, Write, read_to_string};
use std::net::{Net, OpenListener, TcpListener, TcpStream};
use std::os::fd::AsRawFd;
use std::rc::Rc;
use std::time::{Clock, Duration};
use vault_listen::elapsed::Elapsed;
use vault_listen::limits::{Limits, PATIENCE};
use vault_listen::linger::discard;
use vault_listen::peer::{PeerReader, PeerWriter};
use vault_listen::stream::PeerStream;
use vault_script::shops::{repeated, shop};
use vault_script::worked::{ANSWERED, ASKED};

/// Whether peers that go away end their own connection alone.
fn go_away<H: Net<Listener = TcpListener, Stream = TcpStream> + AllocGlobal>(
    rt: &H,
) -> io::Result<bool> {
    let alloc = rt.alloc();
    let listener = listen(rt)?;
    let silent = peer(rt, &listener, b"")?;
    let cut = peer(rt, &listener, &ASKED.as_bytes()[..99])?;
    drop(peer(rt, &listener, ASKED.as_bytes())?);
    drop(open_peer(rt, &listener, b"")?);
    let last = peer(rt, &listener, ASKED.as_bytes())?;
    let served = is_served(alloc, &listener, 5, 1000);
    let are_silent = is_told(alloc, silent, "") && is_told(alloc, cut, "");
    Ok(served && are_silent && is_told(alloc, last, ANSWERED))
}

#[test]
fn peers_that_go_away_end_their_own_connection_alone(rt: HostRuntime) {
    assert!(rt; go_away(&rt).unwrap_or(false));
}

/// How long it takes to serve a peer that sends no more, and then the next one, where a message may take five
/// seconds; none where one of them isn't answered so.
fn time_of_both<H: Net<Listener = TcpListener, Stream = TcpStream> + AllocGlobal + Clock>(
    rt: &H,
    sent: &[u8],
    wanted: &str,
) -> io::Result<Option<Duration>> {
    let listener = listen(rt)?;
    let idle = open_peer(rt, &listener, sent)?;
    let next = peer(rt, &listener, ASKED.as_bytes())?;
    let mut vault = shop(rt.alloc(), SHOP);
    let limits = Limits {
        turn: Duration::from_secs(1),
        connection: Duration::from_secs(60),
    };
    let (lent, clock) = (TestListener::new(&listener), TestClock::at(1000));
    let begun = rt.monotonic()?;
    let ended = serve_within(rt.alloc(), &lent, 2, &clock, limits, &mut vault);
    let took = rt.monotonic()?.saturating_sub(begun);
    let are_told = is_told(rt.alloc(), next, ANSWERED) && is_told(rt.alloc(), idle, wanted);
    Ok((ended == Ok(()) && are_told).then_some(took))
}

/// Whether that takes at least so many milliseconds and less than so many.
fn takes<H: Net<Listener = TcpListener, Stream = TcpStream> + AllocGlobal + Clock>(
    rt: &H,
    sent: &[u8],
    wanted: &str,
    least: u64,
    most: u64,
) -> bool {
    match time_of_both(rt, sent, wanted) {
        Ok(Some(took)) => {
            took >= Duration::from_millis(least) && took < Duration::from_millis(most)
        }
        Ok(None) | Err(_) => false,
    }
}

#[test]
fn a_quiet_peer_gives_way_to_one_that_waits(rt: HostRuntime) {
    assert!(rt; takes(&rt, ASKED.as_bytes(), ANSWERED, 95, 900));
    assert!(rt; takes(&rt, b"", "", 95, 900));
}

#[test]
fn a_message_that_has_begun_keeps_its_time(rt: HostRuntime) {
    assert!(rt; takes(&rt, &ASKED.as_bytes()[..99], "", 1000, 5000));
}

/// Whether the waits of a stream are limited to five seconds both ways.
fn are_limited<H: Net<Listener = TcpListener, Stream = TcpStream> + AllocGlobal>(
    rt: &H,
) -> io::Result<bool> {
    let listener = listen(rt)?;
    let _other = open_peer(rt, &listener, b"a")?;
    let (stream, _) = listener.accept()?;
    let clock = TestClock::at(1000);
    let elapsed = Rc::new(rt.alloc(), Elapsed::new(&clock, Limits::of_service())?)?;
    let stream = PeerStream::new(rt.alloc(), stream, listener.as_raw_fd())?;
    let read = PeerReader::new(stream.again()?, elapsed.clone()?).read(&mut [0; 9])?;
    let written = PeerWriter::new(stream.again()?, elapsed).write(b"ab")?;
    let patience = Some(Duration::from_secs(PATIENCE));
    let stream = stream.connection();
    let is_waited = stream.read_timeout()? == patience && stream.write_timeout()? == patience;
    Ok(read == 1 && written == 2 && is_waited)
}

#[test]
fn waits_are_limited_both_ways(rt: HostRuntime) {
    assert!(rt; are_limited(&rt).unwrap_or(false));
}

/// A service by which a peer has no time.
const NO_TIME: Limits = Limits {
    turn: Duration::ZERO,
    connection: Duration::ZERO,
};

/// Whether a peer that has no time ends its connection alone.
fn ends_alone<H: Net<Listener = TcpListener, Stream = TcpStream> + AllocGlobal>(
    rt: &H,
) -> io::Result<bool> {
    let listener = listen(rt)?;
    let asked = peer(rt, &listener, b"")?;
    let served = is_served_within(rt.alloc(), &listener, 1, &TestClock::at(1000), NO_TIME);
    Ok(served && is_told(rt.alloc(), asked, ""))
}

#[test]
fn a_peer_without_time_ends_its_connection_alone(rt: HostRuntime) {
    assert!(rt; ends_alone(&rt).unwrap_or(false));
}

/// Whether a peer is sent this. A connection that ends with unread bytes is reset, and then it is sent
/// nothing.
fn is_told_so(alloc: Global, peer: TcpStream, wanted: &str) -> bool {
    match read_to_string(alloc, peer) {
        Ok(text) => text.as_str() == wanted,
        Err(_) => wanted.is_empty(),
    }
}

/// Whether the service answers so many of a peer's messages, where so many seconds pass each time that its
/// clock is asked: once for a connection and for each read, and four times for each message.
fn are_answered<H: Net<Listener = TcpListener, Stream = TcpStream> + AllocGlobal>(
    rt: &H,
    step: u64,
    answers: u64,
) -> io::Result<bool> {
    let listener = listen(rt)?;
    let asked = repeated(rt.alloc(), ASKED, 9)?;
    let asked = peer(rt, &listener, asked.as_bytes())?;
    let wanted = repeated(rt.alloc(), ANSWERED, answers)?;
    let clock = TestClock::stepping(step);
    let served = is_served_within(rt.alloc(), &listener, 1, &clock, Limits::of_service());
    Ok(served && is_told_so(rt.alloc(), asked, wanted.as_str()))
}

#[test]
fn a_message_has_5_seconds_and_a_connection_60(rt: HostRuntime) {
    for (step, answers) in [(1, 9), (4, 4), (5, 0), (6, 0)] {
        assert!(rt;
            are_answered(&rt, step, answers).unwrap_or(false),
            "{step} seconds"
        );
    }
}

/// The answer to a body that is too large.
const TOO_LARGE: &str = "HTTP/1.1 413 Payload Too Large\r\nContent-Type: application/json\r\n\
    Content-Length: 14\r\nConnection: close\r\n\r\n{\"refused\":54}";

/// Whether an answer before unread bytes reaches its peer.
fn is_reached<H: Net<Listener = TcpListener, Stream = TcpStream> + AllocGlobal>(
    rt: &H,
) -> io::Result<bool> {
    let listener = listen(rt)?;
    let body = repeated(rt.alloc(), "0123456789", 5000)?;
    let head = "POST /v1/merchants/shop1/tokens HTTP/1.1\r\nContent-Length: 50000\r\n\r\n";
    let asked = format!(in rt.alloc(); "{head}{body}")?;
    let asked = peer(rt, &listener, asked.as_bytes())?;
    Ok(is_served(rt.alloc(), &listener, 1, 1000) && is_told(rt.alloc(), asked, TOO_LARGE))
}

#[test]
fn an_answer_before_unread_bytes_reaches_its_peer(rt: HostRuntime) {
    assert!(rt; is_reached(&rt).unwrap_or(false));
}

/// Whether a connection has a thousand messages, and the next one is served.
fn has_a_thousand<H: Net<Listener = TcpListener, Stream = TcpStream> + AllocGlobal>(
    rt: &H,
) -> io::Result<bool> {
    let listener = listen(rt)?;
    let asked = repeated(rt.alloc(), "GET / HTTP/1.1\r\n\r\n", 1001)?;
    let many = peer(rt, &listener, asked.as_bytes())?;
    let next = peer(rt, &listener, ASKED.as_bytes())?;
    let served = is_served(rt.alloc(), &listener, 2, 1000);
    let answers = read_to_string(rt.alloc(), many)?;
    let status = "HTTP/1.1 404 Not Found\r\n";
    let count = answers.as_str().matches(status).count();
    Ok(served && count == 1000 && is_told(rt.alloc(), next, ANSWERED))
}

#[test]
fn each_connection_has_a_thousand_messages(rt: HostRuntime) {
    assert!(rt; has_a_thousand(&rt).unwrap_or(false));
}

#[test]
fn at_most_64_kib_are_thrown_away(rt: HostRuntime) {
    let sent = [b'x'; 70_000];
    let mut reader = sent.as_slice();
    discard(&mut reader);
    let left = reader.len();
    discard(&mut reader);
    assert!(rt; left == 4_464 && reader.is_empty());
}
