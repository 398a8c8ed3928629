//! Connections over loopback: each peer has sent its bytes before the first is accepted.
mod ends;
mod fakes;
mod peers;
mod streams;

use super::clocks::TestClock;
use fakes::{Lent, TestListener};
use rand::SeedableRng;
use rand::rngs::StdRng;
use std::alloc::Global;
use std::io;
use std::io::{Write, read_to_string};
use std::net::{Net, Shutdown, TcpListener, TcpStream};
use std::time::Duration;
use vault_listen::fault::ListenFault;
use vault_listen::limits::{LONGEST, Limits, PATIENCE};
use vault_listen::service::serve_on;
use vault_listen::tcp::TcpPeers;
use vault_listen::time::ClockTime;
use vault_routes::route::Routes;
use vault_script::shops::shop;
use vault_script::worked::{ANSWERED, ASKED};
use vault_store::tables::Tables;
use vault_store::vault::Vault;

/// A shop with a single life of 60, where `till-1` has all rights and made the worked request at 1000.
const SHOP: &str = "open till-1 shop1 60 0 1000 = done
tokenize till-1 shop1 7 single 4111111111111111 0 1000 = 0000000000001111 1060";

/// A listener on a port of loopback that the system picks.
fn listen<H: Net<Listener = TcpListener, Stream = TcpStream>>(rt: &H) -> io::Result<TcpListener> {
    TcpListener::bind(rt, "127.0.0.1:0")
}

/// A peer that has sent these bytes and sends no more.
fn peer<H: Net<Stream = TcpStream>>(
    rt: &H,
    listener: &TcpListener,
    bytes: &[u8],
) -> io::Result<TcpStream> {
    let stream = open_peer(rt, listener, bytes)?;
    stream.shutdown(Shutdown::Write)?;
    Ok(stream)
}

/// A peer that has sent these bytes and may send more.
fn open_peer<H: Net<Stream = TcpStream>>(
    rt: &H,
    listener: &TcpListener,
    bytes: &[u8],
) -> io::Result<TcpStream> {
    let mut stream = TcpStream::connect(rt, listener.local_addr()?)?;
    stream.write_all(bytes)?;
    Ok(stream)
}

/// Whether all that a peer is sent, up to the end of its connection, is this.
fn is_told(alloc: Global, peer: TcpStream, wanted: &str) -> bool {
    match read_to_string(alloc, peer) {
        Ok(text) => text.as_str() == wanted,
        Err(_) => false,
    }
}

/// Serves so many connections by a clock, within these limits. It has no clause, so that no caller's proof
/// carries those of a service.
fn serve_within<T: Tables>(
    alloc: Global,
    listener: &TestListener<'_>,
    connections: u64,
    clock: &TestClock<'_>,
    limits: Limits,
    vault: &mut Vault<T>,
) -> Result<(), ListenFault> {
    let mut generator = StdRng::seed_from_u64(7);
    let time = ClockTime::new(clock);
    let mut peers = TcpPeers::new(alloc, Lent::new(listener), clock, limits);
    let Ok(routes) = Routes::new(alloc) else {
        return Err(ListenFault::Memory);
    };
    serve_on(
        alloc,
        &time,
        &mut generator,
        &routes,
        &mut peers,
        connections,
        vault,
    )
}

/// A message or an answer may take 200 milliseconds.
fn short_limits() -> Limits {
    Limits {
        turn: Duration::from_millis(200),
        connection: Duration::from_secs(60),
    }
}

/// Serves so many connections by a clock, where a message or an answer may take 200 milliseconds.
fn serve_by<T: Tables>(
    alloc: Global,
    listener: &TestListener<'_>,
    connections: u64,
    clock: &TestClock<'_>,
    vault: &mut Vault<T>,
) -> Result<(), ListenFault> {
    serve_within(alloc, listener, connections, clock, short_limits(), vault)
}

/// Whether so many connections of the shop are served to their end by a clock, within these limits.
fn is_served_within(
    alloc: Global,
    listener: &TcpListener,
    connections: u64,
    clock: &TestClock<'_>,
    limits: Limits,
) -> bool {
    let mut vault = shop(alloc, SHOP);
    let lent = TestListener::new(listener);
    serve_within(alloc, &lent, connections, clock, limits, &mut vault) == Ok(())
}

/// Whether so many connections of the shop are served to their end at a moment, where a message or an answer
/// may take 200 milliseconds.
fn is_served(alloc: Global, listener: &TcpListener, connections: u64, now: u64) -> bool {
    let clock = TestClock::at(now);
    is_served_within(alloc, listener, connections, &clock, short_limits())
}

/// Whether the service, with its own patience, answers the worked message byte for byte.
fn is_answered<H: Net<Listener = TcpListener, Stream = TcpStream> + AllocGlobal>(
    rt: &H,
) -> io::Result<bool> {
    let listener = listen(rt)?;
    let asked = peer(rt, &listener, ASKED.as_bytes())?;
    let clock = TestClock::at(1000);
    let served = is_served_within(rt.alloc(), &listener, 1, &clock, Limits::of_service());
    let are_limits = PATIENCE == 5 && LONGEST == 60;
    Ok(served && are_limits && is_told(rt.alloc(), asked, ANSWERED))
}

#[test]
fn the_worked_message_is_answered_byte_for_byte(rt: HostRuntime) {
    assert!(rt; is_answered(&rt).unwrap_or(false));
}

/// The token of an answer that gives one, where it expires at this moment.
fn token<'a>(answer: &'a str, expires: &str) -> Option<&'a str> {
    let (head, body) = answer.split_once("\r\n\r\n")?;
    let rest = body.strip_prefix("{\"expires\":")?.strip_prefix(expires)?;
    let token = rest.strip_prefix(",\"token\":\"")?.strip_suffix("\"}")?;
    if head.starts_with("HTTP/1.1 200 OK\r\n") {
        Some(token)
    } else {
        None
    }
}

/// Whether two answers give two tokens of the worked number, which expire at 2060.
fn are_two_tokens(first: &str, second: &str) -> bool {
    match (token(first, "2060"), token(second, "2060")) {
        (Some(one), Some(other)) => {
            one.len() == 16 && one.ends_with("1111") && other.ends_with("1111") && one != other
        }
        _ => false,
    }
}

/// Whether two requests on two connections draw their own tokens at 2000, the clock's moment.
fn draw_their_own<H: Net<Listener = TcpListener, Stream = TcpStream> + AllocGlobal>(
    rt: &H,
) -> io::Result<bool> {
    let listener = listen(rt)?;
    let first = ASKED.replace(rt.alloc(), "Request: 7", "Request: 8")?;
    let second = ASKED.replace(rt.alloc(), "Request: 7", "Request: 9")?;
    let first = peer(rt, &listener, first.as_bytes())?;
    let second = peer(rt, &listener, second.as_bytes())?;
    let served = is_served(rt.alloc(), &listener, 2, 2000);
    let first = read_to_string(rt.alloc(), first)?;
    let second = read_to_string(rt.alloc(), second)?;
    Ok(served && are_two_tokens(first.as_str(), second.as_str()))
}

#[test]
fn each_request_draws_its_own_token_at_the_clocks_moment(rt: HostRuntime) {
    assert!(rt; draw_their_own(&rt).unwrap_or(false));
}
