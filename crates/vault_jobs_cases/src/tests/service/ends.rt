//! What ends the service, and what ends one connection alone.
use super::fakes::TestListener;
use super::{SHOP, is_told, listen, peer, serve_by, serve_within};
use crate::tests::clocks::TestClock;
use std::alloc::Global;
use std::io;
use std::io::ErrorKind;
use std::net::{Net, TcpListener, TcpStream};
use vault_listen::fault::ListenFault;
use vault_listen::limits::Limits;
use vault_script::shops::shop;
use vault_script::stuck::Stuck;
use vault_script::worked::{ANSWERED, ASKED};
use vault_store::vault::Vault;

/// Connections that are lost before they are accepted.
const LOST: [ErrorKind; 5] = [
    ErrorKind::ConnectionAborted,
    ErrorKind::ConnectionReset,
    ErrorKind::HostUnreachable,
    ErrorKind::NetworkDown,
    ErrorKind::NetworkUnreachable,
];

/// Whether lost connections count as ones that were served, and the next is served still.
fn count_as_ones<H: Net<Listener = TcpListener, Stream = TcpStream> + AllocGlobal>(
    rt: &H,
) -> io::Result<bool> {
    let listener = listen(rt)?;
    let asked = peer(rt, &listener, ASKED.as_bytes())?;
    let failing = TestListener::failing(&listener, &LOST);
    let mut vault = shop(rt.alloc(), SHOP);
    let all_lost = serve_by(rt.alloc(), &failing, 5, &TestClock::at(1000), &mut vault) == Ok(());
    let accepts = failing.accepts();
    let served = serve_by(rt.alloc(), &failing, 1, &TestClock::at(1000), &mut vault) == Ok(());
    Ok(all_lost && accepts == 5 && served && is_told(rt.alloc(), asked, ANSWERED))
}

#[test]
fn a_connection_that_is_lost_before_it_is_accepted_counts_as_one(rt: HostRuntime) {
    assert!(rt; count_as_ones(&rt).unwrap_or(false));
}

/// Whether the service ends with 80 where its second accept fails so.
fn ends_with_80(alloc: Global, listener: &TcpListener, kind: ErrorKind) -> bool {
    let kinds = [ErrorKind::ConnectionAborted, kind];
    let failing = TestListener::failing(listener, &kinds);
    let mut vault = shop(alloc, SHOP);
    let ended = serve_by(alloc, &failing, 9, &TestClock::at(1000), &mut vault);
    ended == Err(ListenFault::Accept) && failing.accepts() == 2
}

#[test]
fn a_listener_that_fails_ends_the_service_with_80(rt: HostRuntime) {
    let listener = listen(&rt).expect(&rt, "a listener");
    for kind in [
        ErrorKind::Other,
        ErrorKind::InvalidInput,
        ErrorKind::WouldBlock,
        ErrorKind::PermissionDenied,
    ] {
        assert!(rt; ends_with_80(rt.alloc(), &listener, kind), "{kind:?}");
    }
    assert!(rt;
        ListenFault::Accept.refusal().number() == 80 && ListenFault::Store.refusal().number() == 63
    );
}

/// Whether a store that fails ends the service with 63: what was answered before went out, and no further
/// connection is accepted.
fn ends_with_63<H: Net<Listener = TcpListener, Stream = TcpStream> + AllocGlobal>(
    rt: &H,
) -> io::Result<bool> {
    let alloc = rt.alloc();
    let listener = listen(rt)?;
    let repeat = peer(rt, &listener, ASKED.as_bytes())?;
    let request = ASKED.replace(alloc, "Request: 7", "Request: 8")?;
    let twice = format!(in alloc; "{ASKED}{request}")?;
    let stuck = peer(rt, &listener, twice.as_bytes())?;
    let after = peer(rt, &listener, ASKED.as_bytes())?;
    let failing = TestListener::new(&listener);
    let mut vault = Vault::new(Stuck::new(shop(alloc, SHOP).into_tables()));
    let ended = serve_by(alloc, &failing, 9, &TestClock::at(1000), &mut vault);
    let is_stopped = ended == Err(ListenFault::Store) && vault.broken() && failing.accepts() == 2;
    drop(after);
    Ok(is_stopped && is_told(alloc, repeat, ANSWERED) && is_told(alloc, stuck, ANSWERED))
}

#[test]
fn a_store_that_fails_ends_the_service_with_63(rt: HostRuntime) {
    assert!(rt; ends_with_63(&rt).unwrap_or(false));
}

/// How a service ends whose clock tells these, and how many of two connections it accepts; none where the
/// first isn't answered so, or the second, where it is accepted. The clock is asked at the start, for each
/// message, and after each connection.
fn ended_at<H: Net<Listener = TcpListener, Stream = TcpStream> + AllocGlobal>(
    rt: &H,
    told: &[(Option<u64>, u64)],
    first: &str,
    second: Option<&str>,
) -> io::Result<Option<(Result<(), ListenFault>, usize)>> {
    let listener = listen(rt)?;
    let before = peer(rt, &listener, ASKED.as_bytes())?;
    let after = peer(rt, &listener, ASKED.as_bytes())?;
    let failing = TestListener::new(&listener);
    let mut vault = shop(rt.alloc(), SHOP);
    let clock = TestClock::telling(told);
    let ended = serve_within(
        rt.alloc(),
        &failing,
        2,
        &clock,
        Limits::of_service(),
        &mut vault,
    );
    let is_second_told = match second {
        Some(text) => is_told(rt.alloc(), after, text),
        None => true,
    };
    let are_told = is_told(rt.alloc(), before, first) && is_second_told;
    Ok(are_told.then_some((ended, failing.accepts())))
}

/// Whether both connections are accepted and answered so, and the service is done.
fn goes_on<H: Net<Listener = TcpListener, Stream = TcpStream> + AllocGlobal>(
    rt: &H,
    told: &[(Option<u64>, u64)],
    first: &str,
    second: &str,
) -> bool {
    match ended_at(rt, told, first, Some(second)) {
        Ok(ended) => ended == Some((Ok(()), 2)),
        Err(_) => false,
    }
}

/// Whether the first is answered so, and the service ends by 60 before it accepts the second.
fn ends_with_60<H: Net<Listener = TcpListener, Stream = TcpStream> + AllocGlobal>(
    rt: &H,
    told: &[(Option<u64>, u64)],
    first: &str,
) -> bool {
    match ended_at(rt, told, first, None) {
        Ok(ended) => ended == Some((Err(ListenFault::Source), 1)),
        Err(_) => false,
    }
}

#[test]
fn a_clock_that_cant_be_read_ends_the_connection_alone(rt: HostRuntime) {
    let told = [(Some(1000), 0), (None, 0), (None, 0), (Some(1000), 0)];
    assert!(rt; goes_on(&rt, &told, "", ANSWERED));
}

#[test]
fn a_clock_that_jumps_ends_the_service_with_60(rt: HostRuntime) {
    for second in [699, 1301] {
        let told = [(Some(1000), 0), (Some(second), 0)];
        assert!(rt; ends_with_60(&rt, &told, ""), "{second}");
    }
    let told = [(Some(1000), 0), (Some(1000), 0), (Some(1301), 0)];
    assert!(rt; ends_with_60(&rt, &told, ANSWERED));
    assert!(rt; ListenFault::Source.refusal().number() == 60);
}

#[test]
fn a_clock_that_differs_by_300_seconds_goes_on(rt: HostRuntime) {
    for second in [700, 1300] {
        let told = [(Some(1000), 0), (Some(second), 0)];
        assert!(rt; goes_on(&rt, &told, ANSWERED, ANSWERED), "{second}");
    }
}

#[test]
fn a_clock_that_is_set_right_in_time_goes_on(rt: HostRuntime) {
    let told = [(Some(1000), 0), (Some(1301), 0), (Some(1000), 0)];
    assert!(rt; goes_on(&rt, &told, "", ANSWERED));
}

#[test]
fn a_clock_that_cant_be_read_at_the_start_ends_the_service_with_60(rt: HostRuntime) {
    let told = [(None, 0), (Some(1000), 0)];
    assert!(rt; ends_with_60(&rt, &told, ""));
}

/// Whether a service of no connections accepts none.
fn accepts_none(alloc: Global, listener: &TcpListener) -> bool {
    let failing = TestListener::new(listener);
    let mut vault = shop(alloc, SHOP);
    serve_by(alloc, &failing, 0, &TestClock::at(1000), &mut vault) == Ok(())
        && failing.accepts() == 0
}

#[test]
fn no_connection_is_accepted_beyond_the_last(rt: HostRuntime) {
    let listener = listen(&rt).expect(&rt, "a listener");
    assert!(rt; accepts_none(rt.alloc(), &listener));
}
