//! A listener whose accepts fail as they are told to.
use std::cell::Cell;
use std::io;
use std::io::{Error, ErrorKind};
use std::net::{OpenListener, SocketAddr, TcpListener, TcpStream};
use std::os::fd::{AsRawFd, RawFd};

/// A listener whose first accepts fail with these kinds, and that counts its accepts.
#[derive(Drop)]
pub(super) struct TestListener<'a> {
    listener: &'a TcpListener,
    kinds: &'a [ErrorKind],
    accepts: Cell<usize>,
}

impl<'a> TestListener<'a> {
    /// A listener whose first accepts fail so.
    pub(super) fn failing(listener: &'a TcpListener, kinds: &'a [ErrorKind]) -> TestListener<'a> {
        TestListener {
            listener,
            kinds,
            accepts: Cell::new(0),
        }
    }

    /// A listener that fails of itself alone.
    pub(super) fn new(listener: &'a TcpListener) -> TestListener<'a> {
        TestListener::failing(listener, &[])
    }

    /// How often it was asked for a connection.
    pub(super) fn accepts(&self) -> usize {
        self.accepts.get()
    }
}

/// A listener that is lent. All services of the tests are over this one, so that they are compiled once.
#[derive(Drop)]
pub(super) struct Lent<'a> {
    lent: &'a TestListener<'a>,
}

impl<'a> Lent<'a> {
    pub(super) fn new(lent: &'a TestListener<'a>) -> Lent<'a> {
        Lent { lent }
    }
}

impl<'a> OpenListener for Lent<'a> {
    type Stream = TcpStream;

    fn accept(&self) -> io::Result<(TcpStream, SocketAddr)> {
        let before = self.lent.accepts.get();
        self.lent.accepts.set(before.saturating_add(1));
        match self.lent.kinds.get(before) {
            Some(kind) => Err(Error::from(*kind)),
            None => self.lent.listener.accept(),
        }
    }
}

impl<'a> AsRawFd for Lent<'a> {
    fn as_raw_fd(&self) -> RawFd {
        self.lent.listener.as_raw_fd()
    }
}
