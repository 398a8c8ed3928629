//! The lock on a file while it is made.
use std::fs::File;
use std::io;

/// An open file that one handle alone may hold.
pub trait Lock {
    /// Holds the file until the handle is dropped, without waiting: where another handle holds it,
    /// `ErrorKind::WouldBlock`.
    fn hold(&self) -> io::Result<()>;
}

impl Lock for File {
    fn hold(&self) -> io::Result<()> {
        Ok(self.try_lock()?)
    }
}
