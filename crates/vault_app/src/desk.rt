//! The files of the host that a service follows.
use std::fs;
use std::io::ErrorKind;
use vault_live::desk::Desk;

/// The most bytes of a list that is followed: 16 MiB.
const MOST: u64 = 16_777_216;

/// The files of the host. Only a regular file of at most 16 MiB is read: a pipe might never end.
#[derive(Drop)]
pub struct HostDesk<'h> {
    rt: &'h HostRuntime,
}

impl<'h> HostDesk<'h> {
    /// The files of this host.
    pub fn new(rt: &'h HostRuntime) -> HostDesk<'h> {
        HostDesk { rt }
    }
}

/// Nothing is told: no clause can say what a file of the host holds.
impl<'h> Desk for HostDesk<'h> {
    ghost says = { λ _ _ _ _. Unit {0} };

    fn read(&self, path: &str, _look: u64) -> Result<Vec<u8>, ErrorKind> {
        let found = match fs::metadata(self.rt, path) {
            Ok(found) => found,
            Err(error) => return Err(error.kind()),
        };
        if !found.is_file() || found.len() > MOST {
            return Err(ErrorKind::InvalidInput);
        }
        match fs::read(self.rt, path) {
            Ok(text) => Ok(text),
            Err(error) => Err(error.kind()),
        }
    }
}
