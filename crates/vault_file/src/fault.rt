//! Why the file at a path isn't opened.
ghost use Rattle.std.specs.Prelude.{◌≡◌};
ghost use Rattle.vault_file.specs.Faults.{detail_of, refusal_of};

use std::fmt;
use vault_recover::unopened::Unopened;
use vault_refusal::refusal::Refusal;
use vault_verdict::fault::OpenFault;

/// Why no vault is opened from the file at a path.
#[derive(Clone, Copy, Debug, PartialEq, Eq, Drop)]
pub enum NotOpened {
    /// 34: the database or the host refuses the file itself, for this.
    Refused(Unopened),
    /// 30 to 33: the file is opened, and what it holds is refused.
    Fault(OpenFault),
}

impl NotOpened {
    /// Its refusal: 30 to 34.
    pub fn refusal(&self) -> Refusal
        ensures { result ≡ refusal_of self.now }
    {
        match self {
            NotOpened::Refused(_) => Refusal::FileRefused,
            NotOpened::Fault(fault) => fault.refusal(),
        }
    }

    /// The version that the file says, with 30; the rule that its rows break, with 31.
    pub fn detail(&self) -> Option<i64>
        ensures { result ≡ detail_of self.now }
    {
        match self {
            NotOpened::Fault(OpenFault::WrongSchema(version)) => Some(*version),
            NotOpened::Fault(OpenFault::Damaged(rule)) => Some(i64::from(*rule)),
            NotOpened::Fault(OpenFault::Memory | OpenFault::Store) | NotOpened::Refused(_) => None,
        }
    }
}

/// The number of the refusal and, after a space, its detail.
impl fmt::Display for NotOpened {
    ghost use Rattle.std.specs.Prelude.{Some};
    ghost use Rattle.vault_file.specs.Faults.{words_of};

    ghost output = { λ fault. Some (words_of fault) };

    fn fmt<W: fmt::Write>(&self, f: &mut fmt::Formatter<W>) -> fmt::Result {
        let number = self.refusal().number();
        match self.detail() {
            None => write!(f, "{number}"),
            Some(detail) => write!(f, "{number} {detail}"),
        }
    }
}

impl std::error::Error for NotOpened {}
