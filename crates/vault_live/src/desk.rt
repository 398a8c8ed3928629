//! Files that are looked at again and again.
ghost use Rattle.std.specs.Prelude.{IfOk};

use std::io::ErrorKind;

/// Reads files that may change while they are followed.
///
/// Contracts see which text the file at a path had at which look, so that what is read at one look is said of
/// no other.
pub trait Desk {
    ghost use Rattle.std.specs.Prelude.{ℕ, List};

    // at this look, counted from 0, the file at a path had such a text
    ghost says: { Self → List ℕ → ℕ → List ℕ → Type 0 };

    /// The bytes of the file at a path, or why it isn't read. Look 0 is the one before a service listens.
    fn read(&self, path: &str, look: u64) -> Result<Vec<u8>, ErrorKind>
        // a text that is given is one that the file had at this look
        ensures { IfOk result (λ text. says self.now path.now look text.items) };
}
