//! Where a reader stands among the messages that it reads: between two of them, or within one.
ghost use Rattle.std.specs.Prelude.{◌≡◌};

use std::io::Read;

/// A reader that is told where it stands before each read.
pub trait Placed: Read {
    ghost use Rattle.std.specs.Prelude.{◌≡◌, Bool};

    // it was told so last
    ghost stands: { Self → Bool → Type 0 };

    /// Takes in whether it stands between two messages: no byte of the next one was read.
    fn stand(&mut self, is_between: bool)
        // what it has left to give stays
        ensures bytes { Self.remaining self.new ≡ Self.remaining self.old }
        // it was told so
        ensures place { stands self.new is_between };
}

/// Tells readers of a type where they stand.
pub trait Guide<R: Read> {
    ghost use Rattle.std.specs.Prelude.{◌≡◌, Bool};

    // a reader was told so last
    ghost told: { R → Bool → Type 0 };

    /// Tells a reader whether it stands between two messages.
    fn tell(&self, reader: &mut R, is_between: bool)
        // what it has left to give stays
        ensures bytes { R.remaining reader.new ≡ R.remaining reader.old }
        // it was told so
        ensures place { told reader.new is_between };
}

/// Tells nothing: for readers that don't ask.
#[derive(Clone, Copy)]
pub struct Silent;

impl<R: Read> Guide<R> for Silent {
    ghost told = { λ _ _. Unit {0} };

    fn tell(&self, _reader: &mut R, _is_between: bool) {}
}

/// Tells each reader where it stands.
#[derive(Clone, Copy)]
pub struct Telling;

impl<R: Placed> Guide<R> for Telling {
    ghost told = { R.stands };

    fn tell(&self, reader: &mut R, is_between: bool) {
        reader.stand(is_between)
    }
}
