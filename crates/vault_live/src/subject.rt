//! What a list that is followed is of.
ghost use Rattle.std.specs.Prelude.{◌≡◌};
ghost use Rattle.vault_live.specs.Subject.{name_of};

/// What a list that is followed is of.
#[derive(Clone, Copy, PartialEq, Eq, Drop)]
pub enum Subject {
    Rights,
    Merchants,
}

impl Subject {
    /// The word of the lines that speak of such a list.
    pub(crate) fn name(self) -> &'static str
        ensures { result.now ≡ name_of self }
    {
        match self {
            Subject::Rights => "rights",
            Subject::Merchants => "merchants",
        }
    }
}
