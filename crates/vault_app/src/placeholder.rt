//! The words that are to be names and rights.
ghost use Rattle.std.specs.Prelude.{◌≡◌};
ghost use Rattle.vault_app.specs.Ending.{number_at, placeholder_line};

use vault_refusal::refusal::Refusal;

/// The placeholder of a word in a subcommand's usage, where the word is to be a name or a right.
#[derive(Clone, Copy, PartialEq, Eq, Drop)]
pub enum Placeholder {
    /// `CALLER`.
    Caller,
    /// `MERCHANT`.
    Merchant,
    /// `NAME`, of a merchant.
    Name,
    /// `RIGHT`.
    Right,
}

impl Placeholder {
    /// By which number a word is refused that is none: 71 a right, and 4 a name.
    pub(crate) fn number(self) -> u8
        ensures { result ≡ number_at self }
    {
        match self {
            Placeholder::Right => Refusal::UnknownRight.number(),
            _ => Refusal::BadName.number(),
        }
    }

    /// The line that says which word it is. The word itself isn't said.
    pub(crate) fn line(self) -> &'static str
        ensures { result.now ≡ placeholder_line self }
    {
        match self {
            Placeholder::Caller => "vault: CALLER is no name\n",
            Placeholder::Merchant => "vault: MERCHANT is no name\n",
            Placeholder::Name => "vault: NAME is no name\n",
            Placeholder::Right => "vault: RIGHT is no right\n",
        }
    }
}
