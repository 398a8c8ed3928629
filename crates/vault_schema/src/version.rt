//! The versions of a vault's schema, one after the other.
ghost use Rattle.std.specs.Prelude.{◌≡◌};
ghost use Rattle.vault_schema.specs.Layers.{is_from};
ghost use Rattle.vault_schema.specs.Versions.{next_of, number_of};

/// A version. The newest one is `NEWEST`.
#[derive(Clone, Copy, PartialEq, Eq)]
pub enum Version {
    One,
    Two,
    Three,
    Four,
}

/// The version that a vault is written in, and that the program moves a file to.
pub const NEWEST: Version = Version::Four;

/// The names of a vault's tables, and of the indexes that aren't a key's.
pub const NAMES: [&str; 12] = [
    "vault",
    "merchants",
    "counts",
    "entries",
    "entries_number",
    "records",
    "rights",
    "cards2",
    "entries2",
    "entries2_card",
    "merchants3",
    "rights4",
];

/// How many tables a vault has.
pub const TABLES: usize = 10;

/// And how many indexes.
pub const INDEXES: usize = 11;

impl Version {
    /// Its number.
    pub fn number(self) -> i64
        ensures { result ≡ number_of self }
    {
        match self {
            Version::One => 1,
            Version::Two => 2,
            Version::Three => 3,
            Version::Four => 4,
        }
    }

    /// Whether it is this version or a later one.
    pub fn is_from(self, first: Version) -> bool
        ensures { result ≡ is_from first self }
    {
        self.number() >= first.number()
    }

    /// The one that follows; the newest one is its own next.
    pub fn next(self) -> Version
        ensures { result ≡ next_of self }
    {
        match self {
            Version::One => Version::Two,
            Version::Two => Version::Three,
            Version::Three | Version::Four => Version::Four,
        }
    }
}
