//! How much a vault holds.
ghost use Rattle.vault_verdict.specs.Sizes.{counted_in};

use vault_rules::records::Records;

/// How many merchants, entries and records a vault has.
#[derive(Clone, Copy, PartialEq, Eq)]
pub struct Sizes {
    pub merchants: usize,
    pub entries: usize,
    pub records: usize,
}

impl Sizes {
    ghost use Rattle.std.specs.Prelude.{◌≡◌};

    /// The sizes of an empty vault.
    pub(crate) const NONE: Sizes = Sizes {
        merchants: 0,
        entries: 0,
        records: 0,
    };

    /// The sizes of a vault whose rows came.
    pub(crate) fn of(records: &Records) -> Sizes
        ensures { result ≡ counted_in records.now }
    {
        let entries = records.entries();
        Sizes {
            merchants: entries.index().merchants().len(),
            entries: entries.many(),
            records: records.many(),
        }
    }
}
