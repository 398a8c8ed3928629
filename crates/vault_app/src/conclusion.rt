//! How a run ended, and what is said of its words.
ghost use Rattle.std.specs.Prelude.{◌≡◌, string_bytes};
ghost use Rattle.vault_words.specs.Why.{HasFewDigits};

use crate::ending::Ending;
use std::alloc::Global;

/// How a run ended, and why its words are bad, in lines; nothing, where they aren't.
#[derive(Drop)]
pub(crate) struct Conclusion {
    pub(crate) ending: Ending,
    pub(crate) why: String,
}

impl Conclusion {
    /// An ending of which the words aren't the reason.
    pub(crate) fn of(alloc: Global, ending: Ending) -> Conclusion
        ensures ending { result.ending ≡ ending }
        // it shows fewer than ten digits, too few for a card number
        ensures few { HasFewDigits (string_bytes result.why) }
    {
        Conclusion {
            ending,
            why: String::new(alloc),
        }
    }
}
