//! The uses of tokens.
ghost use Rattle.std.specs.Prelude.{◌≡◌, IfErr, IfOk, OnErr, codes};
ghost use Rattle.vault_core.specs.Numbers.{use_number};
ghost use Rattle.vault_core.specs.Words.{use_word};

use vault_refusal::refusal::Refusal;

/// What a token stands for. The numbers stand in the stored rows.
#[derive(Clone, Copy, PartialEq, Eq)]
pub enum Use {
    /// One transaction: each new request gets a new token.
    Single = 1,
    /// One card number over several transactions.
    Multi,
}

impl Use {
    ghost use Rattle.vault_core.specs.declared.usage.Use.{Use};

    /// Reads `single` or `multi`; else 19 BadUse.
    pub fn read(text: &[u8]) -> Result<Use, Refusal>
        // with Ok, the text is the word of the use
        ensures word { IfOk result (λ usage. text.now ≡ use_word usage) }
        // the refusal is `BadUse`
        ensures refused { IfErr result (λ refused. refused ≡ Refusal.BadUse) }
        // a text that is refused is no use's word
        ensures none { OnErr result ((usage : Use) → ¬ (text.now ≡ use_word usage)) }
    {
        if text == b"single".as_slice() {
            Ok(Use::Single)
        } else if text == b"multi".as_slice() {
            Ok(Use::Multi)
        } else {
            Err(Refusal::BadUse)
        }
    }

    /// Its number.
    pub fn number(self) -> u8
        ensures { result ≡ use_number self }
    {
        self as u8
    }

    /// Its word.
    pub fn word(self) -> &'static str
        ensures { result.now ≡ use_word self }
    {
        match self {
            Use::Single => "single",
            Use::Multi => "multi",
        }
    }
}
