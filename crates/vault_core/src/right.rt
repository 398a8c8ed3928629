//! The rights of callers.
ghost use Rattle.std.specs.Prelude.{◌≡◌, IfSome, IfNone, codes};
ghost use Rattle.vault_core.specs.Numbers.{right_number};
ghost use Rattle.vault_core.specs.Words.{right_word};

/// What a caller may do at a merchant. The numbers stand in the stored rows.
#[derive(Clone, Copy, PartialEq, Eq, PartialOrd, Ord)]
pub enum Right {
    Tokenize = 1,
    Detokenize,
    View,
    Revoke,
    Purge,
    Audit,
}

impl Right {
    ghost use Rattle.vault_core.specs.declared.right.Right.{Right};

    /// Reads a right's word, its name in small letters.
    pub fn read(text: &[u8]) -> Option<Right>
        // the text is the word of the right that is given
        ensures word { IfSome result (λ right. text.now ≡ right_word right) }
        // where none is given, the text is no right's word
        ensures none { IfNone result ((right : Right) → ¬ (text.now ≡ right_word right)) }
    {
        if text == b"tokenize".as_slice() {
            Some(Right::Tokenize)
        } else if text == b"detokenize".as_slice() {
            Some(Right::Detokenize)
        } else if text == b"view".as_slice() {
            Some(Right::View)
        } else if text == b"revoke".as_slice() {
            Some(Right::Revoke)
        } else if text == b"purge".as_slice() {
            Some(Right::Purge)
        } else if text == b"audit".as_slice() {
            Some(Right::Audit)
        } else {
            None
        }
    }

    /// Its number.
    pub fn number(self) -> u8
        ensures { result ≡ right_number self }
    {
        self as u8
    }
}
