//! Whether numbers that come one after the other rise.
ghost use Rattle.std.specs.Prelude.{◌≡◌, []};
ghost use Rattle.vault_rules.specs.NextRow.{TakesOneMore};

/// Whether each number that came is above the one before it.
#[derive(Clone, Copy, Drop)]
pub struct Rising {
    last: Option<i64>,
    rises: bool,
}

impl Rising {
    ghost use Rattle.vault_rules.specs.RisingNumbers.{IsRisingOver};

    /// No number came yet.
    pub(crate) fn new() -> Rising
        ensures { IsRisingOver result [] }
    {
        Rising {
            last: None,
            rises: true,
        }
    }

    /// Takes the next number.
    pub(crate) fn take(&mut self, number: i64)
        ensures { TakesOneMore IsRisingOver self.old self.new number }
    {
        if let Some(last) = self.last {
            if number <= last {
                self.rises = false;
            }
        }
        self.last = Some(number);
    }

    /// Whether each is above the one before it.
    pub fn rises(&self) -> bool
        ensures { result ≡ self.now.rises }
    {
        self.rises
    }
}
