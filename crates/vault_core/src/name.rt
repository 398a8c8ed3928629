//! Names of callers and merchants.
ghost use Rattle.std.specs.Prelude.{◌≡◌, IfErr, IfOk, IsOk, ◌↔◌};
ghost use Rattle.vault_core.specs.Name.{IsName};

use std::marker::Model;
use vault_pan::short::Short;
use vault_refusal::refusal::Refusal;

/// The name of a caller, a till or a back office. Contracts see its bytes.
#[derive(Clone, Copy, PartialEq, Eq, PartialOrd, Ord)]
pub struct Caller {
    text: Short<16>,
}

impl Model for Caller {
    ghost use Rattle.std.specs.Prelude.{ℕ, List};
    ghost use Rattle.vault_core.specs.Name.{IsName};

    ghost Value = { List ℕ };

    ghost view = { λ c. c.text };

    ghost invariant = { λ c. IsName c.text };

    ghost inverse = { λ name. record { text = name } };
}

/// The name of a merchant. Contracts see its bytes.
#[derive(Clone, Copy, PartialEq, Eq, PartialOrd, Ord)]
pub struct MerchantId {
    text: Short<16>,
}

impl Model for MerchantId {
    ghost use Rattle.std.specs.Prelude.{ℕ, List};
    ghost use Rattle.vault_core.specs.Name.{IsName};

    ghost Value = { List ℕ };

    ghost view = { λ m. m.text };

    ghost invariant = { λ m. IsName m.text };

    ghost inverse = { λ name. record { text = name } };
}

/// The bytes of a name.
fn read_name(text: &[u8]) -> Result<Short<16>, Refusal>
    ensures name { IsOk result ↔ IsName text.now }
    // the refusal is `BadName`
    ensures refused { IfErr result (λ refused. refused ≡ Refusal.BadName) }
    // the name is the text
    ensures value { IfOk result (λ name. name ≡ text.now) }
{
    let valid = text.iter().all(|b| b.is_ascii_lowercase() || b.is_ascii_digit() || *b == b'-');
    if text.is_empty() || text.len() > 16 || !valid {
        return Err(Refusal::BadName);
    }
    let mut name = Short::new();
    name.extend(text);
    Ok(name)
}

impl Caller {
    /// Reads a name: 1 to 16 small letters, digits and hyphens; else 4 BadName.
    pub fn read(text: &[u8]) -> Result<Caller, Refusal>
        ensures name { IsOk result ↔ IsName text.now }
        // the refusal is `BadName`
        ensures refused { IfErr result (λ refused. refused ≡ Refusal.BadName) }
        // the name is the text
        ensures value { IfOk result (λ name. name ≡ text.now) }
    {
        let text = read_name(text)?;
        Ok(Caller { text })
    }

    /// The bytes of the name.
    pub fn bytes(&self) -> &[u8]
        // the bytes are the name's own
        ensures value { result.now ≡ self.now }
        ensures name { IsName self.now }
    {
        self.text.bytes()
    }
}

impl MerchantId {
    /// Reads a name: 1 to 16 small letters, digits and hyphens; else 4 BadName.
    pub fn read(text: &[u8]) -> Result<MerchantId, Refusal>
        ensures name { IsOk result ↔ IsName text.now }
        // the refusal is `BadName`
        ensures refused { IfErr result (λ refused. refused ≡ Refusal.BadName) }
        // the name is the text
        ensures value { IfOk result (λ name. name ≡ text.now) }
    {
        let text = read_name(text)?;
        Ok(MerchantId { text })
    }

    /// The bytes of the name.
    pub fn bytes(&self) -> &[u8]
        // the bytes are the name's own
        ensures value { result.now ≡ self.now }
        ensures name { IsName self.now }
    {
        self.text.bytes()
    }
}
