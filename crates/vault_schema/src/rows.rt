//! What rows stand for that a vault hasn't itself.
use vault_core::moment::Moment;
use vault_core::name::MerchantId;
use vault_core::usage::Use;
use vault_pan::pan::Pan;

/// A merchant as its own table has it, without its counts.
#[derive(Clone, Copy, PartialEq, Eq)]
pub struct OldLives {
    pub single_life: u64,
    pub multi_life: u64,
    pub moment: Moment,
}

/// A card of a merchant, and how many entries point at it.
#[derive(Clone, Copy)]
pub struct Card {
    pub merchant: MerchantId,
    pub number: Pan,
    pub uses: u64,
}

/// An entry as its own table has it: it points at a card by its id, unless it is purged.
#[derive(Clone, Copy)]
pub struct Pointing {
    pub card: Option<i64>,
    pub usage: Use,
    pub birth: Moment,
    pub expires: u64,
    pub revoked: Option<Moment>,
}
