//! Shops in memory.
use crate::case::filled;
use std::alloc::{AllocError, Global};
use vault_core::moment::Moment;
use vault_core::source::FixedSource;
use vault_pan::draw::Digits;
use vault_store::memory::MemTables;
use vault_store::vault::Vault;

/// The vault that answers lines so; an empty one where it answers one otherwise.
pub fn shop(alloc: Global, lines: &str) -> Vault<MemTables> {
    match filled(alloc, lines) {
        Some(vault) => vault,
        None => Vault::new(MemTables::new(alloc)),
    }
}

/// A source of so many pairs of this moment and of digits that are all this one.
pub fn source(now: u64, digit: u8, pairs: u64) -> Option<FixedSource> {
    let now = Moment::new(now).ok()?;
    Some(FixedSource::new(now, Digits::new(&[digit; 300])?, pairs))
}

/// A text so many times.
pub fn repeated(alloc: Global, text: &str, times: u64) -> Result<String, AllocError> {
    let mut all = String::new(alloc);
    for _ in 0..times {
        all.push_str(text)?;
    }
    Ok(all)
}
