//! Who asks with a batch.

use vault_core::name::{Caller, MerchantId};

/// Who asks with a batch, and at which merchant.
#[derive(Clone, Copy)]
pub struct Asker {
    pub caller: Caller,
    pub merchant: MerchantId,
}
