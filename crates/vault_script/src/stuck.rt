//! Tables that can't be written.
ghost use Rattle.std.proofs.Common.{inl, inr};
ghost use Rattle.std.specs.Prelude.{◌≡◌, ◌⊎◌, false, true};
ghost use Rattle.vault_store.specs.HeldInMemory.{IsHeld};

use vault_core::changes::Changes;
use vault_core::moment::Moment;
use vault_core::name::{Caller, MerchantId};
use vault_core::request::RequestNo;
use vault_core::right::Right;
use vault_core::row::{Entry, GrantRow, MerchantRow, Record};
use vault_pan::pan::Pan;
use vault_pan::token::Token;
use vault_store::memory::MemTables;
use vault_store::tables::{RightRow, Tables, TablesFault};

/// Tables in memory, of which every write is answered a Store fault and changes nothing.
#[derive(Drop)]
pub struct Stuck {
    tables: MemTables,
    failed: bool,
}

impl Stuck {
    /// These tables, from now on without a write.
    pub fn new(tables: MemTables) -> Stuck {
        Stuck {
            tables,
            failed: false,
        }
    }
}

impl Tables for Stuck {
    ghost holds = { λ t V. (t.failed ≡ false) × IsHeld t.tables V };

    ghost leaves = { λ t V W. IsHeld t.tables V ⊎ IsHeld t.tables W };

    ghost is_honest = { λ _. Unit {0} };

    ghost may_refuse = { false };

    ghost may_fail = { true };

    ghost has_failed = { λ t. t.failed };

    ghost unfailed = { λ t V held. held.0 };

    ghost settled = { λ t V held honest. inl held.1 };

    ghost widened = { λ t V W left. elim left [ inl held ↦ inl held | inr held ↦ inl held ] };

    fn failed(&self) -> bool {
        self.failed
    }

    fn merchant(&mut self, m: MerchantId) -> Result<Option<MerchantRow>, TablesFault> {
        self.tables.merchant(m)
    }

    fn merchants(&mut self) -> Result<u64, TablesFault> {
        self.tables.merchants()
    }

    fn right(
        &mut self,
        c: Caller,
        m: MerchantId,
        r: Right,
    ) -> Result<Option<GrantRow>, TablesFault> {
        self.tables.right(c, m, r)
    }

    fn recorded(&mut self, c: Caller, n: RequestNo) -> Result<Option<Record>, TablesFault> {
        self.tables.recorded(c, n)
    }

    fn entry(&mut self, m: MerchantId, t: Token) -> Result<Option<Entry>, TablesFault> {
        self.tables.entry(m, t)
    }

    fn current(&mut self, m: MerchantId, p: Pan, at: Moment) -> Result<Option<Token>, TablesFault> {
        self.tables.current(m, p, at)
    }

    fn dead(
        &mut self,
        m: MerchantId,
        now: Moment,
        limit: usize,
    ) -> Result<Vec<Token>, TablesFault> {
        self.tables.dead(m, now, limit)
    }

    fn names(&mut self) -> Result<Vec<MerchantId>, TablesFault> {
        self.tables.names()
    }

    fn rights(&mut self) -> Result<Vec<RightRow>, TablesFault> {
        self.tables.rights()
    }

    fn write(&mut self, _ch: &Changes) -> Result<(), TablesFault> {
        self.failed = true;
        Err(TablesFault::Store)
    }
}
