//! Tables in memory.
ghost use Rattle.std.proofs.Common.{inl, inr};
ghost use Rattle.std.specs.Prelude.{false, refl, ◌⊎◌};
ghost use Rattle.vault_core.specs.Vault.{empty_vault};

mod current;
mod dead;
mod entries;
mod index;
mod keyed_rows;
mod merchant;
mod rights;
mod write;

use crate::merchant_names::names_of;
use crate::right_rows::rows_of;
use crate::tables::{RightRow, Tables, TablesFault};
use crate::window::moment_of;
use dead::dead_among;
use entries::Entries;
use std::alloc::Global;
use std::collections::BTreeMap;
use vault_core::changes::Changes;
use vault_core::moment::Moment;
use vault_core::name::{Caller, MerchantId};
use vault_core::request::RequestNo;
use vault_core::right::Right;
use vault_core::row::{Entry, GrantRow, MerchantRow, Record};
use vault_pan::pan::Pan;
use vault_pan::token::Token;
use write::write_record;

/// Tables in memory. Their reads that list nothing, and their writes that add nothing, are never refused.
#[derive(Drop)]
pub struct MemTables {
    alloc: Global,
    merchants: BTreeMap<MerchantId, MerchantRow>,
    entries: Entries,
    records: BTreeMap<(Caller, RequestNo), Record>,
    rights: BTreeMap<(Caller, (MerchantId, Right)), GrantRow>,
}

impl MemTables {
    ghost use Rattle.vault_store.specs.HeldInMemory.{IsHeld};

    /// Tables of the empty vault, which take no memory yet.
    pub fn new(alloc: Global) -> MemTables
        ensures { IsHeld result empty_vault }
    {
        MemTables {
            alloc,
            merchants: BTreeMap::new(alloc),
            entries: Entries::new(alloc),
            records: BTreeMap::new(alloc),
            rights: BTreeMap::new(alloc),
        }
    }
}

impl Tables for MemTables {
    ghost use Rattle.vault_store.specs.HeldInMemory.{IsHeld};

    ghost holds = { IsHeld };

    ghost leaves = { λ t V W. IsHeld t V ⊎ IsHeld t W };

    ghost is_honest = { λ _. Unit {0} };

    ghost may_refuse = { false };

    ghost may_fail = { false };

    ghost has_failed = { λ _. false };

    ghost unfailed = { λ t V h. refl };

    ghost settled = { λ t V held honest. inl held };

    ghost widened = { λ t V W left. elim left [ inl held ↦ inl held | inr held ↦ inl held ] };

    fn failed(&self) -> bool {
        false
    }

    fn merchant(&mut self, m: MerchantId) -> Result<Option<MerchantRow>, TablesFault> {
        Ok(self.merchants.get(&m).copied())
    }

    fn merchants(&mut self) -> Result<u64, TablesFault> {
        Ok(self.merchants.len() as u64)
    }

    fn right(
        &mut self,
        c: Caller,
        m: MerchantId,
        r: Right,
    ) -> Result<Option<GrantRow>, TablesFault> {
        Ok(self.rights.get(&(c, (m, r))).copied())
    }

    fn recorded(&mut self, c: Caller, n: RequestNo) -> Result<Option<Record>, TablesFault> {
        Ok(self.records.get(&(c, n)).copied())
    }

    fn entry(&mut self, m: MerchantId, t: Token) -> Result<Option<Entry>, TablesFault> {
        Ok(self.entries.get(m, t))
    }

    fn current(&mut self, m: MerchantId, p: Pan, at: Moment) -> Result<Option<Token>, TablesFault> {
        Ok(self.entries.current(m, &p, at))
    }

    fn dead(
        &mut self,
        m: MerchantId,
        now: Moment,
        limit: usize,
    ) -> Result<Vec<Token>, TablesFault> {
        let at = moment_of(&self.merchants.get(&m).copied(), now);
        Ok(dead_among(self.alloc, &self.entries.rows, m, at, limit)?)
    }

    fn names(&mut self) -> Result<Vec<MerchantId>, TablesFault> {
        Ok(names_of(self.alloc, &self.merchants)?)
    }

    fn rights(&mut self) -> Result<Vec<RightRow>, TablesFault> {
        Ok(rows_of(self.alloc, &self.rights)?)
    }

    fn write(&mut self, ch: &Changes) -> Result<(), TablesFault> {
        let Some((merchant, token, entry)) = ch.entry else {
            write_record(&mut self.records, &mut self.rights, &mut self.merchants, ch)?;
            return Ok(());
        };
        let was = self.entries.put(merchant, token, &entry)?;
        if let Err(refused) = write_record(
            &mut self.records,
            &mut self.rights,
            &mut self.merchants,
            ch,
        ) {
            self.entries.put_back(merchant, token, &entry, was);
            return Err(TablesFault::from(refused));
        }
        Ok(())
    }
}
