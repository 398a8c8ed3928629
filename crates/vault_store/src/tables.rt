//! Tables that hold a vault, whichever way.
ghost use Rattle.std.specs.Prelude.{◌≡◌, ◌≤◌, Bool, true, false, Option, Some, None, IfOk, OnOk, IsOk};
ghost use Rattle.std.specs.Prelude.{option_map, take};
ghost use Rattle.std.specs.FinMap as map;
ghost use Rattle.vault_core.specs.Changes.{Fit, plus};
ghost use Rattle.vault_core.specs.Dead.{dead_tokens};
ghost use Rattle.vault_core.specs.Repeats.{current};
ghost use Rattle.vault_core.specs.Sound.{Sound};
ghost use Rattle.vault_core.specs.Vault.{Vault, entry_at, record_at, right_at};
ghost use Rattle.vault_core.specs.Window.{moment_at, row_at};
ghost use Rattle.vault_store.specs.Added.{AddsNothing};
ghost use Rattle.vault_store.specs.Listed.{merchant_names};
ghost use Rattle.vault_store.specs.Reads.{FailsOnlyIf, FailsWith, IsAllowed, Keeps, KeepsOnMemory};

use std::alloc::AllocError;
use vault_core::changes::Changes;
use vault_core::moment::Moment;
use vault_core::name::{Caller, MerchantId};
use vault_core::request::RequestNo;
use vault_core::right::Right;
use vault_core::row::{Entry, GrantRow, MerchantRow, Record};
use vault_pan::pan::Pan;
use vault_pan::token::Token;

/// Why a call of the tables gave nothing.
#[derive(Clone, Copy, PartialEq, Eq)]
pub enum TablesFault {
    /// Memory was refused; nothing changed, and the tables may be used.
    Memory,
    /// The store failed.
    Store,
}

impl From<AllocError> for TablesFault {
    ghost use Rattle.vault_store.specs.declared.tables.TablesFault.TheVariants.{Memory};

    ghost from_gives = { λ e f. f ≡ Memory };

    fn from(_error: AllocError) -> TablesFault {
        TablesFault::Memory
    }
}

/// A right of a caller at a merchant, with its end.
pub type RightRow = ((Caller, (MerchantId, Right)), GrantRow);

/// Tables that hold a vault.
///
/// Contracts see which vaults the tables hold, and what a crash may leave of them now. Both are true
/// where the disk is honest: it returned what was written, and nobody else wrote it. Tables also say
/// whether their reads that list nothing, and their writes that add nothing, may be refused memory, and
/// whether they may fail. A list, as of `names`, `rights` and `dead`, may be refused memory by any tables.
pub trait Tables {
    ghost use Rattle.std.specs.Prelude.{Bool};
    ghost use Rattle.vault_core.specs.Vault.{Vault};

    ghost holds: { Self → Vault → Type 0 };

    // each state that a crash may leave now stands for the one vault or for the other
    ghost leaves: { Self → Vault → Vault → Type 0 };

    ghost is_honest: { Self → Type 0 };

    ghost may_refuse: { Bool };

    ghost may_fail: { Bool };

    ghost has_failed: { Self → Bool };

    /// Whether a call was answered a Store fault.
    fn failed(&self) -> bool
        ensures { result ≡ has_failed self.now };

    /// The row of a merchant.
    fn merchant(&mut self, m: MerchantId) -> Result<Option<MerchantRow>, TablesFault>
        // a disk that is honest after the call was so before it
        ensures disk_honest { is_honest self.new → is_honest self.old }
        // where the disk is honest, Ok gives the merchant's row of each sound vault that was held
        ensures told { is_honest self.new
            → IfOk result (λ found. (V : Vault) → holds self.old V → Sound V → found ≡ row_at V m) }
        ensures kept { Keeps result (holds self.old) (holds self.new) }
        // where the disk is honest, a crash leaves each vault that was held as it was, and nothing else
        ensures crash { is_honest self.new → (V : Vault) → holds self.old V → leaves self.new V V }
        ensures failing { FailsWith result (has_failed self.old) (has_failed self.new) }
        ensures allowed { IsAllowed may_refuse may_fail result };

    /// How many merchants there are.
    fn merchants(&mut self) -> Result<u64, TablesFault>
        // a disk that is honest after the call was so before it
        ensures disk_honest { is_honest self.new → is_honest self.old }
        // where the disk is honest, Ok gives the count of the merchants of each sound vault that was held
        ensures told { is_honest self.new
            → IfOk result
            (λ found. (V : Vault) → holds self.old V → Sound V → found ≡ map.len V.merchants) }
        ensures kept { Keeps result (holds self.old) (holds self.new) }
        // where the disk is honest, a crash leaves each vault that was held as it was, and nothing else
        ensures crash { is_honest self.new → (V : Vault) → holds self.old V → leaves self.new V V }
        ensures failing { FailsWith result (has_failed self.old) (has_failed self.new) }
        ensures allowed { IsAllowed may_refuse may_fail result };

    /// The right of a caller at a merchant, with its end.
    fn right(&mut self, c: Caller, m: MerchantId, r: Right) -> Result<Option<GrantRow>, TablesFault>
        // a disk that is honest after the call was so before it
        ensures disk_honest { is_honest self.new → is_honest self.old }
        // where the disk is honest, Ok gives the right, or none, as each sound vault that was held has it
        ensures told { is_honest self.new
            → IfOk result (λ found. (V : Vault) → holds self.old V → Sound V → found ≡ right_at V c m r) }
        ensures kept { Keeps result (holds self.old) (holds self.new) }
        // where the disk is honest, a crash leaves each vault that was held as it was, and nothing else
        ensures crash { is_honest self.new → (V : Vault) → holds self.old V → leaves self.new V V }
        ensures failing { FailsWith result (has_failed self.old) (has_failed self.new) }
        ensures allowed { IsAllowed may_refuse may_fail result };

    /// The record of a caller's request.
    fn recorded(&mut self, c: Caller, n: RequestNo) -> Result<Option<Record>, TablesFault>
        // a disk that is honest after the call was so before it
        ensures disk_honest { is_honest self.new → is_honest self.old }
        // where the disk is honest, Ok gives the record, or none, as each sound vault that was held has it
        ensures told { is_honest self.new
            → IfOk result (λ found. (V : Vault) → holds self.old V → Sound V → found ≡ record_at V c n) }
        ensures kept { Keeps result (holds self.old) (holds self.new) }
        // where the disk is honest, a crash leaves each vault that was held as it was, and nothing else
        ensures crash { is_honest self.new → (V : Vault) → holds self.old V → leaves self.new V V }
        ensures failing { FailsWith result (has_failed self.old) (has_failed self.new) }
        ensures allowed { IsAllowed may_refuse may_fail result };

    /// What a merchant's token stands for.
    fn entry(&mut self, m: MerchantId, t: Token) -> Result<Option<Entry>, TablesFault>
        // a disk that is honest after the call was so before it
        ensures disk_honest { is_honest self.new → is_honest self.old }
        // where the disk is honest, Ok gives the entry, or none, as each sound vault that was held has it
        ensures told { is_honest self.new
            → IfOk result (λ found. (V : Vault) → holds self.old V → Sound V → found ≡ entry_at V m t) }
        ensures kept { Keeps result (holds self.old) (holds self.new) }
        // where the disk is honest, a crash leaves each vault that was held as it was, and nothing else
        ensures crash { is_honest self.new → (V : Vault) → holds self.old V → leaves self.new V V }
        ensures failing { FailsWith result (has_failed self.old) (has_failed self.new) }
        ensures allowed { IsAllowed may_refuse may_fail result };

    /// The multi-use token of a card number that is live at a moment, which isn't before the merchant's.
    fn current(&mut self, m: MerchantId, p: Pan, at: Moment) -> Result<Option<Token>, TablesFault>
        // a disk that is honest after the call was so before it
        ensures disk_honest { is_honest self.new → is_honest self.old }
        // where the disk is honest and the moment isn't before the merchant's, Ok gives this token of each
        // sound vault that was held
        ensures told { is_honest self.new
            → IfOk result (λ found. (V : Vault) → holds self.old V → Sound V → moment_at V m at ≡ at
            → found ≡ option_map (λ held. held.0) (current V m p at)) }
        ensures kept { Keeps result (holds self.old) (holds self.new) }
        // where the disk is honest, a crash leaves each vault that was held as it was, and nothing else
        ensures crash { is_honest self.new → (V : Vault) → holds self.old V → leaves self.new V V }
        ensures failing { FailsWith result (has_failed self.old) (has_failed self.new) }
        ensures allowed { IsAllowed may_refuse may_fail result };

    /// The first `limit` tokens of a merchant that are dead at the later of its moment and `now`, in
    /// order of their texts. They are listed, for which any tables may be refused memory.
    fn dead(&mut self, m: MerchantId, now: Moment, limit: usize) -> Result<Vec<Token>, TablesFault>
        // a disk that is honest after the call was so before it
        ensures disk_honest { is_honest self.new → is_honest self.old }
        // where the disk is honest, Ok gives these tokens of each sound vault that was held
        ensures told { is_honest self.new
            → IfOk result (λ tokens. (V : Vault) → holds self.old V → Sound V
            → tokens.items ≡ take limit (dead_tokens V m now)) }
        ensures kept { Keeps result (holds self.old) (holds self.new) }
        // where the disk is honest, a crash leaves each vault that was held as it was, and nothing else
        ensures crash { is_honest self.new → (V : Vault) → holds self.old V → leaves self.new V V }
        ensures failing { FailsWith result (has_failed self.old) (has_failed self.new) }
        // tables that can't fail give no Store fault
        ensures infallible { FailsOnlyIf may_fail result };

    /// The names of all merchants, in order.
    fn names(&mut self) -> Result<Vec<MerchantId>, TablesFault>
        // a disk that is honest after the call was so before it
        ensures disk_honest { is_honest self.new → is_honest self.old }
        // where the disk is honest, Ok gives the names of the merchants of each sound vault that was held
        ensures told { is_honest self.new
            → IfOk result (λ found. (V : Vault) → holds self.old V → Sound V
            → found.items ≡ merchant_names V) }
        ensures kept { Keeps result (holds self.old) (holds self.new) }
        // where the disk is honest, a crash leaves each vault that was held as it was, and nothing else
        ensures crash { is_honest self.new → (V : Vault) → holds self.old V → leaves self.new V V }
        ensures failing { FailsWith result (has_failed self.old) (has_failed self.new) }
        // tables that can't fail give no Store fault
        ensures infallible { FailsOnlyIf may_fail result };

    /// All rights with their ends, by caller, merchant and the right's number.
    fn rights(&mut self) -> Result<Vec<RightRow>, TablesFault>
        // a disk that is honest after the call was so before it
        ensures disk_honest { is_honest self.new → is_honest self.old }
        // where the disk is honest, Ok gives the rights of each sound vault that was held
        ensures told { is_honest self.new
            → IfOk result (λ found. (V : Vault) → holds self.old V → Sound V
            → found.items ≡ map.entries V.rights) }
        ensures kept { Keeps result (holds self.old) (holds self.new) }
        // where the disk is honest, a crash leaves each vault that was held as it was, and nothing else
        ensures crash { is_honest self.new → (V : Vault) → holds self.old V → leaves self.new V V }
        ensures failing { FailsWith result (has_failed self.old) (has_failed self.new) }
        // tables that can't fail give no Store fault
        ensures infallible { FailsOnlyIf may_fail result };

    /// Makes the changes, all of them or none. Contracts ask that they fit the vault.
    fn write(&mut self, ch: &Changes) -> Result<(), TablesFault>
        // a disk that is honest after the call was so before it
        ensures disk_honest { is_honest self.new → is_honest self.old }
        // where the disk is honest, after Ok each sound vault that was held and that the changes fit is held
        // with them
        ensures done { is_honest self.new
            → OnOk result
            ((V : Vault) → holds self.old V → Sound V → Fit V ch.now → holds self.new (plus V ch.now)) }
        // after want of memory, each vault that was held is held still
        ensures kept { KeepsOnMemory result (holds self.old) (holds self.new) }
        // where the changes fit a held vault and add nothing, tables that can't be refused memory aren't, and
        // those that can't fail don't
        ensures allowed { (V : Vault) → holds self.old V → Fit V ch.now → AddsNothing V (plus V ch.now)
            → IsAllowed may_refuse may_fail result }
        // where the disk is honest, a crash leaves a sound vault that was held and that the changes fit,
        // without them or with them
        ensures crash { is_honest self.new → (V : Vault) → holds self.old V → Sound V → Fit V ch.now
            → leaves self.new V (plus V ch.now) }
        ensures failing { FailsWith result (has_failed self.old) (has_failed self.new) }
        // tables that can't fail give no Store fault
        ensures infallible { FailsOnlyIf may_fail result };

    // tables that hold a vault haven't failed
    ghost unfailed: { (t : Self) (V : Vault) → holds t V → has_failed t ≡ false };

    // a crash leaves what they hold, and nothing else
    ghost settled: { (t : Self) (V : Vault) → holds t V → is_honest t → leaves t V V };

    // what leaves one vault leaves one of two
    ghost widened: { (t : Self) (V W : Vault) → leaves t V V → leaves t V W };
}
