//! The vault: commands that are decided, and written before they are answered.
ghost use Rattle.std.specs.Prelude.{◌≡◌, ◌||◌, false, true, Err, IfOk, take};
ghost use Rattle.std.specs.FinMap as map;
ghost use Rattle.vault_store.specs.LookUps.{Fails, Lists, WasHonest};
ghost use Rattle.vault_core.specs.Dead.{dead_tokens};
ghost use Rattle.vault_core.specs.Proper.{HasLivesInRange};
ghost use Rattle.vault_core.specs.Sound.{Sound};
ghost use Rattle.vault_core.specs.Table.{after as after_lem};
ghost use Rattle.vault_core.specs.Vault.{Vault as Content};
ghost use Rattle.vault_core.specs.Window.{row_at};
ghost use Rattle.vault_store.specs.Added.{AddsNothing};
ghost use Rattle.vault_store.specs.Applied.{RepliesTo};
ghost use Rattle.vault_store.specs.Left.{LeavesBy};
ghost use Rattle.vault_store.specs.Listed.{merchant_rows};
ghost use Rattle.vault_store.specs.Reads.{FailsWith, IsAllowed, KeepsOnMemory};

use crate::listing::{NamedRow, named_rows};
use crate::tables::{RightRow, Tables, TablesFault};
use crate::window::window_of;
use vault_core::command::Command;
use vault_core::decide::settle;
use vault_core::moment::Moment;
use vault_core::name::MerchantId;
use vault_core::parts::Parts;
use vault_core::reply::Reply;
use vault_core::row::MerchantRow;
use vault_pan::token::Token;
use vault_refusal::refusal::Refusal;

/// Why a command wasn't answered.
#[derive(Clone, Copy, PartialEq, Eq)]
pub enum Fault {
    /// 20: memory was refused; nothing changed, and the vault may be used.
    Memory,
    /// 21: the store failed; the vault is broken from now on.
    Store,
    /// 22: the vault was broken already; nothing changed.
    Reopen,
}

impl Fault {
    ghost use Rattle.vault_store.specs.Applied.{refusal_of};

    /// Its refusal: 20, 21 or 22.
    pub fn refusal(self) -> Refusal
        ensures { result ≡ refusal_of self }
    {
        match self {
            Fault::Memory => Refusal::CommandMemory,
            Fault::Store => Refusal::CommandStore,
            Fault::Reopen => Refusal::Reopen,
        }
    }
}

/// A vault over tables.
#[derive(Drop)]
pub struct Vault<T> {
    tables: T,
    broken: bool,
}

impl<T: Tables> Vault<T> {
    ghost use Rattle.vault_store.specs.Applied.{Contains, IsAllowedFault, OfContained, is_broken};
    ghost use Rattle.vault_store.specs.Applied.{is_store, tables_fault, tables_of};

    /// The vault that tables hold. Nothing is promised of tables that hold no sound vault.
    pub fn new(tables: T) -> Vault<T>
        ensures tables { tables_of result ≡ tables }
        // it isn't broken
        ensures fresh { is_broken result ≡ false }
        // it contains each sound vault that the tables hold
        ensures contains { (V : Content) → T.holds tables V → Sound V → Contains T.holds result V }
    {
        Vault {
            tables,
            broken: false,
        }
    }

    /// Answers a command, after what it changes was written.
    ///
    /// In a history of the store (`vault_recover::laws`) a call that answers is the step `Answered`, and one
    /// without an answer is `Undecided`.
    pub fn apply(&mut self, c: &Command) -> Result<Reply, Fault>
        requires { HasLivesInRange c.now }
        ensures disk_honest { WasHonest T.Tables self.old self.new }
        // where the disk is honest, Ok gives the reply of a vault that was contained, and the vault after the
        // command is contained
        ensures answered { T.is_honest (tables_of self.new)
            → IfOk result (λ reply. (V : Content) → Contains T.holds self.old V
            → RepliesTo c.now V (Contains T.holds self.new) reply) }
        // after want of memory, each vault that was contained is contained still
        ensures memory { result ≡ Err Fault.Memory → (V : Content) → Contains T.holds self.old V
            → Contains T.holds self.new V }
        // a vault that is broken already answers Reopen, and a Store fault breaks it
        ensures fails { Fails T.Tables self.old self.new result }
        // where the disk is honest, a crash leaves the vault after the command with Ok, before it with
        // Memory, and either with Store
        ensures crash { T.is_honest (tables_of self.new) → (V : Content) → Contains T.holds self.old V
            → LeavesBy result (T.leaves (tables_of self.new)) V (after_lem V c.now) }
        // where the disk is honest, a command that adds nothing to an unbroken vault meets only faults that
        // its tables can have
        ensures allowed { is_broken self.old ≡ false → OfContained T.Tables self.old self.new (λ V.
            AddsNothing V (after_lem V c.now) → IsAllowedFault T.may_refuse T.may_fail result) }
        ensures infallible { T.may_fail ≡ false → ¬ (result ≡ Err Fault.Store) }
    {
        if self.broken {
            return Err(Fault::Reopen);
        }
        match answer(&mut self.tables, c) {
            Ok(reply) => Ok(reply),
            Err(fault) => Err(self.fault_of(fault)),
        }
    }

    /// The first `limit` tokens of a merchant that are dead at the later of its moment and `now`, in
    /// order of their texts. Nothing changes.
    pub fn dead(&mut self, m: MerchantId, now: Moment, limit: usize) -> Result<Vec<Token>, Fault>
        ensures { Lists T.Tables self.old self.new result
            (λ V tokens. tokens.items ≡ take limit (dead_tokens V m now)) }
    {
        if self.broken {
            Err(Fault::Reopen)
        } else {
            match self.tables.dead(m, now, limit) {
                Ok(tokens) => Ok(tokens),
                Err(fault) => Err(self.fault_of(fault)),
            }
        }
    }

    /// All rights with their ends, by caller, merchant and the right's number. Nothing changes.
    pub fn rights(&mut self) -> Result<Vec<RightRow>, Fault>
        ensures { Lists T.Tables self.old self.new result (λ V found. found.items ≡ map.entries V.rights) }
    {
        if self.broken {
            Err(Fault::Reopen)
        } else {
            match self.tables.rights() {
                Ok(found) => Ok(found),
                Err(fault) => Err(self.fault_of(fault)),
            }
        }
    }

    /// Each merchant with its row, in order of the names. Nothing changes.
    pub fn merchants(&mut self) -> Result<Vec<NamedRow>, Fault>
        ensures { Lists T.Tables self.old self.new result (λ V found. found.items ≡ merchant_rows V) }
    {
        if self.broken {
            Err(Fault::Reopen)
        } else {
            match named_rows(&mut self.tables) {
                Ok(found) => Ok(found),
                Err(fault) => Err(self.fault_of(fault)),
            }
        }
    }

    /// The row of a merchant, where the vault knows it. Nothing changes.
    pub fn merchant(&mut self, m: MerchantId) -> Result<Option<MerchantRow>, Fault>
        ensures { Lists T.Tables self.old self.new result (λ V found. found ≡ row_at V m) }
    {
        if self.broken {
            Err(Fault::Reopen)
        } else {
            match self.tables.merchant(m) {
                Ok(found) => Ok(found),
                Err(fault) => Err(self.fault_of(fault)),
            }
        }
    }

    /// The fault of the vault by that of its tables. A Store fault breaks the vault.
    fn fault_of(&mut self, fault: TablesFault) -> Fault
        ensures fault { result ≡ tables_fault fault }
        // a Store fault breaks the vault, and another leaves it as it was
        ensures broken { is_broken self.new ≡ (is_store fault || is_broken self.old) }
        // the tables stay as they were
        ensures tables { tables_of self.new ≡ tables_of self.old }
    {
        match fault {
            TablesFault::Memory => Fault::Memory,
            TablesFault::Store => {
                self.broken = true;
                Fault::Store
            }
        }
    }

    /// Whether the store failed, so that every command is answered 22.
    pub fn broken(&self) -> bool
        ensures { result ≡ is_broken self.now }
    {
        self.broken
    }

    /// The tables.
    pub fn into_tables(self) -> T
        ensures { result ≡ tables_of self }
    {
        let Vault { tables, broken: _ } = self;
        tables
    }
}

/// The answer to a command, after what it changes was written. What changes nothing writes nothing.
fn answer<T: Tables>(tables: &mut T, c: &Command) -> Result<Reply, TablesFault>
    requires { HasLivesInRange c.now }
    // a disk that is honest after the call was so before it
    ensures disk_honest { T.is_honest tables.new → T.is_honest tables.old }
    // on an honest disk, Ok gives the reply of a held sound vault, and the vault after the command is held
    // and sound
    ensures told { T.is_honest tables.new → IfOk result (λ reply. (V : Content)
        → T.holds tables.old V → Sound V → RepliesTo c.now V (λ W. T.holds tables.new W × Sound W) reply) }
    // after want of memory, each vault that was held is held still
    ensures kept { KeepsOnMemory result (T.holds tables.old) (T.holds tables.new) }
    // where the disk is honest, a crash leaves a sound vault that was held, before the command or after it
    ensures crash { T.is_honest tables.new → (V : Content) → T.holds tables.old V → Sound V
        → T.leaves tables.new V (after_lem V c.now) }
    ensures failing { FailsWith result (T.has_failed tables.old) (T.has_failed tables.new) }
    // where the disk is honest, a command that adds nothing to a held sound vault meets only faults that the
    // tables can have
    ensures allowed { T.is_honest tables.new → (V : Content) → T.holds tables.old V → Sound V
        → AddsNothing V (after_lem V c.now)
        → IsAllowed T.may_refuse T.may_fail result }
    ensures infallible { T.may_fail ≡ false → ¬ (result ≡ Err TablesFault.Store) }
{
    let parts = Parts::of(c);
    let seen = window_of(tables, &parts)?;
    let (reply, changes) = settle(&seen, &parts);
    if !changes.is_none() {
        tables.write(&changes)?;
    }
    Ok(reply)
}
