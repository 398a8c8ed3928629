//! The rows of merchants and the rights that tables read last, as the vault has them now.
ghost use Rattle.std.specs.Prelude.{◌≡◌, All, IfSome, Some};
ghost use Rattle.vault_core.specs.Changes.{Fit, plus};
ghost use Rattle.vault_core.specs.Sound.{Sound};
ghost use Rattle.vault_core.specs.Vault.{Vault, right_at};
ghost use Rattle.vault_core.specs.Window.{row_at};
ghost use Rattle.vault_schema.specs.Stands.{lookups_of};
ghost use Rattle.vault_sql.specs.KnownCounts.{IsBefore};
ghost use Rattle.vault_sql.specs.Remembered.{IsOf, IsRightOf, IsRowOf, nothing};
ghost use Rattle.vault_store.specs.ShownMerchants.{HasRoom, row_raised, row_with};

use vault_core::changes::{Changes, Count};
use vault_core::name::{Caller, MerchantId};
use vault_core::right::Right;
use vault_core::row::{GrantRow, Lives, MerchantRow};
use vault_tables::counts::KnownCount;

/// How many merchants are remembered at most.
pub const MERCHANTS: usize = 8;

/// How many rights are remembered at most.
pub const RIGHTS: usize = 16;

/// A merchant and its row, and the rowid that its count of tokens made may have.
#[derive(Clone, Copy)]
pub struct KnownMerchant {
    pub(crate) name: MerchantId,
    pub(crate) row: MerchantRow,
    pub(crate) made_rowid: Option<i64>,
}

/// What is known of a merchant before it changes: its lives, and its count of tokens made.
#[derive(Clone, Copy)]
pub struct Known {
    pub(crate) lives: Option<Lives>,
    pub(crate) made: Option<KnownCount>,
}

/// A right of a caller at a merchant and its end, or that the caller doesn't have it.
#[derive(Clone, Copy)]
pub struct KnownRight {
    pub(crate) caller: Caller,
    pub(crate) merchant: MerchantId,
    pub(crate) right: Right,
    pub(crate) grant: Option<GrantRow>,
}

/// What tables remember, so that they need not read it again: rows of merchants that are there, and rights.
/// Where all places of a kind are taken, what came first gives way.
#[derive(Drop)]
pub struct Remembered {
    pub(crate) merchants: [Option<KnownMerchant>; MERCHANTS],
    pub(crate) rights: [Option<KnownRight>; RIGHTS],
    pub(crate) next_merchant: usize,
    pub(crate) next_right: usize,
}

/// A merchant among those that are known.
fn known_merchant(slots: &[Option<KnownMerchant>], m: &MerchantId) -> Option<KnownMerchant>
    // its row is the merchant's in each vault of which all of them are
    ensures { IfSome result (λ known. (V : Vault) → All (IsRowOf V) slots.now
        → row_at V m.now ≡ Some known.row) }
{
    for slot in slots {
        match slot {
            Some(known) if known.name == *m => return Some(*known),
            _ => {}
        }
    }
    None
}

/// A right among those that are known.
fn known_right(
    slots: &[Option<KnownRight>],
    c: &Caller,
    m: &MerchantId,
    r: Right,
) -> Option<Option<GrantRow>>
    // it is so of each vault of which all of them are
    ensures { IfSome result (λ grant. (V : Vault) → All (IsRightOf V) slots.now
        → right_at V c.now m.now r ≡ grant) }
{
    for slot in slots {
        match slot {
            Some(known) if known.right == r && known.merchant == *m && known.caller == *c => {
                return Some(known.grant);
            }
            _ => {}
        }
    }
    None
}

/// A merchant's row with other lives, and with one more in the count that goes up.
fn changed_row(row: &MerchantRow, lives: &Lives, count: Option<Count>) -> MerchantRow
    ensures { HasRoom row.now → result ≡ row_raised count (row_with lives.now (Some row.now)) }
{
    let row = lives.row(row.made, row.given, row.denied);
    match count {
        None => row,
        Some(Count::Made) => MerchantRow {
            made: row.made.saturating_add(1),
            ..row
        },
        Some(Count::Given) => MerchantRow {
            given: row.given.saturating_add(1),
            ..row
        },
        Some(Count::Denied) => MerchantRow {
            denied: row.denied.saturating_add(1),
            ..row
        },
    }
}

/// The row of a merchant after changes.
fn row_after(known: &KnownMerchant, ch: &Changes) -> MerchantRow
    ensures { (V : Vault) → IsRowOf V (Some known.now) → Sound V → Fit V ch.now
        → row_at (plus V ch.now) known.now.name ≡ Some result }
{
    let Some((m, lives)) = &ch.lives else {
        return known.row;
    };
    if known.name == *m {
        changed_row(&known.row, lives, ch.count)
    } else {
        known.row
    }
}

/// Whether changes begin a merchant's count of tokens made, so that nothing is known of its rowid.
fn begins_count(known: &KnownMerchant, ch: &Changes) -> bool {
    match &ch.lives {
        Some((m, _)) => {
            known.made_rowid.is_none() && matches!(ch.count, Some(Count::Made)) && known.name == *m
        }
        None => false,
    }
}

/// A merchant that is known, if any, after changes. One whose count of tokens made begins is forgotten, so
/// that it is read with its rowid.
fn merchant_after(slot: &Option<KnownMerchant>, ch: &Changes) -> Option<KnownMerchant>
    ensures { (V : Vault) → IsRowOf V slot.now → Sound V → Fit V ch.now → IsRowOf (plus V ch.now) result }
{
    match slot {
        Some(known) if !begins_count(known, ch) => Some(KnownMerchant {
            name: known.name,
            row: row_after(known, ch),
            made_rowid: known.made_rowid,
        }),
        _ => None,
    }
}

/// Lets the merchants that are known follow changes.
fn follow(slots: &mut [Option<KnownMerchant>], ch: &Changes)
    ensures { (V : Vault) → All (IsRowOf V) slots.old → Sound V → Fit V ch.now
        → All (IsRowOf (plus V ch.now)) slots.new }
{
    for slot in slots.iter_mut() {
        *slot = merchant_after(slot, ch);
    }
}

/// A merchant's count of tokens made, where its rowid may be known.
fn made_count(known: &KnownMerchant) -> Option<KnownCount>
    ensures { IfSome result (λ count. count.total ≡ known.now.row.made) }
{
    match known.made_rowid {
        Some(rowid) => Some(KnownCount {
            total: known.row.made,
            rowid,
        }),
        None => None,
    }
}

/// No right is known.
fn no_rights() -> [Option<KnownRight>; RIGHTS]
    ensures { result ≡ nothing.rights }
{
    [None; RIGHTS]
}

impl Remembered {
    /// Nothing is remembered.
    pub(crate) fn new() -> Remembered
        ensures { result ≡ nothing }
    {
        Remembered {
            merchants: [None; MERCHANTS],
            rights: no_rights(),
            next_merchant: 0,
            next_right: 0,
        }
    }

    /// The row of a merchant, where it is remembered.
    pub(crate) fn merchant(&self, m: &MerchantId) -> Option<MerchantRow>
        // it is the merchant's row in each vault of which this is remembered
        ensures { IfSome result (λ row. (V : Vault) → IsOf self.now V → row_at V m.now ≡ Some row) }
    {
        match known_merchant(&self.merchants, m) {
            Some(known) => Some(known.row),
            None => None,
        }
    }

    /// What is known of the merchant whose lives change, as it is before.
    pub(crate) fn before(&self, lives: &Option<(MerchantId, Lives)>) -> Known
        // it is so of each vault of which this is remembered
        ensures { (V : Vault) → IsOf self.now V → IsBefore lives.now result (lookups_of V) }
    {
        let Some((m, _)) = lives else {
            return Known {
                lives: None,
                made: None,
            };
        };
        match known_merchant(&self.merchants, m) {
            Some(known) => Known {
                lives: Some(known.row.lives()),
                made: made_count(&known),
            },
            None => Known {
                lives: None,
                made: None,
            },
        }
    }

    /// The right of a caller at a merchant, or that it isn't there, where that is remembered.
    pub(crate) fn right(&self, c: &Caller, m: &MerchantId, r: Right) -> Option<Option<GrantRow>>
        // it is so of each vault of which this is remembered
        ensures { IfSome result (λ grant. (V : Vault) → IsOf self.now V → right_at V c.now m.now r ≡ grant) }
    {
        known_right(&self.rights, c, m, r)
    }

    /// Remembers what was read of a merchant, where it is there.
    pub(crate) fn keep_merchant(
        &mut self,
        m: MerchantId,
        found: &Option<MerchantRow>,
        made_rowid: Option<i64>,
    )
        // where this was so of a vault, and so is what was read, it still is
        ensures { (V : Vault) → IsOf self.old V → found.now ≡ row_at V m → IsOf self.new V }
    {
        let Some(row) = found else {
            return;
        };
        let at = self.next_merchant % MERCHANTS;
        self.merchants[at] = Some(KnownMerchant {
            name: m,
            row: *row,
            made_rowid,
        });
        self.next_merchant = at + 1;
    }

    /// Remembers what was read of a right.
    pub(crate) fn keep_right(
        &mut self,
        c: Caller,
        m: MerchantId,
        r: Right,
        grant: &Option<GrantRow>,
    )
        // where this was so of a vault, and so is what was read, it still is
        ensures { (V : Vault) → IsOf self.old V → grant.now ≡ right_at V c m r → IsOf self.new V }
    {
        let at = self.next_right % RIGHTS;
        self.rights[at] = Some(KnownRight {
            caller: c,
            merchant: m,
            right: r,
            grant: *grant,
        });
        self.next_right = at + 1;
    }

    /// Follows changes that were written. After the change of a right no right is remembered.
    pub(crate) fn change(&mut self, ch: &Changes)
        // where this was so of a sound vault that the changes fit, it is so of that vault with them
        ensures { (V : Vault) → IsOf self.old V → Sound V → Fit V ch.now → IsOf self.new (plus V ch.now) }
    {
        follow(&mut self.merchants, ch);
        if ch.right.is_none() {
            return;
        }
        self.rights = no_rights();
    }
}
