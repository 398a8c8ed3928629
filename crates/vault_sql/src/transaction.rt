//! All that one command changes, in one transaction.
ghost use Rattle.std.specs.Prelude.{◌≡◌, ◌↔◌, ◌<◌, ◌^◌, IsTrue, Some, false, OnOk};
ghost use Rattle.vault_core.specs.Changes.{plus};
ghost use Rattle.vault_core.specs.Keys.{bytes_cmp, right_cmp};
ghost use Rattle.vault_core.specs.Vault.{Vault};
ghost use Rattle.sqlite.specs.State.{HasCleanDisk};
ghost use Rattle.sql_tables.specs.Rows.{put};
ghost use Rattle.sql_tables.specs.Transactions.{Between, Inside, KeepsDoubts};
ghost use Rattle.vault_schema.specs.Versions.{newest};
ghost use Rattle.vault_tables.specs.Calls.{Makes};
ghost use Rattle.vault_schema.specs.Holds.{Holds, LeavesEither};
ghost use Rattle.vault_sql.specs.KnownCounts.{IsBefore, IsFitFor, IsMade, IsMadeBefore};
ghost use Rattle.vault_sql.specs.KnownLives.{AreBefore, AreThere};
ghost use Rattle.vault_sql.specs.Storable.{AreStorable, IsStorableEntry, IsStorableLives};
ghost use Rattle.vault_core.specs.declared.changes.Count.TheVariants.{Made};
ghost use Rattle.vault_core.specs.Numbers.{count_number};
ghost use Rattle.vault_sql.specs.Written.{HasRoom, put_entry as put_entry_lem, put_lives};
ghost use Rattle.vault_sql.specs.Written.{put_record as put_record_lem, put_right, with_caller, with_count};
ghost use Rattle.vault_sql.specs.Written.{with_merchant};
ghost use Rattle.vault_tables.specs.Raising.{HasRoomAt, raised_lookups};

use crate::remembered::Known;
use sql_tables::fault::StoreFault;
use sqlite::{Alter, Connection, Error, Transaction};
use vault_core::changes::{Changes, Count};
use vault_core::name::{Caller, MerchantId};
use vault_core::request::RequestNo;
use vault_core::right::Right;
use vault_core::row::{Entry, GrantRow, Lives, Record};
use vault_pan::token::Token;
use vault_tables::columns::{GREATEST, caller_text, merchant_text};
use vault_tables::counts::{KnownCount, raise, raise_known};
use vault_tables::entries::{add_entry, put_entry};
use vault_tables::merchants::{self, set_lives};
use vault_tables::records::add_record;
use vault_tables::rights::{give, take};

/// Whether columns hold the numbers of a merchant's lives.
fn are_storable_lives(lives: &Option<(MerchantId, Lives)>) -> bool
    ensures { IsTrue result ↔ IsStorableLives lives.now }
{
    match lives {
        Some((_, x)) => x.single_life <= GREATEST && x.multi_life <= GREATEST,
        None => true,
    }
}

/// Whether a column holds the end of an entry's life.
fn is_storable_entry(entry: &Option<(MerchantId, Token, Entry)>) -> bool
    ensures { IsTrue result ↔ IsStorableEntry entry.now }
{
    match entry {
        Some((_, _, entry)) => entry.expires <= GREATEST,
        None => true,
    }
}

/// Whether columns hold all numbers of the changes.
pub(crate) fn are_storable(ch: &Changes) -> bool
    ensures { IsTrue result ↔ AreStorable ch.now }
{
    are_storable_lives(&ch.lives) && is_storable_entry(&ch.entry)
}

/// Writes the own row of a merchant where it has another or isn't there. Where its lives are known, it isn't
/// looked at.
fn set_merchant<S: Alter>(
    tx: &mut Transaction<'_, S>,
    m: &MerchantId,
    x: &Lives,
    known: &Option<Lives>,
) -> Result<(), StoreFault>
    requires single { x.now.single_life < 2 ^ 63 }
    requires multi { x.now.multi_life < 2 ^ 63 }
    ensures { Inside S.Store tx.old tx.new (Makes newest result
        (λ h. AreThere known.now (h.merchants m.now))
        (λ h. record h { merchants = put bytes_cmp h.merchants m.now (Some x.now) })) }
{
    match known {
        Some(was) if *was == *x => Ok(()),
        Some(_) => Ok(merchants::put(tx, merchant_text(m), x)?),
        None => set_lives(tx, merchant_text(m), x),
    }
}

/// Writes the own row of a merchant, whose lives as they were may be known.
fn write_lives<S: Alter>(
    tx: &mut Transaction<'_, S>,
    lives: &Option<(MerchantId, Lives)>,
    known: &Option<Lives>,
) -> Result<(), StoreFault>
    // the lives that change, if any, fit the columns
    requires { IsStorableLives lives.now }
    ensures { Inside S.Store tx.old tx.new (Makes newest result
        (λ h. AreBefore lives.now known.now h.merchants)
        (λ h. record h { merchants = put_lives h.merchants lives.now })) }
{
    match lives {
        Some((m, x)) => set_merchant(tx, m, x, known),
        None => Ok(()),
    }
}

/// Raises the count of a merchant's tokens made, which may be known.
fn raise_made<S: Alter>(
    tx: &mut Transaction<'_, S>,
    m: &MerchantId,
    known: Option<KnownCount>,
) -> Result<(), Error>
    ensures { Inside S.Store tx.old tx.new (Makes newest result
        (λ h. IsMade known m.now h.counts × HasRoomAt h.counts (m.now, count_number Made))
        (λ h. raised_lookups h (m.now, count_number Made))) }
{
    match known {
        Some(known) => raise_known(tx, merchant_text(m), Count::Made.number(), known),
        None => raise(tx, merchant_text(m), Count::Made.number()),
    }
}

/// Raises a count of a merchant, of whose tokens made the count may be known.
fn raise_count<S: Alter>(
    tx: &mut Transaction<'_, S>,
    m: &MerchantId,
    count: Count,
    made: Option<KnownCount>,
) -> Result<(), Error>
    ensures { Inside S.Store tx.old tx.new (Makes newest result
        (λ h. IsMade made m.now h.counts × HasRoomAt h.counts (m.now, count_number count))
        (λ h. raised_lookups h (m.now, count_number count))) }
{
    match count {
        Count::Made => raise_made(tx, m, made),
        _ => raise(tx, merchant_text(m), count.number()),
    }
}

/// Raises a count of the merchant whose lives are written, of whose tokens made the count may be known.
fn write_count<S: Alter>(
    tx: &mut Transaction<'_, S>,
    lives: &Option<(MerchantId, Lives)>,
    count: Option<Count>,
    made: Option<KnownCount>,
) -> Result<(), Error>
    ensures { Inside S.Store tx.old tx.new (Makes newest result
        (λ h. IsMadeBefore lives.now made h.counts × HasRoom h.counts lives.now count)
        (λ h. with_count h lives.now count)) }
{
    let Some((m, _)) = lives else {
        return Ok(());
    };
    match count {
        Some(count) => raise_count(tx, m, count, made),
        None => Ok(()),
    }
}

/// Writes an entry. That of a token which is made with it is new.
fn write_entry<S: Alter>(
    tx: &mut Transaction<'_, S>,
    change: &Option<(MerchantId, Token, Entry)>,
    count: Option<Count>,
) -> Result<(), StoreFault>
    // the end of the entry that changes, if any, fits its column
    requires { IsStorableEntry change.now }
    ensures { Inside S.Store tx.old tx.new (Makes newest result
        (λ _. Unit {0}) (λ h. record h { entries = put_entry_lem h.entries change.now })) }
{
    match change {
        Some((m, token, entry)) => match count {
            Some(Count::Made) => add_entry(tx, merchant_text(m), token.as_str(), entry),
            _ => put_entry(tx, merchant_text(m), token.as_str(), entry),
        },
        None => Ok(()),
    }
}

/// Writes a record.
fn write_record<S: Alter>(
    tx: &mut Transaction<'_, S>,
    change: &Option<(Caller, RequestNo, Record)>,
) -> Result<(), Error>
    ensures { Inside S.Store tx.old tx.new (Makes newest result
        (λ _. Unit {0}) (λ h. record h { records = put_record_lem h.records change.now })) }
{
    match change {
        Some((caller, request, answered)) => {
            add_record(tx, caller_text(caller), request.get(), answered)
        }
        None => Ok(()),
    }
}

/// Gives a right up to its end, or takes it away.
fn set_right<S: Alter>(
    tx: &mut Transaction<'_, S>,
    caller: &Caller,
    m: &MerchantId,
    right: Right,
    row: Option<GrantRow>,
) -> Result<(), Error>
    ensures { Inside S.Store tx.old tx.new (Makes newest result
        (λ _. Unit {0})
        (λ h. record h { rights = put right_cmp h.rights (caller.now, (m.now, right)) row })) }
{
    match row {
        Some(row) => give(tx, caller_text(caller), merchant_text(m), right, row),
        None => take(tx, caller_text(caller), merchant_text(m), right),
    }
}

/// Writes a right.
fn write_right<S: Alter>(
    tx: &mut Transaction<'_, S>,
    change: &Option<(Caller, MerchantId, Right, Option<GrantRow>)>,
) -> Result<(), Error>
    ensures { Inside S.Store tx.old tx.new (Makes newest result
        (λ _. Unit {0}) (λ h. record h { rights = put_right h.rights change.now })) }
{
    match change {
        Some((caller, m, right, row)) => set_right(tx, caller, m, *right, *row),
        None => Ok(()),
    }
}

/// Writes what changes of a merchant and its entries.
fn write_merchant<S: Alter>(
    tx: &mut Transaction<'_, S>,
    ch: &Changes,
    known: &Known,
) -> Result<(), StoreFault>
    // the numbers of the changes fit the columns
    requires { AreStorable ch.now }
    ensures { Inside S.Store tx.old tx.new (Makes newest result
        (λ h. IsBefore ch.now.lives known.now h × HasRoom h.counts ch.now.lives ch.now.count)
        (λ h. with_merchant h ch.now)) }
{
    write_lives(tx, &ch.lives, &known.lives)?;
    write_count(tx, &ch.lives, ch.count, known.made)?;
    write_entry(tx, &ch.entry, ch.count)
}

/// Writes what changes of a caller's records and rights.
fn write_caller<S: Alter>(tx: &mut Transaction<'_, S>, ch: &Changes) -> Result<(), Error>
    ensures { Inside S.Store tx.old tx.new (Makes newest result
        (λ _. Unit {0}) (λ h. with_caller h ch.now)) }
{
    write_record(tx, &ch.recorded)?;
    write_right(tx, &ch.right)
}

/// Makes the changes in one transaction, all of them or none. What the merchant was may be known.
pub(crate) fn write<S: Alter>(
    conn: &mut Connection<S>,
    ch: &Changes,
    known: &Known,
) -> Result<(), StoreFault>
    // the numbers of the changes fit the columns
    requires storable { AreStorable ch.now }
    requires idle { conn.old.in_transaction ≡ false }
    ensures idle { conn.new.in_transaction ≡ false }
    ensures clean { KeepsDoubts S.Store conn.old conn.new }
    // with Ok, on an honest disk, a sound vault that was held, whose merchant was known so, and that the
    // changes fit is held with them
    ensures done { Between S.Store conn.old conn.new (λ old new. HasCleanDisk new → OnOk result
        ((V : Vault) → IsFitFor ch.now known.now old V → Holds new (plus V ch.now))) }
    // on an honest disk, a crash leaves such a vault without the changes or with them
    ensures crash { Between S.Store conn.old conn.new (λ old new. HasCleanDisk new → (V : Vault)
        → IsFitFor ch.now known.now old V → LeavesEither new V (plus V ch.now)) }
{
    let mut tx = conn.transaction();
    write_merchant(&mut tx, ch, known)?;
    write_caller(&mut tx, ch)?;
    tx.commit().map_err(|_| StoreFault::Store)
}
