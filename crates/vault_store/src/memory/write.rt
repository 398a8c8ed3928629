//! Changes that are made, all of them or none: what was put is taken back where a later step is refused.
ghost use Rattle.std.specs.Prelude.{OnOk, OnErr, IsOk};
ghost use Rattle.vault_core.specs.Changes.{Fit, plus};
ghost use Rattle.vault_core.specs.Sound.{Sound};
ghost use Rattle.vault_core.specs.Vault.{Vault};
ghost use Rattle.vault_store.specs.Added.{AddsNothing};
ghost use Rattle.vault_store.specs.Written.{HoldsRecords, HoldsRights};

use crate::memory::keyed_rows::{put, put_back};
use crate::memory::merchant::put_merchant;
use crate::memory::rights::{give, give_back, take_away};
use std::alloc::AllocError;
use std::collections::BTreeMap;
use vault_core::changes::Changes;
use vault_core::name::{Caller, MerchantId};
use vault_core::request::RequestNo;
use vault_core::right::Right;
use vault_core::row::{GrantRow, MerchantRow, Record};

/// Writes the record, the right and the merchant of the changes, or nothing.
pub fn write_record(
    records: &mut BTreeMap<(Caller, RequestNo), Record>,
    rights: &mut BTreeMap<(Caller, (MerchantId, Right)), GrantRow>,
    merchants: &mut BTreeMap<MerchantId, MerchantRow>,
    ch: &Changes,
) -> Result<(), AllocError>
    // with Ok, of a sound vault that the changes fit, the records, rights and merchants are held with them
    ensures done { OnOk result ((V : Vault) → HoldsRecords records.old rights.old merchants.old V
        → Sound V → Fit V ch.now → HoldsRecords records.new rights.new merchants.new (plus V ch.now)) }
    // where it is refused, the records, rights and merchants that were held are held still
    ensures kept { OnErr result ((V : Vault) → HoldsRecords records.old rights.old merchants.old V
        → HoldsRecords records.new rights.new merchants.new V) }
    // where the changes add nothing to the vault whose records, rights and merchants are held, it isn't
    // refused
    ensures allowed { (V : Vault) → HoldsRecords records.old rights.old merchants.old V
        → AddsNothing V (plus V ch.now) → IsOk result }
{
    let Some((caller, request, recorded)) = ch.recorded else {
        return write_right(rights, merchants, ch);
    };
    let was = put(records, (caller, request), recorded)?;
    if let Err(refused) = write_right(rights, merchants, ch) {
        put_back(records, (caller, request), was);
        return Err(refused);
    }
    Ok(())
}

/// Writes the right and the merchant of the changes, or nothing. A right is taken away last, since
/// that takes no memory and needn't be undone.
fn write_right(
    rights: &mut BTreeMap<(Caller, (MerchantId, Right)), GrantRow>,
    merchants: &mut BTreeMap<MerchantId, MerchantRow>,
    ch: &Changes,
) -> Result<(), AllocError>
    // with Ok, of a sound vault that the changes fit, the rights and merchants are held with them
    ensures done { OnOk result ((V : Vault) → HoldsRights rights.old merchants.old V → Sound V
        → Fit V ch.now → HoldsRights rights.new merchants.new (plus V ch.now)) }
    // where it is refused, the rights and merchants that were held are held still
    ensures kept { OnErr result
        ((V : Vault) → HoldsRights rights.old merchants.old V → HoldsRights rights.new merchants.new V) }
    // where the changes add nothing to the vault whose rights and merchants are held, it isn't refused
    ensures allowed { (V : Vault) → HoldsRights rights.old merchants.old V → AddsNothing V (plus V ch.now)
        → IsOk result }
{
    let Some((caller, merchant, right, given)) = ch.right else {
        return put_merchant(merchants, ch);
    };
    let key = (caller, (merchant, right));
    let Some(row) = given else {
        put_merchant(merchants, ch)?;
        take_away(rights, &key);
        return Ok(());
    };
    let was = give(rights, key, row)?;
    if let Err(refused) = put_merchant(merchants, ch) {
        give_back(rights, key, was);
        return Err(refused);
    }
    Ok(())
}
