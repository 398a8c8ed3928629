//! Reading a list of merchants.
ghost use Rattle.std.specs.Prelude.{◌≡◌, ◌⊎◌, IfErr, IfOk};
ghost use Rattle.toml.specs.Data.{Members};
ghost use Rattle.toml.specs.View.{table_view, view};
ghost use Rattle.vault_rights.specs.Faults.{IsDocument};
ghost use Rattle.vault_merchants.specs.Faults.{IsFault, IsListFault, IsMerchantFault};
ghost use Rattle.vault_merchants.specs.ListedMerchants.{AreListed, AreRowsOf, IsRowOf};
ghost use Rattle.vault_merchants.specs.declared.fault.MerchantsFault.TheVariants.{NotToml, Memory};

use crate::fault::MerchantsFault;
use crate::table::{lives_of, parts_of};
use std::alloc::Global;
use toml::{Table, Value};
use vault_core::name::{Caller, MerchantId};
use vault_pan::lead::Lead;

/// A merchant of a list: its name, the life of its single-use tokens, that of its multi-use ones, its lead,
/// and the caller by whom its dead tokens are purged, where one is.
pub type ListedMerchant = (MerchantId, u64, u64, Lead, Option<Caller>);

/// Reads a merchant's key and table.
fn read_merchant(key: &str, value: &Value) -> Result<ListedMerchant, MerchantsFault>
    // with Ok, the row is the key's and the table's
    ensures row { IfOk result (IsRowOf key.now (view value.now)) }
    // the fault is that of the key, else of the table, else of its lives and its lead
    ensures fault { IfErr result (IsMerchantFault key.now (view value.now)) }
{
    let Ok(name) = MerchantId::read(key.as_bytes()) else {
        return Err(MerchantsFault::BadName);
    };
    let Some(members) = value.as_table() else {
        return Err(MerchantsFault::WrongType);
    };
    let Some((numbers, sweeper)) = parts_of(members) else {
        return Err(MerchantsFault::WrongType);
    };
    match lives_of(numbers) {
        Some((single, multi, lead)) => Ok((name, single, multi, lead, sweeper)),
        None => Err(MerchantsFault::BadLife),
    }
}

/// Reads the merchants of a document, in its order.
fn read_members(alloc: Global, document: &Table) -> Result<Vec<ListedMerchant>, MerchantsFault>
    // with Ok, the rows are the document's members, one by one
    ensures rows { IfOk result (λ rows. AreRowsOf (table_view document.now) rows.items) }
    // the fault is want of memory, or that of the document's first faulty merchant
    ensures fault { IfErr result (λ fault. (fault ≡ Memory) ⊎ IsListFault (table_view document.now) fault) }
{
    let mut rows = Vec::new(alloc);
    for (key, value) in document.iter() {
        let row = read_merchant(key.as_str(), value)?;
        match rows.push(row) {
            Ok(()) => {}
            Err(_) => return Err(MerchantsFault::Memory),
        }
    }
    Ok(rows)
}

/// The document of a text, in UTF-8.
fn read_document(alloc: Global, text: &[u8]) -> Result<Table, MerchantsFault>
    // with Ok, this is the document of the text
    ensures document { IfOk result (λ document. IsDocument text.now (table_view document)) }
    // the fault is want of memory, or `NotToml`, and the text is no document
    ensures fault { IfErr result (λ fault.
        (fault ≡ Memory) ⊎ (((document : Members) → ¬ IsDocument text.now document) × (fault ≡ NotToml))) }
{
    let text = match std::str::from_utf8(text) {
        Ok(text) => text,
        Err(_) => return Err(MerchantsFault::NotToml),
    };
    match toml::table_from_str(alloc, text) {
        Ok(table) => Ok(table),
        Err(error) if error.is_memory() => Err(MerchantsFault::Memory),
        Err(_) => Err(MerchantsFault::NotToml),
    }
}

/// Reads a list of merchants: those of its document, in the order of their names. Each has a table of exactly
/// the whole numbers `single` and `multi`, lives in seconds, and perhaps `lead`, which is 6 or 8, and else 6;
/// and perhaps `sweep`, the name of the caller by whom its dead tokens are purged.
///
/// Refused are, in this order: 70 a text that is no TOML document; then, merchant by merchant in the order of
/// their bytes, 72 a key that is no name, 73 what is no such table, and 76 a life out of range or another
/// lead. 74: memory was refused, which says nothing of the text.
pub fn read_merchants(alloc: Global, text: &[u8]) -> Result<Vec<ListedMerchant>, MerchantsFault>
    // with Ok, the text has a document, and the rows are its members, one by one
    ensures merchants { IfOk result (λ rows. AreListed text.now rows.items) }
    // the fault is want of memory, or `NotToml` of no document, or that of its first faulty merchant
    ensures fault { IfErr result (IsFault text.now) }
{
    let document = read_document(alloc, text)?;
    read_members(alloc, &document)
}
