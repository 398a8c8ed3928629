//! Reading a rights file.
ghost use Rattle.std.specs.Prelude.{◌≡◌, ◌⊎◌, IfOk, IfErr};
ghost use Rattle.toml.specs.Data.{Members};
ghost use Rattle.toml.specs.View.{view, table_view};
ghost use Rattle.vault_rights.specs.Faults.{IsMerchantFault, IsFirstFault, IsCallerFault};
ghost use Rattle.vault_rights.specs.Faults.{IsDocumentFault, IsDocument, IsFault};
ghost use Rattle.vault_rights.specs.Named.{HasRight, HasMerchant, GivesRight, Names, IsListOf, IsExtendedBy};
ghost use Rattle.vault_rights.specs.Proper.{EachMember, IsProperMerchant, IsProperCaller, IsProper};
ghost use Rattle.vault_rights.specs.declared.fault.RightsFault.TheVariants.{NotToml, Memory};

use crate::fault::RightsFault;
use crate::items::{push_rows, read_grants};
use std::alloc::Global;
use toml::{Table, Value};
use vault_core::moment::Moment;
use vault_core::name::{Caller, MerchantId};
use vault_core::right::Right;

/// Reads a merchant's key and array, and adds its rows.
fn read_merchant(
    alloc: Global,
    caller: Caller,
    key: &str,
    value: &Value,
    rows: &mut Vec<(Caller, MerchantId, Right, Option<Moment>)>,
) -> Result<(), RightsFault>
    // with Ok, the key is a name, and the value an array of items that give rights
    ensures proper { IfOk result (λ _. IsProperMerchant key.now (view value.now)) }
    // Ok adds, in order, a row of the caller and the key for each right that the value gives, with its latest
    // end
    ensures rows { IfOk result (λ _. IsExtendedBy
        (λ row. (row.0 ≡ caller) × (row.1 ≡ key.now) × HasRight (view value.now) row.2 row.3)
        rows.old.items rows.new.items) }
    // the fault is want of memory, or that of the key, else of the value, else of its first faulty item
    ensures fault { IfErr result (λ fault.
        (fault ≡ Memory) ⊎ IsMerchantFault key.now (view value.now) fault) }
{
    let Ok(merchant) = MerchantId::read(key.as_bytes()) else {
        return Err(RightsFault::BadName);
    };
    let items = match value.as_array() {
        Some(items) => items,
        None => return Err(RightsFault::WrongType),
    };
    let grants = read_grants(alloc, items)?;
    push_rows(caller, merchant, &grants, rows)?;
    Ok(())
}

/// Reads the merchants of a caller's table, and adds their rows.
fn read_merchants(
    alloc: Global,
    caller: Caller,
    members: &Table,
    rows: &mut Vec<(Caller, MerchantId, Right, Option<Moment>)>,
) -> Result<(), RightsFault>
    // with Ok, each merchant is proper
    ensures proper { IfOk result (λ _. EachMember IsProperMerchant (table_view members.now)) }
    // Ok adds, in order, the caller's rows of all rights that the table gives at its merchants
    ensures rows { IfOk result (λ _. IsExtendedBy
        (λ row. (row.0 ≡ caller) × HasMerchant (table_view members.now) row.1 row.2 row.3)
        rows.old.items rows.new.items) }
    // the fault is want of memory, or that of the first faulty merchant
    ensures fault { IfErr result (λ fault.
        (fault ≡ Memory) ⊎ IsFirstFault IsProperMerchant IsMerchantFault (table_view members.now) fault) }
{
    for (key, value) in members.iter() {
        read_merchant(alloc, caller, key.as_str(), value, rows)?;
    }
    Ok(())
}

/// Reads a caller's key and table, and adds its rows.
fn read_caller(
    alloc: Global,
    key: &str,
    value: &Value,
    rows: &mut Vec<(Caller, MerchantId, Right, Option<Moment>)>,
) -> Result<(), RightsFault>
    // with Ok, the key is a name, and the value a table of proper merchants
    ensures proper { IfOk result (λ _. IsProperCaller key.now (view value.now)) }
    // Ok adds, in order, the key's rows of all rights that the value gives
    ensures rows { IfOk result (λ _. IsExtendedBy
        (λ row. (row.0 ≡ key.now) × GivesRight (view value.now) row.1 row.2 row.3)
        rows.old.items rows.new.items) }
    // the fault is want of memory, or that of the key, else of the value, else of its first faulty merchant
    ensures fault { IfErr result (λ fault. (fault ≡ Memory) ⊎ IsCallerFault key.now (view value.now) fault) }
{
    let Ok(caller) = Caller::read(key.as_bytes()) else {
        return Err(RightsFault::BadName);
    };
    let members = match value.as_table() {
        Some(members) => members,
        None => return Err(RightsFault::WrongType),
    };
    read_merchants(alloc, caller, members, rows)?;
    Ok(())
}

/// Reads the callers of a document, and adds their rows.
fn read_callers(
    alloc: Global,
    document: &Table,
    rows: &mut Vec<(Caller, MerchantId, Right, Option<Moment>)>,
) -> Result<(), RightsFault>
    // with Ok, each caller is proper
    ensures proper { IfOk result (λ _. IsProper (table_view document.now)) }
    // Ok adds, in order, the rows that the document names
    ensures rows { IfOk result (λ _.
        IsExtendedBy (Names (table_view document.now)) rows.old.items rows.new.items) }
    // the fault is want of memory, or that of the document's first faulty caller
    ensures fault { IfErr result (λ fault.
        (fault ≡ Memory) ⊎ IsDocumentFault (table_view document.now) fault) }
{
    for (key, value) in document.iter() {
        read_caller(alloc, key.as_str(), value, rows)?;
    }
    Ok(())
}

/// The document of a text, in UTF-8.
fn read_document(alloc: Global, text: &[u8]) -> Result<Table, RightsFault>
    // with Ok, this is the document of the text
    ensures document { IfOk result (λ document. IsDocument text.now (table_view document)) }
    // the fault is want of memory, or `NotToml`, and the text is no document
    ensures fault { IfErr result (λ fault.
        (fault ≡ Memory) ⊎ (((document : Members) → ¬ IsDocument text.now document) × (fault ≡ NotToml))) }
{
    let text = match std::str::from_utf8(text) {
        Ok(text) => text,
        Err(_) => return Err(RightsFault::NotToml),
    };
    match toml::table_from_str(alloc, text) {
        Ok(table) => Ok(table),
        Err(error) if error.is_memory() => Err(RightsFault::Memory),
        Err(_) => Err(RightsFault::NotToml),
    }
}

/// Reads a rights file: the rights that its document names, by caller, merchant (by their bytes) and
/// right (by number), each once, with its end. A text of an array gives a right for good, and a table of
/// exactly a text `right` and a whole number `until` up to that moment. Of a right that several items of an
/// array give, the latest end stands; to have none is the latest.
///
/// Refused are, in this order: 70 a text that is no TOML document; then, caller by caller in the order
/// of their bytes, 72 a key that is no name, 73 a value that is no table, and merchant by merchant in it
/// 72 a key that is no name, 73 a value that is no array, and item by item in it 73 what is neither such a
/// text nor such a table, 71 a word that is no right, and 75 an end that is no moment. 74: memory was
/// refused, which says nothing of the text.
pub fn read_rights(
    alloc: Global,
    text: &[u8],
) -> Result<Vec<(Caller, MerchantId, Right, Option<Moment>)>, RightsFault>
    // with Ok, the text has a proper document, and the rows are those that it names, in order and each once
    ensures rights { IfOk result (λ rows. (document : Members) × IsDocument text.now document
        × IsProper document × IsListOf (Names document) rows.items) }
    // the fault is want of memory, or `NotToml` of no document, or that of the document's first faulty caller
    ensures fault { IfErr result (IsFault text.now) }
{
    let document = read_document(alloc, text)?;
    let mut rows = Vec::new(alloc);
    read_callers(alloc, &document, &mut rows)?;
    Ok(rows)
}
