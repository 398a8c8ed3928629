//! What is sent to a vault as a whole, after its shop was set: the forty requests as a stream, and a batch of
//! three rows. Each tells what went out.
use std::alloc::Global;
use vault_batch::batch::batch;
use vault_core::name::{Caller, MerchantId};
use vault_http::serve::serve;
use vault_script::case::wrong;
use vault_script::forty::{Pairs, SHOP, messages};
use vault_script::told::text;
use vault_store::tables::Tables;
use vault_store::vault::Vault;
use vault_wire::watched::Watched;

/// Three good rows.
const ROWS: &str = "request,number,use\n\
    11,4111111111111111,single\n\
    12,4222222222222,single\n\
    13,5555555555554444,single\n";

/// Their lines, where each row takes the next moment and the next digit.
pub const LINES: &str = "request,answer,detail\n\
    11,1111111111111111,1061\n\
    12,2222222222222,1062\n\
    13,3333333333334444,1063\n";

/// The bytes that went out, as text.
fn sent(alloc: Global, out: &[u8]) -> String {
    match str::from_utf8(out) {
        Ok(told) => text(alloc, told),
        Err(_) => text(alloc, "not text"),
    }
}

/// Whether the shop and the rights of its till are set.
fn is_set<T: Tables>(alloc: Global, vault: &mut Vault<T>) -> bool {
    wrong(alloc, vault, SHOP).as_str() == "answered"
}

/// Sets the shop, and sends the stream.
pub fn stream_sent<T: Tables>(alloc: Global, vault: &mut Vault<T>) -> String {
    let mut out = Vec::new(alloc);
    if is_set(alloc, vault) {
        let asked = messages(alloc).unwrap_or(String::new(alloc));
        let mut reader = Watched::new(asked.as_bytes());
        let mut writer = Watched::new(&mut out);
        let mut source = Pairs::new(alloc);
        let _ = serve(alloc, &mut reader, &mut writer, vault, &mut source);
    }
    sent(alloc, out.as_slice())
}

/// Sends the rows to a shop that is set.
fn rows_out<T: Tables>(alloc: Global, vault: &mut Vault<T>) -> Option<String> {
    let caller = Caller::read(b"till-1").ok()?;
    let merchant = MerchantId::read(b"shop1").ok()?;
    let mut out = Vec::new(alloc);
    let mut reader = Watched::new(ROWS.as_bytes());
    let mut writer = Watched::new(&mut out);
    let mut source = Pairs::new(alloc);
    let _ = batch(
        alloc,
        &mut reader,
        &mut writer,
        vault,
        caller,
        merchant,
        &mut source,
    );
    Some(sent(alloc, out.as_slice()))
}

/// Sets the shop, and sends the rows.
pub fn rows_sent<T: Tables>(alloc: Global, vault: &mut Vault<T>) -> String {
    if !is_set(alloc, vault) {
        return String::new(alloc);
    }
    rows_out(alloc, vault).unwrap_or(String::new(alloc))
}
