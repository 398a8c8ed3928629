//! Connections over a vault in memory, by readers, writers and sources of the tests' own.
mod forty;
mod sources;
mod streams;

use std::alloc::Global;
use vault_core::source::FixedSource;
use vault_http::fault::ServeFault;
use vault_http::serve::serve;
use vault_http::served::Served;
use vault_script::case::filled;
use vault_script::fakes::{TestReader, TestWriter};
use vault_script::forty::SHOP;
use vault_script::shops::source;
use vault_store::memory::MemTables;
use vault_store::vault::Vault;
use vault_wire::watched::Watched;

/// Serves a connection to its end.
fn connect(
    alloc: Global,
    reader: TestReader<'_>,
    writer: TestWriter<'_>,
    vault: &mut Vault<MemTables>,
    source: FixedSource,
) -> Result<Served, ServeFault> {
    let mut reader = Watched::new(reader);
    let mut writer = Watched::new(writer);
    let mut source = source;
    serve(alloc, &mut reader, &mut writer, vault, &mut source)
}

/// Serves a connection to a shop of its own, at 1000 with digits 0, by so many pairs.
fn connect_new(
    alloc: Global,
    reader: TestReader<'_>,
    writer: TestWriter<'_>,
    pairs: u64,
) -> Option<Result<Served, ServeFault>> {
    let mut vault = filled(alloc, SHOP)?;
    let source = source(1000, 0, pairs)?;
    Some(connect(alloc, reader, writer, &mut vault, source))
}
