//! A store that fails.
use super::{OPENED, Told, is_told, run};
use std::alloc::Global;
use vault_batch::fault::BatchFault;
use vault_script::fakes::{TestReader, TestWriter};
use vault_script::shops::{shop, source};
use vault_script::stuck::Stuck;
use vault_store::vault::Vault;

/// A row that asks for nothing, and two that ask for a token.
const THREE: &[u8] =
    b"request,number,use\nx,1,1\n1,4111111111111111,single\n2,4111111111111111,single\n";

/// Whether a batch stops by the store at its second row, and the vault is broken then.
fn is_stopped(alloc: Global, vault: &mut Vault<Stuck>) -> bool {
    let Some(source) = source(1000, 0, 100) else {
        return false;
    };
    let mut output = Vec::new(alloc);
    let (reader, writer) = (TestReader::Bytes(THREE), TestWriter::Whole(&mut output));
    let ended = run(alloc, reader, writer, vault, source);
    let lines = b"request,answer,detail\n0,refused,5\n";
    is_told(ended, Told::Stopped(BatchFault::Store, 2))
        && output.as_slice() == lines.as_slice()
        && vault.broken()
}

/// Whether a store that can't be written stops a batch, and another one after it.
fn is_stuck(alloc: Global) -> bool {
    let mut stuck = Vault::new(Stuck::new(shop(alloc, OPENED).into_tables()));
    is_stopped(alloc, &mut stuck) && is_stopped(alloc, &mut stuck)
}

#[test]
fn a_store_that_fails_stops_a_batch(rt: HostRuntime) {
    assert!(rt; is_stuck(rt.alloc()));
    assert!(rt; BatchFault::Store.refusal().number() == 43);
    assert!(rt; BatchFault::Memory.refusal().number() == 45);
}
