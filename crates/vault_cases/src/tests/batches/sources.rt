//! As many rows as a source gives pairs.
use super::{OPENED, Told, is_told, run};
use std::alloc::Global;
use vault_batch::fault::BatchFault;
use vault_script::fakes::{TestReader, TestWriter};
use vault_script::shops::{shop, source};
use vault_store::memory::MemTables;
use vault_store::vault::Vault;

/// A batch of a script: its moment, digit and pairs, its rows, what it tells, and its lines.
type Step = ((u64, u8, u64), &'static str, Told, &'static str);

/// Whether a batch at this shop goes as a step says.
fn is_done(alloc: Global, vault: &mut Vault<MemTables>, step: &Step) -> bool {
    let ((now, digit, pairs), asked, wanted, lines) = *step;
    let Some(source) = source(now, digit, pairs) else {
        return false;
    };
    let mut output = Vec::new(alloc);
    let reader = TestReader::Bytes(asked.as_bytes());
    let writer = TestWriter::Whole(&mut output);
    let ended = run(alloc, reader, writer, vault, source);
    is_told(ended, wanted) && output.as_slice() == lines.as_bytes()
}

/// Whether batches at a vault that did these lines go as their steps say; the first one that doesn't is
/// printed.
fn are_done(rt: &HostRuntime, lines: &str, steps: &[Step]) -> bool {
    let mut vault = shop(rt.alloc(), lines);
    for (place, step) in steps.iter().enumerate() {
        if !is_done(rt.alloc(), &mut vault, step) {
            let _ = println!(rt; "step {place}");
            return false;
        }
    }
    true
}

/// Sources of two pairs, of one and of none.
const SOURCES: [Step; 3] = [
    (
        (1000, 0, 2),
        "request,number,use\nx,1,1\n1,4111111111111111,single\n2,4111111111111111,single\n",
        Told::Stopped(BatchFault::Source, 2),
        "request,answer,detail\n0,refused,5\n1,0000000000001111,1060\n",
    ),
    (
        (1000, 0, 1),
        "request,number,use\nx,1,1\n1,4111111111111111,single\n2,4111111111111111,single\n",
        Told::Stopped(BatchFault::Source, 1),
        "request,answer,detail\n0,refused,5\n",
    ),
    (
        (1000, 0, 0),
        "request,number,use\n",
        Told::Counted(0, 0),
        "request,answer,detail\n",
    ),
];

#[test]
fn a_source_that_gives_no_pair_stops_a_batch(rt: HostRuntime) {
    assert!(rt; are_done(&rt, OPENED, SOURCES.as_slice()));
    assert!(rt; BatchFault::Source.refusal().number() == 46);
}
