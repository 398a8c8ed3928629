//! Batches over a vault in memory, by readers, writers, sources and stores of the tests' own.
mod sources;
mod stores;
mod streams;

use std::alloc::Global;
use vault_batch::batch::batch;
use vault_batch::fault::BatchFault;
use vault_batch::row_counts::Counts;
use vault_core::name::{Caller, MerchantId};
use vault_core::source::{FixedSource, Source};
use vault_script::case::filled;
use vault_script::fakes::{TestReader, TestWriter};
use vault_script::shops::source;
use vault_store::tables::Tables;
use vault_store::vault::Vault;
use vault_wire::watched::Watched;

/// The worked rows.
const ASKED: &str = "request,number,use\n\
    1,4111111111111111,single\n\
    2,4111 1111 1111 1112,single\n\
    x,4111111111111111,single\n\
    3,0000000000,single\n\
    1,4111111111111111,single\n";

/// Their lines, where all drawn digits are 0.
const ANSWERED: &str = "request,answer,detail\n\
    1,0000000000001111,1060\n\
    2,refused,2\n\
    0,refused,5\n\
    3,refused,12\n\
    1,0000000000001111,1060\n";

/// How a batch ended, and how many pairs it took; none where it wasn't run.
type Ended = Option<(Result<Counts, BatchFault>, u64)>;

/// What a batch comes to.
#[derive(Clone, Copy)]
enum Told {
    /// So many rows are answered by a token and so many refused, and a pair is taken for each.
    Counted(u64, u64),
    /// It stops by this fault, after so many pairs.
    Stopped(BatchFault, u64),
}

/// Whether a batch ended so.
fn is_told(ended: Ended, wanted: Told) -> bool {
    let Some((counted, pairs)) = ended else {
        return false;
    };
    match wanted {
        Told::Counted(tokens, refused) => {
            let rows = tokens.saturating_add(refused);
            let counts = Counts {
                rows,
                tokens,
                refused,
            };
            pairs == rows && counted == Ok(counts)
        }
        Told::Stopped(fault, taken) => pairs == taken && counted == Err(fault),
    }
}

/// A shop is set at 1000 with a single life of 60, and `till-1` may ask for tokens.
const OPENED: &str = "set shop1 60 0 1000 = done
grant till-1 shop1 tokenize 1000 = done";

/// `till-1` at `shop1`.
fn asker() -> Option<(Caller, MerchantId)> {
    let caller = Caller::read(b"till-1").ok()?;
    Some((caller, MerchantId::read(b"shop1").ok()?))
}

/// Runs a batch of `till-1` at `shop1`.
fn run<T: Tables>(
    alloc: Global,
    reader: TestReader<'_>,
    writer: TestWriter<'_>,
    vault: &mut Vault<T>,
    source: FixedSource,
) -> Ended {
    let (mut reader, mut writer) = (Watched::new(reader), Watched::new(writer));
    let (caller, merchant) = asker()?;
    let mut left = source;
    let ended = batch(
        alloc,
        &mut reader,
        &mut writer,
        vault,
        caller,
        merchant,
        &mut left,
    );
    Some((ended, source.left().saturating_sub(left.left())))
}

/// Runs a batch at a shop of its own, at 1000 with digits 0.
fn run_new(alloc: Global, reader: TestReader<'_>, writer: TestWriter<'_>, pairs: u64) -> Ended {
    let mut vault = filled(alloc, OPENED)?;
    let source = source(1000, 0, pairs)?;
    run(alloc, reader, writer, &mut vault, source)
}
