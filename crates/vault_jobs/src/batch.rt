//! The rows of standard input answered on standard output.
ghost use Rattle.std.specs.Prelude.{◌≡◌, Err, IfErr, IfOk, OnOk, true};
ghost use Rattle.std.specs.Io.KnownBytes.{IsAtEnd};
ghost use Rattle.vault_engine.specs.Stops.{Trusts};
ghost use Rattle.vault_wire.specs.Watching.{inner_of, is_stopped};
ghost use Rattle.vault_engine.specs.Passing.{passing};
ghost use Rattle.vault_batch.specs.Faults.{Tells};
ghost use Rattle.vault_batch.specs.Stops.{IsBatched};
ghost use Rattle.vault_http.specs.Faults.{failures_unread};
ghost use Rattle.vault_jobs.specs.Failing.{GoesOn};
ghost use Rattle.vault_jobs.specs.Batched.{StopsBatch};

use std::alloc::Global;
use std::io::{Read, Write};
use vault_batch::asker::Asker;
use vault_batch::batch::batch;
use vault_batch::fault::BatchFault;
use vault_batch::row_counts::Counts;
use vault_core::source::Source;
use vault_store::tables::Tables;
use vault_store::vault::Vault;
use vault_wire::watched::Watched;

/// Answers the rows of the input, and hands their lines on.
///
/// 40 to 46 as of a batch; 42 Write too where the writer failed only when it was to hand on what it had
/// taken.
pub fn batch_input<R: Read, W: Write, T: Tables, S: Source>(
    alloc: Global,
    input: &mut Watched<R>,
    output: &mut Watched<W>,
    vault: &mut Vault<T>,
    asker: Asker,
    source: &mut S,
) -> Result<Counts, BatchFault>
    // Ok counts the input's rows, where it is known; on an honest disk, all are answered and the vault after
    // them is kept
    ensures batched { IfOk result (IsBatched (R.remaining (inner_of input.old))
        (passing T.Tables S.given W.contents
        (vault.old, source.old, output.old) (vault.new, source.new, output.new)) asker) }
    // with Ok, no byte of the input is left, where it is known
    ensures end { OnOk result (IsAtEnd (R.remaining (inner_of input.new))) }
    // with Ok, neither the reader nor the writer has failed
    ensures unfailed { GoesOn result input.new × GoesOn result output.new }
    // the fault says at which row it stopped, and what went out and is kept; or all are answered, and it is
    // Write
    ensures stopped { IfErr result (StopsBatch (R.remaining (inner_of input.old))
        (passing T.Tables S.given W.contents
        (vault.old, source.old, output.old) (vault.new, source.new, output.new)) asker) }
    // with Read the reader has failed
    ensures read { result ≡ Err BatchFault.Read → is_stopped input.new ≡ true }
    // Source, Write and Store tell that this one has failed; whether the others have stays as it was
    ensures own_failure { Tells result
        (failures_unread (S.has_refused source.old) output.old vault.old)
        (failures_unread (S.has_refused source.new) output.new vault.new) }
    // the source is the same, further on
    ensures later { S.precedes source.old source.new }
    ensures trusted { Trusts T.Tables vault.old vault.new (result ≡ Err BatchFault.Store) }
{
    match batch(
        alloc,
        input,
        output,
        vault,
        asker.caller,
        asker.merchant,
        source,
    ) {
        Ok(counts) => match output.flush() {
            Ok(()) => Ok(counts),
            Err(_) => Err(BatchFault::Write),
        },
        Err(fault) => Err(fault),
    }
}
