//! The messages of standard input answered on standard output.
ghost use Rattle.std.specs.Prelude.{◌≡◌, Err, IfErr, OnOk};
ghost use Rattle.vault_wire.specs.Watching.{underneath};
ghost use Rattle.vault_http.specs.Faults.{Tells, failures_of};
ghost use Rattle.vault_engine.specs.Passing.{passing};
ghost use Rattle.vault_jobs.specs.Failing.{GoesOn};
ghost use Rattle.vault_jobs.specs.Piped.{IsPiped, StopsPiping};
ghost use Rattle.vault_engine.specs.Stops.{Trusts};

use std::alloc::Global;
use std::io::{Read, Write};
use vault_core::source::Source;
use vault_http::fault::ServeFault;
use vault_http::serve::serve;
use vault_store::tables::Tables;
use vault_store::vault::Vault;
use vault_wire::watched::Watched;

/// Answers the messages of the input, up to its end, to a message that closes the connection, or to a fault
/// of the bytes, which is answered too; and hands the answers on.
///
/// 60 Source: the source has no pair for a message. 61 Read: the reader failed. 62 Write: the writer failed,
/// perhaps only when it was to hand on what it had taken. 63 Store: the store failed. 64 Memory: memory was
/// refused.
pub fn pipe<R: Read, W: Write, T: Tables, S: Source>(
    alloc: Global,
    input: &mut Watched<R>,
    output: &mut Watched<W>,
    vault: &mut Vault<T>,
    source: &mut S,
) -> Result<(), ServeFault>
    // with Ok, on an honest disk, messages up to the first that closes are answered, a fault too, and what
    // they leave is kept
    ensures served { OnOk result (underneath R.remaining IsPiped input.old input.new
        (passing T.Tables S.given W.contents
        (vault.old, source.old, output.old) (vault.new, source.new, output.new))) }
    // the fault says at which message it stopped, and what went out and is kept; or all are answered, and it
    // is Write
    ensures stopped { IfErr result (underneath R.remaining StopsPiping input.old input.new
        (passing T.Tables S.given W.contents
        (vault.old, source.old, output.old) (vault.new, source.new, output.new))) }
    // with Ok, the writer hasn't failed
    ensures writer_ok { GoesOn result output.new }
    // a stop but Memory tells which of source, reader, writer and vault has failed; all else stays as it was
    ensures own_failure { Tells result
        (failures_of (S.has_refused source.old) input.old output.old vault.old)
        (failures_of (S.has_refused source.new) input.new output.new vault.new) }
    // the source is the same, further on
    ensures later { S.precedes source.old source.new }
    ensures trusted { Trusts T.Tables vault.old vault.new (result ≡ Err ServeFault.Store) }
{
    match serve(alloc, input, output, vault, source) {
        Ok(_) => match output.flush() {
            Ok(()) => Ok(()),
            Err(_) => Err(ServeFault::Write),
        },
        Err(fault) => Err(fault),
    }
}
