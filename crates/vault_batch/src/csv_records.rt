//! Records read one after the other.
ghost use Rattle.std.specs.Prelude.{◌≡◌, ◌⊎◌, List, [], Option, IfOk, IfErr};
ghost use Rattle.csv.specs.Records.{fields_of};
ghost use Rattle.vault_core.specs.Keys.{Bytes};
ghost use Rattle.vault_batch.specs.ReadingRecords.{StandsAfter, StandsNext};
ghost use Rattle.vault_batch.specs.Rows.{Fields};

use crate::fault::BatchFault;
use csv::{ByteRecord, ErrorKind, Reader, ReaderBuilder};
use std::alloc::Global;
use std::io::Read;

/// The records of a reader's bytes, each of them as data, whatever its length is.
pub(crate) fn records_of<R: Read>(alloc: Global, reader: R) -> Reader<R>
    ensures { StandsAfter (R.remaining reader) R.remaining [] result }
{
    ReaderBuilder::new()
        .has_headers(false)
        .flexible(true)
        .from_reader(alloc, reader)
}

/// Reads the next record, and tells whether there is one.
pub(crate) fn read_record<R: Read>(
    records: &mut Reader<R>,
    fields: &mut ByteRecord,
) -> Result<bool, BatchFault>
    // with true, one more record came behind those before; with false, the known bytes have no more than
    // those
    ensures next { (known : Option Bytes) (before : List Fields)
        → StandsAfter known R.remaining before records.old
        → IfOk result (StandsNext known R.remaining before (fields_of fields.new) records.new) }
    // the fault is Read or Memory
    ensures only { IfErr result (λ e. (e ≡ BatchFault.Read) ⊎ (e ≡ BatchFault.Memory)) }
{
    match records.read_byte_record(fields) {
        Ok(found) => Ok(found),
        Err(e) => match e.into_kind() {
            ErrorKind::OutOfMemory => Err(BatchFault::Memory),
            _ => Err(BatchFault::Read),
        },
    }
}
