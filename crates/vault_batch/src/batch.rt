//! The rows of a batch answered, each before the next one is read.
ghost use Rattle.std.specs.Prelude.{◌≡◌, ◌⊎◌, [], true, false, Err, IfErr, IfOk, OnOk, Option};
ghost use Rattle.std.specs.Io.KnownBytes.{IsAtEnd};
ghost use Rattle.vault_engine.specs.Passing.{passing};
ghost use Rattle.vault_engine.specs.Stops.{Trusts, failures, failures_unread};
ghost use Rattle.vault_wire.specs.Watching.{inner_of, is_stopped};
ghost use Rattle.vault_core.specs.Keys.{Bytes};
ghost use Rattle.vault_batch.specs.Faults.{Tells};
ghost use Rattle.vault_batch.specs.Header.{Begins, SendsFirst};
ghost use Rattle.vault_batch.specs.ReadingRecords.{StandsAfter};
ghost use Rattle.vault_batch.specs.Stops.{IsBatched, IsBatchedFor, Stops, StopsFor};

use crate::asker::Asker;
use crate::csv_records::{read_record, records_of};
use crate::fault::BatchFault;
use crate::line::has_token;
use crate::row::{Row, is_header};
use crate::row_counts::Counts;
use crate::unit::AskedRow;
use csv::{ByteRecord, Reader};
use std::alloc::Global;
use std::io::{Read, Write};
use vault_core::name::{Caller, MerchantId};
use vault_core::source::Source;
use vault_engine::ask::ask;
use vault_store::tables::Tables;
use vault_store::vault::Vault;
use vault_wire::watched::{Watched, send};

/// What goes out before all rows' lines.
const FIRST_LINE: &[u8] = b"request,answer,detail\n";

/// Reads the header, and sends what comes before all rows' lines.
fn begin<R: Read, W: Write>(
    records: &mut Reader<R>,
    fields: &mut ByteRecord,
    writer: &mut Watched<W>,
) -> Result<(), BatchFault>
    // at the start of the records, with Ok the header was read; BadHeader says that it isn't there; Store,
    // BadRecord and Source never come
    ensures began { (known : Option Bytes) → StandsAfter known R.remaining [] records.old
        → Begins known R.remaining records.new result }
    // with Ok the first line went out, with Write a beginning of it and not all, and else nothing
    ensures sent { SendsFirst (W.contents (inner_of writer.old)) (W.contents (inner_of writer.new)) result }
    // Source, Write and Store tell that this one has failed; whether the others have stays as it was
    ensures own_failure { Tells result
        (failures false false (is_stopped writer.old) false)
        (failures false false (is_stopped writer.new) false) }
{
    match read_record(records, fields) {
        Ok(true) => {}
        Ok(false) => return Err(BatchFault::BadHeader),
        Err(fault) => return Err(fault),
    }
    if !is_header(fields) {
        return Err(BatchFault::BadHeader);
    }
    if send(writer, FIRST_LINE).is_err() {
        return Err(BatchFault::Write);
    }
    Ok(())
}

/// Answers the rows of the records, without a look at the reader after them.
fn answer_rows<R: Read, W: Write, T: Tables, S: Source>(
    alloc: Global,
    reader: &mut Watched<R>,
    writer: &mut Watched<W>,
    vault: &mut Vault<T>,
    asker: &Asker,
    source: &mut S,
) -> Result<Counts, BatchFault>
    // Ok counts the input's rows, where it is known; on an honest disk, all are answered and the vault after
    // them is kept
    ensures batched { IfOk result (IsBatched (R.remaining (inner_of reader.old))
        (passing T.Tables S.given W.contents
        (vault.old, source.old, writer.old) (vault.new, source.new, writer.new)) asker.now) }
    // the fault says at which row it stopped, and what went out and is kept then
    ensures stopped { IfErr result (Stops (R.remaining (inner_of reader.old))
        (passing T.Tables S.given W.contents
        (vault.old, source.old, writer.old) (vault.new, source.new, writer.new)) asker.now) }
    // Source, Write and Store tell that this one has failed; whether the others have stays as it was
    ensures own_failure { Tells result
        (failures_unread (S.has_refused source.old) writer.old vault.old)
        (failures_unread (S.has_refused source.new) writer.new vault.new) }
    // the source is the same, further on
    ensures later { S.precedes source.old source.new }
    ensures trusted { Trusts T.Tables vault.old vault.new (result ≡ Err BatchFault.Store) }
{
    let mut records = records_of(alloc, &mut *reader);
    let mut fields = ByteRecord::new(alloc);
    if let Err(fault) = begin(&mut records, &mut fields, writer) {
        return Err(fault);
    }
    let pairs = source.left();
    let mut tokens = 0;
    'rows: loop {
        match read_record(&mut records, &mut fields) {
            Ok(true) => {}
            Ok(false) => return Ok(Counts::new(pairs - source.left(), tokens)),
            Err(fault) => return Err(fault),
        }
        let Some(row) = Row::of(&fields) else {
            return Err(BatchFault::BadRecord);
        };
        let asked = AskedRow { row, asker: *asker };
        match ask(alloc, &asked, writer, vault, source) {
            Ok(reply) => tokens += u64::from(has_token(&reply)),
            Err(stop) => return Err(BatchFault::from(stop)),
        }
    }
}

/// Reads on to the end of the reader's bytes.
fn at_end<R: Read>(reader: &mut Watched<R>) -> Result<(), BatchFault>
    // with Ok, no byte of the input is left, where it is known
    ensures end { OnOk result (IsAtEnd (R.remaining (inner_of reader.new))) }
    // with Ok, the reader hasn't failed
    ensures reader_ok { OnOk result (is_stopped reader.new ≡ false) }
    // with Read the reader has failed; any other fault is Memory
    ensures only { IfErr result (λ e. ((e ≡ BatchFault.Read) × (is_stopped reader.new ≡ true))
        ⊎ (e ≡ BatchFault.Memory)) }
{
    for _ in 0..u64::MAX {
        let mut one = [0; 1];
        match reader.read(&mut one) {
            Ok(0) => return Ok(()),
            Ok(_) => {}
            Err(_) => return Err(BatchFault::Read),
        }
    }
    Err(BatchFault::Memory)
}

/// Answers the rows of a batch: each asks for a token, by a caller and at a merchant.
///
/// The reader's bytes are records of comma-separated fields: first `request`, `number` and `use`, and then a
/// row each. The answer is a line `request,answer,detail`, and then for each row a line with its request, the
/// token and the first second at which it isn't live; or its request, `refused` and the number of the
/// refusal. A request that is no number of a request is written as `0`. Each line ends with a line feed.
///
/// A row is read after the line of the row before went out, and what it changes is written before its own
/// line goes out. One pair of the source is taken for each row, also for one that is refused. What the reader
/// gives after the end of its bytes is passed over.
///
/// 40 BadHeader: the first record isn't the header, or there is none. 41 Read and 42 Write: the reader or the
/// writer failed. 43 Store: the store failed, or the vault was broken before. 44 BadRecord: a record hasn't
/// three fields. 45 Memory: memory was refused. 46 Source: the source has no pair for a row. The rows before
/// that are answered. The row at 41, 44 and 46 isn't recorded, that at 42, 43 and 45 is or isn't.
pub fn batch<R: Read, W: Write, T: Tables, S: Source>(
    alloc: Global,
    reader: &mut Watched<R>,
    writer: &mut Watched<W>,
    vault: &mut Vault<T>,
    caller: Caller,
    merchant: MerchantId,
    source: &mut S,
) -> Result<Counts, BatchFault>
    // Ok counts the input's rows, where it is known; on an honest disk, all are answered and the vault after
    // them is kept
    ensures batched { IfOk result (IsBatchedFor R.remaining reader.old (caller, merchant)
        (passing T.Tables S.given W.contents
        (vault.old, source.old, writer.old) (vault.new, source.new, writer.new))) }
    // with Ok, no byte of the input is left, where it is known
    ensures end { OnOk result (IsAtEnd (R.remaining (inner_of reader.new))) }
    // with Ok, the reader hasn't failed
    ensures reader_ok { OnOk result (is_stopped reader.new ≡ false) }
    // the fault says at which row it stopped, and what went out and is kept then
    ensures stopped { IfErr result (StopsFor R.remaining reader.old (caller, merchant)
        (passing T.Tables S.given W.contents
        (vault.old, source.old, writer.old) (vault.new, source.new, writer.new))) }
    // with Read the reader has failed
    ensures read { result ≡ Err BatchFault.Read → is_stopped reader.new ≡ true }
    // Source, Write and Store tell that this one has failed; whether the others have stays as it was
    ensures own_failure { Tells result
        (failures_unread (S.has_refused source.old) writer.old vault.old)
        (failures_unread (S.has_refused source.new) writer.new vault.new) }
    // the source is the same, further on
    ensures later { S.precedes source.old source.new }
    ensures trusted { Trusts T.Tables vault.old vault.new (result ≡ Err BatchFault.Store) }
{
    let asker = Asker { caller, merchant };
    match answer_rows(alloc, reader, writer, vault, &asker, source) {
        Ok(counts) => match at_end(reader) {
            Ok(()) => Ok(counts),
            Err(fault) => Err(fault),
        },
        Err(BatchFault::Read) => {
            if reader.failed() {
                Err(BatchFault::Read)
            } else {
                Err(BatchFault::Memory)
            }
        }
        Err(fault) => Err(fault),
    }
}
