//! The messages of a connection answered, all that a piece completed before the next piece is read.
ghost use Rattle.std.specs.Prelude.{◌≡◌, ◌+◌, [], true, false, is_err, IfOk, OnOk};
ghost use Rattle.std.specs.Prelude.{length, ◌↔◌, Bool, None};
ghost use Rattle.std.specs.Io.{ReadsAtMost};
ghost use Rattle.std.specs.Io.KnownBytes.{ReadConsumes};
ghost use Rattle.vault_wire.specs.Watching.{inner_of, is_stopped, underneath};
ghost use Rattle.vault_http.specs.Exchanges.{fault_text, has_close, up_to_close};
ghost use Rattle.vault_http.specs.Faults.{Tells, failures, failures_of, failures_unread};
ghost use Rattle.vault_engine.specs.Passing.{passing};
ghost use Rattle.vault_http.specs.Refusing.{IsRefused};
ghost use Rattle.vault_http.specs.Served.{EndsAmong, Serves};
ghost use Rattle.vault_engine.specs.Stops.{Trusts};

use crate::fault::ServeFault;
use crate::served::Served;
use crate::unit::{AskedMessage, told};
use std::alloc::{AllocError, Global};
use std::io;
use std::io::{Read, Write};
use vault_core::source::Source;
use vault_engine::ask::ask;
use vault_routes::route::Routes;
use vault_store::tables::Tables;
use vault_store::vault::Vault;
use vault_wire::fault::WireFault;
use vault_wire::intake::Intake;
use vault_wire::message::Message;
use vault_wire::place::{Guide, Silent};
use vault_wire::watched::{Watched, send};

/// The most bytes that are read at once.
const PIECE: usize = 4096;

/// Answers the messages up to the first that closes the connection, and tells whether one does.
fn answer_all<W: Write, T: Tables, S: Source>(
    alloc: Global,
    routes: &Routes,
    messages: &[Message],
    writer: &mut Watched<W>,
    vault: &mut Vault<T>,
    source: &mut S,
) -> Result<bool, ServeFault>
    // on an honest disk, Ok answers all messages up to the first that closes; a stop says what went out and
    // is kept
    ensures ends { EndsAmong messages.now (passing T.Tables S.given W.contents
        (vault.old, source.old, writer.old) (vault.new, source.new, writer.new)) result }
    // with Ok, it says whether one of them closes
    ensures closes { IfOk result (λ closed. closed ≡ has_close messages.now) }
    // a stop but Memory tells which of source, reader, writer and vault has failed; all else stays as it was
    ensures own_failure { Tells result
        (failures_unread (S.has_refused source.old) writer.old vault.old)
        (failures_unread (S.has_refused source.new) writer.new vault.new) }
    // with Ok, one pair was taken for each message up to the first that closes
    ensures counted { OnOk result (S.count_left source.old
        ≡ S.count_left source.new + length (up_to_close messages.now)) }
    // the source is the same, further on
    ensures later { S.precedes source.old source.new }
    ensures trusted { Trusts T.Tables vault.old vault.new (result ≡ Err ServeFault.Store) }
{
    for message in messages {
        let route = routes.find(message.target());
        let asked = AskedMessage { message, route };
        match ask(alloc, &asked, writer, vault, source) {
            Ok(_) => {
                if message.closes() {
                    return Ok(true);
                }
            }
            Err(fault) => return Err(fault),
        }
    }
    Ok(false)
}

/// The text that answers a fault of the bytes.
#[tactic(auto, unfolding(crate::specs::Exchanges::fault_text))]
fn fault_answer(alloc: Global, fault: WireFault) -> Result<Vec<u8>, AllocError>
    ensures { IfOk result (λ out. out.items ≡ fault_text fault) }
{
    told(alloc, fault.refusal(), None, true)
}

/// Answers a fault of the bytes.
fn refuse<W: Write>(
    alloc: Global,
    fault: WireFault,
    writer: &mut Watched<W>,
) -> Result<(), ServeFault>
    // with Ok the text went out, with Write a beginning of it and not all, with Memory nothing; no other stop
    // comes
    ensures ends { IsRefused (W.contents (inner_of writer.old)) (W.contents (inner_of writer.new))
        (fault_text fault) result }
    // a stop but Memory tells which of source, reader, writer and vault has failed; all else stays as it was
    ensures own_failure { Tells result
        (failures false false (is_stopped writer.old) false)
        (failures false false (is_stopped writer.new) false) }
{
    let Ok(text) = fault_answer(alloc, fault) else {
        return Err(ServeFault::Memory);
    };
    if send(writer, &text).is_err() {
        return Err(ServeFault::Write);
    }
    Ok(())
}

/// Tells the reader whether it stands between two messages: no byte of the next one has come.
fn place<R: Read, G: Guide<R>>(guide: &G, intake: &Intake, reader: &mut Watched<R>)
    // where the bytes had no fault, it was told that it does exactly where nothing of a message has come
    ensures place { intake.now.fault ≡ None → (between : Bool) × G.told (inner_of reader.new) between
        × ((between ≡ true) ↔ (intake.now.rest ≡ [])) }
    // what the reader underneath has left to give stays
    ensures bytes { R.remaining (inner_of reader.new) ≡ R.remaining (inner_of reader.old) }
    // whether a call failed stays
    ensures flag { is_stopped reader.new ≡ is_stopped reader.old }
{
    reader.tell(guide, intake.rest_len() == 0);
}

/// Reads the next piece, once the reader was told where it stands.
fn next_piece<R: Read, G: Guide<R>>(
    guide: &G,
    intake: &Intake,
    reader: &mut Watched<R>,
    piece: &mut [u8],
) -> io::Result<usize>
    // no more bytes are read than there is room for
    ensures bound { ReadsAtMost result piece.new }
    // the bytes that are read are those that the reader underneath gave up, where they are known; with Err it
    // gave up none
    ensures bytes { ReadConsumes (R.remaining (inner_of reader.old)) (R.remaining (inner_of reader.new))
        result
        piece.new }
    // it has failed exactly after an Err
    ensures flag { is_stopped reader.new ≡ is_err result }
    // with Ok, it hadn't failed before
    ensures ok { OnOk result (is_stopped reader.old ≡ false) }
{
    place(guide, intake, reader);
    reader.read(piece)
}

/// Answers the messages of the reader's bytes by routes that were made before, as `serve` does. Before each
/// read the guide tells the reader where it stands.
pub fn serve_by<R: Read, G: Guide<R>, W: Write, T: Tables, S: Source>(
    alloc: Global,
    routes: &Routes,
    guide: &G,
    reader: &mut Watched<R>,
    writer: &mut Watched<W>,
    vault: &mut Vault<T>,
    source: &mut S,
) -> Result<Served, ServeFault>
    // on an honest disk, with Ok all is answered and each number that went out is counted; a stop says what
    // is kept
    ensures serves { underneath R.remaining Serves reader.old reader.new (passing T.Tables S.given W.contents
        (vault.old, source.old, writer.old) (vault.new, source.new, writer.new))
        result }
    // a stop but Memory tells which of source, reader, writer and vault has failed; all else stays as it was
    ensures own_failure { Tells result
        (failures_of (S.has_refused source.old) reader.old writer.old vault.old)
        (failures_of (S.has_refused source.new) reader.new writer.new vault.new) }
    // the source is the same, further on
    ensures later { S.precedes source.old source.new }
    ensures trusted { Trusts T.Tables vault.old vault.new (result ≡ Err ServeFault.Store) }
{
    let mut intake = Intake::new(alloc);
    let mut piece = [0u8; PIECE];
    let pairs = source.left();
    'pieces: loop {
        let Ok(count) = next_piece(guide, &intake, reader, &mut piece) else {
            return Err(ServeFault::Read);
        };
        if count == 0 {
            let messages = pairs - source.left();
            let fault = None;
            return Ok(Served { messages, fault });
        }
        let Ok(fed) = intake.feed(&piece[..count]) else {
            return Err(ServeFault::Memory);
        };
        match answer_all(alloc, routes, &fed.messages, writer, vault, source) {
            Ok(true) => {
                let messages = pairs - source.left();
                let fault = None;
                return Ok(Served { messages, fault });
            }
            Ok(false) => {}
            Err(fault) => return Err(fault),
        }
        if let Some(fault) = fed.fault {
            if let Err(stop) = refuse(alloc, fault, writer) {
                return Err(stop);
            }
            let messages = pairs - source.left();
            return Ok(Served {
                messages,
                fault: Some(fault),
            });
        }
    }
}

/// Answers the messages of the reader's bytes, up to the end of the input, to a message that closes the
/// connection, or to a fault of the bytes, which is answered too.
///
/// One pair of the source is taken for each message. What a command changes is written before the first
/// byte of its answer goes out.
///
/// 60 Source: the source has no pair for a message. 61 Read and 62 Write: the reader or the writer failed.
/// 63 Store: the store failed, or the vault was broken before. 64 Memory: memory was refused.
pub fn serve<R: Read, W: Write, T: Tables, S: Source>(
    alloc: Global,
    reader: &mut Watched<R>,
    writer: &mut Watched<W>,
    vault: &mut Vault<T>,
    source: &mut S,
) -> Result<Served, ServeFault>
    // on an honest disk, with Ok all is answered and each number that went out is counted; a stop says what
    // is kept
    ensures serves { underneath R.remaining Serves reader.old reader.new (passing T.Tables S.given W.contents
        (vault.old, source.old, writer.old) (vault.new, source.new, writer.new))
        result }
    // a stop but Memory tells which of source, reader, writer and vault has failed; all else stays as it was
    ensures own_failure { Tells result
        (failures_of (S.has_refused source.old) reader.old writer.old vault.old)
        (failures_of (S.has_refused source.new) reader.new writer.new vault.new) }
    // the source is the same, further on
    ensures later { S.precedes source.old source.new }
    ensures trusted { Trusts T.Tables vault.old vault.new (result ≡ Err ServeFault.Store) }
{
    let Ok(routes) = Routes::new(alloc) else {
        return Err(ServeFault::Memory);
    };
    serve_by(alloc, &routes, &Silent, reader, writer, vault, source)
}
