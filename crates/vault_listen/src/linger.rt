//! The end of a connection whose answers are still under way.
ghost use Rattle.std.specs.Prelude.{ℕ, ◌≡◌, ◌≤◌, ◌↔◌, ◌⊎◌, Err, List, length, true, false};
ghost use Rattle.std.specs.Io.KnownBytes.{Consumes};

use crate::peer::PeerReader;
use crate::stream::Stream;
use std::io::Read;
use std::time::Clock;
use vault_http::fault::ServeFault;
use vault_http::served::Served;
use vault_wire::watched::Watched;

/// The most bytes that are thrown away at once.
const PIECE: usize = 4096;

/// The most pieces that are thrown away.
const PIECES: usize = 16;

/// Reads and throws away at most 16 pieces, up to the end of the input or to the reader's first error.
pub fn discard<R: Read>(reader: &mut R)
    // what it takes of the reader, where that is known, is at most 65536 bytes
    ensures bounded { (bytes : List ℕ) × (length bytes ≤ 65536)
        × Consumes (R.remaining reader.old) (R.remaining reader.new) bytes }
{
    let mut piece = [0u8; PIECE];
    for _ in 0..PIECES {
        let Ok(count) = reader.read(&mut piece) else {
            return;
        };
        if count == 0 {
            return;
        }
    }
}

/// Whether a peer has a last turn, where the service of its connection ended so: unless its reader or its
/// writer failed. One that gave way has failed at nothing.
fn has_last_turn(ended: Result<Served, ServeFault>, gave_way: bool) -> bool
    // one that gave way has one
    ensures way { gave_way ≡ true → result ≡ true }
    // another one hasn't exactly where its reader or its writer failed
    ensures failed { gave_way ≡ false
        → (result ≡ false) ↔ ((ended ≡ Err ServeFault.Read) ⊎ (ended ≡ Err ServeFault.Write)) }
{
    match ended {
        Err(ServeFault::Read | ServeFault::Write) => gave_way,
        Ok(_) | Err(ServeFault::Source | ServeFault::Store | ServeFault::Memory) => true,
    }
}

/// Ends the connection of a peer whose service ended so, behind its last turn where it has one.
pub fn end_peer<S: Stream + Drop, C: Clock + Drop>(
    reader: Watched<PeerReader<S, C>>,
    ended: Result<Served, ServeFault>,
) {
    let mut reader = reader.into_inner();
    if has_last_turn(ended, reader.gave_way()) {
        linger(&mut reader);
    }
}

/// Tells a peer that no more answers come, and takes at most 64 KiB of what it still sends, for one turn, or
/// for 50 milliseconds where it gave way.
///
/// A connection that is closed while bytes of its peer are unread is reset, and what was under way to the
/// peer may be lost.
fn linger<S: Stream, C: Clock + Drop>(reader: &mut PeerReader<S, C>)
    // what it takes of the stream, where that is known, is at most 65536 bytes
    ensures bounded { (bytes : List ℕ) × (length bytes ≤ 65536)
        × Consumes (S.remaining reader.old.stream) (S.remaining reader.new.stream) bytes }
{
    if reader.begin_last_turn().is_err() {
        return;
    }
    discard(reader);
}
