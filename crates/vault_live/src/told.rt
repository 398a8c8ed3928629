//! Lines of the program's streams.
ghost use Rattle.std.specs.List.{flat_map};
ghost use Rattle.vault_wire.specs.Watching.{inner_of, is_stopped};
ghost use Rattle.vault_live.specs.Told.{Tells};

use std::io::Write;
use vault_wire::watched::{Watched, send};

/// Writes a line, part by part. A failure of the writer isn't told.
pub fn tell<W: Write>(writer: &mut Watched<W>, parts: &[&str])
    // the line went out; or a beginning of it and not all, and the writer has failed
    ensures { Tells (W.contents (inner_of writer.old)) (W.contents (inner_of writer.new))
        (is_stopped writer.new) (flat_map (λ part. part.now) parts.now) }
{
    for part in parts {
        if send(writer, part.as_bytes()).is_err() {
            return;
        }
    }
}

/// Writes a line of bytes, part by part. A failure of the writer isn't told.
pub(crate) fn tell_bytes<W: Write>(writer: &mut Watched<W>, parts: &[&[u8]])
    // the line went out; or a beginning of it and not all, and the writer has failed
    ensures { Tells (W.contents (inner_of writer.old)) (W.contents (inner_of writer.new))
        (is_stopped writer.new) (flat_map (λ part. part.now) parts.now) }
{
    for part in parts {
        if send(writer, part).is_err() {
            return;
        }
    }
}
