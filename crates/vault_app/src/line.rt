//! The line that a job ends with.
ghost use Rattle.std.specs.Prelude.{◌≡◌};
ghost use Rattle.std.specs.List.{flat_map};
ghost use Rattle.vault_app.specs.Endings.{LineEnds, beside};
ghost use Rattle.vault_jobs.specs.Streams.{output_of};

use crate::ending::Ending;
use crate::note::Note;
use std::io::Write;
use vault_jobs::answer::answer;
use vault_jobs::stop::Stop;
use vault_wire::watched::Watched;

/// Writes the line of a job that is done, part by part, and hands it on. 62 Write: the writer failed.
pub(crate) fn end_with<W: Write>(output: &mut Watched<W>, parts: &[&str]) -> Ending
    ensures { LineEnds (flat_map (λ part. part.now) parts.now) result
        (output_of W.contents output.old output.new) }
{
    match answer(output, parts) {
        Ok(()) => Ending::Done,
        Err(fault) => Ending::Stopped(Stop::Service(fault)),
    }
}

/// The end of a job whose line ended so: where it is done and there is something to note, it tells of that.
pub(crate) fn end_beside(line: Ending, noted: bool, note: Note) -> Ending
    ensures { result ≡ beside noted note line }
{
    match line {
        Ending::Done if noted => Ending::Noted(note),
        ended => ended,
    }
}
