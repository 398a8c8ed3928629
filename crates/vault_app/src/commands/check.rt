//! `check`: the whole check of a file.
ghost use Rattle.vault_app.specs.Commands.Check.{TellsSizes};
ghost use Rattle.vault_jobs.specs.Streams.{output_of};

use crate::ending::Ending;
use crate::line::{end_beside, end_with};
use crate::note::Note;
use itoa::Buffer;
use std::io::Write;
use vault_file::fault::NotOpened;
use vault_verdict::sizes::Sizes;
use vault_wire::watched::Watched;

/// Says how many merchants, entries and records a file's vault has, and ends as the file has a log or none.
/// Or it ends as the file isn't opened.
pub(crate) fn tell_sizes<W: Write>(
    checked: Result<Sizes, NotOpened>,
    has_log: bool,
    output: &mut Watched<W>,
) -> Ending
    ensures { TellsSizes has_log checked result (output_of W.contents output.old output.new) }
{
    let sizes = match checked {
        Ok(sizes) => sizes,
        Err(fault) => return Ending::NotOpened(fault),
    };
    let mut merchants = Buffer::new();
    let mut entries = Buffer::new();
    let mut records = Buffer::new();
    let line = end_with(
        output,
        &[
            "sound ",
            merchants.format(sizes.merchants),
            " ",
            entries.format(sizes.entries),
            " ",
            records.format(sizes.records),
            "\n",
        ],
    );
    end_beside(line, has_log, Note::Log)
}
