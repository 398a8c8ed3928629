//! `migrate`: a file moves to the newest schema.
ghost use Rattle.std.specs.Prelude.{◌≡◌, IfOk, IsTrue};
ghost use Rattle.vault_schema.specs.Versions.{newest, number_of};
ghost use Rattle.vault_app.specs.Commands.Migrate.{TellsMoved};
ghost use Rattle.vault_jobs.specs.Streams.{output_of};

use crate::ending::Ending;
use crate::line::{end_beside, end_with};
use crate::note::Note;
use itoa::Buffer;
use std::io::Write;
use vault_file::fault::NotOpened;
use vault_file::paths::Paths;
use vault_wire::watched::Watched;

/// Whether there is no vault in the file at a path: nothing has the name, or a file without a byte and
/// without a log. Where memory is refused while that is looked at, there may be one.
pub(crate) fn has_no_vault<P: Paths>(rt: &HostRuntime, paths: &P, path: &str) -> bool
    // with true, there is none
    ensures { IsTrue result → P.lacks paths.now path.now }
{
    match paths.is_empty(rt, path) {
        Ok(empty) => empty,
        Err(_) => false,
    }
}

/// Says which schema a file has now, the newest, and ends as there was a vault in it or none; or ends as the
/// file isn't opened.
pub(crate) fn tell_moved<W: Write>(
    moved: Result<i64, NotOpened>,
    was_empty: bool,
    output: &mut Watched<W>,
) -> Ending
    // with Ok, the version is the newest
    requires { IfOk moved (λ version. version ≡ number_of newest) }
    // with Ok, the line of the newest schema went out, or the writer failed; with Err, it ends by that, and
    // nothing went out
    ensures { TellsMoved was_empty moved result (output_of W.contents output.old output.new) }
{
    let version = match moved {
        Ok(version) => version,
        Err(fault) => return Ending::NotOpened(fault),
    };
    let mut digits = Buffer::new();
    let line = end_with(output, &["schema ", digits.format(version), "\n"]);
    end_beside(line, was_empty, Note::Made)
}
