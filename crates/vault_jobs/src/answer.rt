//! The line that answers a job.
ghost use Rattle.std.specs.Prelude.{◌≡◌, ℕ, OnErr, OnOk, IfErr, take, true};
ghost use Rattle.std.specs.Io.KnownBytes.{Appends};
ghost use Rattle.std.specs.List.{flat_map};
ghost use Rattle.vault_wire.specs.Watching.{inner_of, is_stopped};
ghost use Rattle.vault_jobs.specs.Failing.{GoesOn};

use std::io::Write;
use vault_http::fault::ServeFault;
use vault_live::told::tell;
use vault_wire::watched::{Watched, send};

/// Writes the line that answers a job, part by part, and hands it on. 62 Write: the writer failed.
pub fn answer<W: Write>(output: &mut Watched<W>, parts: &[&str]) -> Result<(), ServeFault>
    // with Ok, the parts stand, in their order, behind what the writer held, where that is known
    ensures answered { OnOk result (Appends
        (W.contents (inner_of output.old)) (W.contents (inner_of output.new))
        (flat_map (λ part. part.now) parts.now)) }
    // with Err, a beginning of them, perhaps all, stands behind what the writer held, where that is known
    ensures cut { OnErr result ((n : ℕ) × Appends
        (W.contents (inner_of output.old)) (W.contents (inner_of output.new))
        (take n (flat_map (λ part. part.now) parts.now))) }
    // with Ok, the writer hasn't failed
    ensures writer_ok { GoesOn result output.new }
    // the fault is Write, and the writer has failed
    ensures failed { IfErr result (λ e. (e ≡ ServeFault.Write) × (is_stopped output.new ≡ true)) }
{
    tell(output, parts);
    if output.flush().is_err() {
        return Err(ServeFault::Write);
    }
    Ok(())
}

/// Writes the text that answers a job, and hands it on. 62 Write: the writer failed.
pub fn answer_text<W: Write>(output: &mut Watched<W>, text: &[u8]) -> Result<(), ServeFault>
    // with Ok, the text stands behind what the writer held, where that is known
    ensures answered { OnOk result (Appends
        (W.contents (inner_of output.old)) (W.contents (inner_of output.new)) text.now) }
    // with Err, a beginning of the text, perhaps all of it, stands behind what the writer held, where that is
    // known
    ensures cut { OnErr result ((n : ℕ) × Appends
        (W.contents (inner_of output.old)) (W.contents (inner_of output.new)) (take n text.now)) }
    // with Ok, the writer hasn't failed
    ensures writer_ok { GoesOn result output.new }
    // the fault is Write, and the writer has failed
    ensures failed { IfErr result (λ e. (e ≡ ServeFault.Write) × (is_stopped output.new ≡ true)) }
{
    if send(output, text).is_err() {
        return Err(ServeFault::Write);
    }
    if output.flush().is_err() {
        return Err(ServeFault::Write);
    }
    Ok(())
}
