//! Two calls of the program, one after the other, over the same files in memory.
ghost use Rattle.std.specs.Prelude.{IfSome, map};
ghost use Rattle.vault_promise.specs.Memory.{memory_world};
ghost use Rattle.vault_promise.specs.MemoryCalls.{AreTwoCalls, handed_on, one_call};
ghost use Rattle.vault_promise.specs.Witness.{views};

use crate::kept::KeptFiles;
use sqlite_disk::{Disk, Memory};
use std::convert::AsStr;
use std::io::{Read, Write};
use vault_listen::network::Network;
use vault_listen::time::Timekeeper;
use vault_live::desk::Desk;
use vault_wire::watched::Watched;

/// Runs the program on the words and then on the words of another call, each with an input of its own, and
/// answers both exit statuses and the files; none, where they weren't opened.
///
/// The two calls are two runs, of which the second answers again what the first answered: a request that the
/// first answered a token, if the second is asked it again, is answered that token.
pub fn twice<K: Timekeeper, N: Network, D: Desk, A: AsStr, R: Read, W: Write, E: Write>(
    rt: &HostRuntime,
    kept: KeptFiles,
    time: &K,
    network: &mut N,
    desk: &D,
    words: &[A],
    words_again: &[A],
    input: &mut Watched<R>,
    input_again: &mut Watched<R>,
    output: &mut Watched<W>,
    errors: &mut Watched<E>,
) -> Option<(u8, u8, KeptFiles)>
    ensures { IfSome result (λ left. AreTwoCalls
        (views ⟦<Memory as Disk>⟧ N.tells R.remaining W.contents E.contents)
        (memory_world (K.tells time.now) (D.says desk.now))
        (one_call (map A.text words.now) input.old input.new left.0)
        (one_call (map A.text words_again.now) input_again.old input_again.new left.1)
        (handed_on kept network.old output.old errors.old)
        (handed_on left.2 network.new output.new errors.new)) }
{
    let (first, middle) = kept.again(rt, time, network, desk, words, input, output, errors);
    let (second, left) = middle?.again(
        rt,
        time,
        network,
        desk,
        words_again,
        input_again,
        output,
        errors,
    );
    Some((first, second, left?))
}
