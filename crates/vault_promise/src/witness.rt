//! A call of the program, after the runs before it.
ghost use Rattle.std.specs.Prelude.{IfSome, map};
ghost use Rattle.sqlite_wal.specs.Recovery.{Image};
ghost use Rattle.vault_app.specs.World.{world_at};
ghost use Rattle.vault_promise.specs.Between.{files_kept};
ghost use Rattle.vault_promise.specs.Kept.{StandsAfter};
ghost use Rattle.vault_promise.specs.Memory.{MayBeLeftIn, memory_world};
ghost use Rattle.vault_promise.specs.MemoryCalls.{FollowsAll, IsMemoryCall, handed_on, one_call};
ghost use Rattle.vault_promise.specs.Runs.{Leaves, Run};
ghost use Rattle.vault_promise.specs.Witness.{IsRunFrom, call_begun, call_ended, views};

use crate::kept::{KeptFiles, files_of};
use crate::memory::MemoryPaths;
use crate::{answers_again, answers_stand, promise_is_kept};
use sqlite::FileStore;
use sqlite_disk::{Disk, Memory};
use std::convert::AsStr;
use std::io::{Read, Write};
use vault_app::run::run;
use vault_file::paths::Paths;
use vault_listen::network::Network;
use vault_listen::time::Timekeeper;
use vault_live::desk::Desk;
use vault_wire::watched::Watched;

/// Runs the program, and answers its exit status and the files that it leaves.
///
/// By the promise this call is a run: from whatever bytes its file holds, with whatever moments its clock
/// tells, up to whatever bytes may be left of the files.
pub fn run_again<
    P: Paths,
    K: Timekeeper,
    N: Network,
    D: Desk,
    A: AsStr,
    R: Read,
    W: Write,
    E: Write,
>(
    rt: &HostRuntime,
    paths: P,
    time: &K,
    network: &mut N,
    desk: &D,
    words: &[A],
    input: &mut Watched<R>,
    output: &mut Watched<W>,
    errors: &mut Watched<E>,
) -> (u8, Option<FileStore<P::Disk>>)
    ensures { (image : Image) → IsRunFrom image
        (views P.Disk.Disk N.tells R.remaining W.contents E.contents)
        (call_begun (world_at P.Paths (K.tells time.now) (D.says desk.now) paths) (map A.text words.now)
        network.old input.old output.old errors.old)
        (call_ended result.0 (Leaves image result.1) network.new input.new output.new errors.new) }
{
    promise_is_kept::<P, K, D, R, W, E>();
    run(rt, paths, time, network, desk, words, input, output, errors)
}

impl KeptFiles {
    /// Runs the program once more on the files, and answers its exit status and the files again; none, where
    /// they weren't opened.
    ///
    /// This very call is a run after those before it, and what each of them answered stands in later ones.
    /// A request that one of them answered a token, if this one is asked it again, is answered that token.
    pub fn again<K: Timekeeper, N: Network, D: Desk, A: AsStr, R: Read, W: Write, E: Write>(
        self,
        rt: &HostRuntime,
        time: &K,
        network: &mut N,
        desk: &D,
        words: &[A],
        input: &mut Watched<R>,
        output: &mut Watched<W>,
        errors: &mut Watched<E>,
    ) -> (u8, Option<KeptFiles>)
        // where files are left, this call is a run from the bytes before, follows all runs before it, and
        // agrees with each
        ensures follows { IfSome result.1 (λ kept. (r : Run) × IsMemoryCall
            (views ⟦<Memory as Disk>⟧ N.tells R.remaining W.contents E.contents)
            (memory_world (K.tells time.now) (D.says desk.now))
            (one_call (map A.text words.now) input.old input.new result.0)
            (handed_on self network.old output.old errors.old)
            (handed_on kept network.new output.new errors.new) r
            × FollowsAll self kept r) }
        // where files are left, some runs led to whatever a stop may leave of them, and what each answered
        // stands in later ones
        ensures stands { IfSome result.1 (λ kept. StandsAfter (MayBeLeftIn (files_kept kept))) }
    {
        answers_stand::<MemoryPaths, K, D, R, W, E>();
        answers_again::<MemoryPaths, K, D, R, W, E>();
        let paths = MemoryPaths { files: self.files };
        let (status, left) = run_again(
            rt, paths, time, network, desk, words, input, output, errors,
        );
        match left {
            Some(store) => (
                status,
                Some(KeptFiles {
                    files: files_of(store),
                }),
            ),
            None => (status, None),
        }
    }
}
