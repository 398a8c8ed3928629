//! The pairs that a job's messages and rows are asked with.
ghost use Rattle.std.specs.Prelude.{IfSome};
ghost use Rattle.vault_listen.specs.Live.{Begins, IsFresh};

use rand::make_rng;
use rand::rngs::StdRng;
use std::random::RandomSource;
use vault_core::moment::Moment;
use vault_listen::live::LiveSource;
use vault_listen::time::Timekeeper;
use vault_pan::draw::Digits;

/// The most messages of one job.
pub const MOST_MESSAGES: u64 = 1000;

/// The most rows of one batch.
pub const MOST_ROWS: u64 = 100_000;

/// So many pairs, each with the moment and the digits that the words give, or else with one that is told and
/// drawn ones; none where there is nothing to draw digits from.
pub fn pairs<H: AllocGlobal + RandomSource, K: Timekeeper>(
    rt: &H,
    time: &K,
    times: u64,
    moment: Option<Moment>,
    digits: Option<Digits>,
) -> Option<LiveSource<K::Questions, StdRng>>
    // it gave no pair yet, gives so many, and never refused
    ensures fresh { IfSome result (λ s. IsFresh s times) }
    // it begins with questions of its own to that time, and with what is fixed of its pairs
    ensures begins { IfSome result
        (Begins K.Questions.tells K.Questions.told (K.tells time.now) moment digits) }
{
    let Ok(generator) = make_rng(rt) else {
        return None;
    };
    Some(LiveSource::fixed(
        rt.alloc(),
        time.questions(),
        generator,
        times,
        moment,
        digits,
    ))
}
