//! Sweeps of a shop whose moment is ahead of the clock's.
use super::tasks::outcome;
use vault_batch::asker::Asker;
use vault_core::moment::Moment;
use vault_core::name::{Caller, MerchantId};
use vault_jobs::clock::Giver;
use vault_jobs::note::Note;
use vault_jobs::task::{Outcome, Task};
use vault_script::shops::shop;
use vault_store::memory::MemTables;
use vault_store::vault::Vault;

/// A shop whose first token is dead, and whose moment is that of its second, 90000.
const AHEAD: &str = "open till-1 shop1 60 0 1000 = done
tokenize till-1 shop1 1 single 4111111111111111 0 1000 = 0000000000001111 1060
tokenize till-1 shop1 2 single 4111111111111111 1 90000 = 1111111111111111 90060";

/// How a sweep of a merchant ends at a second, what is noted beside it, and whether this goes out; none where
/// it isn't begun or stops.
fn ended(
    rt: &HostRuntime,
    vault: &mut Vault<MemTables>,
    merchant: &str,
    second: u64,
    giver: Giver,
    line: &str,
) -> Option<(Outcome, Option<Note>, bool)> {
    let asker = Asker {
        caller: Caller::read(b"till-1").ok()?,
        merchant: MerchantId::read(merchant.as_bytes()).ok()?,
    };
    let task = Task::Sweep(asker, Moment::new(second).ok()?, giver);
    let mut output = Vec::new(rt.alloc());
    let (ended, note) = outcome(rt, vault, &task, &mut output)?;
    Some((ended, note, output.as_slice() == line.as_bytes()))
}

#[test]
fn a_clock_a_day_and_a_second_behind_the_shop_sweeps_nothing(rt: HostRuntime) {
    let mut vault = shop(rt.alloc(), AHEAD);
    let refused = ended(&rt, &mut vault, "shop1", 3599, Giver::Clock, "");
    assert!(rt; refused == Some((Outcome::Refused(81), None, true)));
    let swept = ended(&rt, &mut vault, "shop1", 3599, Giver::Words, "purged 1\n");
    assert!(rt; swept == Some((Outcome::Done, None, true)));
}

#[test]
fn a_clock_a_day_behind_the_shop_sweeps(rt: HostRuntime) {
    let mut vault = shop(rt.alloc(), AHEAD);
    let swept = ended(&rt, &mut vault, "shop1", 3600, Giver::Clock, "purged 1\n");
    assert!(rt; swept == Some((Outcome::Done, None, true)));
}

#[test]
fn a_shop_that_is_not_known_is_ahead_of_no_clock(rt: HostRuntime) {
    let mut vault = shop(rt.alloc(), AHEAD);
    let noted = Some((Outcome::Done, Some(Note::NoMerchant), true));
    let swept = ended(&rt, &mut vault, "shop2", 0, Giver::Clock, "purged 0\n");
    assert!(rt; swept == noted);
    let swept = ended(&rt, &mut vault, "shop2", 0, Giver::Words, "purged 0\n");
    assert!(rt; swept == noted);
}

#[test]
fn a_clock_31_days_and_a_second_ahead_of_the_shop_sweeps_and_says_so(rt: HostRuntime) {
    let mut vault = shop(rt.alloc(), AHEAD);
    let swept = ended(
        &rt,
        &mut vault,
        "shop1",
        2_768_401,
        Giver::Clock,
        "purged 2\n",
    );
    assert!(rt; swept == Some((Outcome::Done, Some(Note::ClockAhead), true)));
}

#[test]
fn a_clock_31_days_ahead_of_the_shop_sweeps(rt: HostRuntime) {
    let mut vault = shop(rt.alloc(), AHEAD);
    let swept = ended(
        &rt,
        &mut vault,
        "shop1",
        2_768_400,
        Giver::Clock,
        "purged 2\n",
    );
    assert!(rt; swept == Some((Outcome::Done, None, true)));
}

#[test]
fn words_31_days_and_a_second_ahead_of_the_shop_sweep(rt: HostRuntime) {
    let mut vault = shop(rt.alloc(), AHEAD);
    let swept = ended(
        &rt,
        &mut vault,
        "shop1",
        2_768_401,
        Giver::Words,
        "purged 2\n",
    );
    assert!(rt; swept == Some((Outcome::Done, None, true)));
}
