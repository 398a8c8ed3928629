//! Dead tokens of a vault in memory, purged between two connections by whom a list of merchants names.
use super::clocks::TestClock;
use super::desks::TestDesk;
use super::follows::NobodyWaits;
use rand::SeedableRng;
use rand::rngs::StdRng;
use std::cell::Cell;
use vault_listen::time::ClockTime;
use vault_live::lists::{ListsKept, ListsOffice, Shops};
use vault_live::turns::serve_turns;
use vault_merchants::read::read_merchants;
use vault_script::case::wrong;
use vault_script::fakes::TestWriter;
use vault_script::shops::shop;
use vault_store::memory::MemTables;
use vault_store::vault::Vault;
use vault_wire::watched::Watched;

/// Three tokens, made at 1000, 1010 and 1020 and each live for 60 seconds. A guest has no right.
const THREE: &str = "open till-1 shop1 60 0 1000 = done
tokenize till-1 shop1 1 single 4111111111111111 0 1000 = 0000000000001111 1060
tokenize till-1 shop1 2 single 4111111111111111 1 1010 = 1111111111111111 1070
tokenize till-1 shop1 3 single 4111111111111111 2 1020 = 2222222222221111 1080";

/// A token that is dead at 90000, the shop's moment.
const AHEAD: &str = "open till-1 shop1 60 0 1000 = done
tokenize till-1 shop1 1 single 4111111111111111 0 1000 = 0000000000001111 1060
tokenize till-1 shop1 2 single 4111111111111111 1 90000 = 1111111111111111 90060";

/// Two shops.
const TWO: &str = "open till-1 shop1 60 0 1000 = done
open till-2 shop2 60 0 1000 = done
tokenize till-1 shop1 1 single 4111111111111111 0 1000 = 0000000000001111 1060
tokenize till-2 shop2 1 single 4111111111111111 1 1000 = 1111111111111111 1060";

/// Lists that name nobody, the till, and a guest.
const NOBODY: &str = "[shop1]\nsingle = 60\nmulti = 0\n# end\n";

const TILL: &str = "[shop1]\nsingle = 60\nmulti = 0\nsweep = 'till-1'\n# end\n";

const GUEST: &str = "[shop1]\nsingle = 60\nmulti = 0\nsweep = 'guest'\n# end\n";

const BOTH: &str =
    "[shop1]\nsingle = 60\nmulti = 0\nsweep = 'till-1'\n[shop2]\nsingle = 60\nmulti = 0
sweep = 'till-2'\n# end\n";

/// What the shop answers; the clock's second; the list in force, and those that are found at the looks; what
/// is said; and what the shop answers then.
type Case = (
    &'static str,
    u64,
    &'static str,
    &'static [&'static str],
    &'static str,
    &'static str,
);

const CASES: [Case; 12] = [
    (
        THREE,
        1065,
        TILL,
        &[TILL; 6],
        "sweep of shop1 purged 1 at 1065\n",
        "detokenize till-1 shop1 0000000000001111 1065 = refused 14
detokenize till-1 shop1 1111111111111111 1065 = 4111111111111111
detokenize till-1 shop1 2222222222221111 1065 = 4111111111111111
audit till-1 shop1 1065 = 3 2 1",
    ),
    (
        THREE,
        1075,
        TILL,
        &[TILL; 6],
        "sweep of shop1 purged 2 at 1075\n",
        "detokenize till-1 shop1 2222222222221111 1075 = 4111111111111111",
    ),
    (
        THREE,
        1059,
        TILL,
        &[TILL; 6],
        "",
        "detokenize till-1 shop1 0000000000001111 1059 = 4111111111111111",
    ),
    (
        THREE,
        1065,
        NOBODY,
        &[NOBODY; 6],
        "",
        "detokenize till-1 shop1 0000000000001111 1065 = refused 16",
    ),
    (
        THREE,
        1065,
        GUEST,
        &[GUEST; 40],
        "sweep of shop1 refused 8 at 1065\n",
        "detokenize till-1 shop1 0000000000001111 1065 = refused 16",
    ),
    (
        THREE,
        1065,
        NOBODY,
        &[NOBODY, TILL, NOBODY, TILL, NOBODY],
        "",
        "detokenize till-1 shop1 0000000000001111 1065 = refused 16",
    ),
    (
        THREE,
        1065,
        NOBODY,
        &[NOBODY, TILL, TILL, TILL, TILL],
        "sweep of shop1 purged 1 at 1065\n",
        "detokenize till-1 shop1 0000000000001111 1065 = refused 14",
    ),
    (
        THREE,
        1065,
        GUEST,
        &[GUEST, TILL, TILL, TILL, TILL],
        "sweep of shop1 refused 8 at 1065\nsweep of shop1 purged 1 at 1065\n",
        "detokenize till-1 shop1 0000000000001111 1065 = refused 14",
    ),
    (
        AHEAD,
        3599,
        TILL,
        &[TILL; 40],
        "sweep of shop1 refused 81 at 3599\n",
        "detokenize till-1 shop1 0000000000001111 90000 = refused 16",
    ),
    (
        AHEAD,
        3600,
        TILL,
        &[TILL; 6],
        "sweep of shop1 purged 1 at 3600\n",
        "detokenize till-1 shop1 0000000000001111 90000 = refused 14
detokenize till-1 shop1 1111111111111111 90000 = 4111111111111111",
    ),
    (
        THREE,
        2_679_421,
        TILL,
        &[TILL; 40],
        "sweep of shop1 waits at 2679421\n",
        "detokenize till-1 shop1 0000000000001111 1065 = refused 16
detokenize till-1 shop1 2222222222221111 1065 = 4111111111111111",
    ),
    (
        THREE,
        2_679_420,
        TILL,
        &[TILL; 6],
        "sweep of shop1 purged 3 at 2679420\n",
        "audit till-1 shop1 2679420 = 3 0 0",
    ),
];

/// What is said while nobody connects, and dead tokens are purged, by a clock that stands.
fn swept<'x>(
    rt: &HostRuntime,
    vault: &mut Vault<MemTables>,
    second: u64,
    began: &'x str,
    texts: &'x [&'x str],
    output: &mut Vec<u8>,
) {
    let clock = TestClock::stepping_at(second, 1);
    swept_by(rt, vault, &clock, began, texts, output);
}

/// The same by a clock.
fn swept_by<'x>(
    rt: &HostRuntime,
    vault: &mut Vault<MemTables>,
    clock: &TestClock,
    began: &'x str,
    texts: &'x [&'x str],
    output: &mut Vec<u8>,
) {
    if vault.broken() {
        return;
    }
    let alloc = rt.alloc();
    let Ok(rows) = read_merchants(alloc, began.as_bytes()) else {
        return;
    };
    let time = ClockTime::new(clock);
    let desk = TestDesk::new(alloc, texts);
    let office = ListsOffice {
        shops: Some(Shops::new(alloc, &desk, "merchants.toml", rows.as_slice())),
        rights: None,
    };
    let mut kept = ListsKept::new(began.as_bytes(), began.as_bytes());
    let mut peers = NobodyWaits {
        left: Cell::new(texts.len().saturating_sub(1)),
    };
    let mut generator = StdRng::seed_from_u64(7);
    let mut writer = Watched::new(TestWriter::Whole(output));
    let _ = serve_turns(
        alloc,
        &time,
        &mut generator,
        &mut peers,
        &office,
        &mut kept,
        1,
        vault,
        &mut writer,
    );
}

#[test]
fn dead_tokens_are_purged_by_whom_the_list_names(rt: HostRuntime) {
    for (lines, second, began, texts, wanted, after) in CASES {
        let mut vault = shop(rt.alloc(), lines);
        let mut output = Vec::new(rt.alloc());
        swept(&rt, &mut vault, second, began, texts, &mut output);
        assert!(rt; output.as_slice() == wanted.as_bytes(), "{wanted}");
        assert!(rt;
            wrong(rt.alloc(), &mut vault, after).as_str() == "answered",
            "{after}"
        );
    }
}

/// A clock that goes along: half a minute from one question to the next.
const HALF_MINUTES: [(Option<u64>, u64); 9] = [
    (Some(1050), 0),
    (Some(1050), 0),
    (Some(1080), 30),
    (Some(1110), 60),
    (Some(1140), 90),
    (Some(1170), 120),
    (Some(1200), 150),
    (Some(1230), 180),
    (Some(1260), 210),
];

#[test]
fn a_round_comes_after_a_minute(rt: HostRuntime) {
    let mut vault = shop(rt.alloc(), THREE);
    let clock = TestClock::telling(&HALF_MINUTES);
    let mut output = Vec::new(rt.alloc());
    swept_by(&rt, &mut vault, &clock, TILL, &[TILL; 8], &mut output);
    let wanted = "sweep of shop1 purged 3 at 1170\n";
    assert!(rt; output.as_slice() == wanted.as_bytes());
}

#[test]
fn each_merchant_is_swept_by_its_own_caller(rt: HostRuntime) {
    let mut vault = shop(rt.alloc(), TWO);
    let mut output = Vec::new(rt.alloc());
    swept(&rt, &mut vault, 1065, BOTH, &[BOTH; 8], &mut output);
    let wanted = "sweep of shop1 purged 1 at 1065\nsweep of shop2 purged 1 at 1065\n";
    assert!(rt; output.as_slice() == wanted.as_bytes());
}
