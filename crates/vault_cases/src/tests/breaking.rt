//! What changes nothing is answered also where nothing can be written.
use std::alloc::Global;
use vault_script::case::wrong;
use vault_script::shops::shop;
use vault_script::stuck::Stuck;
use vault_store::tables::Tables;
use vault_store::vault::Vault;

/// A merchant, and a token of it.
const FILLED: &str = "open till-1 shop1 60 0 1000 = done
tokenize till-1 shop1 7 single 4111111111111111 0 1000 = 0000000000001111 1060";

/// A repeat, a view and an audit write nothing.
const WRITES_NOTHING: &str =
    "tokenize till-1 shop1 7 single 4111111111111111 0 1000 = 0000000000001111 1060
view till-1 shop1 0000000000001111 1000 = 411111******1111 single 1000 1060 live
audit till-1 shop1 1000 = 1 0 0";

/// A merchant without a token.
const OPENED: &str = "open till-1 shop1 60 0 1000 = done";

/// A write fails.
const FAILS: &str = "tokenize till-1 shop1 7 single 4111111111111111 0 1000 = stopped 21";

/// A vault is broken.
const BROKEN: &str = "tokenize till-1 shop1 7 single 4111111111111111 0 1000 = stopped 22
dead shop1 1000 1000 = stopped 22";

/// A vault of what lines fill, over tables of which every write fails.
fn read_only(alloc: Global, lines: &str) -> Vault<Stuck> {
    Vault::new(Stuck::new(shop(alloc, lines).into_tables()))
}

/// Whether lines are answered.
fn answers(alloc: Global, vault: &mut Vault<Stuck>, lines: &str) -> bool {
    wrong(alloc, vault, lines).as_str() == "answered"
}

/// Whether what writes nothing is answered by a vault that stays whole.
fn stays_whole(alloc: Global) -> bool {
    let mut vault = read_only(alloc, FILLED);
    answers(alloc, &mut vault, WRITES_NOTHING) && !vault.broken()
}

/// Whether a vault is broken from a write that fails on, and not before.
fn breaks(alloc: Global) -> bool {
    let mut vault = read_only(alloc, OPENED);
    let is_whole = !vault.broken();
    let fails = answers(alloc, &mut vault, FAILS);
    let is_broken = vault.broken();
    let refuses = answers(alloc, &mut vault, BROKEN);
    is_whole && fails && is_broken && refuses && vault.into_tables().failed()
}

#[test]
fn a_write_that_fails_breaks_the_vault(rt: HostRuntime) {
    let is_whole = stays_whole(rt.alloc());
    assert!(rt;
        is_whole && breaks(rt.alloc()),
        "writes nothing: {is_whole}"
    );
}
