//! Lists of dead tokens that one open vault gives, over ordered maps and over a database.
use super::over::Step;
use super::steps::{all_done, is_told, no_files};
use std::alloc::Global;
use vault_script::case::wrong;
use vault_store::memory::MemTables;
use vault_store::vault::Vault;

/// Dead tokens are listed in order of their texts, as many as are asked for; what is purged isn't.
const DEAD: &str = "open till-1 shop1 60 0 1000 = done
tokenize till-1 shop1 1 single 4111111111111111 2 1000 = 2222222222221111 1060
tokenize till-1 shop1 2 single 4111111111111111 1 1010 = 1111111111111111 1070
tokenize till-1 shop1 3 single 4111111111111111 0 1020 = 0000000000001111 1080
dead shop1 1020 1000 = 0
revoke till-1 shop1 0000000000001111 1020 = done
dead shop1 1059 1000 = 1 0000000000001111
dead shop1 1065 1000 = 2 0000000000001111 2222222222221111
dead shop1 1065 1 = 1 0000000000001111
dead shop1 1065 0 = 0
dead shop2 1065 1000 = 0
purge till-1 shop1 0000000000001111 1065 = done
dead shop1 1065 1000 = 1 2222222222221111
purge till-1 shop1 2222222222221111 1065 = done
dead shop1 1065 1000 = 0
detokenize till-1 shop1 1111111111111111 1065 = 4111111111111111
dead shop1 1070 1000 = 1 1111111111111111
audit till-1 shop1 1065 = 3 1 0";

/// A list has the tokens that died before the first one of the last list, too.
const LISTED: &str = "open till-1 shop1 60 0 1000 = done
tokenize till-1 shop1 1 single 4111111111111111 1 1000 = 1111111111111111 1060
tokenize till-1 shop1 2 single 4111111111111111 0 1010 = 0000000000001111 1070
dead shop1 1060 1000 = 1 1111111111111111
revoke till-1 shop1 0000000000001111 1060 = done
dead shop1 1060 1000 = 2 0000000000001111 1111111111111111
purge till-1 shop1 0000000000001111 1060 = done
dead shop1 1060 1000 = 1 1111111111111111
dead shop2 1060 1000 = 0
tokenize till-1 shop1 3 single 4111111111111111 2 1060 = 2222222222221111 1120
dead shop1 1060 1000 = 1 1111111111111111
dead shop1 1120 1000 = 2 1111111111111111 2222222222221111
dead shop1 1060 1000 = 1 1111111111111111";

/// What the lines of a case tell over ordered maps.
fn over_maps(alloc: Global, lines: &str) -> String {
    let mut vault = Vault::new(MemTables::new(alloc));
    wrong(alloc, &mut vault, lines)
}

/// What they tell over a database.
fn over_database(alloc: Global, lines: &str) -> String {
    let (told, _files) = all_done(alloc, no_files(alloc), [Step::Ask(lines)].as_slice());
    told
}

/// Whether both answer as the lines say.
fn are_answered(rt: &HostRuntime, lines: &str) -> bool {
    is_told(rt, over_maps(rt.alloc(), lines).as_str(), "answered")
        && is_told(rt, over_database(rt.alloc(), lines).as_str(), "answered; ")
}

#[test]
fn lists_have_the_dead_tokens_in_order(rt: HostRuntime) {
    for lines in [DEAD, LISTED] {
        assert!(rt; are_answered(&rt, lines), "{lines}");
    }
}
