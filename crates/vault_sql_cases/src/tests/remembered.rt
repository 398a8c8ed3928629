//! Merchants and rights that come in turn, more of them than tables remember, over ordered maps and over a
//! database.
use super::over::Step;
use super::steps::{all_done, is_told, no_files};
use std::alloc::{AllocError, Global};
use std::test::Fail;
use vault_script::case::answer_told;
use vault_store::memory::MemTables;
use vault_store::vault::Vault;

/// How many merchants there are, each with rights of two callers.
const SHOPS: u8 = 11;

/// How often each of them comes.
const ROUNDS: u8 = 3;

/// What is asked of a merchant in a round: it gets other lives, and its counts are told before and behind a
/// token and a denial. The second caller may audit it from the second round on.
fn asked(alloc: Global, round: u8, shop: u8) -> Result<String, AllocError> {
    let (round, shop) = (u64::from(round), u64::from(shop));
    let (now, life, request) = (1000 + 20 * round + shop, 60 + round, 10 * shop + round + 1);
    let first = match round {
        0 => format!(in alloc; "open till-1 shop{shop} 60 600 {now}")?,
        1 => format!(in alloc; "grant till-2 shop{shop} audit {now}")?,
        _ => format!(in alloc; "set shop{shop} 30 600 {now}")?,
    };
    let first = first.as_str();
    format!(in alloc;
        "audit till-2 shop{shop} {now}
{first}
audit till-2 shop{shop} {now}
tokenize till-1 shop{shop} {request} single 4111111111111111 {round} {now}
audit till-1 shop{shop} {now}
detokenize till-2 shop{shop} 0000000000001111 {now}
set shop{shop} {life} 600 {now}
audit till-1 shop{shop} {now}
"
    )
}

/// All rounds, each over all merchants.
fn all_asked(alloc: Global) -> Result<String, AllocError> {
    let mut lines = String::new(alloc);
    for round in 0..ROUNDS {
        for shop in 0..SHOPS {
            lines.push_str(asked(alloc, round, shop)?.as_str())?;
        }
    }
    Ok(lines)
}

/// Lines with the answers of a vault over ordered maps.
fn answered(alloc: Global, lines: &str) -> Result<String, AllocError> {
    let mut vault = Vault::new(MemTables::new(alloc));
    let mut all = String::new(alloc);
    for line in lines.lines() {
        let told = answer_told(alloc, &mut vault, line);
        let told = told.as_str();
        all.push_str(format!(in alloc; "{line} = {told}\n")?.as_str())?;
    }
    Ok(all)
}

/// What is asked of the vault that is opened again: the counts of the first merchant and of the last.
const COUNTED: &str = "audit till-1 shop0 2000 = 3 0 3
audit till-2 shop10 2000 = 3 0 3
tokenize till-1 shop10 200 single 4111111111111111 0 2000 = refused 12";

#[test]
fn rows_are_those_of_the_vault(rt: HostRuntime) -> Result<(), Fail> {
    let alloc = rt.alloc();
    let lines = answered(alloc, all_asked(alloc)?.as_str())?;
    let steps = [Step::Ask(lines.as_str()), Step::Ask(COUNTED)];
    let (told, _files) = all_done(alloc, no_files(alloc), steps.as_slice());
    assert!(rt; is_told(&rt, told.as_str(), "answered; answered; "));
    Ok(())
}
