//! Runs of the program one after the other over files in memory, with a stop after each.
use vault_app::desk::HostDesk;
use vault_listen::limits::Limits;
use vault_listen::network::Loopback;
use vault_listen::time::ClockTime;
use vault_promise::kept::KeptFiles;
use vault_promise::twice::twice;
use vault_script::worked::{ANSWERED, ASKED, HAS_LOG, SHOP, Step, words_of};
use vault_wire::watched::Watched;

/// What a run gave: its status, its output and its errors.
type Ran = (u8, Vec<u8>, Vec<u8>);

/// Runs the program on the words of a line and on bytes, over these files, and gives what it left of them.
fn run_kept(
    rt: &HostRuntime,
    kept: KeptFiles,
    line: &str,
    input: &[u8],
) -> (Ran, Option<KeptFiles>) {
    let words = words_of(rt.alloc(), line, "vault.db");
    let time = ClockTime::new(rt);
    let mut network = Loopback::new(rt, Limits::of_service());
    let desk = HostDesk::new(rt);
    let mut output = Vec::new(rt.alloc());
    let mut errors = Vec::new(rt.alloc());
    let mut reader = Watched::new(input);
    let mut writer = Watched::new(&mut output);
    let mut teller = Watched::new(&mut errors);
    let (status, left) = kept.again(
        rt,
        &time,
        &mut network,
        &desk,
        &words,
        &mut reader,
        &mut writer,
        &mut teller,
    );
    ((status, output, errors), left)
}

/// These files after runs, each over what a stop leaves of those that the one before it left; none, where one
/// ends otherwise.
fn kept_after(rt: &HostRuntime, kept: KeptFiles, steps: &[Step]) -> Option<KeptFiles> {
    let mut kept = kept;
    for (line, input, status, output, errors) in steps {
        let (ran, left) = run_kept(rt, kept, line, input.as_bytes());
        let left = left?;
        let (ended, said, told) = ran;
        let is_so = ended == *status
            && said.as_slice() == output.as_bytes()
            && told.as_slice() == errors.as_bytes();
        if !is_so {
            return None;
        }
        kept = left.stopped();
    }
    Some(kept)
}

/// The files after a shop is set up, with a stop after each of its runs.
fn kept_shop(rt: &HostRuntime) -> Option<KeptFiles> {
    let mut kept = KeptFiles::begun(rt.alloc())?;
    for line in SHOP.lines() {
        kept = kept_after(rt, kept, &[(line, "", 0, "done\n", "")])?;
    }
    Some(kept)
}

/// A run answers a token, and later ones answer it again, with other digits and at other moments.
const AGAIN: [Step; 4] = [
    (
        "vault pipe --now 1000 --digits 0 FILE",
        ASKED,
        0,
        ANSWERED,
        "",
    ),
    (
        "vault pipe --now 1050 --digits 7 FILE",
        ASKED,
        0,
        ANSWERED,
        "",
    ),
    ("vault check FILE", "", 0, "sound 1 1 1\n", HAS_LOG),
    (
        "vault pipe --now 1055 --digits 123 FILE",
        ASKED,
        0,
        ANSWERED,
        "",
    ),
];

/// Whether they do.
fn is_answered_again(rt: &HostRuntime) -> bool {
    match kept_shop(rt) {
        Some(kept) => kept_after(rt, kept, &AGAIN).is_some(),
        None => false,
    }
}

#[test]
fn a_token_is_answered_again_by_runs_after_stops(rt: HostRuntime) {
    assert!(rt; is_answered_again(&rt));
}

/// What two calls of `pipe` sent, the first with the digit 0 and the second with the digit 7 and at a later
/// moment.
fn sent_twice(rt: &HostRuntime, kept: KeptFiles) -> Option<Vec<u8>> {
    let words = words_of(
        rt.alloc(),
        "vault pipe --now 1000 --digits 0 FILE",
        "vault.db",
    );
    let later = words_of(
        rt.alloc(),
        "vault pipe --now 1050 --digits 7 FILE",
        "vault.db",
    );
    let time = ClockTime::new(rt);
    let mut network = Loopback::new(rt, Limits::of_service());
    let desk = HostDesk::new(rt);
    let mut output = Vec::new(rt.alloc());
    let mut errors = Vec::new(rt.alloc());
    let mut first = Watched::new(ASKED.as_bytes());
    let mut second = Watched::new(ASKED.as_bytes());
    let mut writer = Watched::new(&mut output);
    let mut teller = Watched::new(&mut errors);
    let (status, again, _left) = twice(
        rt,
        kept,
        &time,
        &mut network,
        &desk,
        &words,
        &later,
        &mut first,
        &mut second,
        &mut writer,
        &mut teller,
    )?;
    if status != 0 || again != 0 {
        return None;
    }
    Some(output)
}

/// Whether two calls after a shop is set up answer the same token twice.
fn is_answered_twice(rt: &HostRuntime) -> bool {
    let Some(kept) = kept_shop(rt) else {
        return false;
    };
    let Some(sent) = sent_twice(rt, kept) else {
        return false;
    };
    let (first, second) = sent.split_at(sent.len() / 2);
    first == ANSWERED.as_bytes() && second == ANSWERED.as_bytes()
}

#[test]
fn two_calls_answer_one_token(rt: HostRuntime) {
    assert!(rt; is_answered_twice(&rt));
}
