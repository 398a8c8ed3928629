//! A rights file that changes while it is followed, by looks a second apart.
use super::clocks::TestClock;
use super::desks::TestDesk;
use rand::SeedableRng;
use rand::rngs::StdRng;
use std::alloc::{AllocError, Global};
use std::cell::Cell;
use std::time::Duration;
use vault_http::fault::ServeFault;
use vault_http::served::Served;
use vault_listen::fault::ListenFault;
use vault_listen::peers::{Accepted, Peers};
use vault_listen::time::ClockTime;
use vault_live::following::Following;
use vault_live::kind::Kind;
use vault_live::lists::{ListsKept, ListsOffice, Shops};
use vault_live::merchants::Merchants;
use vault_live::remembered::Remembered;
use vault_live::rights::{Rights, RightsList};
use vault_live::turns::serve_turns;
use vault_script::fakes::{TestReader, TestWriter};
use vault_script::shops::shop;
use vault_wire::watched::Watched;

/// Nobody waits so many times, and then one can't be accepted. A turn that waits longer than a quarter of a
/// second for one is the last.
#[derive(Drop)]
pub struct NobodyWaits {
    pub left: Cell<usize>,
}

impl Peers for NobodyWaits {
    ghost use Rattle.std.specs.Prelude.{List};
    ghost use Rattle.vault_listen.specs.Peers.{Event};

    type Reader = TestReader<'static>;

    type Writer = TestWriter<'static>;

    ghost tells = { λ _ _. Unit {0} };

    fn waits(&self, most: Duration) -> bool {
        if most > Duration::from_millis(250) {
            return true;
        }
        let left = self.left.get();
        self.left.set(left.saturating_sub(1));
        left == 0
    }

    fn accept(
        &mut self,
    ) -> Result<Option<Accepted<TestReader<'static>, TestWriter<'static>>>, ListenFault> {
        Err(ListenFault::Accept)
    }

    fn close(
        &mut self,
        _reader: Watched<TestReader<'static>>,
        _writer: Watched<TestWriter<'static>>,
        _ended: Result<Served, ServeFault>,
    )
        ensures { (log : List Event) → Unit {0} }
    {}
}

/// A shop with one caller, who has one right.
const SHOP: &str = "set shop1 60 0 1000 = done
grant till-1 shop1 tokenize 1000 = done";

/// The list that says so, and others.
const FIRST: &str = "[till-1]\nshop1 = ['tokenize']\n# end\n";

const MORE: &str = "[till-1]\nshop1 = ['tokenize']\n[till-2]\nshop1 = ['view']\n# end\n";

const CUT: &str = "[till-1]\nshop1 = ['tokenize']\n[till-2]\n";

const NONE: &str = "# end\n";

const FAULTY: &str = "[till-1]\nshop1 = 7\n# end\n";

const FAULTY_OPEN: &str = "[till-1]\nshop1 = 7\n";

/// Lists whose last line ends otherwise, or doesn't end.
const MORE_CARRIED: &str =
    "[till-1]\r\nshop1 = ['tokenize']\r\n[till-2]\r\nshop1 = ['view']\r\n# end\r\n";

const MORE_ENDLESS: &str = "[till-1]\nshop1 = ['tokenize']\n[till-2]\nshop1 = ['view']\n# end";

const NONE_CARRIED: &str = "# end\r\n";

const NONE_ENDLESS: &str = "# end";

const UNKNOWN: &str = "[till-2]\nshop1 = ['view']\nshop9 = ['view']\n# end\n";
/// Lists without their last line.
const OPEN: &str = "[till-1]\nshop1 = ['tokenize']\n";

const OPEN_MORE: &str = "[till-1]\nshop1 = ['tokenize']\n[till-2]\nshop1 = ['view']\n";

/// The list in force; those that are found at the looks, where an empty one can't be read; and what is said.
type Case = (&'static str, &'static [&'static str], &'static str);

const CASES: [Case; 22] = [
    (FIRST, &[FIRST, FIRST, FIRST], ""),
    (
        FIRST,
        &[FAULTY, FAULTY, FAULTY, FAULTY, FAULTY],
        "rights refused 73 at 1000\n",
    ),
    (
        FIRST,
        &[MORE, MORE],
        "rights granted 1 withdrawn 0 at 1000\n",
    ),
    (
        FIRST,
        &[MORE, MORE, MORE, MORE],
        "rights granted 1 withdrawn 0 at 1000\n",
    ),
    (FIRST, &[MORE, FIRST, MORE, FIRST], ""),
    (FIRST, &[MORE, "", MORE], "rights unread at 1000\n"),
    (
        FIRST,
        &["", "", MORE, MORE],
        "rights unread at 1000\nrights granted 1 withdrawn 0 at 1000\n",
    ),
    (FIRST, &[CUT, CUT, CUT], "rights unfinished at 1000\n"),
    (
        FIRST,
        &[CUT, CUT, MORE, MORE],
        "rights unfinished at 1000\nrights granted 1 withdrawn 0 at 1000\n",
    ),
    (
        FIRST,
        &[CUT, CUT, FIRST, CUT, CUT],
        "rights unfinished at 1000\nrights unfinished at 1000\n",
    ),
    (
        FIRST,
        &[OPEN_MORE, OPEN_MORE],
        "rights unfinished at 1000\n",
    ),
    (
        FIRST,
        &[MORE_CARRIED, MORE_CARRIED],
        "rights granted 1 withdrawn 0 at 1000\n",
    ),
    (
        FIRST,
        &[MORE_ENDLESS, MORE_ENDLESS],
        "rights granted 1 withdrawn 0 at 1000\n",
    ),
    (
        FIRST,
        &[NONE_CARRIED, NONE_CARRIED],
        "rights granted 0 withdrawn 1 at 1000\n",
    ),
    (
        FIRST,
        &[NONE_ENDLESS, NONE_ENDLESS],
        "rights granted 0 withdrawn 1 at 1000\n",
    ),
    (
        FIRST,
        &[NONE, NONE],
        "rights granted 0 withdrawn 1 at 1000\n",
    ),
    (
        FIRST,
        &[FAULTY, FAULTY, FAULTY, FIRST, FIRST],
        "rights refused 73 at 1000\n",
    ),
    (
        FIRST,
        &[UNKNOWN, UNKNOWN, UNKNOWN],
        "rights refused 7 at 1000\n",
    ),
    (OPEN, &[OPEN_MORE, OPEN_MORE], "rights unfinished at 1000\n"),
    (OPEN, &["\n", "\n", "\n"], "rights unfinished at 1000\n"),
    (
        OPEN,
        &[FAULTY_OPEN, FAULTY_OPEN],
        "rights unfinished at 1000\n",
    ),
    (
        OPEN,
        &[FAULTY, FAULTY, MORE, MORE],
        "rights refused 73 at 1000\nrights granted 1 withdrawn 0 at 1000\n",
    ),
];

/// What is said while nobody connects, and a list of one kind is followed.
fn said<L: Kind>(rt: &HostRuntime, began: &str, texts: &[&str], output: &mut Vec<u8>) {
    let alloc = rt.alloc();
    let mut vault = shop(alloc, SHOP);
    if vault.broken() {
        return;
    }
    let clock = TestClock::stepping(1);
    let time = ClockTime::new(&clock);
    let desk = TestDesk::new(alloc, texts);
    let office: Following<TestDesk, L> = Following::new(alloc, &desk, "list.toml");
    let mut kept = Remembered::new(began.as_bytes());
    let mut peers = NobodyWaits {
        left: Cell::new(texts.len().saturating_sub(1)),
    };
    let mut generator = StdRng::seed_from_u64(7);
    let mut writer = Watched::new(TestWriter::Whole(output));
    let _ = serve_turns(
        alloc,
        &time,
        &mut generator,
        &mut peers,
        &office,
        &mut kept,
        1,
        &mut vault,
        &mut writer,
    );
}

/// Lists of merchants.
const SHOPS: &str = "[shop1]\nsingle = 60\nmulti = 0\n# end\n";

const SHOPS_MORE: &str =
    "[shop1]\nsingle = 60\nmulti = 0\n[shop9]\nsingle = 60\nmulti = 60\n# end\n";

const SHOPS_LONGER: &str = "[shop1]\nsingle = 90\nmulti = 0\n# end\n";

const SHOPS_FAULTY: &str = "[shop1]\nsingle = 60\n# end\n";
/// Rights at a merchant that isn't there at first.
const AT_NINE: &str = "[till-1]\nshop1 = ['tokenize']\n[till-2]\nshop9 = ['view']\n# end\n";

/// The list of merchants in force, and those that are found at the looks; the rights that are found; and what
/// is said.
type BothCase = (
    &'static str,
    &'static [&'static str],
    &'static [&'static str],
    &'static str,
);

const BOTH_CASES: [BothCase; 11] = [
    (SHOPS, &[SHOPS, SHOPS], &[FIRST, FIRST], ""),
    (
        SHOPS,
        &[SHOPS_MORE, SHOPS_MORE, SHOPS_MORE],
        &[FIRST, FIRST, FIRST],
        "merchants set 1 at 1000\n",
    ),
    (
        SHOPS,
        &[SHOPS_LONGER, SHOPS_LONGER, SHOPS_LONGER],
        &[FIRST, FIRST, FIRST],
        "merchants set 1 at 1000\n",
    ),
    (
        SHOPS,
        &[SHOPS_FAULTY, SHOPS_FAULTY, SHOPS_FAULTY],
        &[FIRST, FIRST, FIRST],
        "merchants refused 73 at 1000\n",
    ),
    (
        SHOPS,
        &["", "", SHOPS],
        &[FIRST, FIRST, FIRST],
        "merchants unread at 1000\n",
    ),
    (SHOPS, &[NONE, NONE, NONE], &[FIRST, FIRST, FIRST], ""),
    (
        SHOPS,
        &["\n", "\n", "\n"],
        &[FIRST, FIRST, FIRST],
        "merchants unfinished at 1000\n",
    ),
    (
        SHOPS,
        &[SHOPS, SHOPS, SHOPS, SHOPS, SHOPS],
        &[AT_NINE, AT_NINE, AT_NINE, AT_NINE, AT_NINE],
        "rights refused 7 at 1000\n",
    ),
    (
        SHOPS,
        &[SHOPS, SHOPS, SHOPS, SHOPS_MORE, SHOPS_MORE, SHOPS_MORE],
        &[AT_NINE, AT_NINE, AT_NINE, AT_NINE, AT_NINE, AT_NINE],
        "rights refused 7 at 1000\nmerchants set 1 at 1000\nrights granted 1 withdrawn 0 at 1000\n",
    ),
    (
        SHOPS,
        &[
            SHOPS, SHOPS, SHOPS, SHOPS, SHOPS, SHOPS_MORE, SHOPS_MORE, SHOPS_MORE, SHOPS_MORE,
        ],
        &[
            AT_NINE, AT_NINE, AT_NINE, FIRST, FIRST, FIRST, FIRST, FIRST, FIRST,
        ],
        "rights refused 7 at 1000\nmerchants set 1 at 1000\n",
    ),
    (
        SHOPS,
        &[
            SHOPS,
            SHOPS,
            SHOPS,
            SHOPS_LONGER,
            SHOPS_LONGER,
            SHOPS_LONGER,
            SHOPS_LONGER,
        ],
        &[
            AT_NINE, AT_NINE, AT_NINE, AT_NINE, AT_NINE, AT_NINE, AT_NINE,
        ],
        "rights refused 7 at 1000\nmerchants set 1 at 1000\nrights refused 7 at 1000\n",
    ),
];

/// What is said while nobody connects, and both lists are followed.
fn said_of_both(rt: &HostRuntime, case: &BothCase, output: &mut Vec<u8>) {
    let alloc = rt.alloc();
    let mut vault = shop(alloc, SHOP);
    if vault.broken() {
        return;
    }
    let clock = TestClock::stepping(1);
    let time = ClockTime::new(&clock);
    let shops = TestDesk::new(alloc, case.1);
    let rights = TestDesk::new(alloc, case.2);
    let office = ListsOffice {
        shops: Some(Shops::new(alloc, &shops, "merchants.toml", &[])),
        rights: Some(RightsList::new(alloc, &rights, "rights.toml")),
    };
    let mut kept = ListsKept::new(case.0.as_bytes(), FIRST.as_bytes());
    let mut peers = NobodyWaits {
        left: Cell::new(case.1.len().saturating_sub(1)),
    };
    let mut generator = StdRng::seed_from_u64(7);
    let mut writer = Watched::new(TestWriter::Whole(output));
    let _ = serve_turns(
        alloc,
        &time,
        &mut generator,
        &mut peers,
        &office,
        &mut kept,
        1,
        &mut vault,
        &mut writer,
    );
}

#[test]
fn two_lists_are_followed(rt: HostRuntime) {
    for case in BOTH_CASES {
        let mut output = Vec::new(rt.alloc());
        said_of_both(&rt, &case, &mut output);
        assert!(rt; output.as_slice() == case.3.as_bytes(), "{}", case.3);
    }
}

#[test]
fn a_list_is_followed_where_two_looks_saw_it(rt: HostRuntime) {
    for (began, texts, wanted) in CASES {
        let mut output = Vec::new(rt.alloc());
        said::<Rights>(&rt, began, texts, &mut output);
        assert!(rt; output.as_slice() == wanted.as_bytes(), "{wanted}");
    }
}

/// What is said of 250 more rights, and then of as many fewer.
const IN_TURNS: &str = "rights granted 100 withdrawn 0 at 1000
rights granted 100 withdrawn 0 at 1000
rights granted 50 withdrawn 0 at 1000
rights granted 0 withdrawn 100 at 1000
rights granted 0 withdrawn 100 at 1000
rights granted 0 withdrawn 50 at 1000
";

/// The first list with so many further callers, each of whom has one right.
fn listed(alloc: Global, callers: u64) -> Result<String, AllocError> {
    let mut text = String::new(alloc);
    text.push_str(OPEN)?;
    for caller in 0..callers {
        let lines = format!(in alloc; "[till-1-{caller}]\nshop1 = ['view']\n")?;
        text.push_str(lines.as_str())?;
    }
    text.push_str(NONE)?;
    Ok(text)
}

/// Whether 250 changes of a list are carried out in three turns, which are said. It isn't looked at before
/// they are done.
fn are_said_in_turns(rt: &HostRuntime) -> Result<bool, AllocError> {
    let alloc = rt.alloc();
    let many = listed(alloc, 250)?;
    let many = many.as_str();
    let mut output = Vec::new(alloc);
    let texts = [many, many, FIRST, FIRST, FIRST, FIRST, FIRST, FIRST];
    said::<Rights>(rt, FIRST, &texts, &mut output);
    Ok(output.as_slice() == IN_TURNS.as_bytes())
}

#[test]
fn many_changes_are_said_in_turns_of_a_hundred(rt: HostRuntime) {
    assert!(rt; are_said_in_turns(&rt).unwrap_or(false));
}

/// A list of so many merchants, of which the vault has none.
fn shops(alloc: Global, merchants: u64) -> Result<String, AllocError> {
    let mut text = String::new(alloc);
    for merchant in 0..merchants {
        let lines = format!(in alloc; "[m{merchant}]\nsingle = 60\nmulti = 0\n")?;
        text.push_str(lines.as_str())?;
    }
    text.push_str(NONE)?;
    Ok(text)
}

/// Whether this is said of a list of so many merchants, that two looks saw, beside the one of the vault.
fn is_said_of(rt: &HostRuntime, merchants: u64, wanted: &str) -> Result<bool, AllocError> {
    let text = shops(rt.alloc(), merchants)?;
    let text = text.as_str();
    let mut output = Vec::new(rt.alloc());
    said::<Merchants>(rt, SHOPS, &[text, text], &mut output);
    Ok(output.as_slice() == wanted.as_bytes())
}

#[test]
fn no_merchant_is_set_where_there_would_be_too_many(rt: HostRuntime) {
    assert!(rt; is_said_of(&rt, 9_999, "merchants set 100 at 1000\n").unwrap_or(false));
    assert!(rt; is_said_of(&rt, 10_000, "merchants refused 18 at 1000\n").unwrap_or(false));
}

/// The clock's second at the start, and one too far ahead at the look behind that.
const JUMPED: [(Option<u64>, u64); 2] = [(Some(1000), 0), (Some(1301), 0)];

/// Whether such a jump ends a service to which nobody connects.
fn is_ended_by_a_jump(rt: &HostRuntime) -> bool {
    let alloc = rt.alloc();
    let mut vault = shop(alloc, SHOP);
    if vault.broken() {
        return false;
    }
    let clock = TestClock::telling(&JUMPED);
    let time = ClockTime::new(&clock);
    let desk = TestDesk::new(alloc, &[]);
    let office = RightsList::new(alloc, &desk, "rights.toml");
    let mut kept = Remembered::new(FIRST.as_bytes());
    let mut peers = NobodyWaits { left: Cell::new(9) };
    let mut generator = StdRng::seed_from_u64(7);
    let mut output = Vec::new(alloc);
    let mut writer = Watched::new(TestWriter::Whole(&mut output));
    let ended = serve_turns(
        alloc,
        &time,
        &mut generator,
        &mut peers,
        &office,
        &mut kept,
        1,
        &mut vault,
        &mut writer,
    );
    ended == Err(ListenFault::Source)
}

#[test]
fn a_clock_that_jumps_while_nobody_connects_ends_the_service(rt: HostRuntime) {
    assert!(rt; is_ended_by_a_jump(&rt));
}
