//! A source over clocks and generators of the tests' own.
ghost use Rattle.std.specs.Prelude.{◌≡◌, ◌+◌};

use super::clocks::TestClock;
use rand::SeedableRng;
use rand::rngs::StdRng;
use std::alloc::Global;
use std::io;
use std::time::Duration;
use vault_core::moment::Moment;
use vault_core::source::Source;
use vault_listen::live::LiveSource;
use vault_listen::time::{ClockTime, Questions, Timekeeper};
use vault_pan::draw::{Digits, candidate};
use vault_pan::pan::Pan;
use vault_pan::token::Token;

/// The moment and the first candidate of a source's next pair, where it gives one.
fn next_of<S: Source>(source: &mut S) -> Option<(u64, Option<Token>)> {
    let (now, digits) = source.next().ok()?;
    let number = Pan::read(b"4111111111111111").ok()?;
    Some((now.seconds(), candidate(&digits, 0, &number)))
}

/// Whether a source of two pairs gives the clock's second twice with other digits, and then none.
fn gives_two<S: Source>(source: &mut S) -> bool {
    let two = source.left() == 2;
    let (first, second) = (next_of(source), next_of(source));
    let seconds = first.map(|pair| pair.0) == Some(1000) && second.map(|pair| pair.0) == Some(1000);
    let is_calm = !source.refused() && source.left() == 0;
    two && seconds && first != second && is_calm && next_of(source).is_none() && source.refused()
}

#[test]
fn it_gives_the_clocks_second_so_many_times(rt: HostRuntime) {
    let clock = TestClock::at(1000);
    let time = ClockTime::new(&clock);
    let mut source = LiveSource::new(rt.alloc(), time.questions(), StdRng::seed_from_u64(7), 2);
    assert!(rt; gives_two(&mut source));
}

/// The time in memory, which is a second later with each question of a source.
#[derive(Drop)]
struct CountedTime {
    first: u64,
}

/// The questions of one source to it. Contracts see which moment each of them tells, and how many were told.
#[derive(Drop)]
struct CountedQuestions {
    first: u64,
    told: u64,
}

impl Timekeeper for CountedTime {
    type Questions = CountedQuestions;

    ghost tells = { λ s turn now. now ≡ s.first + turn };

    fn questions(&self) -> CountedQuestions {
        CountedQuestions {
            first: self.first,
            told: 0,
        }
    }

    fn has_jumped(&self) -> bool {
        false
    }
}

impl Questions for CountedQuestions {
    ghost tells = { λ s turn now. now ≡ s.first + turn };

    ghost told = { λ s. s.told };

    fn moment(&mut self) -> Option<Moment> {
        let now = Moment::new(self.first.checked_add(self.told)?).ok()?;
        self.told = self.told.checked_add(1)?;
        Some(now)
    }

    fn passed(&self) -> io::Result<Duration> {
        Ok(Duration::from_secs(self.told))
    }
}

/// The moments of a source's first two pairs, and of the first of another over the same time.
fn counted(alloc: Global) -> Option<(u64, u64, u64)> {
    let time = CountedTime { first: 1000 };
    let mut source = LiveSource::new(alloc, time.questions(), StdRng::seed_from_u64(7), 2);
    let mut other = LiveSource::new(alloc, time.questions(), StdRng::seed_from_u64(7), 2);
    let first = next_of(&mut source)?.0;
    let second = next_of(&mut source)?.0;
    Some((first, second, next_of(&mut other)?.0))
}

#[test]
fn each_pair_has_the_moment_of_its_own_question(rt: HostRuntime) {
    assert!(rt; counted(rt.alloc()) == Some((1000, 1001, 1000)));
}

/// Whether a source over this clock gives no pair and says so.
fn gives_none(alloc: Global, clock: &TestClock<'_>) -> bool {
    let time = ClockTime::new(clock);
    let mut source = LiveSource::new(alloc, time.questions(), StdRng::seed_from_u64(7), 2);
    next_of(&mut source).is_none() && source.refused()
}

#[test]
fn a_clock_outside_the_moments_gives_no_pair(rt: HostRuntime) {
    assert!(rt; gives_none(rt.alloc(), &TestClock::unread()));
    assert!(rt; gives_none(rt.alloc(), &TestClock::at(253402300800)));
    assert!(rt; !gives_none(rt.alloc(), &TestClock::at(253402300799)));
}

/// The second pair of a source with this moment and with digits that are all this one, where there are some.
fn given(
    alloc: Global,
    clock: &TestClock<'_>,
    seconds: Option<u64>,
    digit: Option<u8>,
) -> Option<(u64, Option<Token>)> {
    let moment = seconds.and_then(|seconds| Moment::new(seconds).ok());
    let digits = digit.and_then(|digit| Digits::new(&[digit; 300]));
    let generator = StdRng::seed_from_u64(7);
    let time = ClockTime::new(clock);
    let mut source = LiveSource::fixed(alloc, time.questions(), generator, 2, moment, digits);
    let _ = next_of(&mut source)?;
    next_of(&mut source)
}

/// Whether what is fixed stands in the second pair, and what isn't is the clock's and the generator's.
fn is_fixed(alloc: Global) -> bool {
    let token = Token::read(b"0000000000001111").ok();
    let clock = TestClock::at(1000);
    let unread = TestClock::unread();
    given(alloc, &clock, Some(7), Some(0)) == Some((7, token))
        && given(alloc, &clock, None, Some(0)) == Some((1000, token))
        && given(alloc, &unread, Some(7), None).is_some_and(|pair| pair.0 == 7 && pair.1 != token)
}

#[test]
fn what_is_fixed_stands_in_each_pair(rt: HostRuntime) {
    assert!(rt; is_fixed(rt.alloc()));
}

/// A clock that is ahead by 300 seconds of the 40 that passed, or behind by 300 of 900: it hasn't jumped.
const WITHIN: [&[(Option<u64>, u64)]; 2] = [
    &[(Some(1000), 0), (Some(1340), 40)],
    &[(Some(1000), 0), (Some(1600), 900)],
];

/// A clock that is ahead by 301 seconds, or behind by 301.
const BEYOND: [&[(Option<u64>, u64)]; 2] = [
    &[(Some(1000), 0), (Some(1341), 40)],
    &[(Some(1000), 0), (Some(1599), 900)],
];

/// What is told by a clock that tells these: a moment, whether it has jumped, and a moment again.
fn asked(told: &[(Option<u64>, u64)]) -> (Option<u64>, bool, Option<u64>) {
    let clock = TestClock::telling(told);
    let time = ClockTime::new(&clock);
    let mut questions = time.questions();
    let first = questions.moment().map(|moment| moment.seconds());
    let jumped = time.has_jumped();
    let second = questions.moment().map(|moment| moment.seconds());
    (first, jumped, second)
}

#[test]
fn a_clock_may_differ_by_300_seconds_and_no_more(rt: HostRuntime) {
    for told in WITHIN {
        let second = told.last().and_then(|reading| reading.0);
        assert!(rt; asked(told) == (second, false, second));
    }
    for told in BEYOND {
        assert!(rt; asked(told) == (None, true, None));
    }
}

#[test]
fn a_clock_that_is_set_right_again_tells_the_moment(rt: HostRuntime) {
    let told = [
        (Some(1000), 0),
        (Some(2000), 1),
        (Some(1002), 2),
        (Some(1003), 3),
    ];
    assert!(rt; asked(&told) == (None, false, Some(1003)));
}

#[test]
fn a_clock_that_cant_be_read_for_once_has_not_jumped(rt: HostRuntime) {
    let told = [(Some(1000), 0), (None, 0), (None, 0), (Some(1000), 0)];
    assert!(rt; asked(&told) == (None, false, Some(1000)));
}

#[test]
fn a_clock_that_cant_be_read_at_the_start_tells_no_moment(rt: HostRuntime) {
    let told = [(None, 0), (Some(1000), 0)];
    assert!(rt; asked(&told) == (None, true, None));
}
