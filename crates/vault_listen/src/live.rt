//! A source of moments that are told and of digits that are drawn.
ghost use Rattle.std.specs.Prelude.{◌≡◌, ◌+◌, Some, None, true, false, IfSome, OnSome, length};

use crate::time::Questions;
use rand::RngExt;
use rand_core::Rng;
use std::alloc::Global;
use std::time::Duration;
use vault_core::moment::Moment;
use vault_core::source::{Source, SourceFault};
use vault_pan::draw::{DRAWN_DIGITS, Digits};

/// Gives the time and 300 digits that a generator draws, a number of times, and keeps the pairs that it gave.
/// The moment, the digits or both may be fixed: then each pair has them. It may have an end, from which on it
/// gives none. Once it had none to give it gives no more.
#[derive(Drop)]
pub struct LiveSource<Q, G> {
    questions: Q,
    generator: G,
    moment: Option<Moment>,
    digits: Option<Digits>,
    end: Option<Duration>,
    given: Vec<(Moment, Digits)>,
    left: u64,
    refused: bool,
}

impl<Q: Questions, G: Rng> LiveSource<Q, G> {
    ghost use Rattle.vault_listen.specs.Live.{Fixes, IsFresh, pairs_of};

    /// A source that gives this many pairs. It takes no memory yet.
    pub fn new(alloc: Global, questions: Q, generator: G, times: u64) -> LiveSource<Q, G>
        // it gave no pair yet, gives so many, and never refused
        ensures fresh { IsFresh result times }
        // it has these questions, and no moment and no digits are fixed
        ensures free { Fixes result questions None None }
    {
        LiveSource::fixed(alloc, questions, generator, times, None, None)
    }

    /// A source that gives this many pairs, with this moment and these digits where there are some.
    pub fn fixed(
        alloc: Global,
        questions: Q,
        generator: G,
        times: u64,
        moment: Option<Moment>,
        digits: Option<Digits>,
    ) -> LiveSource<Q, G>
        // it gave no pair yet, gives so many, and never refused
        ensures fresh { IsFresh result times }
        // its questions, and what is fixed of its pairs, are what is handed in
        ensures fixed { Fixes result questions moment digits }
    {
        LiveSource {
            questions,
            generator,
            moment,
            digits,
            end: None,
            given: Vec::new(alloc),
            left: times,
            refused: false,
        }
    }

    /// A source that gives this many pairs, and none from this moment of the monotonic clock on, where there
    /// is one.
    pub fn ending(
        alloc: Global,
        questions: Q,
        generator: G,
        times: u64,
        end: Option<Duration>,
    ) -> LiveSource<Q, G>
        // it gave no pair yet, gives so many, and never refused
        ensures fresh { IsFresh result times }
        // it has these questions, and no moment and no digits are fixed
        ensures free { Fixes result questions None None }
    {
        LiveSource {
            questions,
            generator,
            moment: None,
            digits: None,
            end,
            given: Vec::new(alloc),
            left: times,
            refused: false,
        }
    }

    // Whether it has come to its end, or can't tell.
    fn is_over(&self) -> bool {
        match self.end {
            Some(end) => match self.questions.passed() {
                Ok(now) => now >= end,
                Err(_) => true,
            },
            None => false,
        }
    }

    // The moment of the next pair.
    fn moment(&mut self) -> Option<Moment>
        // where a moment is fixed, it is that one
        ensures fixed { (now : _) → self.old.moment ≡ Some now → result ≡ Some now }
        // where none is fixed, a moment that is given was told at the next question
        ensures told { self.old.moment ≡ None
            → IfSome result (Q.tells self.old.questions (Q.told self.old.questions)) }
        // and it is one more that was told, and no more than one
        ensures counts { self.old.moment ≡ None
            → OnSome result (Q.told self.new.questions ≡ Q.told self.old.questions + 1) }
        // what may be told from now on might have been before
        ensures tells_so { (turn now : _) → Q.tells self.new.questions turn now
            → Q.tells self.old.questions turn now }
        // nothing changes but the questions
        ensures same { self.new ≡ record self.old { questions = self.new.questions } }
    {
        match self.moment {
            Some(moment) => Some(moment),
            None => self.questions.moment(),
        }
    }

    // The digits of the next pair.
    fn digits(&mut self) -> Digits
        // where digits are fixed, they are those
        ensures fixed { (drawn : _) → self.old.digits ≡ Some drawn → result ≡ drawn }
        // nothing changes but the generator
        ensures same { self.new ≡ record self.old { generator = self.new.generator } }
    {
        match self.digits {
            Some(digits) => digits,
            None => drawn(&mut self.generator),
        }
    }
}

impl<Q: Questions, G: Rng> Source for LiveSource<Q, G> {
    ghost use Rattle.vault_listen.specs.Live.{Continues, pairs_of};
    ghost use Rattle.std.proofs.Common.{refl, ◌∙◌};

    ghost given = { pairs_of };

    ghost count_left = { λ s. s.left };

    ghost has_refused = { λ s. s.refused };

    ghost precedes = { Continues Q.tells Q.told };

    fn next(&mut self) -> Result<(Moment, Digits), SourceFault> {
        if self.refused || self.left == 0 || self.is_over() {
            self.refused = true;
            return Err(SourceFault);
        }
        let Some(now) = self.moment() else {
            self.refused = true;
            return Err(SourceFault);
        };
        let digits = self.digits();
        if self.given.push((now, digits)).is_err() {
            self.refused = true;
            return Err(SourceFault);
        }
        self.left -= 1;
        Ok((now, digits))
    }

    fn left(&self) -> u64 {
        self.left
    }

    fn refused(&self) -> bool {
        self.refused
    }

    ghost reflexive = { λ s. record { goes_on = λ q m d from. from; counted = refl } };

    ghost transitive = { λ r s t p q. record {
      goes_on = λ k m d from. q.goes_on k m d (p.goes_on k m d from);
      counted = q.counted ∙ p.counted;
    } };
}

/// How many digits a drawn number gives.
const AT_ONCE: usize = 9;

/// Draws digits, each of the ten as likely as the others at each place: nine at once are those of a number
/// below a thousand million, since a number that is drawn costs more than its digits.
pub fn drawn<G: Rng>(generator: &mut G) -> Digits {
    let mut values = [0u8; DRAWN_DIGITS];
    let mut number = 0;
    let mut left = 0;
    for value in values.iter_mut() {
        if left == 0 {
            number = generator.random_range(0..1_000_000_000u32);
            left = AT_ONCE;
        }
        *value = (number % 10) as u8;
        number /= 10;
        left -= 1;
    }
    match Digits::new(&values) {
        Some(digits) => digits,
        None => unreachable!(),
    }
}
