//! The office that follows a file of a list.
ghost use Rattle.std.specs.Prelude.{◌≡◌, ◌⊎◌, ◌+◌, Err, IfOk, IfSome, false, if◌then◌else◌, true};
ghost use Rattle.std.specs.Bool.{Decides};
ghost use Rattle.vault_store.specs.Applied.{is_broken};
ghost use Rattle.vault_engine.specs.Passing.{passage};
ghost use Rattle.vault_listen.specs.declared.fault.ListenFault.TheVariants.{Store};
ghost use Rattle.vault_live.specs.Carrying.{AsksAt, IsDoneOrRefused};
ghost use Rattle.vault_live.specs.Following.{IsPaused, LooksOnce, Remembers};
ghost use Rattle.vault_live.specs.News.{wants_merchant};
ghost use Rattle.vault_live.specs.Turns.{Attends};
ghost use Rattle.vault_store.specs.LookUps.{WasHonest};

use crate::carrying::carry_list;
use crate::desk::Desk;
use crate::kind::Kind;
use crate::listed::{Taken, take_list};
use crate::news::News;
use crate::office::Office;
use crate::remembered::{Left, Remembered};
use std::alloc::Global;
use std::marker::PhantomData;
use std::time::Duration;
use vault_core::moment::Moment;
use vault_listen::fault::ListenFault;
use vault_listen::time::{Questions, Timekeeper};
use vault_refusal::refusal::Refusal;
use vault_store::tables::Tables;
use vault_store::vault::Vault;

/// How many nanoseconds pass between two looks at least: half a second.
const PAUSE: u128 = 500_000_000;

/// Whether the next look is due: the first one, and each that comes half a second after the one before it.
fn is_due(last: Option<Duration>, now: Duration) -> bool
    ensures { Decides result (IfSome last (λ before. IsPaused before now)) }
{
    match last {
        Some(last) => now.saturating_sub(last).as_nanos() >= PAUSE,
        None => true,
    }
}

/// What is left behind changes of which this is said, and no others are to be done: nothing; or all, where they
/// are refused for want of a merchant.
fn left_behind(news: &News) -> Left
    ensures { result ≡ (if wants_merchant news.now then Left.Merchant else Left.Nothing) }
{
    match news {
        News::Refused(_, number, _) if *number == Refusal::NoMerchant.number() => Left::Merchant,
        _ => Left::Nothing,
    }
}

/// What there is to do, or to say.
#[derive(Clone, Copy, PartialEq, Eq, Drop)]
pub(crate) enum Found {
    /// Nothing.
    Nothing,
    /// The file can't be read, and at the look before it could.
    Unread,
    /// A new text isn't whole.
    Unfinished,
    /// A new text is no good list, and is refused by this number.
    Faulty(u8),
    /// There are rows whose changes aren't all done.
    Rows,
}

/// Follows a file of a list. A text that the file has at two looks in a row, and that is whole and a good
/// list, is carried out.
#[derive(Drop)]
pub struct Following<'x, D, L> {
    alloc: Global,
    desk: &'x D,
    path: &'x str,
    kind: PhantomData<L>,
}

impl<'x, D: Desk, L: Kind> Following<'x, D, L> {
    /// Follows the file at this path.
    pub fn new(alloc: Global, desk: &'x D, path: &'x str) -> Following<'x, D, L>
        ensures desk { result.desk.now ≡ desk.now }
        ensures path { result.path.now ≡ path.now }
    {
        Following {
            alloc,
            desk,
            path,
            kind: PhantomData,
        }
    }

    /// Looks at the file. Rows of a text that is settled, and new, are kept.
    fn look(&self, kept: &mut Remembered<'x, L::Row>) -> Found
        // what is remembered is of this file
        requires { Remembers L.names (D.says self.now.desk.now self.now.path.now) kept.old }
        // what is remembered is of this file still
        ensures remembers { Remembers L.names (D.says self.now.desk.now self.now.path.now) kept.new }
        // it is one look, where there can be one more
        ensures counts { (kept.new.look ≡ kept.old.look) ⊎ (kept.new.look ≡ kept.old.look + 1) }
        ensures last { kept.new.last ≡ kept.old.last }
    {
        let look = kept.look;
        let Some(next) = look.checked_add(1) else {
            return Found::Nothing;
        };
        kept.look = next;
        let Ok(text) = self.desk.read(self.path, look) else {
            kept.list.lose();
            if kept.unread {
                return Found::Nothing;
            }
            kept.unread = true;
            return Found::Unread;
        };
        kept.unread = false;
        match take_list::<L>(self.alloc, &mut kept.list, text) {
            Taken::Nothing => Found::Nothing,
            Taken::Unfinished => Found::Unfinished,
            Taken::Faulty(number) => Found::Faulty(number),
            Taken::Good(rows) => {
                kept.rows = Some(rows);
                kept.left = Left::Changes;
                kept.is_new = true;
                Found::Rows
            }
        }
    }

    /// What there is to do now: the changes that are left; else what a look at the file finds, where it is due.
    pub(crate) fn next<Q: Questions>(
        &self,
        kept: &mut Remembered<'x, L::Row>,
        questions: &Q,
    ) -> Found
        // what is remembered is of this file
        requires { Remembers L.names (D.says self.now.desk.now self.now.path.now) kept.old }
        // what is remembered is of this file still
        ensures remembers { Remembers L.names (D.says self.now.desk.now self.now.path.now) kept.new }
        // no look is made, or one, half a second or more after the one before it
        ensures paused { LooksOnce kept.old kept.new }
    {
        if kept.left == Left::Changes {
            return Found::Rows;
        }
        let Ok(now) = questions.passed() else {
            return Found::Nothing;
        };
        if !is_due(kept.last, now) {
            return Found::Nothing;
        }
        kept.last = Some(now);
        self.look(kept)
    }

    /// Carries out the first changes of the rows that are kept. Where the vault lacks a merchant of them, they
    /// wait to be tried again.
    ///
    /// 63 Store: the store failed.
    fn carry<T: Tables>(
        &self,
        kept: &mut Remembered<'x, L::Row>,
        now: Moment,
        vault: &mut Vault<T>,
    ) -> Result<News, ListenFault>
        // what is remembered is of this file
        requires remembers { Remembers L.names (D.says self.now.desk.now self.now.path.now) kept.old }
        requires unbroken { is_broken vault.old ≡ false }
        // the first of the changes are carried out, this is said of them, and the vault that they leave is
        // kept; with Store a crash decides on one more
        ensures attends { Attends (AsksAt L.names L.wants (D.says self.now.desk.now self.now.path.now) now)
            (passage T.Tables vault.old vault.new) result }
        // the vault is broken after Store only
        ensures broken { is_broken vault.new ≡ true → result ≡ Err Store }
        // what is remembered is of this file still
        ensures remembers { Remembers L.names (D.says self.now.desk.now self.now.path.now) kept.new }
        // changes that are refused for want of a merchant aren't forgotten
        ensures waits { IfOk result (λ news. wants_merchant news ≡ true
            → (kept.new.left ≡ Left.Merchant) ⊎ (kept.new.left ≡ kept.old.left)) }
        // where another number of them is left, all that the rows ask for is done by the vault that was held;
        // or none is, and the list is said to be refused
        ensures settled { IfOk result (λ news. (kept.new.left ≡ kept.old.left) ⊎ IfSome kept.old.rows (λ rows.
            IsDoneOrRefused L.about L.wants now rows.items (passage T.Tables vault.old vault.new) news)) }
        ensures disk_honest { WasHonest T.Tables vault.old vault.new }
    {
        let Some(rows) = &kept.rows else {
            return Ok(News::Nothing);
        };
        match carry_list::<L, T>(self.alloc, vault, rows.as_slice(), now) {
            Ok((news, true)) => Ok(news),
            Ok((news, false)) => {
                kept.left = left_behind(&news);
                Ok(news)
            }
            Err(fault) => Err(fault),
        }
    }
}

/// Between two connections the changes of a list that is new and good are carried out.
impl<'x, D: Desk, L: Kind> Office for Following<'x, D, L> {
    ghost use Rattle.std.specs.Prelude.{true};
    ghost use Rattle.vault_live.specs.Following.{Asks, Remembers};

    type Kept = Remembered<'x, L::Row>;

    ghost asks = { λ office tells V cs. Asks L.names L.wants (D.says office.desk.now office.path.now) tells V
        cs };

    ghost remembers = { λ office kept. Remembers L.names (D.says office.desk.now office.path.now) kept };

    ghost acts = { λ _. true };

    fn attend<K: Timekeeper, T: Tables>(
        &self,
        kept: &mut Remembered<'x, L::Row>,
        time: &K,
        vault: &mut Vault<T>,
    ) -> Result<News, ListenFault> {
        let mut questions = time.questions();
        let found = self.next(kept, &questions);
        if matches!(found, Found::Nothing) {
            return Ok(News::Nothing);
        }
        let Some(now) = questions.moment() else {
            return Err(ListenFault::Source);
        };
        match found {
            Found::Nothing => Ok(News::Nothing),
            Found::Unread => Ok(News::Unread(L::subject(), now)),
            Found::Unfinished => Ok(News::Unfinished(L::subject(), now)),
            Found::Faulty(number) => Ok(News::Refused(L::subject(), number, now)),
            Found::Rows => self.carry(kept, now, vault),
        }
    }

    fn again(&self, kept: &mut Remembered<'x, L::Row>) {
        if kept.left == Left::Merchant {
            kept.left = Left::Changes;
        }
    }
}
