//! The office of a service that follows lists: one of merchants, which are swept too, and one of rights.
ghost use Rattle.std.specs.Prelude.{◌≡◌, Err, None, Ok, false, true};
ghost use Rattle.vault_store.specs.Applied.{is_broken};
ghost use Rattle.vault_engine.specs.Passing.{passage};
ghost use Rattle.vault_listen.specs.declared.fault.ListenFault.TheVariants.{Store};
ghost use Rattle.vault_live.specs.Following.{IsFresh};
ghost use Rattle.vault_live.specs.Lists.{AsksGrants, AsksRest, AsksSets, AsksSweeps, RemembersBoth};
ghost use Rattle.vault_live.specs.Turns.{Attends};
ghost use Rattle.vault_live.specs.declared.news.News.TheVariants.{Nothing};
ghost use Rattle.vault_store.specs.LookUps.{WasHonest};

use crate::desk::Desk;
use crate::following::Following;
use crate::merchants::Merchants;
use crate::news::News;
use crate::office::Office;
use crate::remembered::Remembered;
use crate::rights::Rights;
use crate::round::Round;
use crate::sweeps::{next_sweeper, sweep};
use std::alloc::Global;
use vault_changes::changes::ListedRight;
use vault_listen::fault::ListenFault;
use vault_listen::time::{Questions, Timekeeper};
use vault_merchants::read::ListedMerchant;
use vault_store::tables::Tables;
use vault_store::vault::Vault;

/// What is remembered of the lists of a service.
#[derive(Drop)]
pub struct ListsKept<'x> {
    pub(crate) merchants: Remembered<'x, ListedMerchant>,
    pub(crate) rights: Remembered<'x, ListedRight>,
    /// How far the round of sweeps has come.
    pub(crate) round: Round,
}

impl<'x> ListsKept<'x> {
    /// Nothing was looked at or swept yet, and these are the texts of the lists.
    pub fn new(merchants: &'x [u8], rights: &'x [u8]) -> ListsKept<'x>
        ensures merchants { IsFresh result.merchants merchants.now }
        ensures rights { IsFresh result.rights rights.now }
    {
        ListsKept {
            merchants: Remembered::new(merchants),
            rights: Remembered::new(rights),
            round: Round::new(),
        }
    }
}

/// A list of merchants that is followed, and its rows as the service begins.
#[derive(Drop)]
pub struct Shops<'x, D> {
    list: Following<'x, D, Merchants>,
    began: &'x [ListedMerchant],
}

impl<'x, D: Desk> Shops<'x, D> {
    /// Follows the list in the file at this path, whose rows these are as the service begins.
    pub fn new(
        alloc: Global,
        desk: &'x D,
        path: &'x str,
        began: &'x [ListedMerchant],
    ) -> Shops<'x, D>
        ensures desk { result.list.desk.now ≡ desk.now }
        ensures path { result.list.path.now ≡ path.now }
        ensures began { result.began.now ≡ began.now }
    {
        Shops {
            list: Following::new(alloc, desk, path),
            began,
        }
    }
}

/// The office that follows the lists of a service, where there are such lists: first the one of merchants, and
/// then the one of rights. Where neither has anything to do or to say, the merchants are swept, each by the
/// caller that the list in force names, a hundred tokens at a time.
#[derive(Drop)]
pub struct ListsOffice<'x, D> {
    pub shops: Option<Shops<'x, D>>,
    pub rights: Option<Following<'x, D, Rights>>,
}

impl<'x, D: Desk> ListsOffice<'x, D> {
    /// With a new list of merchants a new round of sweeps begins.
    fn renew(&self, kept: &mut ListsKept<'x>)
        // what is remembered is of these files
        requires { RemembersBoth D.says self.now kept.old }
        // what is remembered is of these files still
        ensures { RemembersBoth D.says self.now kept.new }
    {
        if !kept.merchants.is_new {
            return;
        }
        kept.merchants.is_new = false;
        kept.round = Round::new();
    }

    /// Follows the list of merchants. With a new one, and once merchants are set, a new round of sweeps begins;
    /// and what was refused for want of a merchant is tried again.
    fn set<K: Timekeeper, T: Tables>(
        &self,
        kept: &mut ListsKept<'x>,
        time: &K,
        vault: &mut Vault<T>,
    ) -> Result<News, ListenFault>
        // what is remembered is of these files
        requires remembers { RemembersBoth D.says self.now kept.old }
        requires unbroken { is_broken vault.old ≡ false }
        // the first of the changes are carried out, this is said of them, and the vault that they leave is
        // kept; with Store a crash decides on one more
        ensures attends { Attends (AsksSets D.says self.now (K.tells time.now))
            (passage T.Tables vault.old vault.new) result }
        // the vault is broken after Store only
        ensures broken { is_broken vault.new ≡ true → result ≡ Err Store }
        // without a list nothing comes
        ensures calm { self.now.shops ≡ None → result ≡ Ok Nothing }
        // what is remembered is of these files still
        ensures remembers { RemembersBoth D.says self.now kept.new }
        ensures disk_honest { WasHonest T.Tables vault.old vault.new }
    {
        let Some(shops) = &self.shops else {
            return Ok(News::Nothing);
        };
        let news = match shops.list.attend(&mut kept.merchants, time, vault) {
            Ok(news) => news,
            Err(fault) => return Err(fault),
        };
        self.renew(kept);
        if !matches!(news, News::Set(..)) {
            return Ok(news);
        }
        self.again(kept);
        Ok(news)
    }

    /// Follows the list of rights. Once rights are changed, a new round of sweeps begins.
    fn give<K: Timekeeper, T: Tables>(
        &self,
        kept: &mut ListsKept<'x>,
        time: &K,
        vault: &mut Vault<T>,
    ) -> Result<News, ListenFault>
        // what is remembered is of these files
        requires remembers { RemembersBoth D.says self.now kept.old }
        requires unbroken { is_broken vault.old ≡ false }
        // the first of the changes are carried out, this is said of them, and the vault that they leave is
        // kept; with Store a crash decides on one more
        ensures attends { Attends (AsksGrants D.says self.now (K.tells time.now))
            (passage T.Tables vault.old vault.new) result }
        // the vault is broken after Store only
        ensures broken { is_broken vault.new ≡ true → result ≡ Err Store }
        // without a list nothing comes
        ensures calm { self.now.rights ≡ None → result ≡ Ok Nothing }
        // what is remembered is of these files still
        ensures remembers { RemembersBoth D.says self.now kept.new }
        ensures disk_honest { WasHonest T.Tables vault.old vault.new }
    {
        let Some(rights) = &self.rights else {
            return Ok(News::Nothing);
        };
        let news = match rights.attend(&mut kept.rights, time, vault) {
            Ok(news) => news,
            Err(fault) => return Err(fault),
        };
        if !matches!(news, News::Changed(..)) {
            return Ok(news);
        }
        kept.round = Round::new();
        Ok(news)
    }

    /// Purges the first dead tokens of the merchant that is next.
    fn purge<K: Timekeeper, T: Tables>(
        &self,
        kept: &mut ListsKept<'x>,
        time: &K,
        vault: &mut Vault<T>,
    ) -> Result<News, ListenFault>
        // what is remembered is of these files
        requires remembers { RemembersBoth D.says self.now kept.old }
        requires unbroken { is_broken vault.old ≡ false }
        // the first of the purges are carried out, this is said of them, and the vault that they leave is
        // kept; with Store a crash decides on one more
        ensures attends { Attends (AsksSweeps D.says self.now (K.tells time.now))
            (passage T.Tables vault.old vault.new) result }
        // the vault is broken after Store only
        ensures broken { is_broken vault.new ≡ true → result ≡ Err Store }
        // without a list nothing comes
        ensures calm { self.now.shops ≡ None → result ≡ Ok Nothing }
        // what is remembered is of these files still
        ensures remembers { RemembersBoth D.says self.now kept.new }
        ensures disk_honest { WasHonest T.Tables vault.old vault.new }
    {
        let Some(shops) = &self.shops else {
            return Ok(News::Nothing);
        };
        let mut questions = time.questions();
        let Ok(passed) = questions.passed() else {
            return Ok(News::Nothing);
        };
        let taken = &kept.merchants.rows;
        let Some(sweeper) = next_sweeper(shops.began, taken, &mut kept.round, passed) else {
            return Ok(News::Nothing);
        };
        let Some(now) = questions.moment() else {
            return Err(ListenFault::Source);
        };
        sweep(&mut kept.round, sweeper, passed, now, vault)
    }
}

impl<'x, D: Desk> ListsOffice<'x, D> {
    /// Follows the list of rights, and where that has nothing to do or to say, sweeps.
    fn rest<K: Timekeeper, T: Tables>(
        &self,
        kept: &mut ListsKept<'x>,
        time: &K,
        vault: &mut Vault<T>,
    ) -> Result<News, ListenFault>
        // what is remembered is of these files
        requires remembers { RemembersBoth D.says self.now kept.old }
        requires unbroken { is_broken vault.old ≡ false }
        // the first of the changes or of the purges are carried out, this is said of them, and the vault that
        // they leave is kept; with Store a crash decides on one more
        ensures attends { Attends (AsksRest D.says self.now (K.tells time.now))
            (passage T.Tables vault.old vault.new) result }
        // the vault is broken after Store only
        ensures broken { is_broken vault.new ≡ true → result ≡ Err Store }
        // without a list nothing comes
        ensures calm { self.now.shops ≡ None → self.now.rights ≡ None → result ≡ Ok Nothing }
        // what is remembered is of these files still
        ensures remembers { RemembersBoth D.says self.now kept.new }
        ensures disk_honest { WasHonest T.Tables vault.old vault.new }
    {
        let news = match self.give(kept, time, vault) {
            Ok(news) => news,
            Err(fault) => return Err(fault),
        };
        match news {
            News::Nothing => self.purge(kept, time, vault),
            _ => Ok(news),
        }
    }
}

/// Between two connections the changes of lists that are new and good are carried out, and dead tokens purged.
impl<'x, D: Desk> Office for ListsOffice<'x, D> {
    ghost use Rattle.std.specs.Prelude.{◌⊎◌, ◌||◌, is_some};
    ghost use Rattle.vault_live.specs.Lists.{AsksRest, AsksSets, RemembersBoth};

    type Kept = ListsKept<'x>;

    ghost asks = { λ office tells V cs.
        AsksSets D.says office tells V cs ⊎ AsksRest D.says office tells V cs };

    ghost remembers = { λ office kept. RemembersBoth D.says office kept };

    ghost acts = { λ office. is_some office.shops || is_some office.rights };

    fn attend<K: Timekeeper, T: Tables>(
        &self,
        kept: &mut ListsKept<'x>,
        time: &K,
        vault: &mut Vault<T>,
    ) -> Result<News, ListenFault> {
        let news = match self.set(kept, time, vault) {
            Ok(news) => news,
            Err(fault) => return Err(fault),
        };
        match news {
            News::Nothing => self.rest(kept, time, vault),
            _ => Ok(news),
        }
    }

    fn again(&self, kept: &mut ListsKept<'x>) {
        if let Some(rights) = &self.rights {
            rights.again(&mut kept.rights);
        }
        kept.round = Round::new();
    }
}
