//! Sweeps of the merchants of a list.
ghost use Rattle.std.specs.Prelude.{◌≡◌, ◌⊎◌, Err, IfSome, false, true};
ghost use Rattle.vault_store.specs.Applied.{is_broken};
ghost use Rattle.vault_engine.specs.Passing.{passage};
ghost use Rattle.vault_listen.specs.declared.fault.ListenFault.TheVariants.{Store};
ghost use Rattle.vault_live.specs.News.{is_idle};
ghost use Rattle.vault_live.specs.Sweeping.{AsksFirst, NamesSweeper, rows_in};
ghost use Rattle.vault_live.specs.Turns.{Attends};
ghost use Rattle.vault_live.specs.declared.news.News.TheVariants.{Nothing};
ghost use Rattle.vault_store.specs.LookUps.{WasHonest};

use crate::news::News;
use crate::round::Round;
use crate::sweeping::{Sweeper, sweep_first};
use std::time::Duration;
use vault_core::moment::Moment;
use vault_listen::fault::ListenFault;
use vault_merchants::read::ListedMerchant;
use vault_store::tables::Tables;
use vault_store::vault::Vault;

/// The first merchant from a row on that is swept, with its row and the caller by whom it is.
fn sweeper_from(rows: &[ListedMerchant], from: usize) -> Option<(usize, Sweeper)>
    // a row names it
    ensures { IfSome result (λ it. NamesSweeper rows.now it.1) }
{
    for at in from..rows.len() {
        let row = &rows[at];
        if let Some(caller) = row.4 {
            let merchant = row.0;
            return Some((at, Sweeper { merchant, caller }));
        }
    }
    None
}

/// What is said of a merchant, where such things are said; of one that is swept always.
fn spoken(news: News, says: bool) -> News
    // it is said, or it says that nothing was done, and nothing is said
    ensures { (result ≡ news) ⊎ (result ≡ Nothing) × (is_idle news ≡ true) }
{
    match news {
        News::Unswept(..) if !says => News::Nothing,
        News::Waits(..) if !says => News::Nothing,
        _ => news,
    }
}

/// The merchant that is looked at now, with its row; none, where the round pauses or ends. The rows are those
/// with which the service began, until others were taken.
pub(crate) fn next_sweeper(
    began: &[ListedMerchant],
    taken: &Option<Vec<ListedMerchant>>,
    round: &mut Round,
    passed: Duration,
) -> Option<(usize, Sweeper)>
    // the list in force names it
    ensures { IfSome result (λ it. NamesSweeper (rows_in began.now taken.now) it.1) }
{
    if !round.is_due(passed) {
        return None;
    }
    let found = match taken {
        Some(rows) => sweeper_from(rows.as_slice(), round.at),
        None => sweeper_from(began, round.at),
    };
    if found.is_none() {
        round.end(passed);
    }
    found
}

/// Sweeps a merchant, and goes on in the round.
///
/// 63 Store: the store failed.
pub(crate) fn sweep<T: Tables>(
    round: &mut Round,
    sweeper: (usize, Sweeper),
    passed: Duration,
    now: Moment,
    vault: &mut Vault<T>,
) -> Result<News, ListenFault>
    requires unbroken { is_broken vault.old ≡ false }
    // the first of the purges are carried out, this is said of them, and the vault that they leave is
    // kept; with Store a crash decides on one more
    ensures attends { Attends (AsksFirst sweeper.1 now) (passage T.Tables vault.old vault.new) result }
    // the vault is broken after Store only
    ensures broken { is_broken vault.new ≡ true → result ≡ Err Store }
    ensures disk_honest { WasHonest T.Tables vault.old vault.new }
{
    let says = round.says;
    match sweep_first(vault, sweeper.1, now) {
        Ok((news, true)) => {
            round.stay(sweeper.0);
            Ok(spoken(news, says))
        }
        Ok((News::Nothing, false)) => {
            round.pass(sweeper.0);
            Ok(News::Nothing)
        }
        Ok((news, false)) => {
            round.wait(sweeper.0, passed);
            Ok(spoken(news, says))
        }
        Err(fault) => Err(fault),
    }
}
