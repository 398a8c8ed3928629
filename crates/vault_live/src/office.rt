//! What has something to do between two connections.
ghost use Rattle.std.specs.Prelude.{◌≡◌, Err, Ok, false, true};
ghost use Rattle.vault_store.specs.Applied.{is_broken};
ghost use Rattle.vault_engine.specs.Passing.{passage};
ghost use Rattle.vault_listen.specs.declared.fault.ListenFault.TheVariants.{Store};
ghost use Rattle.vault_live.specs.Turns.{Attends};
ghost use Rattle.vault_live.specs.declared.news.News.TheVariants.{Nothing};
ghost use Rattle.vault_store.specs.LookUps.{WasHonest};

use crate::news::News;
use vault_listen::fault::ListenFault;
use vault_listen::time::Timekeeper;
use vault_store::tables::Tables;
use vault_store::vault::Vault;

/// What asks for commands between two connections.
///
/// Contracts see which commands it may ask for, by the vault that is held and the moments that are told.
pub trait Office {
    ghost use Rattle.std.specs.Prelude.{Bool, List};
    ghost use Rattle.vault_core.specs.Vault.{Vault as Content};
    ghost use Rattle.vault_core.specs.declared.command.Command.{Command};
    ghost use Rattle.vault_listen.specs.Live.{Turns};

    /// What it remembers from one time to the next.
    type Kept;

    // such commands may be asked for, where this vault is held
    ghost asks: { Self → Turns → Content → List Command → Type 0 };

    // what it remembers is its own
    ghost remembers: { Self → Self.Kept → Type 0 };

    // whether it may carry out commands at all
    ghost acts: { Self → Bool };

    /// Carries out what is asked for now, where something is, and answers what came of it.
    ///
    /// 60 Source: there is no moment. 63 Store: the store failed.
    fn attend<K: Timekeeper, T: Tables>(
        &self,
        kept: &mut Self::Kept,
        time: &K,
        vault: &mut Vault<T>,
    ) -> Result<News, ListenFault>
        // what it remembers is its own
        requires remembers { remembers self.now kept.old }
        requires unbroken { is_broken vault.old ≡ false }
        // the first commands of those that were asked for are carried out, and the vault that they leave is
        // kept; with Store a crash decides on one more
        ensures attends { Attends (asks self.now (K.tells time.now)) (passage T.Tables vault.old vault.new)
            result }
        // the vault is broken after Store only
        ensures broken { is_broken vault.new ≡ true → result ≡ Err Store }
        // one that carries out nothing answers that nothing came
        ensures calm { acts self.now ≡ false → result ≡ Ok Nothing }
        // what it remembers is its own still
        ensures remembers { remembers self.now kept.new }
        ensures disk_honest { WasHonest T.Tables vault.old vault.new };

    /// What was refused for want of a merchant or a right is to be tried again, since those have changed.
    fn again(&self, kept: &mut Self::Kept)
        // what it remembers is its own
        requires { remembers self.now kept.old }
        // what it remembers is its own still
        ensures { remembers self.now kept.new };
}
