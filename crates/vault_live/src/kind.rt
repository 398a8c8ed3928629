//! Kinds of lists that are followed.
ghost use Rattle.std.specs.Prelude.{◌≡◌, All, IfErr, IfOk, MatchResult, false, length};
ghost use Rattle.vault_store.specs.Applied.{is_broken};
ghost use Rattle.vault_engine.specs.Passing.{IsBefore, OfKept, passage};
ghost use Rattle.vault_changes.specs.Carried.{IsCarriedOut};
ghost use Rattle.vault_changes.specs.Failing.{BreaksByStore};
ghost use Rattle.vault_changes.specs.Grants.{AreDone};
ghost use Rattle.vault_changes.specs.Settling.{FailsToRead};
ghost use Rattle.vault_live.specs.Kinds.{AreChanges, AreSteps};
ghost use Rattle.vault_live.specs.ListedTexts.{IfFaulty, IfGood};
ghost use Rattle.vault_live.specs.News.{IsSaidOf};
ghost use Rattle.vault_store.specs.LookUps.{WasHonest};

use crate::listed::Listed;
use crate::news::News;
use crate::subject::Subject;
use std::alloc::Global;
use vault_core::command::Command;
use vault_core::moment::Moment;
use vault_store::tables::Tables;
use vault_store::vault::{Fault, Vault};

/// A kind of list.
///
/// Contracts see which rows a text names, and which commands these ask for.
pub trait Kind {
    ghost use Rattle.std.specs.Prelude.{ℕ, List};
    ghost use Rattle.vault_core.specs.Vault.{Vault as Content};
    ghost use Rattle.vault_core.specs.declared.command.Command.{Command};
    ghost use Rattle.vault_live.specs.declared.subject.Subject.{Subject};

    /// What a list of this kind consists of.
    type Row: Drop;

    // what such a list is of
    ghost about: { Subject };

    // the text is a good list, and names these rows
    ghost names: { List ℕ → List Self.Row → Type 0 };

    // the text has a fault, which has this number
    ghost faults: { List ℕ → ℕ → Type 0 };

    // the commands that rows ask for at a moment, by the vault that is held
    ghost wants: { ℕ → List Self.Row → Content → List Command };

    // by this number the vault that is held refuses the rows as a whole
    ghost refuses: { List Self.Row → Content → ℕ → Type 0 };

    /// What such a list is of.
    fn subject() -> Subject
        ensures { result ≡ about };

    /// Reads a text. What it comes to is unknown only where memory was refused.
    fn read(alloc: Global, text: &[u8]) -> Listed<Self::Row>
        // the text names the rows
        ensures good { IfGood result (names text.now) }
        // the number is that of the text's fault
        ensures faulty { IfFaulty result (faults text.now) };

    /// The commands that rows of a good list ask for; or the number by which they are refused as a whole.
    /// Nothing changes by the call.
    ///
    /// 20 Memory: memory was refused. 21 Store: the store failed.
    fn changes<T: Tables>(
        alloc: Global,
        vault: &mut Vault<T>,
        rows: &[Self::Row],
        now: Moment,
    ) -> Result<Result<Vec<Command>, u8>, Fault>
        // a text names the rows
        requires named { (text : List ℕ) × names text rows.now }
        requires unbroken { is_broken vault.old ≡ false }
        // with Ok, on an honest disk, the rows ask for these by each vault that was held, or it refuses them
        // so; that one is kept
        ensures found { IfOk result (λ it. OfKept (passage T.Tables vault.old vault.new) (λ V.
            MatchResult it (λ commands. AreChanges wants refuses now rows.now V commands.items)
            (refuses rows.now V))) }
        // every vault replies to each command by done or a refusal, and lives that it sets are in range
        ensures carried { IfOk result (λ it. IfOk it (λ commands. All IsCarriedOut commands.items)) }
        // on an honest disk they are proper, and one that is refused leaves the vault as it was
        ensures steps { IfOk result (λ it. (V : Content) → IsBefore (passage T.Tables vault.old vault.new) V
            → IfOk it (λ commands. AreSteps commands.items)) }
        ensures failed { IfErr result (FailsToRead (passage T.Tables vault.old vault.new)) }
        ensures broken { BreaksByStore vault.new result }
        ensures disk_honest { WasHonest T.Tables vault.old vault.new };

    /// What is said of commands of such a list that are done.
    fn news(commands: &[Command], now: Moment) -> News
        ensures { (V : Content) → AreDone (length commands.now) commands.now V
            → IsSaidOf result V commands.now };
}
