//! Rights given one after the other.
ghost use Rattle.std.specs.Prelude.{◌≡◌, false};
ghost use Rattle.vault_store.specs.Applied.{is_broken};
ghost use Rattle.vault_engine.specs.Passing.{passage};
ghost use Rattle.vault_changes.specs.Failing.{BreaksByStore};
ghost use Rattle.vault_changes.specs.Grants.{CarriesAll, grants_at};
ghost use Rattle.vault_store.specs.LookUps.{WasHonest};

use vault_changes::carry::{Orders, carry_all};
use vault_changes::changes::ListedRight;
use vault_core::command::Command;
use vault_core::moment::Moment;
use vault_store::tables::Tables;
use vault_store::vault::{Fault, Vault};

/// Each row of a list has its right given at a moment.
#[derive(Clone, Copy)]
struct Grants {
    now: Moment,
}

impl Orders<ListedRight> for Grants {
    ghost use Rattle.vault_core.specs.declared.command.Command.TheVariants.{Grant};

    ghost command_of = { λ grants row. Grant row.0 row.1 row.2 row.3 grants.now };

    fn command(&self, row: &ListedRight) -> Command {
        Command::Grant {
            caller: row.0,
            merchant: row.1,
            right: row.2,
            until: row.3,
            now: self.now,
        }
    }
}

/// Gives rights at a moment, each with its end, in their order, up to the first that is refused: by 7 where
/// the merchant isn't known. Those before it stay given.
///
/// 20 Memory: memory was refused. 21 Store: the store failed.
pub fn give_all<T: Tables>(
    vault: &mut Vault<T>,
    rights: &[ListedRight],
    now: Moment,
) -> Result<Result<(), u8>, Fault>
    requires unbroken { is_broken vault.old ≡ false }
    // on an honest disk, all grants before the first that isn't done are kept; with Store a crash leaves that
    // one done or not
    ensures carried { CarriesAll (grants_at now rights.now) (passage T.Tables vault.old vault.new) result }
    ensures broken { BreaksByStore vault.new result }
    ensures disk_honest { WasHonest T.Tables vault.old vault.new }
{
    carry_all(vault, &Grants { now }, rights)
}
