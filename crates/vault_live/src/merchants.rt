//! Lists of merchants.
ghost use Rattle.std.specs.Prelude.{◌≡◌, filter, length};
ghost use Rattle.vault_live.specs.News.{sets as sets_merchant};

use crate::kind::Kind;
use crate::known::are_too_many;
use crate::listed::Listed;
use crate::news::News;
use crate::subject::Subject;
use std::alloc::Global;
use vault_changes::settings::settings_to;
use vault_core::command::Command;
use vault_core::moment::Moment;
use vault_merchants::fault::MerchantsFault;
use vault_merchants::read::{ListedMerchant, read_merchants};
use vault_refusal::refusal::Refusal;
use vault_store::tables::Tables;
use vault_store::vault::{Fault, Vault};

/// Lists of merchants. Those of a list are set, and none is ever removed.
#[derive(Clone, Copy, Drop)]
pub struct Merchants;

/// Whether a command sets a merchant.
fn sets(command: &Command) -> bool
    ensures { result ≡ sets_merchant command.now }
{
    matches!(command, Command::SetMerchant { .. })
}

/// How many of the commands set a merchant.
fn count_set(commands: &[Command]) -> usize
    ensures { result ≡ length (filter sets_merchant commands.now) }
{
    commands.iter().filter(|command| sets(command)).count()
}

impl Kind for Merchants {
    ghost use Rattle.vault_merchants.specs.ListedMerchants.{AreListed};
    ghost use Rattle.vault_live.specs.Kinds.{ExceedsRoom, HasMerchantsFault, merchants_changes};
    ghost use Rattle.vault_live.specs.declared.subject.Subject.TheVariants.{Merchants};

    type Row = ListedMerchant;

    ghost about = { Merchants };

    ghost names = { λ text rows. AreListed text rows };

    ghost faults = { λ text number. HasMerchantsFault text number };

    ghost wants = { λ now rows V. merchants_changes now rows V };

    ghost refuses = { λ rows V number. ExceedsRoom rows V number };

    fn subject() -> Subject {
        Subject::Merchants
    }

    fn read(alloc: Global, text: &[u8]) -> Listed<ListedMerchant> {
        match read_merchants(alloc, text) {
            Ok(rows) => Listed::Good(rows),
            Err(MerchantsFault::Memory) => Listed::Unknown,
            Err(fault) => Listed::Faulty(fault.refusal().number()),
        }
    }

    fn changes<T: Tables>(
        alloc: Global,
        vault: &mut Vault<T>,
        rows: &[ListedMerchant],
        now: Moment,
    ) -> Result<Result<Vec<Command>, u8>, Fault> {
        if are_too_many(vault, rows)? {
            return Ok(Err(Refusal::TooManyMerchants.number()));
        }
        let commands = settings_to(alloc, vault, rows, now)?;
        Ok(Ok(commands))
    }

    fn news(commands: &[Command], now: Moment) -> News {
        News::Set(count_set(commands), now)
    }
}
