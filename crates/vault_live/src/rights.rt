//! Lists of rights.
ghost use Rattle.std.specs.Prelude.{◌≡◌, filter, length};
ghost use Rattle.vault_live.specs.News.{gives as gives_right, withdraws as withdraws_right};

use crate::following::Following;
use crate::kind::Kind;
use crate::known::lacks_one;
use crate::listed::Listed;
use crate::news::News;
use crate::subject::Subject;
use std::alloc::Global;
use vault_changes::changes::ListedRight;
use vault_changes::settle::changes_to;
use vault_core::command::Command;
use vault_core::moment::Moment;
use vault_refusal::refusal::Refusal;
use vault_rights::fault::RightsFault;
use vault_rights::read::read_rights;
use vault_store::tables::Tables;
use vault_store::vault::{Fault, Vault};

/// Lists of rights.
#[derive(Clone, Copy, Drop)]
pub struct Rights;

/// Follows a rights file. A text that the file has at two looks in a row, and that is a good list, becomes
/// the vault's rights.
pub type RightsList<'x, D> = Following<'x, D, Rights>;

/// Whether a command gives a right.
fn gives(command: &Command) -> bool
    ensures { result ≡ gives_right command.now }
{
    matches!(command, Command::Grant { .. })
}

/// Whether a command withdraws one.
fn withdraws(command: &Command) -> bool
    ensures { result ≡ withdraws_right command.now }
{
    matches!(command, Command::Withdraw { .. })
}

/// How many of the commands give a right.
fn count_given(commands: &[Command]) -> usize
    ensures { result ≡ length (filter gives_right commands.now) }
{
    commands.iter().filter(|command| gives(command)).count()
}

/// How many of the commands withdraw one.
fn count_withdrawn(commands: &[Command]) -> usize
    ensures { result ≡ length (filter withdraws_right commands.now) }
{
    commands.iter().filter(|command| withdraws(command)).count()
}

impl Kind for Rights {
    ghost use Rattle.vault_live.specs.Following.{AreRowsIn};
    ghost use Rattle.vault_live.specs.Kinds.{HasRightsFault, LacksMerchant, rights_changes};
    ghost use Rattle.vault_live.specs.declared.subject.Subject.TheVariants.{Rights};

    type Row = ListedRight;

    ghost about = { Rights };

    ghost names = { λ text rows. AreRowsIn text rows };

    ghost faults = { λ text number. HasRightsFault text number };

    ghost wants = { λ now rows V. rights_changes now rows V };

    ghost refuses = { λ rows V number. LacksMerchant rows V number };

    fn subject() -> Subject {
        Subject::Rights
    }

    fn read(alloc: Global, text: &[u8]) -> Listed<ListedRight> {
        match read_rights(alloc, text) {
            Ok(rows) => Listed::Good(rows),
            Err(RightsFault::Memory) => Listed::Unknown,
            Err(fault) => Listed::Faulty(fault.refusal().number()),
        }
    }

    fn changes<T: Tables>(
        alloc: Global,
        vault: &mut Vault<T>,
        rows: &[ListedRight],
        now: Moment,
    ) -> Result<Result<Vec<Command>, u8>, Fault> {
        if lacks_one(vault, rows)? {
            return Ok(Err(Refusal::NoMerchant.number()));
        }
        let changes = changes_to(alloc, vault, true, rows, now)?;
        Ok(Ok(changes.commands))
    }

    fn news(commands: &[Command], now: Moment) -> News {
        News::Changed(count_given(commands), count_withdrawn(commands), now)
    }
}
