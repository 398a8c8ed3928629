//! Merchants that are set, and rights that are given and taken away.
ghost use Rattle.vault_core.specs.Changes.{Decides, RefusesQuietly};
ghost use Rattle.vault_core.specs.Lives.{setting};
ghost use Rattle.vault_core.specs.Scalar.{IsLife};

use crate::changes::Changes;
use crate::command::Command;
use crate::decide::{moved, refused};
use crate::limit::MOST_MERCHANTS;
use crate::moment::Moment;
use crate::name::{Caller, MerchantId};
use crate::reply::Reply;
use crate::right::Right;
use crate::row::{GrantRow, Lives};
use crate::window::Window;
use vault_refusal::refusal::Refusal;

/// A merchant is set to these, whose moment is the one handed in.
pub fn set_merchant(w: &Window, merchant: MerchantId, handed: Lives) -> (Reply, Changes)
    requires single { IsLife handed.single_life }
    requires multi { IsLife handed.multi_life }
    ensures settles { Decides w.now (setting merchant handed) result }
    ensures refusals { RefusesQuietly (setting merchant handed) result.0 result.1 }
{
    let moment = match w.merchant {
        Some(row) => row.moment.later(handed.moment),
        None => {
            if w.merchants >= MOST_MERCHANTS {
                return refused(Refusal::TooManyMerchants);
            }
            handed.moment
        }
    };
    let lives = Lives { moment, ..handed };
    (
        Reply::Done,
        Changes {
            lives: Some((merchant, lives)),
            ..Changes::none()
        },
    )
}

/// A right is given, up to an end or for good.
pub fn grant(
    w: &Window,
    caller: Caller,
    merchant: MerchantId,
    right: Right,
    until: Option<Moment>,
    now: Moment,
) -> (Reply, Changes)
    ensures settles { Decides w.now (Command.Grant caller merchant right until now) result }
    ensures refusals { RefusesQuietly (Command.Grant caller merchant right until now) result.0 result.1 }
{
    let Some(row) = w.merchant else {
        return refused(Refusal::NoMerchant);
    };
    (
        Reply::Done,
        Changes {
            lives: Some(moved(merchant, &row, now)),
            right: Some((caller, merchant, right, Some(GrantRow { ends: until }))),
            ..Changes::none()
        },
    )
}

/// A right is taken away.
pub fn withdraw(
    w: &Window,
    caller: Caller,
    merchant: MerchantId,
    right: Right,
    now: Moment,
) -> (Reply, Changes)
    ensures settles { Decides w.now (Command.Withdraw caller merchant right now) result }
    ensures refusals { RefusesQuietly (Command.Withdraw caller merchant right now) result.0 result.1 }
{
    let Some(row) = w.merchant else {
        return refused(Refusal::NoMerchant);
    };
    (
        Reply::Done,
        Changes {
            lives: Some(moved(merchant, &row, now)),
            right: Some((caller, merchant, right, None)),
            ..Changes::none()
        },
    )
}
