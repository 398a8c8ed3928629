//! The first of some commands, carried out one by one.
ghost use Rattle.std.specs.Prelude.{◌≡◌, ◌≤◌, All, false, length, map, true};
ghost use Rattle.vault_store.specs.Applied.{is_broken};
ghost use Rattle.vault_engine.specs.Passing.{passage};
ghost use Rattle.vault_changes.specs.Carried.{IsCarriedOut};
ghost use Rattle.vault_live.specs.First.{Ends};
ghost use Rattle.vault_store.specs.LookUps.{WasHonest};

use vault_changes::carry::Orders;
use vault_changes::change::change;
use vault_store::tables::Tables;
use vault_store::vault::{Fault, Vault};

/// How many commands are carried out between two connections at most.
pub(crate) const MOST: usize = 100;

/// Why no more commands were carried out.
#[derive(Clone, Copy, PartialEq, Eq, Drop)]
pub(crate) enum End {
    /// All of them are done.
    All,
    /// As many are done as may be between two connections.
    Enough,
    /// The next one is refused by this number.
    Refused(u8),
    /// Memory was refused for the next one.
    Memory,
    /// The store failed at the next one.
    Store,
}

/// How many of some commands are done, and why no more.
#[derive(Clone, Copy, PartialEq, Eq, Drop)]
pub(crate) struct Carried {
    pub(crate) done: usize,
    pub(crate) end: End,
}

/// Carries out the commands of the first of these items, 100 at most, up to one that is refused.
pub(crate) fn carry_first<X, O: Orders<X>, T: Tables>(
    vault: &mut Vault<T>,
    orders: &O,
    items: &[X],
) -> Carried
    // every vault replies to each command by done or a refusal, and lives that it sets are in range
    requires carried { All IsCarriedOut (map (O.command_of orders.now) items.now) }
    requires unbroken { is_broken vault.old ≡ false }
    // the first so many are done, and the vault that they leave is kept; the next one ended it, where they
    // aren't all or enough
    ensures ends { Ends result.end result.done (map (O.command_of orders.now) items.now)
        (passage T.Tables vault.old vault.new) }
    // no more are done than there are
    ensures few { result.done ≤ length items.now }
    // the vault is broken only where the store failed
    ensures broken { is_broken vault.new ≡ true → result.end ≡ End.Store }
    ensures disk_honest { WasHonest T.Tables vault.old vault.new }
{
    let mut done = 0;
    for item in items {
        if done == MOST {
            return Carried {
                done,
                end: End::Enough,
            };
        }
        let ordered = orders.command(item);
        match change(vault, &ordered) {
            Ok(Ok(())) => done += 1,
            Ok(Err(number)) => {
                return Carried {
                    done,
                    end: End::Refused(number),
                };
            }
            Err(Fault::Memory) => return Carried {
                done,
                end: End::Memory,
            },
            Err(Fault::Store) => return Carried {
                done,
                end: End::Store,
            },
            Err(Fault::Reopen) => return Carried {
                done,
                end: End::Store,
            },
        }
    }
    Carried {
        done,
        end: End::All,
    }
}
