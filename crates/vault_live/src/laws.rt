//! Laws of turns.
ghost use Rattle.vault_live.specs.Turns.{TurnsMayStop};

use crate::office::Office;
use vault_listen::time::Timekeeper;

/// The first turns of a service are a service's, and so are the others from the vault that those leave.
pub fn turns_may_stop<K: Timekeeper, O: Office>()
    // whatever moments are told, and whatever is asked for
    ensures { TurnsMayStop K.tells O.asks }
{}
