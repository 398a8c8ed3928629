//! The moment of a job.
ghost use Rattle.std.specs.Prelude.{◌≡◌, IfOk, IfErr, None, OnErr};
ghost use Rattle.vault_jobs.specs.Moments.{IsMomentOf, giver_of};

use crate::stop::Stop;
use vault_core::moment::Moment;
use vault_http::fault::ServeFault;
use vault_listen::time::{Questions, Timekeeper};

/// Who gives the moment of a job.
#[derive(Clone, Copy, PartialEq, Eq, Drop)]
pub enum Giver {
    /// The words fix it.
    Words,
    /// The clock tells it.
    Clock,
}

impl Giver {
    /// Who gives a moment that the words may fix.
    pub fn of(fixed: Option<Moment>) -> Giver
        ensures { result ≡ giver_of fixed }
    {
        match fixed {
            Some(_) => Giver::Words,
            None => Giver::Clock,
        }
    }
}

/// The moment that the words fix, or else the one that is told. 60 Source: none is told.
pub fn moment<K: Timekeeper>(time: &K, fixed: Option<Moment>) -> Result<Moment, Stop>
    // with Ok, it is the moment that is fixed, and else one that was told
    ensures moment { IfOk result (IsMomentOf (K.tells time.now) fixed) }
    // it stops by a service's Source
    ensures fault { IfErr result (λ stop. stop ≡ Stop.Service ServeFault.Source) }
    // it stops only where no moment is fixed
    ensures needed { OnErr result (fixed ≡ None) }
{
    let found = match fixed {
        Some(moment) => Some(moment),
        None => time.questions().moment(),
    };
    match found {
        Some(moment) => Ok(moment),
        None => Err(Stop::Service(ServeFault::Source)),
    }
}
