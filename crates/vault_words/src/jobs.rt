//! What words can ask for.

use crate::commands::batch::BatchJob;
use crate::commands::check::CheckJob;
use crate::commands::list::ListJob;
use crate::commands::merchant::MerchantJob;
use crate::commands::merchants::MerchantsJob;
use crate::commands::migrate::MigrateJob;
use crate::commands::pipe::PipeJob;
use crate::commands::rights::{GrantJob, RightJob};
use crate::commands::rights_file::RightsFileJob;
use crate::commands::serve::ServeJob;
use crate::commands::sweep::SweepJob;
use crate::commands::trial::TrialJob;

/// The version of the program.
pub const VERSION: &str = "0.4.0";

/// Why words are no job.
#[derive(Drop)]
pub enum JobFault {
    /// Help was asked for. This is its text.
    Help(String),
    /// The version was asked for.
    Version,
    /// The words ask for no job. This says why, in lines; or nothing, where that would show ten digits.
    BadWords(String),
    /// Memory was refused.
    Memory,
}

/// What words ask for. Names, rights and files are still to be read.
#[derive(Clone, Copy)]
pub enum Job<'a> {
    /// Messages from standard input are answered by a vault in memory, which ends with the program.
    Trial(TrialJob<'a>),
    /// A merchant is set.
    Merchant(MerchantJob<'a>),
    /// The merchants that a list has are set.
    Merchants(MerchantsJob<'a>),
    /// A caller is given a right.
    Grant(GrantJob<'a>),
    /// A right is taken from a caller.
    Withdraw(RightJob<'a>),
    /// The rights that a rights file lists are granted, and perhaps no others stay.
    Rights(RightsFileJob<'a>),
    /// Messages from standard input are answered by the vault in a file.
    Pipe(PipeJob<'a>),
    /// The rows of a batch from standard input are answered by the vault in a file.
    Batch(BatchJob<'a>),
    /// Messages of connections are answered by the vault in a file.
    Serve(ServeJob<'a>),
    /// The card numbers of a merchant's dead tokens are purged.
    Sweep(SweepJob<'a>),
    /// The merchants and the rights of a file are listed.
    List(ListJob<'a>),
    /// A file is checked whole.
    Check(CheckJob<'a>),
    /// A file moves to the newest schema.
    Migrate(MigrateJob<'a>),
}
