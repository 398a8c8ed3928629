//! How a job ends.
use crate::note::Note;
use crate::placeholder::Placeholder;
use vault_file::fault::NotOpened;
use vault_jobs::stop::Stop;
use vault_live::subject::Subject;

/// How a job ended.
#[derive(Clone, Copy, PartialEq, Eq, Drop)]
pub enum Ending {
    /// Done, or help was asked.
    Done,
    /// Done, and this is to be said of it.
    Noted(Note),
    /// The version was asked.
    Version,
    /// A list of the words or the vault refused, by this number.
    Refused(u8),
    /// The word at this placeholder is no name, or no right.
    Misnamed(Placeholder),
    /// The list of rights, or of merchants, isn't whole.
    Unfinished(Subject),
    /// Some rows of a batch are refused, as their lines say.
    SomeRefused,
    /// The words ask for no job.
    BadWords,
    /// The file isn't opened.
    NotOpened(NotOpened),
    /// Something that the job stands on failed.
    Stopped(Stop),
}
