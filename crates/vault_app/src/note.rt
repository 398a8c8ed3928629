//! What is said of a job that is done.
ghost use Rattle.std.specs.Prelude.{◌≡◌};
ghost use Rattle.vault_app.specs.Ending.{note_line};

use vault_jobs::note::Note as TaskNote;

/// What is said of a job that is done, beside its line.
#[derive(Clone, Copy, PartialEq, Eq, Drop)]
pub enum Note {
    /// The file that was checked has a log.
    Log,
    /// There was no vault in the file that was to move, and an empty one is made.
    Made,
    /// What is noted of a task.
    Task(TaskNote),
}

impl Note {
    /// Its line.
    pub(crate) fn line(self) -> &'static str
        ensures { result.now ≡ note_line self }
    {
        match self {
            Note::Log => "vault: the file has a log, FILE-wal, and a copy needs both\n",
            Note::Made => "vault: there was no vault in FILE, and an empty one is made\n",
            Note::Task(TaskNote::NoMerchant) => "vault: there is no such merchant\n",
            Note::Task(TaskNote::ClockAhead) => {
                "vault: the clock is more than 31 days ahead of the merchant's last moment\n"
            }
            Note::Task(TaskNote::NothingWithdrawn) => "vault: there was nothing to withdraw\n",
        }
    }
}
