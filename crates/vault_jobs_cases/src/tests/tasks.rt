//! Tasks on a vault in memory, without an input.
ghost use Rattle.vault_jobs.specs.Tasks.{IsProper};

use super::clocks::TestClock;
use super::desks::TestDesk;
use vault_jobs::note::Note;
use vault_jobs::task::{Outcome, Task, do_task};
use vault_listen::limits::Limits;
use vault_listen::network::Loopback;
use vault_listen::time::ClockTime;
use vault_script::fakes::{TestReader, TestWriter};
use vault_store::memory::MemTables;
use vault_store::vault::Vault;
use vault_wire::watched::Watched;

/// How a task ends by a clock that stands at 1000, and what is noted of it, where its output goes here; none
/// where it isn't begun or stops. All tasks of the tests go through here, so that they are compiled once.
pub fn outcome(
    rt: &HostRuntime,
    vault: &mut Vault<MemTables>,
    task: &Task,
    output: &mut Vec<u8>,
) -> Option<(Outcome, Option<Note>)>
    requires { IsProper task.now }
{
    if vault.broken() {
        return None;
    }
    let clock = TestClock::at(1000);
    let time = ClockTime::new(&clock);
    let mut network = Loopback::new(rt, Limits::of_service());
    let desk = TestDesk::new(rt.alloc(), &[]);
    let mut reader = Watched::new(TestReader::Bytes(b""));
    let mut writer = Watched::new(TestWriter::Whole(output));
    match do_task(
        rt,
        &time,
        &mut network,
        &desk,
        task,
        vault,
        &mut reader,
        &mut writer,
    ) {
        (Ok(outcome), note) => Some((outcome, note)),
        (Err(_), _) => None,
    }
}
