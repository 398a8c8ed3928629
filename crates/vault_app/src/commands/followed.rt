//! The lists of a service, as their files have them before it.
ghost use Rattle.std.specs.Prelude.{◌≡◌, IfErr, IfOk, IfSome};
ghost use Rattle.std.specs.declared.io.ErrorKind.TheVariants.{OutOfMemory};
ghost use Rattle.vault_core.specs.Scalar.{IsMoment};
ghost use Rattle.vault_jobs.specs.Lists.{path_of};
ghost use Rattle.vault_jobs.specs.Moments.{IsMomentOf};
ghost use Rattle.vault_jobs.specs.declared.stop.Stop.TheVariants.{Unread};
ghost use Rattle.vault_app.specs.Followed.{EndsUnfollowed, HasNoMoment, IsFollowed};
ghost use Rattle.vault_app.specs.World.{looked};

use crate::ending::Ending;
use std::io::ErrorKind;
use vault_jobs::clock::moment;
use vault_jobs::lists::ListFile;
use vault_jobs::stop::Stop;
use vault_listen::time::Timekeeper;
use vault_live::desk::Desk;
use vault_live::kind::Kind;
use vault_live::listed::Listed;
use vault_live::subject::Subject;
use vault_live::whole::is_whole;

/// The stop for want of memory for a list.
fn no_memory(about: Subject) -> Stop
    ensures { result ≡ Unread about OutOfMemory }
{
    Stop::Unread(about, ErrorKind::OutOfMemory)
}

/// A list as its file has it, and the clock's moment.
fn file_of<R: Drop, K: Timekeeper>(
    rt: &HostRuntime,
    time: &K,
    about: Subject,
    path: &str,
    text: Vec<u8>,
    rows: Vec<R>,
) -> Result<ListFile<R>, Ending>
    // with Ok, it is this text, with these rows, of the file at the path
    ensures is { IfOk result (λ it. (it.text ≡ text) × (it.rows ≡ rows) × (path_of it ≡ path.now)) }
    // its moment was told
    ensures told { IfOk result (λ it. IsMomentOf (K.tells time.now) None it.now × IsMoment it.now) }
    // with Err, there is no moment, or memory was refused
    ensures fault { IfErr result (HasNoMoment about) }
{
    let Ok(path) = String::from_str(rt.alloc(), path) else {
        return Err(Ending::Stopped(no_memory(about)));
    };
    match moment(time, None) {
        Ok(now) => Ok(ListFile {
            rows,
            now,
            path,
            text,
        }),
        Err(stop) => Err(Ending::Stopped(stop)),
    }
}

/// The list of a kind that the file at a path has at the look before a service listens, where the words name
/// one; or how the job ends without it.
pub(crate) fn list_at<L: Kind, K: Timekeeper, D: Desk>(
    rt: &HostRuntime,
    time: &K,
    desk: &D,
    path: Option<&str>,
) -> Result<Option<ListFile<L::Row>>, Ending>
    // with Ok, where a list is named, its text is one of its file, whole and a good list of its rows
    ensures listed { IfOk result
        (IsFollowed L.names (looked (K.tells time.now) (D.says desk.now)) path.entry) }
    ensures moment { IfOk result (λ listed. IfSome listed (λ it. IsMoment it.now)) }
    // with Err, it ends for want of a list that is whole and good, or of a moment
    ensures unlisted { IfErr result
        (EndsUnfollowed L.about L.faults (looked (K.tells time.now) (D.says desk.now)) path.entry) }
{
    let Some(path) = path else {
        return Ok(None);
    };
    let text = match desk.read(path, 0) {
        Ok(text) => text,
        Err(why) => return Err(Ending::Stopped(Stop::Unread(L::subject(), why))),
    };
    if !is_whole(text.as_slice()) {
        return Err(Ending::Unfinished(L::subject()));
    }
    let rows = match L::read(rt.alloc(), text.as_slice()) {
        Listed::Good(rows) => rows,
        Listed::Faulty(number) => return Err(Ending::Refused(number)),
        Listed::Unknown => return Err(Ending::Stopped(no_memory(L::subject()))),
    };
    match file_of(rt, time, L::subject(), path, text, rows) {
        Ok(listed) => Ok(Some(listed)),
        Err(ending) => Err(ending),
    }
}
