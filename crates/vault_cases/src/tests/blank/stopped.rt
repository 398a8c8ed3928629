//! A stop before each call of the file system, and calls that fail.
use super::folder::{brief, holds_page, is_page, is_there};
use super::stand_in::{Before, Call, StandIn};
use std::cell::Cell;
use std::io::ErrorKind;
use std::{fs, io};
use vault_blank::make::{Made, make_blank};
use vault_script::paths::is_folder_made;

/// More calls than one file takes.
const CALLS: u32 = 40;

/// A stop after so many calls: no later one is made.
#[derive(Drop)]
pub struct Stop {
    left: Cell<u32>,
    came: Cell<bool>,
}

impl Stop {
    /// A stop after so many calls.
    pub fn after(calls: u32) -> Stop {
        Stop {
            left: Cell::new(calls),
            came: Cell::new(false),
        }
    }
}

impl Before for Stop {
    fn before(&self, _call: Call) -> io::Result<()> {
        match self.left.get().checked_sub(1) {
            Some(left) => {
                self.left.set(left);
                Ok(())
            }
            None => {
                self.came.set(true);
                Err(ErrorKind::BrokenPipe.into())
            }
        }
    }
}

/// The calls of one kind fail.
#[derive(Drop)]
struct Fails {
    call: Call,
}

impl Before for Fails {
    fn before(&self, call: Call) -> io::Result<()> {
        if call == self.call {
            return Err(ErrorKind::StorageFull.into());
        }
        Ok(())
    }
}

/// What a stop after so many calls leaves.
#[derive(Clone, Copy, PartialEq, Eq)]
enum Left {
    /// The file was made before the stop came.
    Made,
    /// It is whole or isn't there, and the next call finds it so and leaves it whole.
    Sound,
    /// Anything else.
    Lost,
}

/// What a stop after so many calls leaves of a file.
fn found_after(rt: &HostRuntime, path: &str, calls: u32) -> Left {
    let stop = Stop::after(calls);
    let files = StandIn { rt, happens: &stop };
    let outcome = brief(&make_blank(&files, path));
    let was_there = is_there(rt, path);
    let is_whole = !was_there || is_page(rt, path, b"");
    if !stop.came.get() {
        let is_new = outcome == Ok(Made::New) && calls > 12;
        return if is_whole && is_new {
            Left::Made
        } else {
            Left::Lost
        };
    }
    let again = brief(&make_blank(rt, path));
    let wanted = if was_there { Made::There } else { Made::New };
    if is_whole && outcome.is_err() && again == Ok(wanted) {
        Left::Sound
    } else {
        Left::Lost
    }
}

/// Whether a stop after each number of calls leaves the file whole or not there, up to a call that is made to
/// its end.
fn are_sound(rt: &HostRuntime, folder: &str, path: &str) -> bool {
    for calls in 0..CALLS {
        let is_made = is_folder_made(rt, folder);
        let found = found_after(rt, path, calls);
        if !is_made || found == Left::Lost || !holds_page(rt, folder, path, b"") {
            let _ = println!(rt; "after {calls} calls");
            return false;
        }
        if found == Left::Made {
            return fs::remove_dir_all(rt, folder).is_ok();
        }
    }
    false
}

#[test]
fn after_a_stop_the_file_is_whole_or_not_there(rt: HostRuntime) {
    assert!(rt; are_sound(&rt, "vault_blank_stop", "vault_blank_stop/a"));
}

/// Whether a file whose calls of one kind fail isn't made, and its folder is empty afterwards.
fn is_taken_away(rt: &HostRuntime, call: Call) -> bool {
    let is_made = is_folder_made(rt, "vault_blank_full");
    let fails = Fails { call };
    let files = StandIn {
        rt,
        happens: &fails,
    };
    let outcome = brief(&make_blank(&files, "vault_blank_full/a"));
    let is_empty = fs::remove_dir(rt, "vault_blank_full").is_ok();
    is_made && outcome == Err(ErrorKind::StorageFull) && is_empty
}

#[test]
fn what_can_not_be_filled_or_linked_is_taken_away(rt: HostRuntime) {
    for call in [Call::Fill, Call::Keep, Call::Link] {
        assert!(rt; is_taken_away(&rt, call), "{call:?}");
    }
}
