//! Programs that make one file at once.
use super::folder::{brief, holds_page, is_there};
use super::stand_in::{Before, Call, StandIn};
use super::stopped::Stop;
use std::cell::Cell;
use std::fs::OpenOptions;
use std::io::{ErrorKind, Write};
use std::{fs, io};
use vault_blank::make::{Made, make_blank};
use vault_script::paths::is_folder_made;

/// More calls than one file takes.
const CALLS: u32 = 40;

/// What a program answers that makes a file.
type Answer = Result<Made, ErrorKind>;

/// After so many calls of the first program, a second one makes the file and is stopped after so many calls
/// of its own; then a third one makes it, and uses it.
#[derive(Drop)]
struct Meet<'a> {
    rt: &'a HostRuntime,
    path: &'a str,
    left: Cell<u32>,
    second: u32,
    third: Cell<Option<Answer>>,
}

/// Writes behind the page.
fn put_to_use(rt: &HostRuntime, path: &str) -> io::Result<()> {
    let mut file = OpenOptions::new().append(true).open(rt, path)?;
    file.write_all(b"used")
}

impl<'a> Before for Meet<'a> {
    fn before(&self, _call: Call) -> io::Result<()> {
        if let Some(left) = self.left.get().checked_sub(1) {
            self.left.set(left);
            return Ok(());
        }
        if self.third.get().is_some() {
            return Ok(());
        }
        let stop = Stop::after(self.second);
        let files = StandIn {
            rt: self.rt,
            happens: &stop,
        };
        let _ = make_blank(&files, self.path);
        let outcome = make_blank(self.rt, self.path);
        if outcome.is_ok() {
            put_to_use(self.rt, self.path)?;
        }
        self.third.set(Some(brief(&outcome)));
        Ok(())
    }
}

/// What the first program answers, and what the third one, where it came to run.
fn met(rt: &HostRuntime, path: &str, first: u32, second: u32) -> (Answer, Option<Answer>) {
    let meet = Meet {
        rt,
        path,
        left: Cell::new(first),
        second,
        third: Cell::new(None),
    };
    let files = StandIn { rt, happens: &meet };
    let outcome = brief(&make_blank(&files, path));
    (outcome, meet.third.get())
}

/// Whether the folder holds the page alone, with what the third program wrote where it got the file.
fn is_kept(rt: &HostRuntime, folder: &str, path: &str, third: Answer) -> bool {
    let used = if third.is_ok() {
        b"used".as_slice()
    } else {
        b""
    };
    holds_page(rt, folder, path, used)
}

/// Whether of two programs one made the file, and the other found it or was refused.
fn is_one(one: Answer, other: Answer) -> bool {
    match other {
        Ok(made) => one.is_ok() && one != Ok(made),
        Err(kind) => kind == ErrorKind::WouldBlock && one == Ok(Made::New),
    }
}

/// Whether of two programs that meet after each number of calls one makes the file, and neither loses it, up
/// to a number that the first doesn't come to.
fn meet_soundly(rt: &HostRuntime, folder: &str, path: &str) -> bool {
    for first in 0..CALLS {
        let is_made = is_folder_made(rt, folder);
        let (one, other) = met(rt, path, first, 0);
        let Some(other) = other else {
            return is_made && first > 12 && fs::remove_dir_all(rt, folder).is_ok();
        };
        if !is_made || !is_one(one, other) || !is_kept(rt, folder, path, other) {
            let _ = println!(rt; "after {first} calls");
            return false;
        }
    }
    false
}

#[test]
fn of_two_that_meet_one_makes_the_file_and_neither_loses_it(rt: HostRuntime) {
    assert!(rt; meet_soundly(&rt, "vault_blank_met", "vault_blank_met/a"));
}

/// What a second program that is stopped leaves to a first and a third: the file isn't lost (true), or it is
/// (false); nothing where the first ended before.
fn third_finds(
    rt: &HostRuntime,
    folder: &str,
    path: &str,
    first: u32,
    second: u32,
) -> Option<bool> {
    let is_made = is_folder_made(rt, folder);
    let (one, third) = met(rt, path, first, second);
    let third = third?;
    Some(is_made && one.is_ok() && is_there(rt, path) && is_kept(rt, folder, path, third))
}

/// Whether a second program that is stopped after each number of calls loses nothing, wherever the first is.
fn lose_nothing(rt: &HostRuntime, folder: &str, path: &str) -> bool {
    for first in 0..CALLS {
        for second in 1..20 {
            match third_finds(rt, folder, path, first, second) {
                Some(true) => {}
                Some(false) => {
                    let _ = println!(rt; "after {first} and {second} calls");
                    return false;
                }
                None => return fs::remove_dir_all(rt, folder).is_ok(),
            }
        }
    }
    false
}

#[test]
fn a_second_one_that_is_stopped_loses_nothing(rt: HostRuntime) {
    assert!(rt; lose_nothing(&rt, "vault_blank_three", "vault_blank_three/a"));
}
