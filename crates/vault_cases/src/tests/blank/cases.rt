//! Files that are made, what is there already, and files that aren't made: steps as lines, with what each
//! tells.
use super::folder::brief;
use super::steps::{is_alone, is_as_said};
use std::fs;
use std::io::ErrorKind;
use vault_blank::make::{Made, make_blank};
use vault_script::paths::{holds, is_folder_made, is_written, there};

/// A new file is its owner's alone.
const NEW: &str = "folder vault_blank_new = done
make vault_blank_new/a = new
page vault_blank_new/a = done
make vault_blank_new/a = there
page vault_blank_new/a = done
remove vault_blank_new = done";

/// What is there stays as it is.
const THERE: &str = "folder vault_blank_there = done
mine vault_blank_there/a = done
640 vault_blank_there/a = done
another vault_blank_there/a-new = done
folder vault_blank_there/b = done
link vault_blank_there/c = done
make vault_blank_there/a = there
make vault_blank_there/b = there
make vault_blank_there/c = there
has-mine vault_blank_there/a = done
mode vault_blank_there/a = 640
has-another vault_blank_there/a-new = done
there vault_blank_there/b = folder
there vault_blank_there/c = link
there vault_blank_there/nowhere = nothing
remove vault_blank_there = done";

/// Of two names one is left.
const TWO: &str = "folder vault_blank_two = done
mine vault_blank_two/a = done
640 vault_blank_two/a = done
hard vault_blank_two/a vault_blank_two/a-new = done
make vault_blank_two/a = there
there vault_blank_two/a-new = nothing
has-mine vault_blank_two/a = done
mode vault_blank_two/a = 640
make vault_blank_two/a = there
there vault_blank_two/a-new = nothing
has-mine vault_blank_two/a = done
mode vault_blank_two/a = 640
remove vault_blank_two = done";

/// What a stop left is made whole.
const HALF: &str = "folder vault_blank_half = done
empty vault_blank_half/a-new = done
make vault_blank_half/a = new
page vault_blank_half/a = done
delete vault_blank_half/a = done
begun vault_blank_half/a-new = done
make vault_blank_half/a = new
page vault_blank_half/a = done
delete vault_blank_half/a = done
text vault_blank_half/a-new = done
make vault_blank_half/a = new
page vault_blank_half/a = done
delete vault_blank_half/a = done
remove vault_blank_half = done";

/// A path may be a name alone.
const ALONE: &str = "make vault_blank_alone = new
make ./vault_blank_alone = there
size vault_blank_alone = 512
delete vault_blank_alone = done";

/// Words that name no place are refused.
const WORDS: &str = "folder vault_blank_words = done
make  = InvalidInput
make vault_blank_words/a\0b = InvalidInput
make vault_blank_words/none/a = NotFound
make vault_blank_words/a/ = NotFound
there -new = nothing
drop vault_blank_words = done";

/// A second name that is no file of one name is refused, and left; so is what a link there leads to.
const ODD: &str = "folder vault_blank_odd = done
folder vault_blank_odd/a-new = done
mine vault_blank_odd/nowhere = done
link vault_blank_odd/b-new = done
make vault_blank_odd/a = Unsupported
there vault_blank_odd/a = nothing
make vault_blank_odd/b = Unsupported
there vault_blank_odd/b = nothing
has-mine vault_blank_odd/nowhere = done
hard vault_blank_odd/nowhere vault_blank_odd/c-new = done
make vault_blank_odd/c = Unsupported
there vault_blank_odd/c = nothing
there vault_blank_odd/a-new = folder
there vault_blank_odd/b-new = link
has-mine vault_blank_odd/c-new = done
remove vault_blank_odd = done";

#[test]
fn a_new_file_is_its_owners_alone(rt: HostRuntime) {
    assert!(rt; is_as_said(&rt, NEW));
}

#[test]
fn a_path_may_be_a_name_alone(rt: HostRuntime) {
    let _ = fs::remove_file(&rt, "vault_blank_alone");
    assert!(rt; is_as_said(&rt, ALONE));
}

#[test]
fn what_is_there_stays_as_it_is(rt: HostRuntime) {
    assert!(rt; is_as_said(&rt, THERE));
}

#[test]
fn of_two_names_one_is_left(rt: HostRuntime) {
    assert!(rt; is_as_said(&rt, TWO));
}

#[test]
fn what_a_stop_left_is_made_whole(rt: HostRuntime) {
    assert!(rt; is_as_said(&rt, HALF));
}

#[test]
fn words_that_name_no_place_are_refused(rt: HostRuntime) {
    assert!(rt; is_as_said(&rt, WORDS));
}

#[test]
fn a_second_name_that_is_no_file_of_one_name_is_refused_and_left(rt: HostRuntime) {
    assert!(rt; is_as_said(&rt, ODD));
}

/// Whether a file that another holds is refused and left, and is made once it is let go.
fn is_held(rt: &HostRuntime, second: &str, path: &str) -> bool {
    let Ok(file) = fs::File::open(rt, second) else {
        return false;
    };
    let is_locked = file.try_lock().is_ok();
    let refused = brief(&make_blank(rt, path)) == Err(ErrorKind::WouldBlock);
    let is_left = holds(rt, second, b"half") && there(rt, path) == "nothing";
    drop(file);
    is_locked && refused && is_left && brief(&make_blank(rt, path)) == Ok(Made::New)
}

#[test]
fn a_file_that_another_holds_is_refused(rt: HostRuntime) {
    let (second, path) = ("vault_blank_held/a-new", "vault_blank_held/a");
    assert!(rt; is_folder_made(&rt, "vault_blank_held") && is_written(&rt, second, b"half"));
    assert!(rt; is_held(&rt, second, path) && is_alone(&rt, path));
    assert!(rt; fs::remove_dir_all(&rt, "vault_blank_held").is_ok());
}
