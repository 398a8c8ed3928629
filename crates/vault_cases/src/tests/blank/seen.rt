//! What is seen of a file while it is made.
use super::folder::{brief, holds_page};
use super::stand_in::{Before, Call, StandIn};
use std::cell::Cell;
use std::{fs, io};
use vault_blank::make::{Made, make_blank};
use vault_script::paths::{is_folder_made, mode};

/// Looks at the second name before each call.
#[derive(Drop)]
struct Watch<'a> {
    rt: &'a HostRuntime,
    /// How often the file had another mode than 600 before it was filled.
    open_to_others: Cell<u32>,
    /// Whether the disk keeps all that was written.
    is_kept: Cell<bool>,
    /// How often the file got its name while the disk didn't keep all of it.
    linked_early: Cell<u32>,
}

impl<'a> Before for Watch<'a> {
    fn before(&self, call: Call) -> io::Result<()> {
        match call {
            Call::Fill => {
                self.is_kept.set(false);
                if mode(self.rt, "vault_blank_seen/a-new").as_str() != "600" {
                    self.open_to_others
                        .set(self.open_to_others.get().saturating_add(1));
                }
            }
            Call::Keep => self.is_kept.set(true),
            Call::Link => if !self.is_kept.get() {
                self.linked_early
                    .set(self.linked_early.get().saturating_add(1));
            },
            Call::Look | Call::Open | Call::Hold | Call::Remove => {}
        }
        Ok(())
    }
}

/// Whether a file is its owner's alone from its first moment, and is kept by the disk before it has its name.
fn is_made_well(rt: &HostRuntime) -> bool {
    let is_folder = is_folder_made(rt, "vault_blank_seen");
    let watch = Watch {
        rt,
        open_to_others: Cell::new(0),
        is_kept: Cell::new(false),
        linked_early: Cell::new(0),
    };
    let files = StandIn {
        rt,
        happens: &watch,
    };
    let is_new = brief(&make_blank(&files, "vault_blank_seen/a")) == Ok(Made::New);
    let is_page = holds_page(rt, "vault_blank_seen", "vault_blank_seen/a", b"");
    let is_private = watch.open_to_others.get() == 0 && watch.linked_early.get() == 0;
    let is_removed = fs::remove_dir_all(rt, "vault_blank_seen").is_ok();
    is_folder && is_new && is_page && is_private && is_removed
}

#[test]
fn a_file_is_private_from_its_first_moment_and_kept_before_it_has_its_name(rt: HostRuntime) {
    assert!(rt; is_made_well(&rt));
}
