//! Files of schema 1: moved version by version, and stopped while they move.
use super::over::Step;
use super::steps::{TestDisk, all_done, done, is_told, no_files};
use super::stops::{Trial, is_whole_where_stopped};
use sqlite::Files;
use std::alloc::Global;
use vault_tables::counts::CREATE_COUNTS;
use vault_tables::entries::old::{CREATE_OLD_ENTRIES, CREATE_OLD_ENTRIES_NUMBER};
use vault_tables::merchants::old::CREATE_OLD_MERCHANTS;
use vault_tables::records::CREATE_RECORDS;
use vault_tables::rights::old::CREATE_OLD_RIGHTS;
use vault_tables::versions::CREATE_VAULT;

/// What makes the tables of schema 1.
const FIRST_TABLES: [&str; 7] = [
    CREATE_VAULT,
    CREATE_OLD_MERCHANTS,
    CREATE_COUNTS,
    CREATE_OLD_ENTRIES,
    CREATE_OLD_ENTRIES_NUMBER,
    CREATE_RECORDS,
    CREATE_OLD_RIGHTS,
];

/// The rows of two merchants: a number under two tokens of the one and a token of the other, and a purged
/// entry.
const ROWS: &str = "INSERT INTO vault VALUES (1, 1);
INSERT INTO merchants VALUES ('shop1', 60, 0, 1000), ('shop2', 60, 0, 1000);
INSERT INTO counts VALUES ('shop1', 1, 3), ('shop1', 2, 5), ('shop1', 3, 2), ('shop2', 1, 1);
INSERT INTO entries VALUES ('shop1', '0000000000001111', '4111111111111111', 1, 1000, 1060, NULL),
('shop1', '1111111111111111', '4111111111111111', 1, 1000, 1060, NULL),
('shop1', '2222222222221111', NULL, 1, 1000, 1060, 1000),
('shop2', '1111111111111111', '4111111111111111', 1, 1000, 1060, NULL);
INSERT INTO records VALUES ('till-1', 1, 'shop1', '0000000000001111', 1),
('till-1', 2, 'shop1', '1111111111111111', 1), ('till-1', 3, 'shop1', '2222222222221111', 1),
('till-1', 4, 'shop2', '1111111111111111', 1);
INSERT INTO rights VALUES ('till-1', 'shop1', 3), ('till-1', 'shop1', 5)";

/// Files with the tables of schema 1 get these rows, and are refused.
const MADE: [Step<'static>; 3] = [Step::Change(ROWS), Step::Check, Step::Ask("")];

/// What files of schema 1 tell before they move.
const REFUSED: &str = "changed; 30 1; 30 1; ";

/// Files of schema 1, and what they told once they had their tables.
fn older(alloc: Global) -> (String, Files<TestDisk>) {
    let mut files = no_files(alloc);
    for sql in FIRST_TABLES {
        let (_told, left) = done(alloc, files, Step::Change(sql));
        files = left;
    }
    all_done(alloc, files, MADE.as_slice())
}

/// The files move one version up, and are refused by it until they have the newest.
const UPS: [Step<'static>; 7] = [
    Step::Up,
    Step::Check,
    Step::Up,
    Step::Check,
    Step::Up,
    Step::Check,
    Step::Up,
];

/// What they tell on the way.
const ON_THE_WAY: &str = "schema 2; 30 2; schema 3; 30 3; schema 4; sound 2 4 4; schema 4; ";

/// Whether files of schema 1 are refused, and tell this on their way.
fn go_up(rt: &HostRuntime) -> bool {
    let (told, base) = older(rt.alloc());
    let (on_the_way, _files) = all_done(rt.alloc(), base, UPS.as_slice());
    is_told(rt, told.as_str(), REFUSED) && is_told(rt, on_the_way.as_str(), ON_THE_WAY)
}

#[test]
fn a_file_moves_one_version_at_a_time(rt: HostRuntime) {
    assert!(rt; go_up(&rt));
}

/// The move, and a check after the crash: the files are in one of the schemas on their way.
const MOVE: Trial<'static> = Trial {
    step: Step::Migrate,
    done: "schema 4",
    seen: Step::Check,
    before: "30 1|30 2|30 3",
    after: "sound 2 4 4",
};

/// The move, and one more after the crash.
const MOVE_AGAIN: Trial<'static> = Trial {
    step: Step::Migrate,
    done: "schema 4",
    seen: Step::Migrate,
    before: "schema 4",
    after: "schema 4",
};

/// Whether files of schema 1 are refused, and a move of them that is stopped leaves what the trial says.
fn is_move_whole(rt: &HostRuntime, trial: &Trial<'_>) -> bool {
    let (told, base) = older(rt.alloc());
    is_told(rt, told.as_str(), REFUSED) && is_whole_where_stopped(rt, &base, trial)
}

#[test]
fn a_move_that_is_stopped_leaves_a_schema_on_its_way(rt: HostRuntime) {
    assert!(rt; is_move_whole(&rt, &MOVE));
}

#[test]
fn a_move_that_was_stopped_goes_on(rt: HostRuntime) {
    assert!(rt; is_move_whole(&rt, &MOVE_AGAIN));
}

/// A step from a version, and a check after the crash: the files are in that version or in the next.
fn step_up(done: &'static str, before: &'static str, after: &'static str) -> Trial<'static> {
    Trial {
        step: Step::Up,
        done,
        seen: Step::Check,
        before,
        after,
    }
}

/// Whether files of schema 1 that went up by these steps are whole after one more that is stopped, as the
/// trial says.
fn is_step_whole(rt: &HostRuntime, steps: &[Step<'_>], trial: &Trial<'_>) -> bool {
    let (_told, base) = older(rt.alloc());
    let (_told, base) = all_done(rt.alloc(), base, steps);
    is_whole_where_stopped(rt, &base, trial)
}

#[test]
fn a_step_from_schema_1_that_is_stopped_leaves_1_or_2(rt: HostRuntime) {
    assert!(rt; is_step_whole(&rt, &[], &step_up("schema 2", "30 1", "30 2")));
}

#[test]
fn a_step_from_schema_2_that_is_stopped_leaves_2_or_3(rt: HostRuntime) {
    assert!(rt; is_step_whole(&rt, &[Step::Up], &step_up("schema 3", "30 2", "30 3")));
}

#[test]
fn a_step_from_schema_3_that_is_stopped_leaves_3_or_4(rt: HostRuntime) {
    let trial = step_up("schema 4", "30 3", "sound 2 4 4");
    assert!(rt; is_step_whole(&rt, &[Step::Up, Step::Up], &trial));
}
