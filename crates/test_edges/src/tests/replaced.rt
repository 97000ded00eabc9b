//! Files of the machine that a new one replaces, and those that are written in place.

use super::held::holds;
use super::machine::{Failure, SlowMachine, Step};
use edge_io::{DiskFiles, Files, WriteFault};
use std::fs;
use std::fs::Permissions;
use std::io::ErrorKind;
use std::os::unix::fs::{MetadataExt, PermissionsExt, symlink};
use std::test::Fail;

/// What fails while `old` in a file is replaced by `new`, and what comes of it.
#[derive(Clone, Copy)]
struct Case {
    fails: Option<Failure>,
    answer: Result<(), WriteFault>,
    text: &'static str,
    /// Whether it is another file then.
    is_new: bool,
}

/// Nothing fails.
const REPLACED: Case = Case {
    fails: None,
    answer: Ok(()),
    text: "new",
    is_new: true,
};

/// Where one of these fails, the file is written in place.
const IN_PLACE: [Failure; 5] = [
    Failure(Step::Make, ErrorKind::Other),
    Failure(Step::Permit, ErrorKind::Other),
    Failure(Step::Sync, ErrorKind::InvalidInput),
    Failure(Step::Sync, ErrorKind::Unsupported),
    Failure(Step::Rename, ErrorKind::Other),
];

/// Where one of these fails, the old text stays.
const KEPT: [Failure; 6] = [
    Failure(Step::Make, ErrorKind::StorageFull),
    Failure(Step::Make, ErrorKind::QuotaExceeded),
    Failure(Step::Write, ErrorKind::Other),
    Failure(Step::Sync, ErrorKind::Other),
    Failure(Step::Rename, ErrorKind::StorageFull),
    Failure(Step::Rename, ErrorKind::QuotaExceeded),
];

/// The number that the file of this name has on its disk; none where there is no file.
fn number_of(rt: &HostRuntime, name: &str) -> Option<u64> {
    match fs::symlink_metadata(rt, name) {
        Ok(found) => Some(found.ino()),
        Err(_) => None,
    }
}

/// How many files are in the folder of this name; none where it can't be read.
fn count_in(rt: &HostRuntime, folder: &str) -> Option<u64> {
    let Ok(entries) = fs::read_dir(rt, folder) else {
        return None;
    };
    let mut count: u64 = 0;
    for entry in entries {
        if entry.is_err() {
            return None;
        }
        count = count.saturating_add(1);
    }
    Some(count)
}

/// What is answered where `new` is written into the file of this name, and a step fails so, if one is named.
fn write_new(rt: HostRuntime, fails: Option<Failure>, name: &str) -> Result<(), WriteFault> {
    let alloc = rt.alloc();
    let mut files = DiskFiles::new(SlowMachine::failing(rt, fails), alloc);
    files.write(name, b"new")
}

/// Whether this comes of the case, and nothing is left beside the file, which is alone in its folder.
fn comes_so(rt: &HostRuntime, case: Case) -> Result<bool, Fail> {
    fs::write(rt, "replaced/file", b"old")?;
    let before = number_of(rt, "replaced/file");
    let answer = write_new(rt.clone()?, case.fails, "replaced/file");
    let is_new = number_of(rt, "replaced/file") != before;
    Ok(
        answer == case.answer
            && is_new == case.is_new
            && holds(rt, "replaced/file", case.text)
            && count_in(rt, "replaced") == Some(1),
    )
}

/// The first of these failures of which something else comes than this.
fn first_other(
    rt: &HostRuntime,
    failures: &[Failure],
    answer: Result<(), WriteFault>,
    text: &'static str,
) -> Result<Option<Failure>, Fail> {
    for failure in failures {
        let case = Case {
            fails: Some(*failure),
            answer,
            text,
            is_new: false,
        };
        if !comes_so(rt, case)? {
            return Ok(Some(*failure));
        }
    }
    Ok(None)
}

/// Whether the file is replaced where nothing fails, and those failures of which something else comes than
/// a file in place, and than the old text.
fn replaced(rt: &HostRuntime) -> Result<(bool, Option<Failure>, Option<Failure>), Fail> {
    fs::create_dir_all(rt, "replaced")?;
    let is_replaced = comes_so(rt, REPLACED)?;
    let other_in_place = first_other(rt, &IN_PLACE, Ok(()), "new")?;
    let other_kept = first_other(rt, &KEPT, Err(WriteFault::Failed), "old")?;
    fs::remove_dir_all(rt, "replaced")?;
    Ok((is_replaced, other_in_place, other_kept))
}

#[test]
fn a_new_file_takes_the_place_of_the_old_one(rt: HostRuntime) -> Result<(), Fail> {
    assert_eq!(rt; replaced(&rt)?, (true, None, None));
    Ok(())
}

/// Whether a file that isn't there is made, and nothing is beside it. Where the write of it fails, nothing is left.
fn is_made_whole(rt: &HostRuntime) -> Result<(bool, bool), Fail> {
    fs::create_dir_all(rt, "made")?;
    let write_fails = Failure(Step::Write, ErrorKind::StorageFull);
    let failed = write_new(rt.clone()?, Some(write_fails), "made/file");
    let leaves_nothing = failed == Err(WriteFault::Failed) && count_in(rt, "made") == Some(0);
    let made = write_new(rt.clone()?, None, "made/file");
    let is_alone = count_in(rt, "made") == Some(1);
    let is_whole = made == Ok(()) && is_alone && holds(rt, "made/file", "new");
    fs::remove_dir_all(rt, "made")?;
    Ok((leaves_nothing, is_whole))
}

#[test]
fn a_file_that_is_not_there_is_made_whole(rt: HostRuntime) -> Result<(), Fail> {
    assert_eq!(rt; is_made_whole(&rt)?, (true, true));
    Ok(())
}

/// Whether a link stays a link, and the file has the new text that it leads to.
fn goes_by_the_link(rt: &HostRuntime) -> Result<bool, Fail> {
    fs::write(rt, "named/file", b"old")?;
    symlink(rt, "file", "named/link")?;
    let answer = write_new(rt.clone()?, None, "named/link");
    let is_link = fs::symlink_metadata(rt, "named/link")?.is_symlink();
    Ok(answer == Ok(()) && is_link && holds(rt, "named/file", "new"))
}

/// Whether a file has the new text under both of its names.
fn goes_by_both_names(rt: &HostRuntime) -> Result<bool, Fail> {
    fs::write(rt, "named/one", b"old")?;
    fs::hard_link(rt, "named/one", "named/two")?;
    let answer = write_new(rt.clone()?, None, "named/two");
    Ok(answer == Ok(()) && holds(rt, "named/one", "new") && holds(rt, "named/two", "new"))
}

/// Both, in a folder of their own.
fn goes_by_names(rt: &HostRuntime) -> Result<(bool, bool), Fail> {
    fs::create_dir_all(rt, "named")?;
    let goes = (goes_by_the_link(rt)?, goes_by_both_names(rt)?);
    fs::remove_dir_all(rt, "named")?;
    Ok(goes)
}

#[test]
fn a_link_and_a_file_of_two_names_are_written_in_place(rt: HostRuntime) -> Result<(), Fail> {
    assert_eq!(rt; goes_by_names(&rt)?, (true, true));
    Ok(())
}

/// Whether a file is replaced by one with its permissions.
fn keeps_permissions(rt: &HostRuntime) -> Result<bool, Fail> {
    fs::write(rt, "kept/file", b"old")?;
    fs::set_permissions(rt, "kept/file", Permissions::from_mode(0o640))?;
    let before = number_of(rt, "kept/file");
    let answer = write_new(rt.clone()?, None, "kept/file");
    let mode = fs::metadata(rt, "kept/file")?.permissions().mode();
    Ok(answer == Ok(()) && number_of(rt, "kept/file") != before && mode & 0o777 == 0o640)
}

/// Whether a file stays that has the first name of a new one.
fn keeps_the_first_name(rt: &HostRuntime) -> Result<bool, Fail> {
    fs::write(rt, "kept/file.new1", b"mine")?;
    let answer = write_new(rt.clone()?, None, "kept/file");
    let is_kept = holds(rt, "kept/file.new1", "mine") && holds(rt, "kept/file", "new");
    Ok(answer == Ok(()) && is_kept && count_in(rt, "kept") == Some(2))
}

/// Both, one after another in one folder.
fn keeps_both(rt: &HostRuntime) -> Result<(bool, bool), Fail> {
    fs::create_dir_all(rt, "kept")?;
    let keeps = (keeps_permissions(rt)?, keeps_the_first_name(rt)?);
    fs::remove_dir_all(rt, "kept")?;
    Ok(keeps)
}

#[test]
fn permissions_stay_and_files_beside_it(rt: HostRuntime) -> Result<(), Fail> {
    assert_eq!(rt; keeps_both(&rt)?, (true, true));
    Ok(())
}
