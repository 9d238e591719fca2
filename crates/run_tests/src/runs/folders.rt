//! Runs over the files of a folder: a FILE is read, and the records of a replay's nodes are kept.

use crate::runs::checks::LINE;
use crate::runs::program::{FIRST_LINES, FIRST_RUN};
use crate::runs::streams::ends_so;
use std::test::Fail;
use std::{fs, io};

const FOLDER: &str = "folders_test";

const SCHEDULE: &str = "folders_test/first_run.schedule";

const DOCUMENT: &str = "folders_test/bus-7.json";

// An empty folder of this name.
pub(crate) fn make_folder(rt: &HostRuntime, folder: &str) -> io::Result<()> {
    let _ = fs::remove_dir_all(rt, folder);
    fs::create_dir(rt, folder)
}

// The FILE is read under its own name, and the input isn't; without a name, or with a dash, the input is.
#[test]
fn a_file_has_what_was_written(rt: HostRuntime) -> Result<(), Fail> {
    make_folder(&rt, FOLDER)?;
    fs::write(&rt, SCHEDULE, FIRST_RUN)?;
    fs::write(&rt, DOCUMENT, LINE)?;
    let run = (0, FIRST_LINES, "");
    let cases: [(&[&str], &[u8], (u8, &str, &str)); 6] = [
        (&["replay", SCHEDULE], b"nodes 4\n", run),
        (&["check", DOCUMENT], b"{}", (0, LINE, "")),
        (
            &["check", SCHEDULE],
            b"",
            (1, "", "mfpx: document fault 1\n"),
        ),
        (
            &["replay", DOCUMENT],
            FIRST_RUN,
            (1, "", "mfpx: line 1 fault 2\n"),
        ),
        (&["replay", "-"], FIRST_RUN, run),
        (&[], FIRST_RUN, run),
    ];
    for (words, input, wanted) in cases {
        assert!(rt; ends_so(&rt, words, input, wanted)?, "{words:?}");
    }
    fs::remove_dir_all(&rt, FOLDER)?;
    Ok(())
}

// Whether a run keeps a file for each node in the folder and prints its lines, and the next run finds records there and leaves
// them as they were.
fn keeps_records(rt: &HostRuntime, folder: &str) -> Result<bool, Fail> {
    let words = ["replay", "--db", folder, "-"];
    let is_done = ends_so(rt, &words, FIRST_RUN, (0, FIRST_LINES, ""))?;
    let kept = records_in(rt, folder)?;
    let is_found = ends_so(rt, &words, FIRST_RUN, (1, "", "mfpx: fault 55\n"))?;
    let is_same = kept.as_slice() == records_in(rt, folder)?.as_slice();
    Ok(is_done && is_found && is_same && fs::read_dir(rt, folder)?.count() == 3)
}

// The bytes of all three files.
fn records_in(rt: &HostRuntime, folder: &str) -> Result<Vec<u8>, Fail> {
    let mut all = Vec::new(rt.alloc());
    for number in 0..3 {
        let path = format!(in rt.alloc(); "{folder}/node{number}.db")?;
        all.extend_from_slice(fs::read(rt, path.as_str())?.as_slice())?;
    }
    Ok(all)
}

// No name is special to what reads the files.
#[test]
fn odd_names_are_folders(rt: HostRuntime) -> Result<(), Fail> {
    let names = [
        FOLDER,
        "file:d",
        ":memory:",
        "it's 100%20?mode=ro#1 d\u{e9}p\u{f4}t",
    ];
    for name in names {
        make_folder(&rt, name)?;
        assert!(rt; keeps_records(&rt, name)?, "{name}");
        fs::remove_dir_all(&rt, name)?;
    }
    Ok(())
}

// A faulty line is told before the folder is looked into, however many lines before it could be done: an empty folder stays empty, and
// records stay as they were.
#[test]
fn a_faulty_line_leaves_the_folder(rt: HostRuntime) -> Result<(), Fail> {
    make_folder(&rt, FOLDER)?;
    let words = ["replay", "--db", FOLDER, "-"];
    let schedule = b"nodes 3\ntimeout 0\nflush\nflash\n".as_slice();
    let faulty = (1, "", "mfpx: line 4 fault 2\n");
    assert!(rt; ends_so(&rt, &words, schedule, faulty)?);
    assert_eq!(rt; fs::read_dir(&rt, FOLDER)?.count(), 0);
    assert!(rt; ends_so(&rt, &words, FIRST_RUN, (0, FIRST_LINES, ""))?);
    let kept = records_in(&rt, FOLDER)?;
    assert!(rt; ends_so(&rt, &words, schedule, faulty)?);
    assert!(rt; kept.as_slice() == records_in(&rt, FOLDER)?.as_slice());
    fs::remove_dir_all(&rt, FOLDER)?;
    Ok(())
}

// A folder that isn't there is a device that fails, and is not made.
#[test]
fn a_missing_folder_is_not_made(rt: HostRuntime) -> Result<(), Fail> {
    let words = ["replay", "--db", "no such folder", "-"];
    assert!(rt; ends_so(&rt, &words, FIRST_RUN, (3, "", "mfpx: device\n"))?);
    assert!(rt; fs::symlink_metadata(&rt, "no such folder").is_err());
    Ok(())
}
