//! Words of the command line: what they ask for, and what asks for nothing.

use crate::runs::streams::owned;
use args::{Source, WordsFault, Work, job_of};
use std::test::Fail;

/// Whether the words ask for this work, on this file or on the input, with records in this folder or in none.
fn ask_for(
    rt: &HostRuntime,
    words: &[&str],
    work: Work,
    file: Option<&str>,
    folder: Option<&str>,
) -> Result<bool, Fail> {
    let words = owned(rt, words)?;
    let job = job_of(rt.alloc(), words.as_slice())?;
    let named = match job.source {
        Source::Input => None,
        Source::File(name) => Some(name),
    };
    Ok(job.work == work && named == file && job.folder == folder)
}

/// Whether the words are none of the forms.
fn are_no_form(rt: &HostRuntime, words: &[&str]) -> Result<bool, Fail> {
    let words = owned(rt, words)?;
    Ok(job_of(rt.alloc(), words.as_slice()).err() == Some(WordsFault::NoForm))
}

// words, their work, and the file that they name, if they name one
const JOBS: [(&[&str], Work, Option<&str>); 12] = [
    (&[], Work::Replay, None),
    (&["replay", "-"], Work::Replay, None),
    (&["replay", "--", "-"], Work::Replay, None),
    (&["check", "-"], Work::Check, None),
    (&["check", "--", "-"], Work::Check, None),
    (
        &["replay", "run.schedule"],
        Work::Replay,
        Some("run.schedule"),
    ),
    (&["check", "bus-7.json"], Work::Check, Some("bus-7.json")),
    (&["loopback", "-"], Work::Loopback, None),
    // names that are also something else
    (&["loopback", "replay"], Work::Loopback, Some("replay")),
    (&["check", "replay"], Work::Check, Some("replay")),
    (&["replay", "--", "-x"], Work::Replay, Some("-x")),
    (&["replay", ""], Work::Replay, Some("")),
];

#[test]
fn words_and_their_jobs(rt: HostRuntime) -> Result<(), Fail> {
    for (words, work, file) in JOBS {
        assert!(rt; ask_for(&rt, words, work, file, None)?, "{words:?}");
    }
    Ok(())
}

const NONE: [&[&str]; 38] = [
    &[""],
    &["-"],
    &["--"],
    &["play", "-"],
    &["Replay", "-"],
    &["replay"],
    &["replay", "-", "-"],
    &["replay", "a", "b"],
    &["replay", "-", "replay", "-"],
    &["replay", "--unknown", "-"],
    &["replay", "-x", "-"],
    &["Check", "-"],
    &["check"],
    &["check", "-", "-"],
    &["check", "a", "b"],
    &["check", "replay", "-"],
    &["replay", "check", "-"],
    &["check", "-x", "-"],
    // a check keeps no records, and an option is given once, with its value
    &["check", "--db=records", "-"],
    &["check", "-", "--db", "records"],
    &["replay", "--db", "a", "--db", "b", "-"],
    &["replay", "--db=a", "--db=a", "-"],
    &["replay", "-", "--db"],
    &["replay", "--db", "-"],
    &["replay", "--db=records"],
    &["replay", "--d=records", "-"],
    &["--db=records", "replay", "-"],
    &["--db=records"],
    // nor does a loopback
    &["loopback", "-", "--db", "records"],
    &["loopback"],
    // calls for help and for the version
    &["--help"],
    &["-h"],
    &["help"],
    &["help", "replay"],
    &["replay", "--help"],
    &["check", "--help"],
    &["--version"],
    &["-V"],
];

#[test]
fn words_that_are_none_of_the_forms(rt: HostRuntime) -> Result<(), Fail> {
    for words in NONE {
        assert!(rt; are_no_form(&rt, words)?, "{words:?}");
    }
    Ok(())
}

// words of a replay, the file that they name, if they name one, and the folder that they name for the records
const FOLDERS: [(&[&str], Option<&str>, &str); 6] = [
    (&["replay", "-", "--db", "records"], None, "records"),
    (&["replay", "--db", "records", "-"], None, "records"),
    (&["replay", "--db=records", "-"], None, "records"),
    (&["replay", "-", "--db=a=b"], None, "a=b"),
    (&["replay", "--db=--db", "-"], None, "--db"),
    (
        &["replay", "--db=records", "--", "--db=other"],
        Some("--db=other"),
        "records",
    ),
];

#[test]
fn words_and_their_folders(rt: HostRuntime) -> Result<(), Fail> {
    for (words, file, folder) in FOLDERS {
        assert!(rt;
            ask_for(&rt, words, Work::Replay, file, Some(folder))?,
            "{words:?}"
        );
    }
    Ok(())
}
