//! What the words do, and what comes of streams, files and archives that fail.

ghost use Rattle.std.specs.Prelude.{◌≡◌, vec_len};

use crate::runs::checks::LINE;
use crate::runs::program::{FIRST_LINES, FIRST_RUN};
use crate::runs::worlds::three_storages;
use cli::command;
use commands::{Archive, CheckedStream, Failure};
use record_files::{RecordFolder, System};
use stable::MemStable;
use std::alloc::{AllocError, Global};
use std::io::{self, Error, ErrorKind, Read, Write};
use std::test::Fail;
use wire::Nodes;

// The name under which the archive has its records.
const SHELF: &str = "records";

/// An archive of three nodes, in memory.
#[derive(Drop)]
struct Shelf {
    /// The node that has a record already; a number past the last where none has.
    used: usize,
    was_left_open: bool,
    /// How often it was opened, and settled.
    opened: u32,
    settled: u32,
}

impl Shelf {
    fn new(used: usize, was_left_open: bool) -> Shelf {
        Shelf {
            used,
            was_left_open,
            opened: 0,
            settled: 0,
        }
    }
}

impl Archive for Shelf {
    type Records = MemStable;

    /// It has no file.
    fn read(&mut self, _rt: &HostRuntime, _path: &str) -> Result<Vec<u8>, Failure> {
        Err(Failure::Device)
    }

    fn open(
        &mut self,
        rt: &HostRuntime,
        folder: &str,
        count: Nodes,
    ) -> Result<Vec<MemStable>, Failure> {
        self.opened = self.opened.saturating_add(1);
        if folder != SHELF || count.count() != 3 {
            return Err(Failure::Device);
        }
        match three_storages(rt.alloc(), self.used) {
            Ok(stores) => Ok(stores),
            Err(_) => Err(Failure::Memory),
        }
    }

    fn has_unmerged_log(
        &mut self,
        _rt: &HostRuntime,
        folder: &str,
        _count: Nodes,
    ) -> Result<bool, AllocError> {
        Ok(self.was_left_open && folder == SHELF)
    }

    fn merge_logs(&mut self, _rt: &HostRuntime, folder: &str, count: Nodes) {
        if folder == SHELF && count.count() == 3 {
            self.settled = self.settled.saturating_add(1);
        }
    }
}

/// A reader that fails at its first read.
#[derive(Drop)]
struct Unreadable;

impl Read for Unreadable {
    fn read(&mut self, _buf: &mut [u8]) -> io::Result<usize> {
        Err(Error::from(ErrorKind::PermissionDenied))
    }
}

/// A writer that takes nothing.
#[derive(Drop)]
pub(crate) struct Unwritable;

impl Write for Unwritable {
    fn write(&mut self, _buf: &[u8]) -> io::Result<usize> {
        Err(Error::from(ErrorKind::BrokenPipe))
    }

    fn flush(&mut self) -> io::Result<()> {
        Err(Error::from(ErrorKind::BrokenPipe))
    }
}

/// A writer that takes everything, and can't hand it on.
#[derive(Drop)]
struct Unflushed;

impl Write for Unflushed {
    fn write(&mut self, buf: &[u8]) -> io::Result<usize> {
        Ok(buf.len())
    }

    fn flush(&mut self) -> io::Result<()> {
        Err(Error::from(ErrorKind::BrokenPipe))
    }
}

/// A writer that notes the parts that it takes, and fails once it has taken so many.
#[derive(Drop)]
struct Parted {
    most: usize,
    lengths: Vec<usize>,
}

impl Parted {
    fn new(alloc: Global, most: usize) -> Parted {
        Parted {
            most,
            lengths: Vec::new(alloc),
        }
    }
}

impl Write for Parted {
    fn write(&mut self, buf: &[u8]) -> io::Result<usize> {
        if self.lengths.len() >= self.most {
            return Err(Error::from(ErrorKind::BrokenPipe));
        }
        self.lengths.push(buf.len())?;
        Ok(buf.len())
    }

    fn flush(&mut self) -> io::Result<()> {
        Ok(())
    }
}

pub(crate) fn owned(rt: &HostRuntime, words: &[&str]) -> Result<Vec<String>, Fail> {
    let mut all = Vec::new(rt.alloc());
    for word in words {
        all.push(String::from_str(rt.alloc(), word)?)?;
    }
    Ok(all)
}

/// The status of a run over these streams, and the writers as it leaves them.
///
/// Nothing else calls the program: what its contract names is looked at here, once.
fn run_over<A: Archive, R: Read + Drop, O: Write + Drop, E: Write + Drop>(
    rt: &HostRuntime,
    archive: &mut A,
    words: &[&str],
    input: R,
    out: O,
    err: E,
) -> Result<(u8, O, E), Fail> {
    let words = owned(rt, words)?;
    let mut input = CheckedStream::new(input);
    let mut out = CheckedStream::new(out);
    let mut err = CheckedStream::new(err);
    let status = command(rt, words, &mut input, &mut out, &mut err, archive);
    Ok((status, out.into_inner(), err.into_inner()))
}

/// The status, and what went to each stream, over the files of the system.
pub(crate) fn answer(
    rt: &HostRuntime,
    words: &[&str],
    input: &[u8],
) -> Result<(u8, Vec<u8>, Vec<u8>), Fail> {
    answer_over(rt, &mut RecordFolder::new(System), words, input)
}

/// The same over this archive.
fn answer_over<A: Archive>(
    rt: &HostRuntime,
    archive: &mut A,
    words: &[&str],
    input: &[u8],
) -> Result<(u8, Vec<u8>, Vec<u8>), Fail> {
    let out = Vec::new(rt.alloc());
    run_over(rt, archive, words, input, out, Vec::new(rt.alloc()))
}

/// Whether a run of these words on this input has this status, and these texts in its streams.
pub(crate) fn ends_so(
    rt: &HostRuntime,
    words: &[&str],
    input: &[u8],
    wanted: (u8, &str, &str),
) -> Result<bool, Fail> {
    Ok(is_so(answer(rt, words, input)?, wanted))
}

fn is_so(answer: (u8, Vec<u8>, Vec<u8>), wanted: (u8, &str, &str)) -> bool {
    let (status, out, err) = answer;
    let (wanted_status, wanted_out, wanted_err) = wanted;
    status == wanted_status
        && out.as_slice() == wanted_out.as_bytes()
        && err.as_slice() == wanted_err.as_bytes()
}

/// Whether a run tells that a device fails, where the input is read and the text is written so.
pub(crate) fn tells_a_device<R: Read + Drop, O: Write + Drop>(
    rt: &HostRuntime,
    words: &[&str],
    input: R,
    out: O,
) -> Result<bool, Fail> {
    let files = &mut RecordFolder::new(System);
    let (status, _out, err) = run_over(rt, files, words, input, out, Vec::new(rt.alloc()))?;
    Ok(status == 3 && err.as_slice() == b"mfpx: device\n".as_slice())
}

type Ending = (u8, &'static str, &'static str);

const USAGE: Ending = (2, "", "mfpx: usage\n");

const DEVICE: Ending = (3, "", "mfpx: device\n");

// words, the input, and how the run ends; a script of `check` lets memory run out
const ENDINGS: [(&[&str], &str, Ending); 14] = [
    (&[], "", (1, "", "mfpx: line 1 fault 3\n")),
    (&["replay", "-"], "\n\n", (1, "", "mfpx: line 1 fault 3\n")),
    (
        &["replay", "-"],
        "nodes 4\n",
        (1, "", "mfpx: line 1 fault 3\n"),
    ),
    (
        &["replay", "-"],
        "nodes 3\ndeliver 0\n",
        (1, "", "mfpx: line 2 fault 51\n"),
    ),
    (&["check", "-"], "{}", (1, "", "mfpx: document fault 2\n")),
    (
        &["check", "-"],
        TWICE,
        (1, "", "mfpx: document fault 12 at 1\n"),
    ),
    (&["-"], "nodes 3\n", USAGE),
    (&["play", "-"], "nodes 3\n", USAGE),
    (
        &["replay", "--db", "a", "--db", "a", "-"],
        "nodes 3\n",
        USAGE,
    ),
    (&["check", "no such file", "-"], "nodes 3\n", USAGE),
    (&["help"], "nodes 3\n", USAGE),
    (&["--help"], "nodes 3\n", USAGE),
    // a file that isn't there, and a folder
    (&["replay", "no such file"], "nodes 3\n", DEVICE),
    (&["replay", "."], "nodes 3\n", DEVICE),
];

// a document with one datetime twice
const TWICE: &str = concat!(
    r#"{"id":"bus-7","temporalGeometry":{"coordinates":[[0,0],[10,5]],"#,
    r#""datetimes":["2020-01-01T00:00:00Z","2020-01-01T00:00:00Z"],"#,
    r#""interpolation":"Linear","type":"MovingPoint"},"type":"Feature"}"#
);

#[test]
fn statuses_and_their_lines(rt: HostRuntime) -> Result<(), Fail> {
    assert!(rt; ends_so(&rt, &["check", "-"], LINE.as_bytes(), (0, LINE, ""))?);
    for (words, input, wanted) in ENDINGS {
        assert!(rt; ends_so(&rt, words, input.as_bytes(), wanted)?, "{words:?}");
    }
    Ok(())
}

#[test]
fn streams_that_fail(rt: HostRuntime) -> Result<(), Fail> {
    assert!(rt; tells_a_device(&rt, &[], Unreadable, Vec::new(rt.alloc()))?);
    assert!(rt; tells_a_device(&rt, &[], FIRST_RUN, Unflushed)?);
    Ok(())
}

// 4,000 answers of 19 bytes: a part has room for 3,449 of them.
#[test]
fn transcripts_go_out_in_parts(rt: HostRuntime) -> Result<(), Fail> {
    let mut schedule = Vec::new(rt.alloc());
    schedule.extend_from_slice(b"nodes 3\n")?;
    for _ in 0..4_000 {
        schedule.extend_from_slice(b"query 0 count\n")?;
    }
    let files = &mut RecordFolder::new(System);
    let out = Parted::new(rt.alloc(), 2);
    let (status, out, _err) = run_over(
        &rt,
        files,
        &[],
        schedule.as_slice(),
        out,
        Vec::new(rt.alloc()),
    )?;
    assert_eq!(rt; status, 0);
    assert!(rt; out.lengths.as_slice() == [65_531, 10_469].as_slice());
    // the second part is not taken
    let out = Parted::new(rt.alloc(), 1);
    assert!(rt; tells_a_device(&rt, &[], schedule.as_slice(), out)?);
    // the run ends at its last line: no part has gone out
    schedule.extend_from_slice(b"deliver 0\n")?;
    let out = Parted::new(rt.alloc(), 2);
    let (status, out, _err) = run_over(
        &rt,
        files,
        &[],
        schedule.as_slice(),
        out,
        Vec::new(rt.alloc()),
    )?;
    assert_eq!(rt; (status, out.lengths.len()), (1, 0));
    Ok(())
}

/// The status where nothing can be told, and whether nothing was printed.
fn untold(rt: &HostRuntime, words: &[&str], input: &[u8]) -> Result<(u8, bool), Fail> {
    let out = Vec::new(rt.alloc());
    let files = &mut RecordFolder::new(System);
    let (status, out, _err) = run_over(rt, files, words, input, out, Unwritable)?;
    Ok((status, out.is_empty()))
}

#[test]
fn an_err_that_fails_leaves_the_status(rt: HostRuntime) -> Result<(), Fail> {
    // the words, the input, and the status
    let cases: [(&[&str], &[u8], u8); 4] = [
        (&[], b"nodes 4\n", 1),
        (&["check", "-"], b"{}", 1),
        (&["help"], b"", 2),
        (&["replay", "no such file"], b"", 3),
    ];
    for (words, input, status) in cases {
        assert_eq!(rt; untold(&rt, words, input)?, (status, true));
    }
    Ok(())
}

/// Whether a run of this schedule over such an archive ends so, and how often the archive was opened and settled.
fn ends_over(
    rt: &HostRuntime,
    shelf: Shelf,
    schedule: &[u8],
    wanted: (u8, &str, &str),
) -> Result<(bool, u32, u32), Fail> {
    let mut shelf = shelf;
    let answer = answer_over(rt, &mut shelf, &["replay", "--db", SHELF, "-"], schedule)?;
    Ok((is_so(answer, wanted), shelf.opened, shelf.settled))
}

#[test]
fn runs_over_an_archive(rt: HostRuntime) -> Result<(), Fail> {
    let done = (0, FIRST_LINES, "");
    let not_empty = (1, "", "mfpx: fault 55\n");
    // the node that has a record, whether it was left open, how the run ends, and how often the archive was settled
    let cases = [
        (3, false, done, 1),
        (3, true, done, 1),
        (1, false, not_empty, 1),
        // a crash had left it so: nothing is changed there
        (1, true, not_empty, 0),
    ];
    for (used, was_left_open, wanted, settled) in cases {
        let shelf = Shelf::new(used, was_left_open);
        assert_eq!(rt;
            ends_over(&rt, shelf, FIRST_RUN, wanted)?,
            (true, 1, settled)
        );
    }
    Ok(())
}

#[test]
fn archives_that_are_not_opened(rt: HostRuntime) -> Result<(), Fail> {
    // one that has no room for so many nodes
    let device = (3, "", "mfpx: device\n");
    let shelf = Shelf::new(3, false);
    assert_eq!(rt; ends_over(&rt, shelf, b"nodes 5\n", device)?, (true, 1, 0));
    // the lines are read before
    let faulty = (1, "", "mfpx: line 2 fault 2\n");
    let shelf = Shelf::new(3, false);
    assert_eq!(rt;
        ends_over(&rt, shelf, b"nodes 3\nflash\n", faulty)?,
        (true, 0, 0)
    );
    Ok(())
}
