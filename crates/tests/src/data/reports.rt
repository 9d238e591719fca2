//! What is said in words of faulty schedules and documents: each fault has its place, its line and what was wanted.
//!
//! The places were counted by hand in the texts.

use fault_report::{report_document, report_schedule};
use std::test::Fail;

/// Lines of schedules after `nodes 3`, each with the column of its fault, and how what was wanted begins.
const LINES: [(&str, usize, &str); 26] = [
    ("timeout 7", 9, "a node of this run is wanted: 0 to 2"),
    ("timeout", 8, "the line is `timeout NODE`"),
    ("timeout 1 2", 11, "the line is `timeout NODE`"),
    ("timeout\t1", 8, "byte 09 (hexadecimal)"),
    ("timeout 1\r", 10, "a carriage return"),
    ("foo", 1, "a line begins with one of"),
    (" timeout 1", 1, "a line begins with one of"),
    ("nodes 3", 1, "the first line that isn't empty"),
    ("deliver -1", 9, "a frame's number is wanted"),
    ("fault 0 other", 9, "`old`, `new` or `read` is wanted"),
    ("round 0 1 2 9", 13, "a node of this run is wanted"),
    ("round 0", 8, "the line is `round NODE NODE ..`"),
    ("query  count", 7, "a node of this run is wanted"),
    ("query 0 foo", 9, "one of `at`"),
    ("query", 6, "more words are wanted"),
    ("query 0 get a/b", 13, "an id is wanted"),
    (
        "query 0 at a 2020-02-30T00:00:00Z",
        14,
        "a datetime is wanted",
    ),
    (
        "query 0 cut a [2020-01-01T00:00:00Z 2019-01-01T00:00:00Z",
        15,
        "the period has no instant",
    ),
    (
        "query 0 within 2020-01-01T00:00:00Z 2021-01-01T00:00:00Z 5 0 1 1",
        58,
        "the rectangle is reversed",
    ),
    ("submit 3 0 1 remove a", 8, "a node of this run is wanted"),
    ("submit 0 256 1 remove a", 10, "a client is wanted"),
    ("submit 0 0 0 remove a", 12, "a request's number is wanted"),
    ("submit 0 0 1 putt x", 14, "one of `put`"),
    (
        "submit 0 0 1 put",
        17,
        "the line is `submit NODE CLIENT NUMBER put JSON`",
    ),
    (
        "submit 0 0 1 append a 2020-01-01T00:00:00Z 1 -0",
        46,
        "a coordinate is wanted",
    ),
    (
        "submit 0 0 1 put {\"type\":\"Featur\",\"id\":\"a\",\"temporalGeometry\":{}}",
        26,
        "document fault 3: the type is not Feature",
    ),
];

/// Documents, each with the line and the column of its fault, its number, and how what was wanted begins.
const DOCUMENTS: [(&str, usize, usize, u8, &str); 16] = [
    ("[", 1, 2, 1, "the text ends before its value does"),
    ("{\"type\":\n\"a\",}", 2, 5, 1, "no JSON text goes on so"),
    ("[]", 1, 1, 2, "a document is an object"),
    (
        "{\"type\":\"Feature\",\n\"name\":\"a\",\n\"temporalGeometry\":[]}",
        2,
        1,
        2,
        "a document has no member of this name",
    ),
    (
        "{\"type\":\"Feature\",\n\"temporalGeometry\":[]}",
        1,
        1,
        2,
        "a document lacks the member `id`",
    ),
    (
        "{ \"type\" : \"Feature\" , \"id\" : 5 , \"temporalGeometry\" : {} }",
        1,
        31,
        4,
        "an id is wanted",
    ),
    (
        "{\"type\":\"Feature\",\"id\":\"a\",\n\"temporalGeometry\":[]}",
        2,
        20,
        5,
        "`temporalGeometry` is an object",
    ),
    (
        "{\"type\":\"Feature\",\"id\":\"a\",\"temporalGeometry\":\n{\"type\":\"Point\",\"datetimes\":[],\"coordinates\":[],\"interpolation\":\"Step\"}}",
        2,
        9,
        5,
        "\"MovingPoint\" is wanted",
    ),
    (
        "{\"type\":\"Feature\",\"id\":\"a\",\"temporalGeometry\":\n{\"type\":\"MovingPoint\",\"datetimes\":5,\"coordinates\":[],\"interpolation\":\"Step\"}}",
        2,
        35,
        5,
        "an array of datetimes is wanted",
    ),
    (
        "{\"type\":\"Feature\",\"id\":\"a\",\"temporalGeometry\":\n{\"type\":\"MovingPoint\",\"datetimes\":[],\"coordinates\":[],\n\"interpolation\":\"Ste\"}}",
        3,
        17,
        6,
        "\"Discrete\", \"Step\" or \"Linear\" is wanted",
    ),
    (
        "{\"type\":\"Feature\",\"id\":\"a\",\"temporalGeometry\":\n{\"type\":\"MovingPoint\",\n\"datetimes\":[\"1969-01-01T00:00:00Z\"],\"coordinates\":[[0,0]],\"interpolation\":\"Step\"}}",
        3,
        14,
        7,
        "a datetime is wanted",
    ),
    (
        "{\"type\":\"Feature\",\"id\":\"a\",\"temporalGeometry\":\n{\"type\":\"MovingPoint\",\n\"datetimes\":[\"2020-01-01T00:00:00Z\",\"2020-01-02T00:00:00Z\"],\n\"coordinates\":[[0,0], [0, 1.5]],\"interpolation\":\"Step\"}}",
        4,
        23,
        8,
        "two whole millimetres are wanted",
    ),
    (
        "{\"type\":\"Feature\",\"id\":\"a\",\"temporalGeometry\":\n{\"type\":\"MovingPoint\",\n\"datetimes\":[],\n\"coordinates\":[[0,0]],\"interpolation\":\"Step\"}}",
        4,
        15,
        9,
        "as many coordinates as datetimes are wanted",
    ),
    (
        "{\"type\":\"Feature\",\"id\":\"a\",\"temporalGeometry\":\n{\"type\":\"MovingPoint\",\n\"datetimes\":[],\n\"coordinates\":[],\"interpolation\":\"Step\"}}",
        3,
        13,
        10,
        "one is wanted at least",
    ),
    (
        "{\"type\":\"Feature\",\"id\":\"a\",\"temporalGeometry\":\n{\"type\":\"MovingPoint\",\n\"datetimes\":[\"2020-01-01T00:00:00Z\",\n\"2020-01-01T00:00:00Z\"],\"coordinates\":[[0,0],[0,0]],\"interpolation\":\"Step\"}}",
        4,
        1,
        12,
        "a later datetime is wanted",
    ),
    // Of a member that is written twice the last counts.
    (
        "{\"type\":1,\"type\":\"Feature\",\"id\":1,\"id\":\n2,\"temporalGeometry\":1}",
        2,
        1,
        4,
        "an id is wanted",
    ),
];

/// Each faulty line is told by itself, with a caret below its column.
#[test]
fn lines(rt: HostRuntime) -> Result<(), Fail> {
    for (line, column, wanted) in LINES {
        let bytes = format!(in rt.alloc(); "nodes 3\n\n{line}\n")?;
        let told = report_schedule(rt.alloc(), "a", bytes.as_str().as_bytes())?;
        let text = told.ok_or("no fault")?;
        let begin = format!(in rt.alloc(); "a:3:{column}: fault ")?;
        assert!(rt; text.as_str().starts_with(begin.as_str()), "{line}");
        assert!(rt; text.as_str().contains(wanted), "{line}");
        let caret = format!(in rt.alloc(); "\n  | {:>column$} {wanted}", "^")?;
        assert!(rt; text.as_str().contains(caret.as_str()), "{line}");
    }
    Ok(())
}

/// So is the fault of a document.
#[test]
fn documents(rt: HostRuntime) -> Result<(), Fail> {
    for (document, line, column, code, wanted) in DOCUMENTS {
        let told = report_document(rt.alloc(), "a.json", document.as_bytes())?;
        let text = told.ok_or("no fault")?;
        let begin = format!(in rt.alloc(); "a.json:{line}:{column}: document fault {code}: ")?;
        assert!(rt; text.as_str().starts_with(begin.as_str()), "{document}");
        let caret = format!(in rt.alloc(); "\n  | {:>column$} {wanted}", "^")?;
        assert!(rt; text.as_str().contains(caret.as_str()), "{document}");
    }
    Ok(())
}

/// What is told of several lines: all of them in order, of a long line what is near its fault, and of a document its own fault.
#[test]
fn whole(rt: HostRuntime) -> Result<(), Fail> {
    let bytes =
        b"\nnodes 5\ntimeout 9\nflush\nsubmit 0 7 1 put {\"type\":\"Feature\",\"id\":\"bus-7\",\"temporalGeometry\":{\"type\":\"MovingPoint\",\"datetimes\":[],\"coordinates\":[[0,0]],\"interpolation\":\"Step\"}}\nround 1 x";
    let told = report_schedule(rt.alloc(), "day.schedule", bytes)?;
    let text = told.ok_or("no fault")?;
    assert_eq!(rt;
        text.as_str(),
        "\
day.schedule:3:9: fault 5: a word isn't what its place wants
3 | timeout 9
  |         ^ a node of this run is wanted: 0 to 4
day.schedule:5:119: fault 6: the document stands for no feature
5 | ..\"type\":\"MovingPoint\",\"datetimes\":[],\"coordinates\":[[0,0]],\"interpolation\":\"Step\"}}
  |                                                     ^ document fault 9: there are not as many datetimes as coordinates; as many coordinates as datetimes are wanted
day.schedule:6:9: fault 5: a word isn't what its place wants
6 | round 1 x
  |         ^ a node of this run is wanted: 0 to 4
"
    );
    Ok(())
}

/// Of right ones nothing is told; an empty file lacks its first line, and where that is wrong a node is one of seven.
#[test]
fn right(rt: HostRuntime) -> Result<(), Fail> {
    let alloc = rt.alloc();
    assert!(rt; report_schedule(alloc, "a", b"nodes 3\nflush\n")?.is_none());
    assert!(rt;
        report_document(
            alloc,
            "a",
            b"  {\"type\":\"Feature\",\"id\":\"a\",\"temporalGeometry\":{\"type\":\"MovingPoint\",\"datetimes\":[\"2020-01-01T00:00:00Z\"],\"coordinates\":[[0,0]],\"interpolation\":\"Step\"}}"
        )?
        .is_none()
    );
    let empty = report_schedule(alloc, "a", b"")?.ok_or("no fault")?;
    assert!(rt; empty.as_str().starts_with("a:1:1: fault 3: "));
    let text = report_schedule(alloc, "a", b"nodes 4\ntimeout 6\ntimeout 7\n")?.ok_or("no fault")?;
    assert!(rt; text.as_str().starts_with("a:1:1: fault 3: "));
    assert!(rt; text.as_str().contains("a:3:9: fault 5: "));
    assert!(rt; !text.as_str().contains("a:2:"));
    Ok(())
}
