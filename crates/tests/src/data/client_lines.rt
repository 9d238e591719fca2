//! Lines of clients: what they ask for, their faults, and the answers.

use clients::{ClientAnswer, ClientLine, Status, read_line};
use schedule::{ReplayCause, ScheduleFault};
use std::alloc::Global;
use std::test::Fail;
use store::{Op, Query};
use tpoint::Id;

/// Lines, and the code of each one's fault.
const FAULTY: [(&[u8], u8); 14] = [
    (b"", 2),
    (b"submit", 2),
    (b"stat", 2),
    (b"status ", 2),
    (b"last 256", 5),
    (b"last 07", 5),
    (b"submit 7 0 remove bus-7", 5),
    (b"submit 7 1 remove", 4),
    (b"submit 7 1 drop bus-7", 2),
    (b"submit 7 1 put {}", 6),
    (b"submit 7 1 remove bus\x007", 1),
    (b"query at bus-7", 4),
    (b"query get bus-7 from 65537", 4),
    (b"query get from 07", 4),
];

#[test]
fn faults(rt: HostRuntime) {
    for (line, code) in FAULTY {
        let found = match read_line(rt.alloc(), line) {
            Err(ReplayCause::Schedule(fault)) => fault.code(),
            _ => 0,
        };
        assert_eq!(rt; found, code, "{line:?}");
    }
}

#[test]
fn submits(rt: HostRuntime) -> Result<(), Fail> {
    let read = read_line(rt.alloc(), b"submit 7 1 remove bus-7")
        .ok()
        .ok_or("a line")?;
    match &read {
        ClientLine::Submit(submission) => {
            assert!(rt; submission.client == 7);
            assert!(rt; submission.number.value() == 1);
            let removal = Op::Remove(Id::new(b"bus-7").ok_or("an id")?);
            assert!(rt; submission.op == removal);
        }
        _ => return Err("no submission".into()),
    }
    Ok(())
}

/// The position from which the id `bus-7` or `from` is asked for, or 0 for none.
fn position_of(alloc: Global, line: &[u8]) -> Option<u32> {
    let read = read_line(alloc, line).ok()?;
    match &read {
        ClientLine::Query { query, from } => match query {
            Query::Get(_) => Some(from.unwrap_or(0)),
            _ => None,
        },
        _ => None,
    }
}

#[test]
fn queries(rt: HostRuntime) {
    assert!(rt; position_of(rt.alloc(), b"query get bus-7") == Some(0));
    assert!(rt; position_of(rt.alloc(), b"query get bus-7 from 12") == Some(12));
    assert!(rt; position_of(rt.alloc(), b"query get from") == Some(0));
    assert!(rt; position_of(rt.alloc(), b"query get from from 65536") == Some(65536));
}

#[test]
fn others(rt: HostRuntime) {
    let is_status = match read_line(rt.alloc(), b"status") {
        Ok(ClientLine::Status) => true,
        _ => false,
    };
    assert!(rt; is_status);
    let is_last = match read_line(rt.alloc(), b"last 7") {
        Ok(ClientLine::Last(client)) => client == 7,
        _ => false,
    };
    assert!(rt; is_last);
}

/// Answers, and the line of each.
#[test]
fn answers(rt: HostRuntime) -> Result<(), Fail> {
    let status = Status {
        node: 1,
        position: 8,
        horizon: 9,
        leader: None,
        waiting: 2,
    };
    let answers: [(ClientAnswer, &[u8]); 7] = [
        (
            ClientAnswer::Reply {
                client: 7,
                number: 1,
                code: 0,
                position: 1,
            },
            b"reply 7:1 0 1\n",
        ),
        (
            ClientAnswer::Refused {
                client: 7,
                number: 1,
                code: 44,
            },
            b"refuse 7:1 44\n",
        ),
        (
            ClientAnswer::Text {
                position: 1,
                text: b"at 10/3 5/3",
            },
            b"answer 1 at 10/3 5/3\n",
        ),
        (
            ClientAnswer::Last {
                client: 7,
                number: 3,
            },
            b"last 7 3\n",
        ),
        (
            ClientAnswer::Status(status),
            b"status node 1 position 8 horizon 9 leader none waiting 2\n",
        ),
        (
            ClientAnswer::Status(Status {
                leader: Some(0),
                ..status
            }),
            b"status node 1 position 8 horizon 9 leader 0 waiting 2\n",
        ),
        (ClientAnswer::Fault { code: 4 }, b"fault 4\n"),
    ];
    for (answer, line) in &answers {
        assert_eq!(rt; answer.spell(rt.alloc())?.as_slice(), *line);
    }
    Ok(())
}
