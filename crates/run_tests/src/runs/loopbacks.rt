//! Schedules over clusters whose nodes have sockets.

ghost use Rattle.std.specs.Prelude.{◌≡◌, ◌⊎◌, IfErr};

use crate::runs::clusters::{REMOVED, asked, has_lines, node, pump_twice};
use cluster::Transport;
use commands::{Binder, Failure, loopback};
use events::WorldFault;
use schedule::{ReplayCause, ReplayFault, ScheduleFault};
use std::alloc::Global;
use std::net::{IpAddr, Ipv4Addr, SocketAddr, UdpSocket};
use std::test::Fail;
use udp_transport::Sockets;
use wire::Nodes;

// the main job
const FIRST_RUN: &[u8] = b"nodes 3\nsubmit 0 7 1 remove bus-7\ntimeout 0\nflush\n";

// what is told of it, the last line apart
const FIRST_LINES: [&str; 4] = REMOVED;

// what is told of it where seven nodes learn it, and the last has asked
const LEARNT_BY_SEVEN: [&str; 8] = [
    "learn 0 0 7:1",
    "learn 1 0 7:1",
    "learn 2 0 7:1",
    "learn 3 0 7:1",
    "learn 4 0 7:1",
    "learn 5 0 7:1",
    "learn 6 0 7:1",
    "reply 6 7:1 21",
];

// Binds a socket for each node.
struct LocalSockets;

impl Binder for LocalSockets {
    type Bound = Sockets;

    fn bind(&self, rt: &HostRuntime, count: Nodes) -> Result<Sockets, Failure> {
        bound(rt, count)
    }
}

// The text of a schedule whose nodes have sockets.
fn looped(rt: &HostRuntime, schedule: &[u8]) -> Result<Vec<u8>, Failure> {
    loopback(rt, &LocalSockets, schedule)
}

fn bound(rt: &HostRuntime, count: Nodes) -> Result<Sockets, Failure>
    ensures { IfErr result (λ failure. (failure ≡ Failure.Device) ⊎ (failure ≡ Failure.Memory)) }
{
    match Sockets::bind(rt, rt.alloc(), count) {
        Ok(sockets) => Ok(sockets),
        Err(_) => Err(Failure::Device),
    }
}

// Whether it has these lines, in some order, and then that of its strangers.
fn is_looped(rt: &HostRuntime, schedule: &[u8], lines: &[&str]) -> bool {
    match looped(rt, schedule) {
        Ok(text) => end_with_strangers(text.as_slice(), lines),
        Err(_) => false,
    }
}

/// Whether these lines come, in some order, and last that of the strangers, however many others send to the sockets.
pub(crate) fn end_with_strangers(text: &[u8], lines: &[&str]) -> bool {
    let Ok(text) = str::from_utf8(text) else {
        return false;
    };
    match text.split_once("strangers ") {
        Some((others, number)) => number.ends_with('\n')
            && number.lines().count() == 1
            && has_lines(others, lines),
        None => false,
    }
}

// a schedule, and what is told of it
const ROUNDS: [(&[u8], [&str; 2]); 3] = [
    (
        b"nodes 3\nround 0 0 1\n",
        ["learn 0 0 noop", "round 0 decided 0"],
    ),
    (
        b"nodes 5\nround 4 2 3 4\n",
        ["learn 4 0 noop", "round 4 decided 0"],
    ),
    (
        b"nodes 7\nround 6 3 4 5 6\n",
        ["learn 6 0 noop", "round 6 decided 0"],
    ),
];

// No datagram of these few is lost on the way. Five nodes and seven have as many sockets, and the last of them is heard.
#[test]
fn schedules_through_sockets(rt: HostRuntime) {
    assert!(rt; is_looped(&rt, FIRST_RUN, FIRST_LINES.as_slice()));
    for (schedule, lines) in ROUNDS {
        assert!(rt; is_looped(&rt, schedule, lines.as_slice()), "{schedule:?}");
    }
    let seven = b"nodes 7\nsubmit 6 7 1 remove bus-7\ntimeout 6\nflush\n";
    assert!(rt; is_looped(&rt, seven.as_slice(), LEARNT_BY_SEVEN.as_slice()));
}

// Bytes that are no schedule, and a line that can't be done.
#[test]
fn loopbacks_that_stop(rt: HostRuntime) {
    for (schedule, line, cause) in [
        (
            b"nodes 4\n".as_slice(),
            1,
            ReplayCause::Schedule(ScheduleFault::NodesLine),
        ),
        (
            b"nodes 3\n\ndeliver 0\n",
            3,
            ReplayCause::World(WorldFault::NoSuchFrame),
        ),
    ] {
        let failure = looped(&rt, schedule).err();
        assert_eq!(rt;
            failure,
            Some(Failure::Schedule(ReplayFault { line, cause }))
        );
    }
}

// Sends each socket what none of its nodes has sent.
fn send_foreign(rt: &HostRuntime, sockets: &Sockets) -> Result<(), Fail> {
    let foreign = UdpSocket::bind(rt, SocketAddr::from((Ipv4Addr::LOCALHOST, 0)))?;
    let longest = [0x4D; 1000];
    for value in 0..3 {
        if let Some(address) = sockets.address(node(value)) {
            for bytes in [b"".as_slice(), b"MP", longest.as_slice()] {
                let _sent = foreign.send_to(bytes, address);
            }
        }
    }
    Ok(())
}

// What others send to the sockets becomes no Deliver.
#[test]
fn foreign_datagrams(rt: HostRuntime) -> Result<(), Fail> {
    let sockets = bound(&rt, Nodes::new(3).unwrap())?;
    send_foreign(&rt, &sockets)?;
    let run = pump_twice(rt.alloc(), asked(rt.alloc(), sockets)?, REMOVED.as_slice())?;
    assert!(rt; run.is_told);
    assert_eq!(rt; (run.first, run.failed_sends, run.failed_polls), (18, 0, 0));
    assert!(rt; run.strangers > 0 && run.strangers <= 9);
    Ok(())
}

// Puts of the most points, as many as may wait at a node.
fn puts_at_once(alloc: Global) -> Result<String, Fail> {
    let mut times = String::new(alloc);
    let mut places = String::new(alloc);
    for second in 0..512u32 {
        let comma = if second == 0 { "" } else { "," };
        let (minutes, seconds) = (second / 60, second % 60);
        let time = format!(in alloc; "{comma}\"2020-01-01T00:{minutes:02}:{seconds:02}Z\"")?;
        times.push_str(time.as_str())?;
        let place = format!(in alloc; "{comma}[{second},0]")?;
        places.push_str(place.as_str())?;
    }
    let mut schedule = String::from_str(alloc, "nodes 3\ntimeout 0\nflush\n")?;
    for number in 1..=64 {
        let line = format!(in alloc;
            "submit 0 7 {number} put {{\"type\":\"Feature\",\"id\":\"bus-{number}\",\
\"temporalGeometry\":{{\"type\":\"MovingPoint\",\"datetimes\":[{times}],\"coordinates\":[{places}],\
\"interpolation\":\"Linear\"}}}}\n"
        )?;
        schedule.push_str(line.as_str())?;
    }
    schedule.push_str("flush\n")?;
    Ok(schedule)
}

// How many of the lines tell a reply.
fn replies(text: &[u8]) -> usize {
    match str::from_utf8(text) {
        Ok(text) => text
            .lines()
            .filter(|line| line.starts_with("reply "))
            .count(),
        Err(_) => 0,
    }
}

// What is sent between two flushes is more than the system's buffers hold, and each frame comes.
#[test]
fn more_than_a_buffer_holds(rt: HostRuntime) -> Result<(), Fail> {
    let schedule = puts_at_once(rt.alloc())?;
    let text = looped(&rt, schedule.as_bytes())?;
    assert_eq!(rt; replies(text.as_slice()), 64);
    Ok(())
}

// More than a buffer holds is sent before the first poll. It comes to its own node, once, in the order of sending.
#[test]
fn sockets_keep_what_has_come(rt: HostRuntime) -> Result<(), Fail> {
    let alloc = rt.alloc();
    let (first, second) = (node(0), node(1));
    let mut sockets = bound(&rt, Nodes::new(3).unwrap())?;
    let mut bytes = [0; 10_000];
    for number in 0..100 {
        bytes[0] = number;
        assert!(rt; sockets.send(alloc, first, second, bytes.as_slice()).is_ok());
    }
    assert!(rt; matches!(sockets.poll(alloc, first), Ok(None)));
    for number in 0..100 {
        let come = sockets.poll(alloc, second)?.ok_or("a datagram")?;
        assert_eq!(rt; (come.len(), come.first()), (bytes.len(), Some(&number)));
    }
    assert!(rt; matches!(sockets.poll(alloc, second), Ok(None)));
    Ok(())
}

// There is no node of a number beyond the last, so nothing is sent to it and it has no address.
#[test]
fn sockets_of_three(rt: HostRuntime) -> Result<(), Fail> {
    let alloc = rt.alloc();
    let (first, fourth) = (node(0), node(3));
    let mut sockets = bound(&rt, Nodes::new(3).unwrap())?;
    assert!(rt; sockets.address(fourth).is_none());
    let at_home = match sockets.address(first) {
        Some(address) => address.ip() == IpAddr::V4(Ipv4Addr::LOCALHOST),
        None => false,
    };
    assert!(rt; at_home);
    assert!(rt; sockets.send(alloc, first, fourth, b"none").is_err());
    assert!(rt; sockets.send(alloc, fourth, first, b"none").is_err());
    assert!(rt; sockets.poll(alloc, fourth).is_err());
    assert!(rt; matches!(sockets.poll(alloc, first), Ok(None)));
    Ok(())
}
