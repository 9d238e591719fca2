//! Clusters: what their transports are given, and what comes of what these hand over.

ghost use Rattle.std.specs.Prelude.{[], ◌<◌};

use crate::runs::transcripts::ROUND_LINES;
use cluster::{Cluster, Queues, Transport, TransportFault};
use events::{Event, WorldFault};
use replay::transcript;
use sessions::{Number, Submission};
use stable::MemStable;
use std::alloc::{AllocError, Global};
use std::test::Fail;
use store::Op;
use synod::Slot;
use tpoint::Id;
use wire::{NodeId, Nodes};
use world::World;
use world_model::RoundEnd;

pub(crate) fn node(value: u8) -> NodeId
    requires { value < 7 }
{
    NodeId::new(value).unwrap()
}

// What becomes of datagrams.
#[derive(Clone, Copy, PartialEq)]
enum Trouble {
    // No send succeeds.
    Lost,
    // Each is sent twice, and what comes first is handed over after what comes behind it.
    TurnedRound,
    // No poll succeeds.
    Unheard,
}

// Queues in trouble.
#[derive(Drop)]
struct Net {
    queues: Queues,
    trouble: Trouble,
}

impl Transport for Net {
    ghost tape = { λ _. [] };

    ghost Tells = { λ _. ⊥ };

    fn send(
        &mut self,
        alloc: Global,
        from: NodeId,
        to: NodeId,
        bytes: &[u8],
    ) -> Result<(), TransportFault> {
        if self.trouble == Trouble::Lost {
            return Err(TransportFault);
        }
        self.queues.send(alloc, from, to, bytes)?;
        self.queues.send(alloc, from, to, bytes)
    }

    fn poll(&mut self, alloc: Global, node: NodeId) -> Result<Option<Vec<u8>>, TransportFault> {
        if self.trouble == Trouble::Unheard {
            return Err(TransportFault);
        }
        behind_the_first(alloc, &mut self.queues, node)
    }
}

// What comes behind the first datagram, which waits on behind all others; or the first, where it waits alone.
fn behind_the_first(
    alloc: Global,
    queues: &mut Queues,
    node: NodeId,
) -> Result<Option<Vec<u8>>, TransportFault> {
    let first = queues.poll(alloc, node)?;
    let second = queues.poll(alloc, node)?;
    if let (Some(first), true) = (&first, second.is_some()) {
        queues.send(alloc, node, node, first.as_slice())?;
        return Ok(second);
    }
    Ok(first)
}

fn troubled(alloc: Global, trouble: Trouble) -> Result<Net, AllocError> {
    let queues = Queues::new(alloc)?;
    Ok(Net { queues, trouble })
}

fn three_nodes<T: Transport + Drop>(alloc: Global, transport: T) -> Result<Cluster<T>, WorldFault> {
    let world = World::new(alloc, Nodes::new(3).unwrap())?;
    Ok(Cluster::new(alloc, world, transport)?)
}

// Node 0 is asked to remove bus-7, and leads.
pub(crate) fn asked<T: Transport + Drop>(
    alloc: Global,
    transport: T,
) -> Result<Cluster<T>, WorldFault> {
    let mut cluster = three_nodes(alloc, transport)?;
    ask(alloc, &mut cluster)?;
    Ok(cluster)
}

fn ask<T: Transport>(alloc: Global, cluster: &mut Cluster<T>) -> Result<(), WorldFault> {
    let submission = Submission {
        client: 7,
        number: Number::new(1).unwrap(),
        op: Op::Remove(bus()),
    };
    cluster.step(
        alloc,
        Event::Submit {
            node: node(0),
            submission,
        },
    )?;
    cluster.step(alloc, Event::Timeout(node(0)))
}

fn bus() -> Id {
    Id::new(b"bus-7").unwrap()
}

/// What comes of two pumps of a cluster, the second of which has nothing left where the first one came to its end.
#[derive(Clone, Copy)]
pub(crate) struct Pumped {
    pub(crate) first: u32,
    pub(crate) second: u32,
    // whether its transcript then has the lines that were asked for, in some order, and no others
    pub(crate) is_told: bool,
    pub(crate) frames: usize,
    pub(crate) strangers: u64,
    pub(crate) failed_sends: u64,
    pub(crate) failed_polls: u64,
}

pub(crate) fn pump_twice<T: Transport + Drop>(
    alloc: Global,
    mut cluster: Cluster<T>,
    lines: &[&str],
) -> Result<Pumped, WorldFault> {
    let first = cluster.pump(alloc)?;
    let second = cluster.pump(alloc)?;
    let is_told = are_lines(told(alloc, &cluster)?, lines);
    Ok(Pumped {
        first,
        second,
        is_told,
        frames: cluster.world().frames().len(),
        strangers: cluster.strangers(),
        failed_sends: cluster.failed_sends(),
        failed_polls: cluster.failed_polls(),
    })
}

// The transcript of its run.
fn told<T: Transport>(alloc: Global, cluster: &Cluster<T>) -> Result<Vec<u8>, AllocError> {
    let world = cluster.world();
    transcript(
        alloc,
        world.outcomes(),
        world.learnt(),
        world.replies(),
        world.answers(),
    )
}

// Whether a text has these lines, in some order, and no others. No line stands twice among them.
fn are_lines(text: Vec<u8>, lines: &[&str]) -> bool {
    match str::from_utf8(text.as_slice()) {
        Ok(text) => has_lines(text, lines),
        Err(_) => false,
    }
}

pub(crate) fn has_lines(text: &str, lines: &[&str]) -> bool {
    for line in lines {
        if !has_line(text, line) {
            return false;
        }
    }
    text.lines().count() == lines.len()
}

fn has_line(text: &str, wanted: &str) -> bool {
    for line in text.lines() {
        if line == wanted {
            return true;
        }
    }
    false
}

// What is told of one request, where all nodes learn what came of it.
pub(crate) const REMOVED: [&str; 4] = [
    "learn 0 0 7:1",
    "learn 1 0 7:1",
    "learn 2 0 7:1",
    "reply 0 7:1 21",
];

// Each frame of a step and of a round is sent, and each that isn't sent is counted.
#[test]
fn clusters_send(rt: HostRuntime) -> Result<(), Fail> {
    let alloc = rt.alloc();
    let mut cluster = three_nodes(alloc, troubled(alloc, Trouble::Lost)?)?;
    assert_eq!(rt; cluster.step(alloc, Event::Timeout(node(1))), Ok(()));
    assert_eq!(rt; cluster.failed_sends(), 3);
    let end = cluster.round(alloc, node(0), &[node(0), node(2)]);
    assert_eq!(rt; end, Ok(RoundEnd::Decided(Slot::first())));
    assert_eq!(rt;
        cluster.failed_sends(),
        cluster.world().frames().len() as u64
    );
    // Nothing comes back.
    assert_eq!(rt; cluster.pump(alloc), Ok(0));
    Ok(())
}

// What is sent over queues comes back, and is delivered: all of it.
#[test]
fn one_request_over_queues(rt: HostRuntime) -> Result<(), Fail> {
    let alloc = rt.alloc();
    let cluster = asked(alloc, Queues::new(alloc)?)?;
    let run = pump_twice(alloc, cluster, REMOVED.as_slice())?;
    assert!(rt; run.is_told);
    assert_eq!(rt; (run.first, run.second, run.frames), (18, 0, 18));
    assert_eq!(rt; (run.strangers, run.failed_polls), (0, 0));
    Ok(())
}

// Whether these bytes, and nothing else, are handed over to the node next.
fn is_next(
    alloc: Global,
    queues: &mut Queues,
    to: NodeId,
    bytes: &[u8],
) -> Result<bool, TransportFault> {
    match queues.poll(alloc, to)? {
        Some(datagram) => Ok(datagram.as_slice() == bytes),
        None => Ok(false),
    }
}

// Each datagram comes to its own node, once, in the order of sending.
#[test]
fn queues_keep_the_order(rt: HostRuntime) -> Result<(), Fail> {
    let alloc = rt.alloc();
    let (first, second) = (node(0), node(1));
    let mut queues = Queues::new(alloc)?;
    queues.send(alloc, first, second, b"a")?;
    queues.send(alloc, first, first, b"b")?;
    queues.send(alloc, second, second, b"c")?;
    assert!(rt; is_next(alloc, &mut queues, second, b"a")?);
    assert!(rt; is_next(alloc, &mut queues, second, b"c")?);
    assert!(rt; is_next(alloc, &mut queues, first, b"b")?);
    assert!(rt; queues.poll(alloc, first)?.is_none() && queues.poll(alloc, second)?.is_none());
    Ok(())
}

// Repeated and turned round.
#[test]
fn datagrams_that_are_turned_round(rt: HostRuntime) -> Result<(), Fail> {
    let alloc = rt.alloc();
    let cluster = asked(alloc, troubled(alloc, Trouble::TurnedRound)?)?;
    let run = pump_twice(alloc, cluster, REMOVED.as_slice())?;
    assert!(rt; run.is_told);
    assert_eq!(rt; (run.strangers, run.failed_polls), (0, 0));
    Ok(())
}

// A poll that fails is nothing: each pump ends after a hundred passes over three nodes.
#[test]
fn polls_that_fail(rt: HostRuntime) -> Result<(), Fail> {
    let alloc = rt.alloc();
    let cluster = asked(alloc, troubled(alloc, Trouble::Unheard)?)?;
    let run = pump_twice(alloc, cluster, &[])?;
    assert!(rt; run.is_told);
    assert_eq!(rt; (run.first, run.second, run.failed_polls), (0, 0, 600));
    Ok(())
}

// Rounds need no transport: what is told of them is told of a replay.
#[test]
fn rounds_in_each_others_way(rt: HostRuntime) -> Result<(), Fail> {
    let alloc = rt.alloc();
    let mut cluster = three_nodes(alloc, troubled(alloc, Trouble::Lost)?)?;
    let (first, second, third) = (node(0), node(1), node(2));
    cluster.round(alloc, third, &[first, third])?;
    cluster.round(alloc, first, &[first, second])?;
    cluster.round(alloc, first, &[first, second])?;
    assert_eq!(rt; told(alloc, &cluster)?.as_slice(), ROUND_LINES.as_bytes());
    Ok(())
}
