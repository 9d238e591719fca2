//! Loopbacks: a schedule's run whose frames go through a transport.

ghost use Rattle.std.specs.Prelude.{◌≡◌, ◌≢◌, ◌⊎◌, IfErr, IfOk};
ghost use Rattle.cluster.specs.ClusterViews.{cluster_of};
ghost use Rattle.commands.specs.Works.{IsJoined, IsLooped, IsLoopedOver, IsUnread, LoopStops, LoopStopsOver};

use crate::failures::replay_failure;
use crate::replays::read_schedule;
use crate::{Binder, Failure};
use cluster::{Cluster, Transport};
use replay::run_through;
use schedule::Schedule;
use std::alloc::Global;
use wire::Nodes;
use world::World;

/// The text of the schedule that the bytes spell, run through a transport of its nodes. It is bound once the schedule is parsed.
pub fn loopback<B: Binder>(rt: &HostRuntime, binder: &B, bytes: &[u8]) -> Result<Vec<u8>, Failure>
    ensures looped { IfOk result (λ text. IsLooped B.binds B.Bound.Transport bytes.now text.items) }
    ensures ends { IfErr result (λ failure. failure ≢ Failure.Memory → failure ≢ Failure.Device
        → IsUnread bytes.now failure ⊎ LoopStops B.binds B.Bound.Transport bytes.now failure) }
    ensures no_usage { IfErr result (λ failure. failure ≢ Failure.Usage) }
{
    let schedule = read_schedule(rt.alloc(), bytes)?;
    let transport = binder.bind(rt, schedule.nodes())?;
    run_through_transport(rt.alloc(), schedule, transport)
}

/// The transcript of the schedule's run over a fresh cluster whose frames go through this transport, and behind it how many datagrams
/// were strangers.
fn run_through_transport<T: Transport + Drop>(
    alloc: Global,
    schedule: Schedule,
    transport: T,
) -> Result<Vec<u8>, Failure>
    ensures makes { IfOk result (λ text. IsLoopedOver T.Transport transport schedule text.items) }
    ensures ends { IfErr result (λ failure. failure ≢ Failure.Memory
        → LoopStopsOver T.Transport transport schedule failure) }
{
    let mut cluster = start_cluster(alloc, schedule.nodes(), transport)?;
    match run_through(alloc, schedule, &mut cluster) {
        Ok(text) => Ok(text),
        Err(fault) => Err(replay_failure(fault)),
    }
}

/// A fresh world of so many nodes, whose frames go through the transport.
fn start_cluster<T: Transport + Drop>(
    alloc: Global,
    count: Nodes,
    transport: T,
) -> Result<Cluster<T>, Failure>
    ensures fresh { IfOk result (λ cluster. IsJoined count transport (cluster_of cluster)) }
    ensures memory { IfErr result (λ failure. failure ≡ Failure.Memory) }
{
    match World::new(alloc, count) {
        Ok(world) => Ok(Cluster::new(alloc, world, transport)?),
        Err(_) => Err(Failure::Memory),
    }
}
