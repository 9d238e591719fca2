//! Requests that three nodes carry out, frame by frame.

ghost use Rattle.std.specs.Prelude.{◌≡◌, ◌≤◌, IfErr};

use super::fleet::name;
use super::requests::CLIENT;
use crate::fault::Fault;
use cluster::{Cluster, Queues};
use events::Event;
use sessions::{Number, Submission};
use stable::MemStable;
use std::alloc::Global;
use store::Op;
use wire::{NodeId, Nodes};
use world::World;

/// So many requests of the client are made at a time, as many as may wait.
const BATCH: u16 = 64;

/// How many frames are delivered where a client asks for so much, one batch after another, and all frames are flushed each time.
///
/// Its feature is removed, again and again; as there is none, nothing but the log grows.
pub fn flushed_number(alloc: Global, requests: u16) -> Result<u64, Fault>
    ensures { IfErr result (λ fault. fault ≡ Fault.Memory) }
{
    let mut world = World::new(alloc, Nodes::new(3).unwrap())?;
    flush_batches(alloc, &mut world, requests)
}

fn flush_batches(alloc: Global, world: &mut World<MemStable>, requests: u16) -> Result<u64, Fault>
    ensures { IfErr result (λ fault. fault ≡ Fault.Memory) }
{
    world.step(alloc, Event::Timeout(leader()))?;
    let mut delivered = 0u64;
    for earlier in 0..requests {
        if earlier % BATCH == 0 {
            delivered = delivered.wrapping_add(u64::from(world.flush(alloc)?));
        }
        world.step(alloc, submission(u64::from(earlier) + 1))?;
    }
    Ok(delivered.wrapping_add(u64::from(world.flush(alloc)?)))
}

/// The same through queues, which are pumped each time.
pub fn pumped_number(alloc: Global, requests: u16) -> Result<u64, Fault>
    ensures { IfErr result (λ fault. fault ≡ Fault.Memory) }
{
    let world = World::new(alloc, Nodes::new(3).unwrap())?;
    let mut cluster = Cluster::new(alloc, world, Queues::new(alloc)?)?;
    pump_batches(alloc, &mut cluster, requests)
}

fn pump_batches(alloc: Global, cluster: &mut Cluster<Queues>, requests: u16) -> Result<u64, Fault>
    ensures { IfErr result (λ fault. fault ≡ Fault.Memory) }
{
    cluster.step(alloc, Event::Timeout(leader()))?;
    let mut delivered = 0u64;
    for earlier in 0..requests {
        if earlier % BATCH == 0 {
            delivered = delivered.wrapping_add(u64::from(cluster.pump(alloc)?));
        }
        cluster.step(alloc, submission(u64::from(earlier) + 1))?;
    }
    Ok(delivered.wrapping_add(u64::from(cluster.pump(alloc)?)))
}

/// The node that leads.
fn leader() -> NodeId {
    NodeId::new(0).unwrap()
}

/// The client's request of a number.
fn submission(number: u64) -> Event
    requires { 1 ≤ number }
{
    Event::Submit {
        node: leader(),
        submission: Submission {
            client: CLIENT,
            number: Number::new(number).unwrap(),
            op: Op::Remove(name(0)),
        },
    }
}
