//! A cluster: a world whose frames go through a transport.

ghost use Rattle.std.specs.Prelude.{◌≡◌, ◌<◌, ◌≤◌, ◌↔◌, ◌⊎◌, ◌∷◌, ◌+◌, [], List, length, drop, map, slice_get, IfErr, IfOk, IfSome};
ghost use Rattle.std.specs.Prelude.{IsErrOf, vec_capacity};
ghost use Rattle.std.specs.Prelude.{OnErr, OnOk, Option, Some, ℕ, option_map};
ghost use Rattle.wire.specs.declared.frames.envelope.TheConstants.{LONGEST_FRAME};
ghost use Rattle.world_model.specs.Events.{NamesNoFrame, NamesNoNode};
ghost use Rattle.world_model.specs.Progress.{PromisesProgress};
ghost use Rattle.world_model.specs.Rounds.{IsPartOfRound, NamesNoMember, RoundEnds};
ghost use Rattle.world_model.specs.Staying.{IsSafeOver};
ghost use Rattle.world_model.specs.Worlds.{Steps};
ghost use Rattle.cluster.specs.Clusters.{HasPassed, sending, sendings};
ghost use Rattle.cluster.specs.Passages.{Passage, Polled};
ghost use Rattle.cluster.specs.Pumps.{PumpBreaksOff, IsPass, OnlyDelivers, Polls, Pumps, poll_passed};

use super::indexed_world::IndexedWorld;
use super::transport::Transport;
use events::{Event, WorldFault};
use stable::{MemStable, Scripted, Stable};
use std::alloc::{AllocError, Global};
use wire::{LONGEST_FRAME, NodeId};
use world::World;
use world_model::RoundEnd;

/// So many passes in a row without a Deliver end a pump.
pub const MOST_IDLE_PASSES: u32 = 100;

/// So many Delivers a pump makes at most.
pub const MOST_PUMPED: u32 = 10_000;

/// A world over records in memory whose frames go through a transport.
///
/// Each frame that the world sends is given to the transport, once, in the order of sending. Whatever the transport does, the world
/// goes on by its own steps, and is as safe as any.
pub struct Cluster<T> {
    indexed: IndexedWorld,
    transport: T,
    strangers: u64,
    failed_sends: u64,
    failed_polls: u64,
    // The datagram that is sent just now. It has room for any frame, so that no frame is kept back for want of memory.
    datagram: Vec<u8>,
    ghost room: { LONGEST_FRAME ≤ vec_capacity datagram },
}

// By hand, so that a crate that drops one proves nothing of what lies within.
impl<T: Drop> Drop for Cluster<T> {
    fn drop(self) {
        let Cluster {
            indexed,
            transport,
            strangers: _,
            failed_sends: _,
            failed_polls: _,
            datagram,
        } = self;
        drop(indexed);
        drop(transport);
        drop(datagram);
    }
}

impl<T: Transport> Cluster<T> {
    ghost use Rattle.cluster.specs.ClusterViews.{cluster_of, pumped_of, world_in};
    ghost use Rattle.world.specs.Seen.{world_of};

    /// The world goes on over the transport. What it has sent already isn't sent again, and is known when it comes.
    pub fn new(
        alloc: Global,
        world: World<MemStable>,
        transport: T,
    ) -> Result<Cluster<T>, AllocError>
    where
        T: Drop,
        ensures { IfOk result (λ c. cluster_of c ≡ record {
          pumped = record { world = world_of world; strangers = 0 };
          transport = transport;
        }) }
    {
        let mut indexed = IndexedWorld::new(alloc, world);
        indexed.catch_up(alloc)?;
        let datagram = Vec::with_capacity(alloc, LONGEST_FRAME)?;
        Ok(Cluster {
            indexed,
            transport,
            strangers: 0,
            failed_sends: 0,
            failed_polls: 0,
            datagram,
        })
    }

    /// The world.
    pub fn world(&self) -> &World<MemStable>
        ensures { world_of result.now ≡ world_in self.now }
    {
        self.indexed.world()
    }

    /// How many datagrams came to a node to which this run had not sent them, as far as a u64 goes.
    pub fn strangers(&self) -> u64
        ensures { result ≡ (pumped_of self.now).strangers }
    {
        self.strangers
    }

    /// How many sends failed, as far as a u64 goes.
    pub fn failed_sends(&self) -> u64
        ensures { result ≡ self.now.failed_sends }
    {
        self.failed_sends
    }

    /// How many polls failed, as far as a u64 goes.
    pub fn failed_polls(&self) -> u64
        ensures { result ≡ self.now.failed_polls }
    {
        self.failed_polls
    }

    /// One atomic step of the world, and the frames that it sends are given to the transport, once each, in order. After a fault all is
    /// as it was.
    pub fn step(&mut self, alloc: Global, event: Event) -> Result<(), WorldFault>
        ensures steps { OnOk result (Steps (⟦<Scripted<MemStable> as Stable>⟧)
            (world_in self.old) event (world_in self.new)) }
        ensures sends { OnOk result (HasPassed (⟦<T as Transport>⟧)
            self.old.transport (sendings (world_in self.old) (world_in self.new)) self.new.transport) }
        ensures no_strangers { self.new.strangers ≡ self.old.strangers }
        ensures err { OnErr result (cluster_of self.new ≡ cluster_of self.old) }

        // Each fault.
        ensures no_frame { IsErrOf result WorldFault.NoSuchFrame
            ↔ NamesNoFrame (length (world_in self.old).frames) event }
        ensures no_node { IsErrOf result WorldFault.NoSuchNode
            ↔ NamesNoNode (length (world_in self.old).nodes) event }
        ensures faults { IfErr result (λ f. (f ≡ WorldFault.NoSuchFrame) ⊎ (f ≡ WorldFault.NoSuchNode)
            ⊎ (f ≡ WorldFault.Memory)) }

        // Whatever came of it.
        ensures safe { IsSafeOver (⟦<Scripted<MemStable> as Stable>⟧) (world_in self.new) }
    {
        let first = self.world().frames().len();
        self.indexed.step(alloc, event)?;
        self.send_from(alloc, first);
        Ok(())
    }

    /// A round of the world by hand, and the frames that it sends are given to the transport, once each, in order.
    pub fn round(
        &mut self,
        alloc: Global,
        node: NodeId,
        members: &[NodeId],
    ) -> Result<RoundEnd, WorldFault>
        ensures ends { IfOk result (λ end. RoundEnds (⟦<Scripted<MemStable> as Stable>⟧)
            (world_in self.old) node members.now end (world_in self.new)) }
        ensures progress { IfOk result (λ end. PromisesProgress (λ _. Unit {0})
            (world_in self.old) node members.now end (world_in self.new)) }
        ensures sends { HasPassed (⟦<T as Transport>⟧)
            self.old.transport (sendings (world_in self.old) (world_in self.new)) self.new.transport }
        ensures no_strangers { self.new.strangers ≡ self.old.strangers }

        // Each fault.
        ensures no_node { IsErrOf result WorldFault.NoSuchNode
            ↔ NamesNoMember (length (world_in self.old).nodes) node members.now }
        ensures unchanged { IsErrOf result WorldFault.NoSuchNode → world_in self.new ≡ world_in self.old }
        ensures memory { IsErrOf result WorldFault.Memory → IsPartOfRound (⟦<Scripted<MemStable> as Stable>⟧)
            (world_in self.old) node members.now (world_in self.new) }
        ensures faults { IfErr result (λ f. (f ≡ WorldFault.NoSuchNode) ⊎ (f ≡ WorldFault.Memory)) }

        // Whatever came of it.
        ensures safe { IsSafeOver (⟦<Scripted<MemStable> as Stable>⟧) (world_in self.new) }
    {
        let first = self.world().frames().len();
        let ended = self.indexed.round(alloc, node, members);
        self.send_from(alloc, first);
        ended
    }

    /// Polls the nodes, pass by pass, and delivers what has come: how many frames.
    ///
    /// A pass polls each node once, in order. A datagram that equals a frame which this run has sent to that node becomes a Deliver of
    /// the lowest such frame, and what this sends goes to the transport before the next poll. Any other datagram is dropped, and counted
    /// as a stranger; a poll that fails is nothing. It ends after 100 passes in a row without a Deliver. `FlushLimit` comes with the
    /// 10,000th Deliver, `Memory` where a datagram can't be looked for or delivered; what was done before stays.
    pub fn pump(&mut self, alloc: Global) -> Result<u32, WorldFault>
        ensures pumps { (passed : List Passage)
            × Pumps (⟦<Scripted<MemStable> as Stable>⟧) (pumped_of self.old) passed result (pumped_of self.new)
            × HasPassed (⟦<T as Transport>⟧) self.old.transport passed self.new.transport }
        ensures delivers { OnlyDelivers (⟦<Scripted<MemStable> as Stable>⟧) (world_in self.old) (world_in self.new) }
        ensures faults { IfErr result (λ f. (f ≡ WorldFault.FlushLimit) ⊎ (f ≡ WorldFault.Memory)) }

        // Whatever came of it.
        ensures safe { IsSafeOver (⟦<Scripted<MemStable> as Stable>⟧) (world_in self.new) }
    {
        let ended = self.passes(alloc);
        // Whoever looks at the outcomes knows that the world is safe.
        let _outcomes = self.world().outcomes();
        ended
    }

    // Passes, until as many in a row as end a pump have made no Deliver.
    fn passes(&mut self, alloc: Global) -> Result<u32, WorldFault>
        ensures { (passed : List Passage)
            × Pumps (⟦<Scripted<MemStable> as Stable>⟧) (pumped_of self.old) passed result (pumped_of self.new)
            × HasPassed (⟦<T as Transport>⟧) self.old.transport passed self.new.transport }
    {
        let mut made = 0;
        let mut idle = 0;
        while idle < MOST_IDLE_PASSES {
            let more = self.pass(alloc, MOST_PUMPED - made)?;
            idle = idle_after(idle, more);
            made += more;
        }
        Ok(made)
    }

    // Each node is polled once: how many Delivers came of it, of which so many are left.
    fn pass(&mut self, alloc: Global, left: u32) -> Result<u32, WorldFault>
        requires { 0 < left }
        ensures passes { IfOk result (λ made. (made < left) × ((passed : List Passage)
            × IsPass (⟦<Scripted<MemStable> as Stable>⟧) (pumped_of self.old) passed made (pumped_of self.new)
            × HasPassed (⟦<T as Transport>⟧) self.old.transport passed self.new.transport)) }
        ensures breaks { IfErr result (λ f. (passed : List Passage)
            × PumpBreaksOff (⟦<Scripted<MemStable> as Stable>⟧) left (pumped_of self.old) passed f (pumped_of self.new)
            × HasPassed (⟦<T as Transport>⟧) self.old.transport passed self.new.transport) }
    {
        let mut made = 0;
        for number in 0..self.world().count() {
            made += self.poll_node(alloc, node_of(number))?;
            if made == left {
                return Err(WorldFault::FlushLimit);
            }
        }
        Ok(made)
    }

    // The node is polled: how many Delivers came of it, one or none.
    fn poll_node(&mut self, alloc: Global, node: NodeId) -> Result<u32, WorldFault>
        ensures polls { IfOk result (λ made. (datagram : Option (List ℕ))
            × Polls (⟦<Scripted<MemStable> as Stable>⟧) (pumped_of self.old) node datagram made (pumped_of self.new)
            × HasPassed (⟦<T as Transport>⟧) self.old.transport
            (poll_passed (⟦<Scripted<MemStable> as Stable>⟧) node datagram (world_in self.old) (world_in self.new)) self.new.transport) }
        ensures most { IfOk result (λ made. made ≤ 1) }
        ensures unchanged { OnErr result (pumped_of self.new ≡ pumped_of self.old) }
        ensures lost { OnErr result ((bytes : List ℕ)
            × HasPassed (⟦<T as Transport>⟧) self.old.transport (Polled node (Some bytes) ∷ []) self.new.transport) }
        ensures faults { IfErr result (λ f. f ≡ WorldFault.Memory) }
    {
        let Some(datagram) = self.polled(alloc, node) else {
            return Ok(0);
        };
        let Some(frame) = self.indexed.lowest(alloc, node, &datagram)? else {
            self.strangers = self.strangers.saturating_add(1);
            return Ok(0);
        };
        self.step(alloc, Event::Deliver(frame))?;
        Ok(1)
    }

    // What the transport hands over to the node.
    fn polled(&mut self, alloc: Global, node: NodeId) -> Option<Vec<u8>>
        ensures same { pumped_of self.new ≡ pumped_of self.old }
        ensures index { self.new.indexed ≡ self.old.indexed }
        ensures polled { HasPassed (⟦<T as Transport>⟧) self.old.transport
            (Polled node (option_map (λ v. v.items) result) ∷ []) self.new.transport }
    {
        match self.transport.poll(alloc, node) {
            Ok(datagram) => datagram,
            Err(_) => {
                self.failed_polls = self.failed_polls.saturating_add(1);
                None
            }
        }
    }

    // The frames from a number on are given to the transport.
    fn send_from(&mut self, alloc: Global, first: usize)
        requires { first ≤ length (world_in self.old).frames }
        ensures same { self.new.indexed ≡ self.old.indexed }
        ensures no_strangers { self.new.strangers ≡ self.old.strangers }
        ensures sends { HasPassed (⟦<T as Transport>⟧)
            self.old.transport (map sending (drop first (world_in self.old).frames)) self.new.transport }
    {
        let end = self.world().frames().len();
        for index in first..end {
            self.send(alloc, index);
        }
    }

    // This frame is given to the transport.
    fn send(&mut self, alloc: Global, index: usize)
        requires { index < length (world_in self.old).frames }
        ensures same { self.new.indexed ≡ self.old.indexed }
        ensures no_strangers { self.new.strangers ≡ self.old.strangers }
        ensures sends { IfSome (slice_get (world_in self.old).frames index) (λ frame.
            HasPassed (⟦<T as Transport>⟧) self.old.transport (sending frame ∷ []) self.new.transport) }
    {
        let frame = &self.indexed.world().frames()[index];
        let (from, to) = (frame.sender(), frame.receiver());
        frame.spell_into(&mut self.datagram);
        let sent = self
            .transport
            .send(alloc, from, to, self.datagram.as_slice());
        if sent.is_err() {
            self.failed_sends = self.failed_sends.saturating_add(1);
        }
    }
}

/// How many passes in a row made no Deliver, after one more that made so many.
fn idle_after(idle: u32, made: u32) -> u32
    requires { idle < MOST_IDLE_PASSES }
    ensures still { made ≡ 0 → result ≡ idle + 1 }
    ensures reset { 0 < made → result ≡ 0 }
{
    if made == 0 { idle + 1 } else { 0 }
}

/// The node of a number below that of the nodes of a run.
fn node_of(number: u8) -> NodeId
    requires { number < 7 }
    ensures { result ≡ number }
{
    match NodeId::new(number) {
        Some(node) => node,
        None => unreachable!(),
    }
}
