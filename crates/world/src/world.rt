//! The world: all nodes of a run, everything that happened in it, and what is promised of that.

ghost use Rattle.std.specs.Prelude.{◌≡◌, ◌≤◌, ◌↔◌, ◌⊎◌, length, slice_get, vec_len, IsNone, OnOk, OnErr, IfOk, IfErr, IfSome, IsErrOf, option_map};
ghost use Rattle.std.specs.Option.{option_copied};
ghost use Rattle.world_model.specs.Waiting.{NoneWaits, OneWaits};
ghost use Rattle.world.specs.Inner.{inner_of};
ghost use Rattle.world_model.specs.Safety.{IsSoundIfHonest, contents_inside, honest_inside};
ghost use Rattle.world_model.specs.Fired.{HasFewFaults};

use super::inner::Inner;
use super::log::MOST_DELIVERIES;
use super::start::fresh_stores;
use events::{Event, WorldFault};
use stable::{MemStable, Put, Scripted, Stable};
use std::alloc::Global;
use store::Db;
use synod::MOST_NODES;
use wire::{Frame, NodeId, Nodes};
use world_model::{Answered, LearntEntry, Replied, RoundEnd, StepOutcome, Submitted};

/// All nodes of a run, over storages of one kind.
///
/// As long as every storage inside is honest, as one in memory always is: no two commands are chosen for one slot,
/// whatever any node learnt is chosen, and one list of commands, each a no-op or a request that a node took, explains
/// everything that any node told. Whatever is learnt is its entry, and every reply and every answer at a position is
/// that of one plain database that executed so many of its entries, each request once.
///
/// Armed faults end nothing of this: at most one comes in a step, so they are counted as long as the steps are.
pub struct World<S: Stable> {
    inner: Inner<S>,
    ghost sound: { ∥ IsSoundIfHonest (contents_inside S.contents) (honest_inside S.IsHonest) (inner_of inner) ∥₁ },
    ghost few_faults: { HasFewFaults (inner_of inner) },
}

// By hand, so that a crate that drops one proves nothing of what lies within.
impl<S: Stable + Drop> Drop for World<S> {
    fn drop(self) {
        let World { inner } = self;
        drop(inner);
    }
}

impl World<MemStable> {
    ghost use Rattle.world.specs.Seen.{world_of};
    ghost use Rattle.world_model.specs.Flushing.{IsStart};
    ghost use Rattle.world_model.specs.Staying.{IsSafeOver};

    /// A world of so many nodes over empty records in memory. A node whose own start is refused memory begins down. `Memory` is its
    /// only fault.
    pub fn new(alloc: Global, count: Nodes) -> Result<World<MemStable>, WorldFault>
        ensures start { IfOk result (λ w. IsStart (⟦<Scripted<MemStable> as Stable>⟧) count (world_of w)) }
        ensures faults { IfErr result (λ f. f ≡ WorldFault.Memory) }
        ensures safe { IfOk result (λ w. IsSafeOver (⟦<Scripted<MemStable> as Stable>⟧) (world_of w)) }
    {
        let stores = fresh_stores(alloc, count)?;
        World::with(alloc, count, stores)
    }
}

impl<S: Stable + Drop> World<S> {
    ghost use Rattle.world.specs.Seen.{world_of};
    ghost use Rattle.world_model.specs.Flushing.{IsStart};
    ghost use Rattle.world_model.specs.Starting.{AreOver, OneIsUsed};
    ghost use Rattle.world_model.specs.Staying.{StaysSafe};

    /// A world of so many nodes, each over its own of these storages, in their order. A node whose own start fails begins down.
    ///
    /// `NotEmpty` where a storage holds a record, or can't tell that it holds none; `Memory` is the only other fault. Every storage is
    /// only read.
    pub fn with(alloc: Global, count: Nodes, stores: Vec<S>) -> Result<World<S>, WorldFault>
        requires one_each { vec_len stores ≡ count }
        ensures start { IfOk result (λ w. IsStart (⟦<Scripted<S> as Stable>⟧) count (world_of w)) }
        ensures over { IfOk result (λ w. AreOver S.Stable stores.items (world_of w).nodes) }

        // Each fault.
        ensures used { IfErr result (λ f. f ≡ WorldFault.NotEmpty → OneIsUsed S.Stable stores.items) }
        ensures faults { IfErr result (λ f. (f ≡ WorldFault.NotEmpty) ⊎ (f ≡ WorldFault.Memory)) }

        // Whatever the storages are.
        ensures safe { IfOk result (λ w. StaysSafe (⟦<Scripted<S> as Stable>⟧) S.IsHonest (world_of w)) }
    {
        let inner = Inner::with(alloc, count, stores)?;
        Ok(World { inner })
    }
}

impl<S: Stable> World<S> {
    ghost use Rattle.world.specs.Seen.{world_of};
    ghost use Rattle.world_model.specs.Worlds.{Steps, replica_at};
    ghost use Rattle.world_model.specs.Events.{NamesNoFrame, NamesNoNode};
    ghost use Rattle.world_model.specs.Flushing.{Delivers, DeliversSome};
    ghost use Rattle.world_model.specs.Progress.{PromisesProgress};
    ghost use Rattle.world_model.specs.Rounds.{NamesNoMember, RoundEnds, IsPartOfRound};
    ghost use Rattle.world_model.specs.Staying.{StaysSafe};

    /// How many nodes there are.
    pub fn count(&self) -> u8
        ensures count { result ≡ length (world_of self.now).nodes }
        ensures few { result ≤ MOST_NODES }
    {
        self.inner.count()
    }

    /// The requests that nodes took.
    pub fn submitted(&self) -> &[Submitted]
        ensures { result.now ≡ (world_of self.now).submitted }
    {
        self.inner.submitted.as_slice()
    }

    /// Every frame that was sent, as its bytes.
    pub fn frames(&self) -> &[Frame]
        ensures { result.now ≡ (world_of self.now).frames }
    {
        self.inner.frames()
    }

    /// Which frames wait to be delivered: a flag for each, in the order of sending.
    pub fn waiting(&self) -> &[bool]
        ensures { result.now ≡ (world_of self.now).waiting }
    {
        self.inner.waiting.as_slice()
    }

    /// What nodes learnt.
    pub fn learnt(&self) -> &[LearntEntry]
        ensures { result.now ≡ (world_of self.now).learnt }
    {
        self.inner.learnt.as_slice()
    }

    /// The replies to requests.
    pub fn replies(&self) -> &[Replied]
        ensures { result.now ≡ (world_of self.now).replies }
    {
        self.inner.replies.as_slice()
    }

    /// The answers to queries.
    pub fn answers(&self) -> &[Answered]
        ensures { result.now ≡ (world_of self.now).answers }
    {
        self.inner.answers.as_slice()
    }

    /// What came of each step. Whoever looks knows that all of it is safe.
    pub fn outcomes(&self) -> &[StepOutcome]
        ensures outcomes { result.now ≡ (world_of self.now).outcomes }
        ensures safe { StaysSafe (⟦<Scripted<S> as Stable>⟧) S.IsHonest (world_of self.now) }
    {
        self.inner.outcomes.as_slice()
    }

    /// The puts that took effect at a node, the oldest first; None where the run has no such node.
    pub fn writes(&self, node: NodeId) -> Option<&[Put]>
        ensures no_node { IsNone result ↔ (length (world_of self.now).nodes ≤ node) }
        ensures writes { IfSome result (λ puts. IfSome (slice_get (world_of self.now).nodes node) (λ n.
            puts.now ≡ n.storage.writes)) }
    {
        let at = self.inner.nodes.get(usize::from(node.value()))?;
        Some(at.writes())
    }

    /// The database that a node holds; None while it is down, and where the run has no such node.
    pub fn database(&self, node: NodeId) -> Option<&Db>
        ensures { option_copied result ≡ option_map (λ m. m.machine.features) (replica_at (world_of self.now) node) }
    {
        let at = self.inner.nodes.get(usize::from(node.value()))?;
        at.database()
    }

    /// One atomic step. After a fault the world is as it was.
    pub fn step(&mut self, alloc: Global, event: Event) -> Result<(), WorldFault>
        ensures steps { OnOk result (Steps (⟦<Scripted<S> as Stable>⟧) (world_of self.old) event (world_of self.new)) }
        ensures err { OnErr result (world_of self.new ≡ world_of self.old) }

        // Each fault.
        ensures no_frame { IsErrOf result WorldFault.NoSuchFrame
            ↔ NamesNoFrame (length (world_of self.old).frames) event }
        ensures no_node { IsErrOf result WorldFault.NoSuchNode
            ↔ NamesNoNode (length (world_of self.old).nodes) event }
        ensures faults { IfErr result (λ f. (f ≡ WorldFault.NoSuchFrame) ⊎ (f ≡ WorldFault.NoSuchNode)
            ⊎ (f ≡ WorldFault.Memory)) }

        // Whatever came of it.
        ensures safe { StaysSafe (⟦<Scripted<S> as Stable>⟧) S.IsHonest (world_of self.new) }
    {
        self.inner.step(alloc, event)
    }

    /// Delivers the lowest waiting frame until none waits: how many. `FlushLimit` where 10,000 were delivered and one still waits. What
    /// was delivered before a fault stays so.
    pub fn flush(&mut self, alloc: Global) -> Result<u32, WorldFault>
        ensures delivers { IfOk result (λ n. Delivers (⟦<Scripted<S> as Stable>⟧)
            (world_of self.old) n (world_of self.new)) }
        ensures to_the_end { OnOk result (NoneWaits (world_of self.new).waiting) }
        ensures most { IfOk result (λ n. n ≤ MOST_DELIVERIES) }

        // What a fault leaves.
        ensures limit { IsErrOf result WorldFault.FlushLimit → Delivers (⟦<Scripted<S> as Stable>⟧)
            (world_of self.old) MOST_DELIVERIES (world_of self.new) }
        ensures memory { IsErrOf result WorldFault.Memory → DeliversSome (⟦<Scripted<S> as Stable>⟧)
            (world_of self.old) MOST_DELIVERIES (world_of self.new) }
        ensures not_to_the_end { OnErr result (OneWaits (world_of self.new).waiting) }
        ensures faults { IfErr result (λ f. (f ≡ WorldFault.FlushLimit) ⊎ (f ≡ WorldFault.Memory)) }

        // Whatever came of it.
        ensures safe { StaysSafe (⟦<Scripted<S> as Stable>⟧) S.IsHonest (world_of self.new) }
    {
        self.inner.flush(alloc)
    }

    /// A round of a node by hand, among these members alone: its campaign begins, and what is sent in each phase comes to the members or
    /// to the node, in order of sending, before anything else. How it ended; the outcomes tell it, behind those of its steps.
    ///
    /// While the storages inside are honest, and nothing disturbs it, that is, where the members are a quorum and up, the log has a slot at
    /// the node's position and the node a round left, it decides that slot if no member has promised more than the node's next ballot; else
    /// it tells the greatest promise of any member, and the node's next ballot is above that. Only a member that goes down, or want of
    /// memory, keeps it from that.
    ///
    /// `NoSuchNode` where the node or a member is none of the run, and then nothing is done. What was done when memory was wanting stays.
    pub fn round(
        &mut self,
        alloc: Global,
        node: NodeId,
        members: &[NodeId],
    ) -> Result<RoundEnd, WorldFault>
        ensures ends { IfOk result (λ end. RoundEnds (⟦<Scripted<S> as Stable>⟧)
            (world_of self.old) node members.now end (world_of self.new)) }
        ensures progress { IfOk result (λ end. PromisesProgress S.IsHonest
            (world_of self.old) node members.now end (world_of self.new)) }

        // Each fault.
        ensures no_node { IsErrOf result WorldFault.NoSuchNode
            ↔ NamesNoMember (length (world_of self.old).nodes) node members.now }
        ensures unchanged { IsErrOf result WorldFault.NoSuchNode → world_of self.new ≡ world_of self.old }
        ensures memory { IsErrOf result WorldFault.Memory → IsPartOfRound (⟦<Scripted<S> as Stable>⟧)
            (world_of self.old) node members.now (world_of self.new) }
        ensures faults { IfErr result (λ f. (f ≡ WorldFault.NoSuchNode) ⊎ (f ≡ WorldFault.Memory)) }

        // Whatever came of it.
        ensures safe { StaysSafe (⟦<Scripted<S> as Stable>⟧) S.IsHonest (world_of self.new) }
    {
        self.inner.round(alloc, node, members)
    }
}
