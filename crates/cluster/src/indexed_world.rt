//! A world whose frames are found by their bytes.

ghost use Rattle.std.specs.Prelude.{◌≡◌, ◌+◌, ◌<◌, ◌↔◌, ◌⊎◌, length, IfErr, IfOk, IsErrOf, MatchOption, OnErr, OnOk, Some, slice_get};
ghost use Rattle.world_model.specs.Events.{NamesNoFrame, NamesNoNode};
ghost use Rattle.world_model.specs.Progress.{PromisesProgress};
ghost use Rattle.world_model.specs.Rounds.{IsPartOfRound, NamesNoMember, RoundEnds};
ghost use Rattle.world.specs.Seen.{world_of};
ghost use Rattle.world_model.specs.Staying.{IsSafeOver};
ghost use Rattle.world_model.specs.Worlds.{Steps};
ghost use Rattle.cluster.specs.Indexes.{Indexes, number_of, spellings};
ghost use Rattle.cluster.specs.Lowest.{IsLowestFrame, IsStranger};

use events::{Event, WorldFault};
use stable::{MemStable, Scripted, Stable};
use std::alloc::{AllocError, Global};
use std::collections::HashMap;
use wire::NodeId;
use world::World;
use world_model::RoundEnd;

/// A world, and of the frames that it has sent the lowest with each spelling.
///
/// The index runs behind: it is brought up to the last frame before anything is looked for. So no step wants more memory than the
/// world's own.
#[derive(Drop)]
pub(crate) struct IndexedWorld {
    world: World<MemStable>,
    // The frames from `indexed` on aren't entered yet.
    numbers: HashMap<Vec<u8>, usize>,
    indexed: usize,
    ghost exact: { Indexes (spellings (world_of world).frames) numbers indexed },
}

impl IndexedWorld {
    /// The world, of whose frames none is entered yet.
    pub(crate) fn new(alloc: Global, world: World<MemStable>) -> IndexedWorld
        ensures { world_of result.world ≡ world_of world }
    {
        IndexedWorld {
            world,
            numbers: HashMap::new(alloc),
            indexed: 0,
        }
    }

    /// The world.
    pub(crate) fn world(&self) -> &World<MemStable>
        ensures { result.now ≡ self.now.world }
    {
        &self.world
    }

    /// One atomic step of the world.
    pub(crate) fn step(&mut self, alloc: Global, event: Event) -> Result<(), WorldFault>
        ensures steps { OnOk result (Steps (⟦<Scripted<MemStable> as Stable>⟧)
            (world_of self.old.world) event (world_of self.new.world)) }
        ensures err { OnErr result (world_of self.new.world ≡ world_of self.old.world) }

        // Each fault.
        ensures no_frame { IsErrOf result WorldFault.NoSuchFrame
            ↔ NamesNoFrame (length (world_of self.old.world).frames) event }
        ensures no_node { IsErrOf result WorldFault.NoSuchNode
            ↔ NamesNoNode (length (world_of self.old.world).nodes) event }
        ensures faults { IfErr result (λ f. (f ≡ WorldFault.NoSuchFrame) ⊎ (f ≡ WorldFault.NoSuchNode)
            ⊎ (f ≡ WorldFault.Memory)) }

        // Whatever came of it.
        ensures safe { IsSafeOver (⟦<Scripted<MemStable> as Stable>⟧) (world_of self.new.world) }
    {
        self.world.step(alloc, event)
    }

    /// A round of the world by hand.
    pub(crate) fn round(
        &mut self,
        alloc: Global,
        node: NodeId,
        members: &[NodeId],
    ) -> Result<RoundEnd, WorldFault>
        ensures ends { IfOk result (λ end. RoundEnds (⟦<Scripted<MemStable> as Stable>⟧)
            (world_of self.old.world) node members.now end (world_of self.new.world)) }
        ensures progress { IfOk result (λ end. PromisesProgress (λ _. Unit {0})
            (world_of self.old.world) node members.now end (world_of self.new.world)) }

        // Each fault.
        ensures no_node { IsErrOf result WorldFault.NoSuchNode
            ↔ NamesNoMember (length (world_of self.old.world).nodes) node members.now }
        ensures unchanged { IsErrOf result WorldFault.NoSuchNode → world_of self.new.world ≡ world_of self.old.world }
        ensures memory { IsErrOf result WorldFault.Memory → IsPartOfRound (⟦<Scripted<MemStable> as Stable>⟧)
            (world_of self.old.world) node members.now (world_of self.new.world) }
        ensures faults { IfErr result (λ f. (f ≡ WorldFault.NoSuchNode) ⊎ (f ≡ WorldFault.Memory)) }

        // Whatever came of it.
        ensures safe { IsSafeOver (⟦<Scripted<MemStable> as Stable>⟧) (world_of self.new.world) }
    {
        self.world.round(alloc, node, members)
    }

    /// The lowest frame that the world has sent to this node as this datagram, or None where there is none.
    pub(crate) fn lowest(
        &mut self,
        alloc: Global,
        node: NodeId,
        datagram: &Vec<u8>,
    ) -> Result<Option<u64>, AllocError>
        ensures found { IfOk result (λ found. MatchOption found
            (IsStranger (world_of self.old.world).frames node datagram.now.items)
            (IsLowestFrame (world_of self.old.world).frames node datagram.now.items)) }
        ensures world { world_of self.new.world ≡ world_of self.old.world }
    {
        self.catch_up(alloc)?;
        let Some(number) = self.number(datagram) else {
            return Ok(None);
        };
        if self.world.frames()[number].receiver() != node {
            return Ok(None);
        }
        Ok(Some(number as u64))
    }

    // What the index has for these bytes.
    fn number(&self, datagram: &Vec<u8>) -> Option<usize>
        ensures { result ≡ number_of self.now.numbers datagram.now.items }
    {
        self.numbers.get(datagram).copied()
    }

    /// All frames are entered. What was entered stays, also where a growth is refused.
    pub(crate) fn catch_up(&mut self, alloc: Global) -> Result<(), AllocError>
        ensures all { OnOk result (self.new.indexed ≡ length (world_of self.old.world).frames) }
        ensures world { world_of self.new.world ≡ world_of self.old.world }
    {
        for _number in self.indexed..self.world.frames().len() {
            self.enter(alloc)?;
        }
        Ok(())
    }

    // One frame more is entered, if no lower one has its bytes.
    fn enter(&mut self, alloc: Global) -> Result<(), AllocError>
        requires { self.old.indexed < length (world_of self.old.world).frames }
        ensures one { OnOk result (self.new.indexed ≡ self.old.indexed + 1) }
        ensures world { world_of self.new.world ≡ world_of self.old.world }
    {
        let bytes = self.next(alloc)?;
        if self.numbers.contains_key(&bytes) {
            self.indexed += 1;
            return Ok(());
        }
        self.numbers.insert(bytes, self.indexed)?;
        self.indexed += 1;
        Ok(())
    }

    // The bytes of the frame that is entered next.
    fn next(&self, alloc: Global) -> Result<Vec<u8>, AllocError>
        requires { self.now.indexed < length (world_of self.now.world).frames }
        ensures { IfOk result (λ bytes. slice_get (spellings (world_of self.now.world).frames) self.now.indexed ≡ Some bytes.items) }
    {
        self.world.frames()[self.indexed].bytes(alloc)
    }
}
