//! The nodes with which a run begins.

ghost use Rattle.std.specs.Prelude.{◌≡◌, ◌≤◌, ◌⊎◌, All, IfErr, IfOk, OnOk, map, vec_len};
ghost use Rattle.node.specs.Seen.{state_of};
ghost use Rattle.stable.specs.Memory.{stored};
ghost use Rattle.stable.specs.Records.{no_records};
ghost use Rattle.world_model.specs.Flushing.{IsStarted, HaveStarted};
ghost use Rattle.world_model.specs.Starting.{AreOver, StorageIsUsed, OneIsUsed, WasRead};

use events::WorldFault;
use node::Node;
use stable::{MemStable, Scripted, Stable, StableFault};
use std::alloc::{AllocError, Global};
use synod::MOST_NODES;
use wire::{NodeId, Nodes};

/// Empty records in memory, for so many nodes.
pub fn fresh_stores(alloc: Global, count: Nodes) -> Result<Vec<MemStable>, AllocError>
    ensures one_each { IfOk result (λ stores. vec_len stores ≡ count) }
    ensures empty { IfOk result (λ stores. All (λ s. stored s ≡ no_records) stores.items) }
{
    let mut stores = Vec::with_capacity(alloc, usize::from(count.count()))?;
    for _ in 0..count.count() {
        stores.push(MemStable::new(alloc))?;
    }
    Ok(stores)
}

/// So many nodes, each over its own of these storages, which hold no record yet. All of them are only read.
pub fn start_nodes<S: Stable + Drop>(
    alloc: Global,
    count: Nodes,
    stores: Vec<S>,
) -> Result<Vec<Node<Scripted<S>>>, WorldFault>
    requires one_each { vec_len stores ≡ count }
    ensures started { IfOk result (λ nodes. HaveStarted (⟦<Scripted<S> as Stable>⟧)
        count count (map state_of nodes.items)) }
    ensures over { IfOk result (λ nodes. AreOver S.Stable stores.items (map state_of nodes.items)) }
    ensures few { IfOk result (λ nodes. vec_len nodes ≤ MOST_NODES) }

    // Each fault.
    ensures used { IfErr result (λ f. f ≡ WorldFault.NotEmpty → OneIsUsed S.Stable stores.items) }
    ensures faults { IfErr result (λ f. (f ≡ WorldFault.NotEmpty) ⊎ (f ≡ WorldFault.Memory)) }
{
    let mut nodes = Vec::with_capacity(alloc, usize::from(count.count()))?;
    for store in stores {
        let id = count.node(nodes.len() as u8);
        let node = start_node(alloc, id, count, store)?;
        nodes.push(node)?;
    }
    Ok(nodes)
}

// A node over a storage that holds no record yet.
fn start_node<S: Stable + Drop>(
    alloc: Global,
    id: NodeId,
    count: Nodes,
    store: S,
) -> Result<Node<Scripted<S>>, WorldFault>
    ensures started { IfOk result (λ n. IsStarted (⟦<Scripted<S> as Stable>⟧) id count (state_of n)) }
    ensures over { IfOk result (λ n. WasRead S.Stable store (state_of n).storage.inner) }

    // Each fault.
    ensures used { IfErr result (λ f. f ≡ WorldFault.NotEmpty → StorageIsUsed S.Stable store) }
    ensures faults { IfErr result (λ f. (f ≡ WorldFault.NotEmpty) ⊎ (f ≡ WorldFault.Memory)) }
{
    let mut store = store;
    see_empty(alloc, &mut store)?;
    Ok(Node::start(alloc, Scripted::new(alloc, store), id, count))
}

// The storage is asked for its keys, and tells none.
fn see_empty<S: Stable>(alloc: Global, store: &mut S) -> Result<(), WorldFault>
    ensures reads { OnOk result (S.reads store.old store.new) }
    ensures empty { S.IsHonest store.new → OnOk result (S.contents store.old ≡ no_records) }
    ensures no_stray { S.IsHonest store.new → OnOk result (¬ (S.HasStrayKey store.old)) }

    // Each fault. Whatever it answers, the storage was only read.
    ensures only_read { WasRead S.Stable store.old store.new }
    ensures used { IfErr result (λ f. f ≡ WorldFault.NotEmpty → StorageIsUsed S.Stable store.old) }
    ensures faults { IfErr result (λ f. (f ≡ WorldFault.NotEmpty) ⊎ (f ≡ WorldFault.Memory)) }
{
    match store.keys(alloc) {
        Ok(keys) => {
            if keys.is_empty() {
                Ok(())
            } else {
                Err(WorldFault::NotEmpty)
            }
        }
        Err(StableFault::Memory) => Err(WorldFault::Memory),
        Err(StableFault::Device) => Err(WorldFault::NotEmpty),
        Err(StableFault::Damaged) => Err(WorldFault::NotEmpty),
    }
}
