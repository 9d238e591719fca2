//! Storages for runs, and the laws of worlds, which run nothing. What comes of runs of all kinds are the examples.

ghost use Rattle.std.specs.Prelude.{◌≡◌, vec_len, IfOk};

use stable::{Key, MemStable, Stable, StableFault};
use std::alloc::Global;
use world_model::{
    answers_are_one, ballots_never_fall, lists_are_as_told, one_log_explains, promises_never_fall,
    start_keeps_lists, steps_keep_lists,
};

#[test]
fn laws_run_nothing() {
    lists_are_as_told::<MemStable>();
    answers_are_one::<MemStable>();
    ballots_never_fall::<MemStable>();
    promises_never_fall::<MemStable>();
    start_keeps_lists::<MemStable>();
    steps_keep_lists::<MemStable>();
    one_log_explains::<MemStable>();
}

// Three storages, of which this one holds a record.
pub(crate) fn three_storages(alloc: Global, used: usize) -> Result<Vec<MemStable>, StableFault>
    ensures { IfOk result (λ stores. vec_len stores ≡ 3) }
{
    let (first, second, third) = (
        MemStable::new(alloc),
        MemStable::new(alloc),
        MemStable::new(alloc),
    );
    let mut stores = Vec::from_array(alloc, [first, second, third])?;
    if let Some(store) = stores.get_mut(used) {
        use_records(alloc, store)?;
    }
    Ok(stores)
}

fn use_records(alloc: Global, store: &mut MemStable) -> Result<(), StableFault> {
    store.put(alloc, Key::Round, b"01234567".to_vec(alloc)?)
}
