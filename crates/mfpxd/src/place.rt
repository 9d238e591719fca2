//! Which node of which run this is, and what its records have seen.

ghost use Rattle.std.specs.Prelude.{◌≡◌, ◌↔◌, max, IfErr, IfOk, IsErrOf, IsOk};
ghost use Rattle.mfpxd.specs.Places.{IsCount, NamesNode, number_in};
ghost use Rattle.mfpxd.specs.Records.{end_of, horizon_of as horizon_in};

use crate::refusal::Refusal;
use serving::Horizon;
use stable::Key;
use wire::{NodeId, Nodes};

/// The node that the text names, in a run of so many.
pub fn place_of(id: &str, count: usize) -> Result<(NodeId, Nodes), Refusal>
    ensures named { IsOk result ↔ IsCount count × NamesNode id.now count }
    ensures nodes { IfOk result (λ place. place.1 ≡ count) }
    ensures id { IfOk result (λ place. place.0 ≡ number_in id.now) }
    ensures no_count { IsErrOf result Refusal.Count ↔ ¬ IsCount count }
    ensures no_node { IsErrOf result Refusal.Id ↔ IsCount count × ¬ NamesNode id.now count }
{
    let nodes = nodes_of(count)?;
    let Ok(number) = id.parse::<u8>() else {
        return Err(Refusal::Id);
    };
    if number < nodes.count() {
        Ok((nodes.node(number), nodes))
    } else {
        Err(Refusal::Id)
    }
}

/// A run of so many nodes.
fn nodes_of(count: usize) -> Result<Nodes, Refusal>
    ensures valid { IsOk result ↔ IsCount count }
    ensures value { IfOk result (λ nodes. nodes ≡ count) }
    ensures refused { IfErr result (λ refusal. refusal ≡ Refusal.Count) }
{
    let Ok(count) = u8::try_from(count) else {
        return Err(Refusal::Count);
    };
    match Nodes::new(count) {
        Some(nodes) => Ok(nodes),
        None => Err(Refusal::Count),
    }
}

/// The least number above the slot of every vote in the records.
pub fn horizon_of(keys: &[Key]) -> Horizon
    ensures { result ≡ horizon_in keys.now }
{
    let mut horizon = Horizon::none();
    for key in keys.iter() {
        see(&mut horizon, *key);
    }
    horizon
}

/// The records have this key.
fn see(horizon: &mut Horizon, key: Key)
    ensures { horizon.new ≡ max horizon.old (end_of key) }
{
    if let Key::Vote(slot) = key {
        horizon.see(slot);
    }
}
