//! What the tests of both kinds of storage ask of one.

use stable::{Key, Stable, StableFault};
use std::alloc::Global;
use synod::Slot;

// The key of the vote at a slot. No test names a slot beyond the log, of which Round would be told.
fn vote(slot: u32) -> Key {
    match Slot::new(slot) {
        Some(slot) => Key::Vote(slot),
        None => Key::Round,
    }
}

// Puts a copy of these bytes.
fn put<S: Stable>(
    alloc: Global,
    storage: &mut S,
    key: Key,
    bytes: &[u8],
) -> Result<(), StableFault> {
    storage.put(alloc, key, bytes.to_vec(alloc)?)
}

/// Puts five records, the last in the place of the first.
pub fn fill<S: Stable>(alloc: Global, storage: &mut S) -> Result<(), StableFault> {
    put(alloc, storage, vote(700), b"de")?;
    put(alloc, storage, Key::Round, b"")?;
    put(alloc, storage, vote(0), b"f")?;
    put(alloc, storage, Key::Promise, b"abc")?;
    put(alloc, storage, vote(700), b"g")
}

/// Whether a storage holds what `fill` puts, under ascending keys.
pub fn is_filled<S: Stable>(alloc: Global, storage: &mut S) -> Result<bool, StableFault> {
    let keys = [Key::Promise, Key::Round, vote(0), vote(700)];
    let ascending = lists(alloc, storage, keys.as_slice())?;
    let absent = storage.get(alloc, vote(65_535))?.is_none();
    let promise = holds(alloc, storage, Key::Promise, b"abc")?;
    let round = holds(alloc, storage, Key::Round, b"")?;
    let first = holds(alloc, storage, vote(0), b"f")?;
    let last = holds(alloc, storage, vote(700), b"g")?;
    Ok(ascending && absent && promise && round && first && last)
}

/// Whether a storage that is empty keeps what is put.
pub fn keeps_records<S: Stable>(alloc: Global, storage: &mut S) -> Result<bool, StableFault> {
    let empty = storage.keys(alloc)?.is_empty();
    fill(alloc, storage)?;
    Ok(empty && is_filled(alloc, storage)?)
}

/// Whether a storage that is empty keeps what `fill` puts but the votes that are trimmed: first none, then those at slots below
/// 700, and at last all of them. A trim that finds nothing is no error.
pub fn trims_records<S: Stable>(alloc: Global, storage: &mut S) -> Result<bool, StableFault> {
    storage.trim_below(alloc, 700)?;
    fill(alloc, storage)?;
    storage.trim_below(alloc, 0)?;
    let all = is_filled(alloc, storage)?;
    storage.trim_below(alloc, 700)?;
    storage.trim_below(alloc, 700)?;
    let last = is_trimmed(alloc, storage)?;
    storage.trim_below(alloc, u32::MAX)?;
    let none = lists(alloc, storage, [Key::Promise, Key::Round].as_slice())?;
    Ok(all && last && none)
}

/// Whether a storage holds what `fill` puts, but the vote at slot 0.
pub fn is_trimmed<S: Stable>(alloc: Global, storage: &mut S) -> Result<bool, StableFault> {
    let ascending = lists(
        alloc,
        storage,
        [Key::Promise, Key::Round, vote(700)].as_slice(),
    )?;
    let first = storage.get(alloc, vote(0))?.is_none();
    let last = holds(alloc, storage, vote(700), b"g")?;
    Ok(ascending && first && last)
}

// Whether these are its keys.
fn lists<S: Stable>(alloc: Global, storage: &mut S, keys: &[Key]) -> Result<bool, StableFault> {
    Ok(storage.keys(alloc)?.as_slice() == keys)
}

// Whether the key holds these bytes.
fn holds<S: Stable>(
    alloc: Global,
    storage: &mut S,
    key: Key,
    bytes: &[u8],
) -> Result<bool, StableFault> {
    Ok(match storage.get(alloc, key)? {
        Some(found) => found.as_slice() == bytes,
        None => false,
    })
}
