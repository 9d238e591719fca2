//! What an acceptor has promised whose votes are taken out.

use super::letters::{ballot, slot, vote};
use acceptor::{Acceptor, Answer};
use sqlstable::SqlStable;
use stable::{MemStable, Stable};
use std::alloc::Global;
use std::test::Fail;

// The text of an empty database.
const EMPTY: [u8; 4] = [0; 4];

/// An acceptor votes for a no-op at slot 0 under ballot 2.1, writes a checkpoint behind it and takes the vote out. Whether one that
/// loads what is left still refuses ballot 1.0, as 2.1 was promised.
fn outlives_its_vote<S: Stable>(alloc: Global, storage: &mut S) -> Result<bool, Fail> {
    let mut voter = Acceptor::load(alloc, storage)?;
    let _ = voter.on_accept(alloc, storage, vote(alloc, [2, 1, 0, 0, 0].as_slice())?)?;
    if voter.floor() > 0 {
        return Err("a floor".into());
    }
    voter.checkpoint(alloc, storage, 1, EMPTY.as_slice())?;
    voter.trim(alloc, storage)?;
    let mut loaded = Acceptor::load(alloc, storage)?;
    match loaded.on_prepare(alloc, storage, ballot(1, 0)?, slot(1)?)? {
        Answer::Nack(nack) => Ok(nack.promised() == ballot(2, 1)?),
        _ => Ok(false),
    }
}

// A test holds no storage over a table: each of its ends would drop it, and each drop is checked.
fn outlives_it_in_a_table(alloc: Global) -> Result<bool, Fail> {
    let mut storage = SqlStable::open_in_memory(alloc)?;
    outlives_its_vote(alloc, &mut storage)
}

#[test]
fn a_promise_outlives_its_vote(rt: HostRuntime) -> Result<(), Fail> {
    let alloc = rt.alloc();
    assert!(rt; outlives_its_vote(alloc, &mut MemStable::new(alloc))?);
    assert!(rt; outlives_it_in_a_table(alloc)?);
    Ok(())
}
