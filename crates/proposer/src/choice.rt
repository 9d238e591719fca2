//! Which command a leader proposes for a slot.

ghost use Rattle.std.specs.Prelude.{◌≡◌, IsSome, IfOk, OnErr};
ghost use Rattle.std.specs.Option.{option_copied};
ghost use Rattle.proposer.specs.Campaigning.{told_at, is_told_after, free_choice};

use super::queue::Waiting;
use super::window::Window;
use sessions::Command;
use std::alloc::{AllocError, Global};
use synod::{Slot, Vote};
use wire::SharedCommand;

/// Of the votes told at the slot, the one of the highest ballot.
pub(super) fn highest(told: &[Vote<SharedCommand>], slot: Slot) -> Option<&Vote<SharedCommand>>
    ensures { option_copied result ≡ told_at told.now slot }
{
    match told {
        [] => None,
        [vote, rest @ ..] => {
            let others = highest(rest, slot);
            if vote.slot != slot {
                return others;
            }
            match others {
                Some(other) if vote.ballot < other.ballot => Some(other),
                _ => Some(vote),
            }
        }
    }
}

/// Whether a vote is told at a greater slot.
pub(super) fn is_told_after(told: &[Vote<SharedCommand>], slot: Slot) -> bool
    ensures { result ≡ is_told_after told.now slot }
{
    told.iter().any(|vote| slot < vote.slot)
}

/// The command for a slot at which no vote is told: a no-op in a gap, which is below a slot that is told or learnt; else the
/// first waiting request that is in no open proposal; else a no-op, where the slot is the campaign's first.
pub(super) fn free_choice(
    alloc: Global,
    is_gap: bool,
    waiting: &Waiting,
    window: &Window,
    is_first: bool,
) -> Result<Option<SharedCommand>, AllocError>
    ensures chosen { IfOk result (λ c. c ≡ free_choice is_gap waiting.now window.now is_first) }
    ensures there { OnErr result (IsSome (free_choice is_gap waiting.now window.now is_first)) }
{
    if is_gap {
        return Ok(Some(SharedCommand::new(alloc, Command::NoOp)?));
    }
    if let Some(request) = waiting.first_free(window) {
        return Ok(Some(SharedCommand::new(alloc, Command::Request(request.clone()?))?));
    }
    if is_first {
        return Ok(Some(SharedCommand::new(alloc, Command::NoOp)?));
    }
    Ok(None)
}
