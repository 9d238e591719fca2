//! When a checkpoint is due.

ghost use Rattle.std.specs.Prelude.{◌≤◌, ◌+◌, ◌↔◌, IsTrue};

/// So many slots lie between two checkpoints at least.
pub const SLOTS_BETWEEN_CHECKPOINTS: u32 = 1_000;

/// Whether a node at this position, whose last checkpoint is at that floor, is to write another one.
pub fn is_checkpoint_due(position: u32, floor: u32) -> bool
    ensures { IsTrue result ↔ (floor + SLOTS_BETWEEN_CHECKPOINTS ≤ position) }
{
    SLOTS_BETWEEN_CHECKPOINTS <= position.saturating_sub(floor)
}
