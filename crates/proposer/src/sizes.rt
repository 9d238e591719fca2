//! How much a proposer keeps at most, as numbers. Nothing runs.

ghost use Rattle.std.specs.Prelude.{◌≡◌};

use super::queue::MOST_WAITING;
use super::window::MOST_OPEN;

/// At most 64 requests wait, and at most eight proposals are open.
pub fn limits()
    ensures waiting { MOST_WAITING ≡ 64 }
    ensures open { MOST_OPEN ≡ 8 }
{}
