//! To whom a client's request is handed on.

ghost use Rattle.std.specs.Prelude.{◌≡◌, ◌≤◌, ◌-◌, ◌↔◌, IsTrue};
ghost use Rattle.serving.specs.HandingOn.{IsHandedTo};

/// A request that waits is handed on again after so many milliseconds.
pub const HAND_ON_PERIOD: u64 = 250;

/// Whether a request that came to one node is handed on to another: to the node that leads, or to all others where none is known to.
pub fn is_handed_to(leader: Option<u8>, own: u8, node: u8) -> bool
    ensures { IsTrue result ↔ IsHandedTo leader own node }
{
    match leader {
        Some(leader) => node == leader && node != own,
        None => node != own,
    }
}

/// Whether a request that was handed on at one time is to be handed on again.
pub fn is_due_again(handed_on: u64, now: u64) -> bool
    ensures { IsTrue result ↔ (HAND_ON_PERIOD ≤ now - handed_on) }
{
    HAND_ON_PERIOD <= now.saturating_sub(handed_on)
}
