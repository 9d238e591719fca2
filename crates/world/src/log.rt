//! How much one call does at most.

ghost use Rattle.std.specs.Prelude.{◌≡◌};

/// One flush delivers at most this many frames.
pub const MOST_DELIVERIES: u32 = 10_000;

/// A flush delivers at most 10,000 frames.
pub fn limits()
    ensures { MOST_DELIVERIES ≡ 10000 }
{}
