//! How large things may be, as numbers. Nothing runs.

ghost use Rattle.std.specs.Prelude.{◌≡◌, pos};

use super::coordinate::FURTHEST;
use super::id::LONGEST_ID;
use super::instant::LAST_MS;
use super::seq::MOST_POINTS;

/// An id has 64 bytes at most, a sequence 1,024 points; a coordinate is within ten thousand kilometres of the origin, and
/// time ends with the year 9999.
pub fn limits()
    ensures id { LONGEST_ID ≡ 64 }
    ensures points { MOST_POINTS ≡ 1024 }
    ensures coordinate { FURTHEST ≡ pos 10000000000 }
    ensures instant { LAST_MS ≡ pos 253402300799999 }
{}
