//! How much a frame carries at most, and how each begins, as numbers. Nothing runs.

ghost use Rattle.std.specs.Prelude.{◌≡◌};

use crate::frames::{LONGEST_FRAME, MAGIC, MOST_ENTRIES, MOST_PARTS, PART};

/// A promise tells four votes at most; a frame has at most 60,000 bytes, and begins with `MP`. A part of a text has 32,768 bytes, and
/// a text at most 193 of them.
pub fn limits()
    ensures entries { MOST_ENTRIES ≡ 4 }
    ensures frame { LONGEST_FRAME ≡ 60000 }
    ensures magic { MAGIC ≡ 19792 }
    ensures part { PART ≡ 32768 }
    ensures parts { MOST_PARTS ≡ 193 }
{}
