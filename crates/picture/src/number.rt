//! Numbers of a picture.

ghost use Rattle.std.specs.Prelude.{◌≡◌, ◌++◌, OnOk};
ghost use Rattle.picture.specs.Elements.{hundredths};

use std::io::{self, Write};

/// Adds so many hundredths in decimal, as 12.05. An error is out of memory.
pub fn push_hundredths(text: &mut Vec<u8>, n: u32) -> io::Result<()>
    ensures { OnOk result (text.new.items ≡ text.old.items ++ hundredths n) }
{
    let (whole, tenths, rest) = (n / 100, n / 10 % 10, n % 10);
    write!(text, "{whole}.{tenths}{rest}")
}
