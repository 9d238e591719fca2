//! Lines, one behind another.

ghost use Rattle.std.specs.Prelude.{◌≡◌, [], ◌∷◌, ◌++◌, OnOk};
ghost use Rattle.story.specs.Lines.{in_one_line, shown};

use std::io;

/// Adds a text as one line: a line feed in it is shown as a space.
pub(crate) fn push_line(text: &mut Vec<u8>, line: &[u8]) -> io::Result<()>
    ensures { OnOk result (text.new.items ≡ text.old.items ++ (in_one_line line.now ++ 10 ∷ [])) }
{
    for byte in line {
        text.extend_from_slice(&[shown(*byte)])?;
    }
    text.extend_from_slice(b"\n")?;
    Ok(())
}

/// How a byte is shown within a line.
fn shown(byte: u8) -> u8
    ensures { result ≡ shown byte }
{
    if byte == b'\n' { b' ' } else { byte }
}
