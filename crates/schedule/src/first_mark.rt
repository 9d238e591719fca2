//! Bytes cut at the first mark.

ghost use Rattle.std.specs.Prelude.{◌≡◌, ◌==◌, ◌∷◌, Some, position};
ghost use Rattle.std.specs.List.{position_or_len};
ghost use Rattle.std.specs.Option.{option_copied};
ghost use Rattle.schedule.specs.Lines.{pieces};

use memchr::memchr;

/// From so many bytes on a text is long.
const LONG: usize = 32;

/// The bytes before the first mark, and those after it; without a mark, all bytes and None.
pub fn cut(bytes: &[u8], mark: u8) -> (&[u8], Option<&[u8]>)
    ensures { pieces mark (Some bytes.now) ≡ result.0.now ∷ pieces mark (option_copied result.1) }
{
    let end = first_end(bytes, mark);
    if end < bytes.len() {
        return (&bytes[..end], Some(&bytes[end + 1..]));
    }
    (bytes, None)
}

/// Where the first mark stands, or the end. As one number it is handed back in a register.
pub(crate) fn first_end(bytes: &[u8], mark: u8) -> usize
    ensures { result ≡ position_or_len (λ b. b == mark) bytes.now }
{
    first_place(bytes, mark).unwrap_or(bytes.len())
}

/// Where the mark stands first. Of a long text many bytes are looked at at once, which a short one doesn't repay.
fn first_place(bytes: &[u8], mark: u8) -> Option<usize>
    ensures { result ≡ position (λ b. b == mark) bytes.now }
{
    if bytes.len() < LONG {
        return bytes.iter().position(|byte| *byte == mark);
    }
    memchr(mark, bytes)
}
