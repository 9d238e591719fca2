//! Texts from outside, escaped.

ghost use Rattle.std.specs.Prelude.{◌≡◌, ◌++◌, ◌<◌, ℕ, List, All, OnOk};
ghost use Rattle.picture.specs.Escaped.{IsHarmless, digit, escape, escaped, is_plain};

use std::io;

/// Adds the bytes, escaped: neither `<`, `>`, a quotation mark nor a control byte stands there, and `&` only where it begins the number of
/// a byte. A control byte is shown by its picture, and a byte above 127 as the character of its number.
///
/// After an error a part of it may stand there.
pub fn push_escaped(text: &mut Vec<u8>, bytes: &[u8]) -> io::Result<()>
    ensures { OnOk result (text.new.items ≡ text.old.items ++ escaped bytes.now) }
{
    for byte in bytes {
        push_byte(text, *byte)?;
    }
    Ok(())
}

/// Adds a byte, escaped.
fn push_byte(text: &mut Vec<u8>, byte: u8) -> io::Result<()>
    ensures { OnOk result (text.new.items ≡ text.old.items ++ escape byte) }
{
    if is_plain(byte) {
        text.extend_from_slice(&[byte])?;
        return Ok(());
    }
    let row = if byte < 32 { b'2' } else { b'0' };
    let column = if byte < 32 { b'4' } else { b'0' };
    let (high, low) = (digit(byte / 16), digit(byte % 16));
    text.extend_from_slice(&[b'&', b'#', b'x', row, column, high, low, b';'])?;
    Ok(())
}

/// Whether a byte stands for itself.
fn is_plain(byte: u8) -> bool
    ensures { result ≡ is_plain byte }
{
    byte >= 32
        && byte < 127
        && byte != b'<'
        && byte != b'>'
        && byte != b'&'
        && byte != b'"'
        && byte != b'\''
}

/// A hexadecimal digit.
fn digit(value: u8) -> u8
    requires { value < 16 }
    ensures { result ≡ digit value }
{
    if value < 10 {
        b'0' + value
    } else {
        b'a' - 10 + value
    }
}

/// Two texts that are escaped alike are one.
pub fn escaped_texts_are_read_back()
    ensures { (a b : List ℕ) → All (λ x. x < 256) a → All (λ x. x < 256) b → escaped a ≡ escaped b → a ≡ b }
{}

/// Of an escaped text nothing ends an attribute or an element, or begins one.
pub fn nothing_breaks_out()
    ensures { (text : List ℕ) → All (λ x. x < 256) text → All IsHarmless (escaped text) }
{}
