//! Texts written into a line from its end to its front.
//!
//! Each call writes a text so that it ends at a given place of the line, and returns the place where it starts. The bytes from
//! the end on are kept. So the parts of a line are written in turn, the last one first, and the whole is moved once.
#![tactic(auto)]

ghost use Rattle.std.specs.Prelude.{◌≡◌, ◌+◌, ◌≤◌, ◌∷◌, ◌++◌, length, drop};
ghost use Rattle.std.specs.Fmt.{signed_decimal};

use itoa::{Buffer, write_digits};

/// The bytes that a whole number of 64 bits takes at most, with its sign.
pub const LONGEST_WHOLE: usize = 20;

/// The bytes that a whole number of 128 bits takes at most, with its sign.
pub const LONGEST_WIDE: usize = 40;

/// Writes a byte.
#[inline]
pub fn write_byte(byte: u8, line: &mut [u8], end: usize) -> usize
    requires room { 1 ≤ end }
    requires in_line { end ≤ length line.old }
    ensures start { result + 1 ≡ end }
    ensures written { drop result line.new ≡ byte ∷ drop end line.old }
{
    line[end - 1] = byte;
    end - 1
}

/// Writes a text as it is.
#[inline]
pub fn write_text(text: &[u8], line: &mut [u8], end: usize) -> usize
    requires room { length text.now ≤ end }
    requires in_line { end ≤ length line.old }
    ensures start { result + length text.now ≡ end }
    ensures written { drop result line.new ≡ text.now ++ drop end line.old }
{
    let start = end - text.len();
    line[start..end].copy_from_slice(text);
    start
}

/// Writes a whole number in decimal.
#[inline]
pub fn write_whole(n: i64, line: &mut [u8], end: usize) -> usize
    requires room { LONGEST_WHOLE ≤ end }
    requires in_line { end ≤ length line.old }
    ensures start { result + length (signed_decimal n) ≡ end }
    ensures short { length (signed_decimal n) ≤ LONGEST_WHOLE }
    ensures written { drop result line.new ≡ signed_decimal n ++ drop end line.old }
{
    let start = write_digits(n.unsigned_abs(), line, end);
    if n >= 0 {
        return start;
    }
    write_byte(b'-', line, start)
}

/// Writes a whole number in decimal. One of 64 bits is written as such, which is quicker.
#[inline]
pub fn write_wide(n: i128, line: &mut [u8], end: usize) -> usize
    requires room { LONGEST_WIDE ≤ end }
    requires in_line { end ≤ length line.old }
    ensures start { result + length (signed_decimal n) ≡ end }
    ensures short { length (signed_decimal n) ≤ LONGEST_WIDE }
    ensures written { drop result line.new ≡ signed_decimal n ++ drop end line.old }
{
    match i64::try_from(n) {
        Ok(short) => write_whole(short, line, end),
        Err(_) => write_text(Buffer::new().format(n).as_bytes(), line, end),
    }
}
