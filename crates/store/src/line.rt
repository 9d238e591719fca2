//! Positions as texts, written into a line from its end to its front.

ghost use Rattle.std.specs.Prelude.{◌≡◌, ◌+◌, ◌≤◌, ◌++◌, codes, drop, length};
ghost use Rattle.tpoint.specs.FracText.{frac_text};
ghost use Rattle.store.specs.Answers.{fix_text, value_text};
ghost use Rattle.std.specs.Prelude.{Some};

use itoa::write_digits;
use textbuf::{LONGEST_WHOLE, LONGEST_WIDE, write_byte, write_text, write_whole, write_wide};
use tpoint::{Frac, Instant};

/// The bytes that a fraction takes at most: two numbers, and a slash between them.
const LONGEST_FRAC: usize = LONGEST_WIDE + 1 + LONGEST_WHOLE;

/// The bytes that a position takes at most: two fractions, and a blank between them.
const LONGEST_PLACE: usize = 2 * LONGEST_FRAC + 1;

/// The bytes that a listed instant with its position takes at most, with a bar before it.
pub(crate) const LONGEST_FIX: usize = 3 + LONGEST_WHOLE + 1 + LONGEST_PLACE;

/// Writes a fraction.
fn write_frac(frac: Frac, line: &mut [u8], end: usize) -> usize
    requires room { LONGEST_FRAC ≤ end }
    requires in_line { end ≤ length line.old }
    ensures start { result + length (frac_text frac) ≡ end }
    ensures short { length (frac_text frac) ≤ LONGEST_FRAC }
    ensures written { drop result line.new ≡ frac_text frac ++ drop end line.old }
{
    if frac.den == 1 {
        return write_wide(frac.num, line, end);
    }
    let start = write_whole(frac.den, line, end);
    let start = write_byte(b'/', line, start);
    write_wide(frac.num, line, start)
}

/// Writes a position: two fractions, and a blank between them.
pub(crate) fn write_place(x: Frac, y: Frac, line: &mut [u8], end: usize) -> usize
    requires room { LONGEST_PLACE ≤ end }
    requires in_line { end ≤ length line.old }
    ensures start { result + length (value_text (Some (x, y))) ≡ end }
    ensures short { length (value_text (Some (x, y))) ≤ LONGEST_PLACE }
    ensures written { drop result line.new ≡ value_text (Some (x, y)) ++ drop end line.old }
{
    let start = write_frac(y, line, end);
    let start = write_byte(b' ', line, start);
    write_frac(x, line, start)
}

/// Writes a listed instant with its position into the whole of the line, and tells where it starts.
pub(crate) fn write_fix(fix: &(Instant, Frac, Frac), line: &mut [u8; LONGEST_FIX]) -> usize
    ensures start { result ≤ LONGEST_FIX }
    ensures written { drop result line.new ≡ fix_text fix.now }
{
    let (t, x, y) = *fix;
    let start = write_place(x, y, line, LONGEST_FIX);
    let start = write_byte(b' ', line, start);
    let start = write_digits(milliseconds(t), line, start);
    write_text(b" | ", line, start)
}

/// The milliseconds since the start of 1970.
fn milliseconds(t: Instant) -> u64
    ensures { result ≡ t }
{
    t.ms().unsigned_abs()
}
