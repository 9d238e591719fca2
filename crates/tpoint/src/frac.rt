//! Fractions in lowest terms.

ghost use Rattle.std.specs.Prelude.{pos, ◌≤ℤ◌, unsigned_abs};
ghost use Rattle.tpoint.specs.Lowest.{IsInLowestTerms};

use std::fmt;

/// A fraction in lowest terms: `num / den`, with `den` at least 1.
///
/// It prints `n` where `den` is 1, else `n/d`; a minus sign comes first.
#[derive(Clone, Copy, Debug, PartialEq, Eq)]
pub struct Frac {
    pub num: i128,
    pub den: i64,
    pub ghost positive: { pos 1 ≤ℤ den },
    pub ghost lowest: { IsInLowestTerms (unsigned_abs num) (unsigned_abs den) },
}

impl From<i64> for Frac {
    ghost use Rattle.tpoint.specs.Reduced.{IsWholeNumber};

    ghost from_gives = { IsWholeNumber };

    fn from(whole: i64) -> Frac {
        Frac {
            num: whole as i128,
            den: 1,
        }
    }
}

impl fmt::Display for Frac {
    ghost use Rattle.tpoint.specs.FracText.{frac_text};
    ghost use Rattle.std.specs.Prelude.{Some};

    ghost output = { λ f. Some (frac_text f) };

    fn fmt<W: fmt::Write>(&self, f: &mut fmt::Formatter<W>) -> fmt::Result {
        let num = self.num;
        let den = self.den;
        if den == 1 {
            return write!(f, "{num}");
        }
        write!(f, "{num}/{den}")
    }
}
