//! To bring a fraction to lowest terms.

ghost use Rattle.std.specs.Prelude.{◌≡◌, ℕ, ◌*◌, ◌/◌, ◌%◌, ◌^◌, ◌<◌, ◌≤◌, IfSome};
ghost use Rattle.std.specs.Prelude.{ℤ, pos, ◌*ℤ◌, ◌≤ℤ◌, unsigned_abs};
ghost use Rattle.std.specs.Int.{IsGcd};
ghost use Rattle.tpoint.specs.Signs.{with_sign};

use crate::Frac;

/// The greatest common divisor.
fn gcd(a: u128, b: u64) -> u64
    requires { 1 ≤ b }
    ensures { IsGcd a b result }
{
    let mut x = b;
    // What the first division leaves, and all that follows, has 64 bits.
    let mut y = remainder(a, b);
    while y != 0 {
        let rest = x % y;
        x = y;
        y = rest;
    }
    x
}

/// The number in 64 bits, or None where it has more.
fn short(a: u128) -> Option<u64>
    ensures { IfSome result (λ s. s ≡ a) }
{
    u64::try_from(a).ok()
}

/// What a division leaves. Nearly all numbers fit 64 bits, where a division costs a small part of a
/// long one.
fn remainder(a: u128, b: u64) -> u64
    requires { 1 ≤ b }
    ensures { result ≡ a % b }
{
    match short(a) {
        Some(a) => a % b,
        None => (a % u128::from(b)) as u64,
    }
}

/// How often one number goes into another, by the same two ways.
fn quotient(a: u128, b: u64) -> u128
    requires { 1 ≤ b }
    ensures value { result ≡ a / b }
    ensures smaller { result ≤ a }
{
    match short(a) {
        Some(a) => u128::from(a / b),
        None => a / u128::from(b),
    }
}

/// A number with the sign of another.
fn with_sign_of(size: u128, of: i128) -> i128
    requires { size < 2 ^ 127 }
    ensures { result ≡ with_sign size of }
{
    if of < 0 {
        -(size as i128)
    } else {
        size as i128
    }
}

/// `num / den` in lowest terms.
pub fn reduce(num: i128, den: i64) -> Frac
    requires positive { pos 1 ≤ℤ den }
    requires small { unsigned_abs num < 2 ^ 127 }
    ensures { result.num *ℤ den ≡ num *ℤ result.den }
{
    let size = num.unsigned_abs();
    let below = den.unsigned_abs();
    let divisor = gcd(size, below);
    Frac {
        num: with_sign_of(quotient(size, divisor), num),
        den: (below / divisor) as i64,
    }
}
