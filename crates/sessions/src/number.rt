//! The number of a client's request.

ghost use Rattle.std.specs.Prelude.{◌≡◌, ◌≤◌, ◌↔◌, IfSome, IsSome};

use std::marker::Model;

/// The number of a request, from 1. A client counts its requests by it.
#[derive(Clone, Copy, Debug, PartialEq, Eq, PartialOrd, Ord)]
pub struct Number {
    value: u64,
}

impl Model for Number {
    ghost use Rattle.std.specs.Prelude.{ℕ, ◌≤◌};

    ghost Value = { ℕ };

    ghost view = { λ number. number.value };

    ghost invariant = { λ number. 1 ≤ number.value };

    ghost inverse = { λ n. record { value = n } };
}

impl Number {
    /// The number of this value, or None for 0.
    pub fn new(value: u64) -> Option<Number>
        ensures valid { IsSome result ↔ (1 ≤ value) }
        ensures value { IfSome result (λ number. number ≡ value) }
    {
        if value >= 1 {
            Some(Number { value })
        } else {
            None
        }
    }

    /// Its value.
    pub fn value(self) -> u64
        ensures value { result ≡ self }
        ensures from_one { 1 ≤ result }
    {
        self.value
    }
}
