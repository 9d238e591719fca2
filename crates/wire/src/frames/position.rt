//! Positions of checkpoints.

ghost use Rattle.std.specs.Prelude.{◌≡◌, ◌↔◌, IsSome, IfSome};
ghost use Rattle.wire.specs.Parts.{IsPosition};

use std::marker::Model;
use synod::SLOTS;

/// How many entries of the log a checkpoint stands for: at least one, and at most all of them.
#[derive(Clone, Copy, Debug, PartialEq, Eq)]
pub struct Position {
    value: u32,
}

impl Model for Position {
    ghost use Rattle.std.specs.Prelude.{ℕ};
    ghost use Rattle.wire.specs.Parts.{IsPosition};

    ghost Value = { ℕ };

    ghost view = { λ p. p.value };

    ghost invariant = { λ p. IsPosition p.value };

    ghost inverse = { λ n. record { value = n } };
}

impl Position {
    /// The position behind so many entries, or None where no checkpoint stands there.
    pub fn new(value: u32) -> Option<Position>
        ensures valid { IsSome result ↔ IsPosition value }
        ensures value { IfSome result (λ position. position ≡ value) }
    {
        if value < 1 || value > SLOTS {
            return None;
        }
        Some(Position { value })
    }

    /// So many entries.
    pub fn value(self) -> u32
        ensures value { result ≡ self }
        ensures is { IsPosition self }
    {
        self.value
    }
}
