//! Coordinates.

ghost use Rattle.std.specs.Prelude.{◌↔◌, IsTrue};
ghost use Rattle.tpoint.specs.Coordinates.{InRange};

/// The greatest coordinate and rectangle bound, in millimetres; the least is its negation.
pub const FURTHEST: i64 = 10_000_000_000;

/// Whether it is a coordinate: whole millimetres from `-FURTHEST` to `FURTHEST`.
pub fn is_coordinate(z: i64) -> bool
    ensures { IsTrue result ↔ InRange z }
{
    -FURTHEST <= z && z <= FURTHEST
}
