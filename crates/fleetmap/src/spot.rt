//! Spots of a chart.

ghost use Rattle.std.specs.Prelude.{◌≤◌};
ghost use Rattle.fleetmap.specs.declared.chart.TheConstants.{SIDE};

use crate::chart::SIDE;

/// A spot of a chart, in hundredths of the picture's unit from its lower left corner.
#[derive(Clone, Copy, Debug, PartialEq, Eq)]
pub struct Spot {
    pub x: u32,
    pub y: u32,
    pub ghost across: { x ≤ SIDE },
    pub ghost along: { y ≤ SIDE },
}
