//! How features are shown on a chart.

ghost use Rattle.std.specs.Prelude.{◌≡◌, IfOk, length, MatchOption};
ghost use Rattle.tpoint.specs.Moving.{At, moment};
ghost use Rattle.tpoint.specs.Reduced.{position};
ghost use Rattle.fleetmap.specs.Charts.{LiesOn, IsDrawnAt};
ghost use Rattle.fleetmap.specs.Fleets.{IsShownAs, AreShown};

use crate::chart::Chart;
use crate::drawn::drawn;
use crate::spot::Spot;
use std::alloc::{AllocError, Global};
use store::Db;
use tpoint::{Frac, Instant, Seq};

/// How a feature is shown at an instant.
#[derive(Clone, Copy, Debug, PartialEq, Eq)]
pub enum Shown {
    /// It has no value then.
    Nowhere,
    /// Its value isn't on the chart.
    Beyond,
    /// Its value is drawn there.
    At(Spot),
}

/// Where each feature of a database is on a chart at an instant, in their order.
pub fn show_fleet(
    alloc: Global,
    db: &Db,
    t: Instant,
    chart: &Chart,
) -> Result<Vec<Shown>, AllocError>
    ensures { IfOk result (λ shown. AreShown chart.now t db.now shown.items) }
{
    let mut shown = Vec::new(alloc);
    for at in 0..db.len() {
        let Some((_id, seq)) = db.feature(at) else {
            unreachable!()
        };
        shown.push(show_feature(seq, t, chart))?;
    }
    Ok(shown)
}

/// Where a feature is on a chart at an instant: its defined value, never another's.
pub fn show_feature(seq: &Seq, t: Instant, chart: &Chart) -> Shown
    ensures { IsShownAs chart.now (At seq.now (moment t)) result }
{
    let found = seq.value_at(t);
    let Some(value) = found.value else {
        return Shown::Nowhere;
    };
    match spot_of(chart, &value.0, &value.1) {
        Some(spot) => Shown::At(spot),
        None => Shown::Beyond,
    }
}

/// Where a position is drawn; None where it isn't on the chart.
pub(crate) fn spot_of(chart: &Chart, x: &Frac, y: &Frac) -> Option<Spot>
    ensures { MatchOption result (¬ LiesOn chart.now (position (x.now, y.now)))
        (λ spot. LiesOn chart.now (position (x.now, y.now)) × IsDrawnAt chart.now (position (x.now, y.now)) spot) }
{
    let x = drawn(chart.west(), chart.span(), x)?;
    let y = drawn(chart.south(), chart.span(), y)?;
    Some(Spot { x, y })
}
