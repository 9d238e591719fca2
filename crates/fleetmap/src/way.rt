//! The ways of features.

#![tactic(auto, using(picture::proofs::Growth::grows_by, picture::proofs::Growth::grows_on, picture::proofs::Growth::grows_not))]

ghost use Rattle.std.specs.Prelude.{OnOk};
ghost use Rattle.picture.specs.Growing.{Grows};

use crate::chart::Chart;
use crate::page::place_on_map;
use crate::shown::spot_of;
use picture::{Picture, Place};
use std::alloc::Global;
use std::io;
use tpoint::{Frac, Interp, Point, Seq};

/// The radius of a listed position, in hundredths of a unit.
const DOT: u32 = 250;

/// Draws the way of a feature: a line along which it moves, a dashed one where it leaps, and a dot for each listed position where it
/// stays or is for an instant alone.
pub(crate) fn draw_way(
    alloc: Global,
    picture: &mut Picture,
    seq: &Seq,
    chart: &Chart,
) -> io::Result<()>
    ensures { OnOk result (Grows picture.old picture.new) }
{
    let places = listed_places(alloc, seq.points(), chart)?;
    match seq.interp() {
        Interp::Linear => picture.way(b"way", &places),
        Interp::Step => {
            picture.way(b"leap", &places)?;
            draw_dots(picture, &places)
        }
        Interp::Discrete => draw_dots(picture, &places),
    }
}

/// Where points are drawn, in order. One that is drawn where the one before it is stands there once.
fn listed_places(alloc: Global, points: &[Point], chart: &Chart) -> io::Result<Vec<Place>> {
    let mut places = Vec::new(alloc);
    for point in points {
        let Some(spot) = spot_of(chart, &Frac::from(point.x), &Frac::from(point.y)) else {
            continue;
        };
        let place = place_on_map(&spot);
        if places.last() != Some(&place) {
            places.push(place)?;
        }
    }
    Ok(places)
}

fn draw_dots(picture: &mut Picture, places: &[Place]) -> io::Result<()>
    ensures { OnOk result (Grows picture.old picture.new) }
{
    for place in places {
        picture.circle(b"dot", *place, DOT)?;
    }
    Ok(())
}
