//! Answers as numbers.

ghost use Rattle.std.specs.Prelude.{◌<◌};

use super::scene::{START, Scene, instant};
use mfjson::{datetime_read, datetime_text};
use predicates::{Tri, always, ever};
use restrict::cut;
use std::alloc::{AllocError, Global};
use tpoint::{Frac, Instant, Period, Rect};

/// So many milliseconds lie between the instants of two rounds that follow each other.
pub const STEP: u64 = 7919;

/// The value at an instant of the round's own, as a number; 0 where there is none.
pub fn value_number(scene: &Scene, round: u32) -> u64 {
    match scene.feature.seq.value_at(instant_of(scene, round)).value {
        Some((x, y)) => 1 + rest_of(x) + rest_of(y),
        None => 0,
    }
}

/// The instant of a round: a step later than that of the round before, and from the start again.
pub fn instant_of(scene: &Scene, round: u32) -> Instant {
    let extent = scene.extent;
    instant(START + u64::from(round) * STEP % (u64::from(extent) + 1))
}

/// What is left of a coordinate's upper number when thousands are taken away.
fn rest_of(z: Frac) -> u64
    ensures { result < 1000 }
{
    (z.num.unsigned_abs() % 1000) as u64
}

/// Whether the point is ever in a corner that it doesn't come to, as a number.
pub fn ever_number(scene: &Scene, period: &Period, round: u32) -> u64 {
    tri_number(ever(&scene.feature.seq, period, corner_of(scene, round)))
}

/// One of the two corners.
pub fn corner_of(scene: &Scene, round: u32) -> &Rect {
    if round % 2 == 0 {
        &scene.below
    } else {
        &scene.above
    }
}

/// Whether the point is always in an area that has all of its positions, as a number.
pub fn always_number(scene: &Scene, period: &Period, round: u32) -> u64 {
    tri_number(always(&scene.feature.seq, period, area_of(scene, round)))
}

/// One of the two areas.
pub fn area_of(scene: &Scene, round: u32) -> &Rect {
    if round % 2 == 0 {
        &scene.around
    } else {
        &scene.everywhere
    }
}

/// The number of an answer.
fn tri_number(answer: Tri) -> u64 {
    match answer {
        Tri::None => 0,
        Tri::Yes => 1,
        Tri::No => 2,
    }
}

/// How many instants the cut lists.
pub fn cut_number(alloc: Global, scene: &Scene, period: &Period) -> Result<u64, AllocError> {
    match cut(alloc, &scene.feature.seq, period)? {
        Some(cut) => Ok(cut.points.len() as u64),
        None => Ok(0),
    }
}

/// The milliseconds of the round's own instant, after it was a text.
pub fn datetime_number(round: u32) -> u64 {
    let text = datetime_text(instant(START + STEP * u64::from(round)));
    datetime_read(&text).unwrap().ms().unsigned_abs()
}
