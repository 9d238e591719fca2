//! What is asked, and of what.

ghost use Rattle.std.specs.Prelude.{◌≡◌, ◌<◌, ◌≤◌, ◌⊎◌, pos, IfOk, IfErr};
ghost use Rattle.tpoint.specs.Instants.{IsInstant};
ghost use Rattle.conformance.specs.Faults.{IsUntimed};
ghost use Rattle.conformance.specs.Scenes.{fix, AreFixes};

use crate::fault::Fault;
use mfjson::Feature;
use std::alloc::{AllocError, Global};
use tpoint::{FURTHEST, Id, Instant, Interp, MOST_POINTS, Period, Point, Rect, Seq};

/// The first instant, the start of 2020, in milliseconds.
pub const START: u64 = 1_577_836_800_000;

/// From one point to the next, in milliseconds: a minute.
pub const EVERY: u32 = 60_000;

/// How long the short period is, in milliseconds.
pub const SHORT: u64 = 10_000;

/// A moving point that rises from one corner of a square to the opposite, and the periods and
/// rectangles that are asked for.
#[derive(Drop)]
pub struct Scene {
    pub feature: Feature,
    /// From its first instant to its last, in milliseconds.
    pub extent: u32,
    /// A short period in its middle.
    pub middle: Period,
    /// All of its time.
    pub whole: Period,
    /// The two corners that it doesn't come to.
    pub below: Rect,
    pub above: Rect,
    /// Two areas that have all of its positions.
    pub around: Rect,
    pub everywhere: Rect,
}

impl Scene {
    /// The scene of a moving point with so many points; Usage where a sequence can't have as many.
    pub fn new(alloc: Global, points: u16) -> Result<Scene, Fault>
        ensures err { IfErr result IsUntimed }
        ensures usage { IfErr result (λ fault. fault ≡ Fault.Usage
            → (points ≡ 0) ⊎ (MOST_POINTS < points)) }
    {
        let extent = EVERY * u32::from(points.saturating_sub(1));
        let middle = START + u64::from(extent / 2);
        let end = START + u64::from(extent);
        let size = 1000 * u32::from(points);
        Ok(Scene {
            feature: Feature {
                id: id(),
                seq: Seq::new(Interp::Linear, fixes(alloc, points)?)?,
            },
            extent,
            middle: period(middle, middle + SHORT),
            whole: period(START, end),
            below: rect(size / 2, 0, size, 10),
            above: rect(0, size / 2 + 600, 10, size + 600),
            around: rect(0, 0, size, size + 500),
            everywhere: everywhere(),
        })
    }
}

/// The name of the moving point.
fn id() -> Id {
    Id::new(b"bus-7").unwrap()
}

/// The points, a minute after the other.
fn fixes(alloc: Global, count: u16) -> Result<Vec<Point>, AllocError>
    ensures { IfOk result (λ points. AreFixes count points.items) }
{
    let mut points = Vec::with_capacity(alloc, usize::from(count))?;
    for k in 0..count {
        points.push(fix(k))?;
    }
    Ok(points)
}

/// The point at a place. Every other one lies off the diagonal, so that no leg is along it.
pub fn fix(k: u16) -> Point
    ensures { result ≡ fix k }
{
    let along = 1000 * i64::from(k);
    Point {
        t: instant(START + u64::from(EVERY * u32::from(k))),
        x: along,
        y: along + 500 * i64::from(k % 2),
    }
}

/// The instant of this many milliseconds.
pub fn instant(ms: u64) -> Instant
    requires { IsInstant (pos ms) }
    ensures { result ≡ ms }
{
    Instant::new(ms as i64).unwrap()
}

/// The period between two instants in milliseconds.
pub fn period(begin: u64, end: u64) -> Period
    requires begins { IsInstant (pos begin) }
    requires ends { IsInstant (pos end) }
    requires ordered { begin ≤ end }
{
    Period::new(instant(begin), instant(end)).unwrap()
}

/// The rectangle between two corners, no coordinate of which is negative.
fn rect(x0: u32, y0: u32, x1: u32, y1: u32) -> Rect
    requires across { x0 ≤ x1 }
    requires along { y0 ≤ y1 }
{
    Rect::new(x0.into(), y0.into(), x1.into(), y1.into()).unwrap()
}

/// The rectangle of all positions.
fn everywhere() -> Rect {
    Rect::new(-FURTHEST, -FURTHEST, FURTHEST, FURTHEST).unwrap()
}
