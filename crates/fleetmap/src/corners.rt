//! The chart on which a whole fleet lies.

use crate::asked::Asked;
use crate::chart::Chart;
use store::Db;
use tpoint::{Point, Rect};

/// The least rectangle that has some positions in it, in millimetres.
#[derive(Clone, Copy)]
struct Corners {
    x0: i64,
    y0: i64,
    x1: i64,
    y1: i64,
}

/// A chart that has all positions of the features, with a margin; and each rectangle that isn't much further off, so that a rectangle
/// of half the world doesn't shrink the fleet to a point. Without features it has all rectangles.
pub(crate) fn chart_of(db: &Db, asked: &[Asked]) -> Chart {
    let fleet = corners_of(db);
    let mut corners = fleet;
    for one in asked {
        let Some(area) = one.area() else {
            continue;
        };
        if let Some(fleet) = fleet {
            if !is_near(&fleet, &area) {
                continue;
            }
        }
        corners = Some(with_area(corners, &area));
    }
    square_round(corners.unwrap_or(Corners {
        x0: 0,
        y0: 0,
        x1: 0,
        y1: 0,
    }))
}

/// The corners of all listed positions; None where there is no feature.
fn corners_of(db: &Db) -> Option<Corners> {
    let mut corners = None;
    for at in 0..db.len() {
        if let Some((_id, seq)) = db.feature(at) {
            corners = with_points(corners, seq.points());
        }
    }
    corners
}

fn with_points(before: Option<Corners>, points: &[Point]) -> Option<Corners> {
    let mut corners = before;
    for point in points {
        corners = Some(with(corners, point.x, point.y));
    }
    corners
}

fn with_area(before: Option<Corners>, area: &Rect) -> Corners {
    with(
        Some(with(before, area.x0(), area.y0())),
        area.x1(),
        area.y1(),
    )
}

fn with(before: Option<Corners>, x: i64, y: i64) -> Corners {
    match before {
        None => Corners {
            x0: x,
            y0: y,
            x1: x,
            y1: y,
        },
        Some(corners) => Corners {
            x0: corners.x0.min(x),
            y0: corners.y0.min(y),
            x1: corners.x1.max(x),
            y1: corners.y1.max(y),
        },
    }
}

/// Whether a rectangle lies within thrice the extent of the corners, in the middle of which they are.
fn is_near(corners: &Corners, area: &Rect) -> bool {
    let extent = extent_of(corners);
    corners.x0.saturating_sub(extent) <= area.x0()
        && corners.y0.saturating_sub(extent) <= area.y0()
        && area.x1() <= corners.x1.saturating_add(extent)
        && area.y1() <= corners.y1.saturating_add(extent)
}

fn extent_of(corners: &Corners) -> i64 {
    let width = corners.x1.saturating_sub(corners.x0);
    let height = corners.y1.saturating_sub(corners.y0);
    width.max(height)
}

/// The chart in whose middle the corners are.
fn square_round(corners: Corners) -> Chart {
    let extent = extent_of(&corners);
    let side = extent.saturating_add(extent / 6).saturating_add(10);
    let west = edge(corners.x0, corners.x1, side);
    let south = edge(corners.y0, corners.y1, side);
    match Chart::new(west, south, side.unsigned_abs()) {
        Some(chart) => chart,
        None => Chart::of_all(),
    }
}

/// Where a side of this length begins that has the middle of two numbers in its middle.
fn edge(low: i64, high: i64, side: i64) -> i64 {
    let margin = side.saturating_sub(high.saturating_sub(low)) / 2;
    low.saturating_sub(margin)
}
