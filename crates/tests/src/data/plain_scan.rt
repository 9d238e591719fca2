//! A look at every leg of a moving point, with no short cut, to hold other answers against.
//!
//! On a leg a point is in a rectangle from one instant to another, or never. Each of these two is an end of the leg or of the period, or
//! there the leg crosses the line of a side. So these instants tell of all others.

use tpoint::{Interp, Period, Point, Rect, Seq};

/// Whether a point is in a rectangle at some instant of a period, and whether it is outside at some.
#[derive(Clone, Copy)]
pub(crate) struct Seen {
    pub(crate) inside: bool,
    pub(crate) outside: bool,
}

impl Seen {
    /// It has no value in the period.
    const NOTHING: Seen = Seen {
        inside: false,
        outside: false,
    };

    fn at(inside: bool) -> Seen {
        Seen {
            inside,
            outside: !inside,
        }
    }

    fn or(self, other: Seen) -> Seen {
        Seen {
            inside: self.inside || other.inside,
            outside: self.outside || other.outside,
        }
    }

    pub(crate) fn ever(self) -> &'static [u8] {
        match (self.inside, self.outside) {
            (true, _) => b"ever yes",
            (false, true) => b"ever no",
            (false, false) => b"ever none",
        }
    }

    pub(crate) fn always(self) -> &'static [u8] {
        match (self.inside, self.outside) {
            (_, true) => b"always no",
            (true, false) => b"always yes",
            (false, false) => b"always none",
        }
    }
}

/// How much of a leg is passed: a fraction from 0 to 1.
#[derive(Clone, Copy)]
struct Part {
    num: i128,
    den: i128,
}

/// The part of a leg after which a number that goes from one to another is at a third.
fn part_to(from: i64, to: i64, at: i64) -> Option<Part> {
    let way = i128::from(to).wrapping_sub(i128::from(from));
    let gone = i128::from(at).wrapping_sub(i128::from(from));
    let (num, den) = if way < 0 {
        (gone.wrapping_neg(), way.wrapping_neg())
    } else {
        (gone, way)
    };
    if den == 0 || num < 0 || den < num {
        return None;
    }
    Some(Part { num, den })
}

/// Whether a number that goes from one to another is not below a least nor above a greatest after a part of a leg.
fn is_between(part: Part, from: i64, to: i64, least: i64, greatest: i64) -> bool {
    let way = i128::from(to).wrapping_sub(i128::from(from));
    // Where it is, the least and the greatest, all of them times the denominator. These products are far from what the type can't hold.
    let gone = way.wrapping_mul(part.num);
    let there = i128::from(from).wrapping_mul(part.den).wrapping_add(gone);
    let least = i128::from(least).wrapping_mul(part.den);
    let greatest = i128::from(greatest).wrapping_mul(part.den);
    least <= there && there <= greatest
}

/// What is seen after a part of a leg.
fn seen_after(part: Part, a: &Point, b: &Point, period: &Period, area: &Rect) -> Seen {
    let (begin, end) = (period.begin().ms(), period.end().ms());
    if !is_between(part, a.t.ms(), b.t.ms(), begin, end) {
        return Seen::NOTHING;
    }
    let across = is_between(part, a.x, b.x, area.x0(), area.x1());
    let along = is_between(part, a.y, b.y, area.y0(), area.y1());
    Seen::at(across && along)
}

/// What is seen of a leg whose point moves straight on.
fn seen_on_leg(a: &Point, b: &Point, period: &Period, area: &Rect) -> Seen {
    if b.t < period.begin() || period.end() < a.t {
        return Seen::NOTHING;
    }
    let parts = [
        Some(Part { num: 0, den: 1 }),
        Some(Part { num: 1, den: 1 }),
        part_to(a.t.ms(), b.t.ms(), period.begin().ms()),
        part_to(a.t.ms(), b.t.ms(), period.end().ms()),
        part_to(a.x, b.x, area.x0()),
        part_to(a.x, b.x, area.x1()),
        part_to(a.y, b.y, area.y0()),
        part_to(a.y, b.y, area.y1()),
    ];
    let mut seen = Seen::NOTHING;
    for part in parts {
        if let Some(part) = part {
            seen = seen.or(seen_after(part, a, b, period, area));
        }
    }
    seen
}

fn is_inside(point: &Point, area: &Rect) -> bool {
    let across = area.x0() <= point.x && point.x <= area.x1();
    let along = area.y0() <= point.y && point.y <= area.y1();
    across && along
}

/// What is seen at a listed instant alone.
fn seen_where_listed(point: &Point, period: &Period, area: &Rect) -> Seen {
    if point.t < period.begin() || period.end() < point.t {
        return Seen::NOTHING;
    }
    Seen::at(is_inside(point, area))
}

/// What is seen of a point that stays until the next is listed, when it is gone.
fn seen_until(next: &Point, point: &Point, period: &Period, area: &Rect) -> Seen {
    if next.t <= period.begin() || period.end() < point.t {
        return Seen::NOTHING;
    }
    Seen::at(is_inside(point, area))
}

/// What is seen of a sequence in a period.
pub(crate) fn scan(seq: &Seq, period: &Period, area: &Rect) -> Seen {
    let points = seq.points();
    let mut seen = Seen::NOTHING;
    for (point, next) in points.iter().zip(points.iter().skip(1)) {
        seen = seen.or(match seq.interp() {
            Interp::Discrete => seen_where_listed(point, period, area),
            Interp::Step => seen_until(next, point, period, area),
            Interp::Linear => seen_on_leg(point, next, period, area),
        });
    }
    // The last has a value at its own instant, whatever the interpolation.
    match points.last() {
        Some(last) => seen.or(seen_where_listed(last, period, area)),
        None => seen,
    }
}
