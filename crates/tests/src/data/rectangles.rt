//! What a database answers of rectangles, beside a plain scan of the listed positions.
//!
//! A position is listed for each millisecond, and neither of its coordinates is farther than 1 from the one before. So nothing comes in
//! or goes out between two of them, whatever the interpolation.

use std::alloc::Global;
use std::test::Fail;
use store::{Db, Op, Query};
use tpoint::{Id, Instant, Interp, Period, Point, Rect, Seq};

type Place = (i8, i8);

/// Straight, to and fro, wandering about, and still.
const MOTIONS: [[Place; 9]; 4] = [
    [
        (0, 0),
        (1, 0),
        (2, 0),
        (3, 0),
        (4, 0),
        (5, 0),
        (6, 0),
        (7, 0),
        (8, 0),
    ],
    [
        (0, 0),
        (1, 1),
        (2, 0),
        (3, 1),
        (4, 0),
        (5, 1),
        (6, 0),
        (7, 1),
        (8, 0),
    ],
    [
        (3, 3),
        (2, 4),
        (2, 3),
        (1, 2),
        (2, 2),
        (3, 1),
        (4, 2),
        (4, 3),
        (5, 2),
    ],
    [
        (4, 0),
        (4, 0),
        (4, 0),
        (4, 0),
        (4, 0),
        (4, 0),
        (4, 0),
        (4, 0),
        (4, 0),
    ],
];

/// Their least and their greatest coordinates. Some have all of a motion, some touch it by a side, and some lie beside it.
const AREAS: [(Place, Place); 12] = [
    ((-9, -9), (9, 9)),
    ((0, 0), (8, 4)),
    ((1, 1), (5, 4)),
    ((2, 1), (5, 4)),
    ((8, 0), (9, 9)),
    ((9, 0), (9, 9)),
    ((-9, -9), (0, 0)),
    ((-9, -9), (-1, 9)),
    ((-9, -9), (9, -1)),
    ((0, 4), (9, 9)),
    ((0, 5), (9, 9)),
    ((4, 0), (4, 0)),
];

/// The millisecond of the first position.
const FIRST: u8 = 10;

const PERIODS: [(u8, u8); 8] = [
    (0, 30),
    (10, 18),
    (12, 14),
    (15, 15),
    (0, 9),
    (0, 10),
    (18, 30),
    (19, 30),
];

fn id() -> Result<Id, Fail> {
    Ok(Id::new(b"bus").ok_or("an id")?)
}

fn instant(ms: u8) -> Result<Instant, Fail> {
    Ok(Instant::new(1_577_836_800_000 + i64::from(ms)).ok_or("an instant")?)
}

fn is_inside(place: Place, area: (Place, Place)) -> bool {
    let ((left, low), (right, high)) = area;
    left <= place.0 && place.0 <= right && low <= place.1 && place.1 <= high
}

/// What is to be answered: of `ever`, of `always` and of `within`.
fn scanned(places: &[Place], period: (u8, u8), area: (Place, Place)) -> [&'static [u8]; 3] {
    let mut ms = FIRST;
    let mut inside = false;
    let mut outside = false;
    for place in places {
        if period.0 <= ms && ms <= period.1 {
            inside = inside || is_inside(*place, area);
            outside = outside || !is_inside(*place, area);
        }
        ms = ms.saturating_add(1);
    }
    match (inside, outside) {
        (true, false) => [b"ever yes", b"always yes", b"within 1 bus"],
        (true, true) => [b"ever yes", b"always no", b"within 1 bus"],
        (false, true) => [b"ever no", b"always no", b"within 0"],
        (false, false) => [b"ever none", b"always none", b"within 0"],
    }
}

/// Whether the database answers the three as they are to be answered.
fn tells(
    alloc: Global,
    db: &Db,
    period: Period,
    area: Rect,
    words: [&[u8]; 3],
) -> Result<bool, Fail> {
    let ever = db.answer(alloc, &Query::Ever(id()?, period, area))?;
    let always = db.answer(alloc, &Query::Always(id()?, period, area))?;
    let within = db.answer(alloc, &Query::Within(period, area))?;
    Ok(
        ever.as_slice() == words[0]
            && always.as_slice() == words[1]
            && within.as_slice() == words[2],
    )
}

/// How many of the periods are answered otherwise than a scan tells, of one rectangle.
fn wrong_in(alloc: Global, db: &Db, places: &[Place], area: (Place, Place)) -> Result<usize, Fail> {
    let ((left, low), (right, high)) = area;
    let rect = Rect::new(left.into(), low.into(), right.into(), high.into()).ok_or("a rectangle")?;
    let mut wrong: usize = 0;
    for (begin, end) in PERIODS {
        let period = Period::new(instant(begin)?, instant(end)?).ok_or("a period")?;
        if !tells(alloc, db, period, rect, scanned(places, (begin, end), area))? {
            wrong = wrong.saturating_add(1);
        }
    }
    Ok(wrong)
}

fn point(ms: u8, place: Place) -> Result<Point, Fail> {
    Ok(Point {
        t: instant(ms)?,
        x: place.0.into(),
        y: place.1.into(),
    })
}

fn points(alloc: Global, places: &[Place]) -> Result<Vec<Point>, Fail> {
    let mut points = Vec::with_capacity(alloc, places.len())?;
    let mut ms = FIRST;
    for place in places {
        points.push(point(ms, *place)?)?;
        ms = ms.saturating_add(1);
    }
    Ok(points)
}

/// The feature is put with its first points, in the place of one that moved otherwise, and the others are added one by one.
fn moved(
    alloc: Global,
    db: &mut Db,
    interp: Interp,
    places: &[Place],
    first: usize,
) -> Result<(), Fail> {
    let points = points(alloc, places)?;
    let first = first.min(points.len());
    let begun = Vec::from_slice(alloc, &points[..first])?;
    db.apply(&Op::Put(id()?, Seq::new(interp, begun)?))?;
    for point in &points[first..] {
        db.apply(&Op::append(id()?, *point).ok_or("a point")?)?;
    }
    Ok(())
}

/// How many rectangles in how many periods are answered otherwise than a scan tells.
fn wrong(alloc: Global, db: &Db, places: &[Place]) -> Result<usize, Fail> {
    let mut wrong: usize = 0;
    for area in AREAS {
        wrong = wrong.saturating_add(wrong_in(alloc, db, places, area)?);
    }
    Ok(wrong)
}

#[test]
fn rectangles(rt: HostRuntime) -> Result<(), Fail> {
    let mut db = Db::new(rt.alloc());
    let ways = [
        (Interp::Discrete, 9),
        (Interp::Step, 9),
        (Interp::Step, 1),
        (Interp::Linear, 9),
        (Interp::Linear, 1),
        (Interp::Linear, 5),
    ];
    for (interp, first) in ways {
        for places in &MOTIONS {
            moved(rt.alloc(), &mut db, interp, places, first)?;
            assert_eq!(rt;
                wrong(rt.alloc(), &db, places)?,
                0,
                "{first} of {interp:?} {places:?}"
            );
        }
    }
    Ok(())
}
