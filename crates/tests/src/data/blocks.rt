//! What a database answers of long features, of which it passes blocks of legs, beside a plain scan of each leg.

use super::plain_scan::{Seen, scan};
use std::alloc::Global;
use std::test::Fail;
use store::{Db, Op, Query};
use tpoint::{Id, Instant, Interp, Period, Point, Rect, Seq};

const FEATURES: u16 = 256;

/// Three whole blocks, and a leg more. Each takes a second.
const LEGS: u16 = 97;

/// The millisecond of the first position of each feature. The last is 97 seconds later.
const FIRST: i64 = 100_000;

/// The coordinates are at most this, or not much more.
const WIDTH: i64 = 10_000;

/// From place to place anywhere, from side to side, and a little on each time.
const MOTIONS: u16 = 3;

/// The first and the last millisecond of periods: that hold all, some legs and a part of one, one block, and one instant on a leg; that touch
/// the first position and the last; and that miss all.
const PERIODS: [(i64, i64); 7] = [
    (0, 900_000),
    (120_300, 180_000),
    (132_000, 164_000),
    (140_500, 140_500),
    (0, 100_000),
    (197_000, 900_000),
    (197_001, 900_000),
];

/// Features that rectangles touch: at the middle of a leg, with each motion, and where they are listed, with each motion and interpolation.
const TOUCHED: [(usize, usize); 3] = [(0, 0), (1, 4), (2, 8)];

/// The place of the leg among the legs, and of the position where they are listed.
const TOUCHED_LEG: usize = 40;

/// Numbers that come as if by chance.
#[derive(Drop)]
struct Numbers {
    last: u64,
}

impl Numbers {
    /// A number from 0 on and below another.
    fn below(&mut self, bound: i64) -> i64 {
        self.last = self
            .last
            .wrapping_mul(6_364_136_223_846_793_005)
            .wrapping_add(1_442_695_040_888_963_407);
        let number = i64::try_from(self.last >> 33).unwrap_or(0);
        number.checked_rem(bound).unwrap_or(0)
    }
}

fn id(feature: u16) -> Result<Id, Fail> {
    let first = b'a'.wrapping_add(u8::try_from(feature / 16).unwrap_or(0));
    let last = b'a'.wrapping_add(u8::try_from(feature % 16).unwrap_or(0));
    Ok(Id::new(&[first, last]).ok_or("an id")?)
}

/// The position that comes after another.
fn moved(numbers: &mut Numbers, motion: u16, leg: u16, x: i64, y: i64) -> (i64, i64) {
    match motion {
        0 => (numbers.below(WIDTH), numbers.below(WIDTH)),
        1 => (
            i64::from(leg).wrapping_mul(100),
            WIDTH.wrapping_sub(y).wrapping_add(numbers.below(50)),
        ),
        _ => (
            x.wrapping_add(numbers.below(101)).wrapping_sub(50),
            y.wrapping_add(numbers.below(101)).wrapping_sub(50),
        ),
    }
}

fn points(alloc: Global, numbers: &mut Numbers, motion: u16) -> Result<Vec<Point>, Fail> {
    let mut points = Vec::new(alloc);
    let mut x = numbers.below(WIDTH);
    let mut y = numbers.below(WIDTH);
    for leg in 0..LEGS.wrapping_add(1) {
        let ms = FIRST.wrapping_add(i64::from(leg).wrapping_mul(1_000));
        let t = Instant::new(ms).ok_or("an instant")?;
        points.push(Point { t, x, y })?;
        (x, y) = moved(numbers, motion, leg, x, y);
    }
    Ok(points)
}

/// Each motion has each interpolation.
fn interp(feature: u16) -> Interp {
    match feature / MOTIONS % 3 {
        0 => Interp::Linear,
        1 => Interp::Step,
        _ => Interp::Discrete,
    }
}

/// What each of the features does, in the order of their ids.
fn motions(alloc: Global, numbers: &mut Numbers) -> Result<Vec<Seq>, Fail> {
    let mut seqs = Vec::new(alloc);
    for feature in 0..FEATURES {
        let points = points(alloc, numbers, feature % MOTIONS)?;
        seqs.push(Seq::new(interp(feature), points)?)?;
    }
    Ok(seqs)
}

/// The feature is put with its first points, and the others are added one by one.
fn put(alloc: Global, db: &mut Db, feature: u16, seq: &Seq) -> Result<(), Fail> {
    let points = seq.points();
    let first = usize::from(feature % LEGS)
        .wrapping_add(1)
        .min(points.len());
    let begun = Vec::from_slice(alloc, &points[..first])?;
    db.apply(&Op::Put(id(feature)?, Seq::new(seq.interp(), begun)?))?;
    for point in &points[first..] {
        db.apply(&Op::append(id(feature)?, *point).ok_or("a point")?)?;
    }
    Ok(())
}

/// A database of these features, each of which is put once, in an order other than that of their ids.
fn fleet(alloc: Global, seqs: &[Seq]) -> Result<Db, Fail> {
    let mut db = Db::new(alloc);
    for turn in 0..FEATURES {
        let feature = turn.wrapping_mul(77) % FEATURES;
        let seq = seqs.get(usize::from(feature)).ok_or("a feature")?;
        put(alloc, &mut db, feature, seq)?;
    }
    Ok(db)
}

/// A square, by its least coordinates and its side.
fn square(x: i64, y: i64, side: i64) -> Result<Rect, Fail> {
    Ok(Rect::new(x, y, x.wrapping_add(side), y.wrapping_add(side)).ok_or("a rectangle")?)
}

/// A rectangle that is a listed position.
fn area_at(seq: &Seq) -> Result<Rect, Fail> {
    let at = seq.points().get(TOUCHED_LEG).ok_or("a position")?;
    square(at.x, at.y, 0)
}

/// A rectangle with a corner in the middle of a leg.
fn area_on_leg(seq: &Seq) -> Result<Rect, Fail> {
    let from = seq.points().get(TOUCHED_LEG).ok_or("a leg")?;
    let to = seq.points().get(TOUCHED_LEG + 1).ok_or("a leg")?;
    let x = from.x.wrapping_add(to.x) / 2;
    let y = from.y.wrapping_add(to.y) / 2;
    square(x, y, 300)
}

/// Rectangles that have all of the features, that have none, that lie anywhere, and that touch some.
fn areas(alloc: Global, numbers: &mut Numbers, seqs: &[Seq]) -> Result<Vec<Rect>, Fail> {
    let mut areas = Vec::new(alloc);
    areas.push(square(-WIDTH, -WIDTH, 3 * WIDTH)?)?;
    areas.push(square(3 * WIDTH, 3 * WIDTH, WIDTH)?)?;
    areas.push(square(numbers.below(WIDTH), numbers.below(WIDTH), 3_000)?)?;
    for (on_leg, at) in TOUCHED {
        areas.push(area_on_leg(seqs.get(on_leg).ok_or("a feature")?)?)?;
        areas.push(area_at(seqs.get(at).ok_or("a feature")?)?)?;
    }
    Ok(areas)
}

/// What a scan sees of each feature.
fn scanned(alloc: Global, seqs: &[Seq], period: &Period, area: &Rect) -> Result<Vec<Seen>, Fail> {
    let mut seen = Vec::with_capacity(alloc, seqs.len())?;
    for seq in seqs {
        seen.push(scan(seq, period, area))?;
    }
    Ok(seen)
}

/// What is to be answered of `within`.
fn within(alloc: Global, seen: &[Seen]) -> Result<String, Fail> {
    let mut ids = String::new(alloc);
    let mut count: usize = 0;
    let mut feature: u16 = 0;
    for one in seen {
        if one.inside {
            ids.push(' ')?;
            ids.push_str(id(feature)?.as_str())?;
            count = count.saturating_add(1);
        }
        feature = feature.wrapping_add(1);
    }
    Ok(format!(in alloc; "within {count}{ids}")?)
}

/// Whether the database answers `ever` and `always` as a scan sees a feature.
fn tells(
    alloc: Global,
    db: &Db,
    feature: u16,
    period: Period,
    area: Rect,
    seen: Seen,
) -> Result<bool, Fail> {
    let ever = db.answer(alloc, &Query::Ever(id(feature)?, period, area))?;
    let always = db.answer(alloc, &Query::Always(id(feature)?, period, area))?;
    Ok(ever.as_slice() == seen.ever() && always.as_slice() == seen.always())
}

/// Whether the database answers the three questions as a scan of each feature does.
fn agrees(alloc: Global, db: &Db, seqs: &[Seq], period: Period, area: Rect) -> Result<bool, Fail> {
    let seen = scanned(alloc, seqs, &period, &area)?;
    let mut feature: u16 = 0;
    for one in &seen {
        if !tells(alloc, db, feature, period, area, *one)? {
            return Ok(false);
        }
        feature = feature.wrapping_add(1);
    }
    let told = db.answer(alloc, &Query::Within(period, area))?;
    let wanted = within(alloc, &seen)?;
    Ok(told.as_slice() == wanted.as_bytes())
}

/// The place among some rectangles of the first of which anything is answered otherwise.
fn first_wrong(
    alloc: Global,
    db: &Db,
    seqs: &[Seq],
    period: Period,
    areas: &[Rect],
) -> Result<Option<usize>, Fail> {
    let mut place: usize = 0;
    for area in areas {
        if !agrees(alloc, db, seqs, period, *area)? {
            return Ok(Some(place));
        }
        place = place.saturating_add(1);
    }
    Ok(None)
}

#[test]
fn blocks(rt: HostRuntime) -> Result<(), Fail> {
    let mut numbers = Numbers { last: 7 };
    let seqs = motions(rt.alloc(), &mut numbers)?;
    let db = fleet(rt.alloc(), &seqs)?;
    let areas = areas(rt.alloc(), &mut numbers, &seqs)?;
    for (begin, end) in PERIODS {
        let first = Instant::new(begin).ok_or("an instant")?;
        let last = Instant::new(end).ok_or("an instant")?;
        let period = Period::new(first, last).ok_or("a period")?;
        assert_eq!(rt;
            first_wrong(rt.alloc(), &db, &seqs, period, &areas)?,
            None,
            "from {begin} to {end}"
        );
    }
    Ok(())
}
