//! A tour of the data's calls, for whoever uses the crates as libraries: a bus that is at (0, 0) at second 0 and at (10, 5) at second 3.

use predicates::{Tri, always, ever};
use restrict::cut;
use sessions::{Command, Machine, Number, Request};
use std::alloc::Global;
use std::test::Fail;
use store::Op;
use tpoint::{AppendFault, Id, Instant, Interp, Period, Point, Rect, Seq};

/// An instant of the first day of 2020.
fn second(after: u8) -> Result<Instant, Fail> {
    Ok(Instant::new(1_577_836_800_000 + 1000 * i64::from(after)).ok_or("an instant")?)
}

fn bus(alloc: Global, interp: Interp) -> Result<Seq, Fail> {
    let mut points = Vec::with_capacity(alloc, 2)?;
    points.push(Point {
        t: second(0)?,
        x: 0,
        y: 0,
    })?;
    points.push(Point {
        t: second(3)?,
        x: 10,
        y: 5,
    })?;
    Ok(Seq::new(interp, points)?)
}

/// Where the bus is at this second.
fn place(alloc: Global, interp: Interp, after: u8) -> Result<String, Fail> {
    match bus(alloc, interp)?.value_at(second(after)?).value {
        Some((x, y)) => Ok(format!(in alloc; "{x} {y}")?),
        None => Ok(String::from_str(alloc, "none")?),
    }
}

#[test]
fn values(rt: HostRuntime) -> Result<(), Fail> {
    let cases = [
        (Interp::Linear, 1, "10/3 5/3"),
        (Interp::Linear, 3, "10 5"),
        (Interp::Linear, 4, "none"),
        (Interp::Step, 1, "0 0"),
        (Interp::Step, 3, "10 5"),
        (Interp::Discrete, 1, "none"),
        (Interp::Discrete, 3, "10 5"),
    ];
    for (interp, after, wanted) in cases {
        assert_eq!(rt; place(rt.alloc(), interp, after)?.as_str(), wanted);
    }
    Ok(())
}

/// The fault of a point that isn't later than the last, after which the bus is as it was.
fn refused(alloc: Global) -> Result<bool, Fail> {
    let mut bus = bus(alloc, Interp::Linear)?;
    let point = Point {
        t: second(3)?,
        x: 0,
        y: 0,
    };
    let fault = bus.append(point);
    Ok(fault == Err(AppendFault::NotLater) && bus.points().len() == 2)
}

#[test]
fn a_point_that_is_not_later(rt: HostRuntime) -> Result<(), Fail> {
    assert!(rt; refused(rt.alloc())?);
    Ok(())
}

/// A period whose end may be left out.
fn period(begin: u8, end: u8, end_in: bool) -> Result<Period, Fail> {
    Ok(Period::with(second(begin)?, second(end)?, true, end_in).ok_or("a period")?)
}

/// How many instants the bus's part in a period lists, and whether its end is in it; None where there is no part.
fn part(alloc: Global, period: Period) -> Result<Option<(usize, bool)>, Fail> {
    match cut(alloc, &bus(alloc, Interp::Linear)?, &period)? {
        Some(part) => Ok(Some((part.points.len(), part.end_in))),
        None => Ok(None),
    }
}

#[test]
fn parts_in_a_period(rt: HostRuntime) -> Result<(), Fail> {
    assert_eq!(rt; part(rt.alloc(), period(1, 2, true)?)?, Some((2, true)));
    assert_eq!(rt; part(rt.alloc(), period(1, 3, false)?)?, Some((2, false)));
    assert_eq!(rt; part(rt.alloc(), period(4, 5, true)?)?, None);
    Ok(())
}

// The bus comes to x = 10 at second 3, and is there at no fraction of a millisecond before.
#[test]
fn ever_and_always(rt: HostRuntime) -> Result<(), Fail> {
    let bus = bus(rt.alloc(), Interp::Linear)?;
    let there = Rect::new(10, 0, 20, 5).ok_or("a rectangle")?;
    assert_eq!(rt; ever(&bus, &period(1, 3, true)?, &there), Tri::Yes);
    assert_eq!(rt; ever(&bus, &period(1, 3, false)?, &there), Tri::No);
    let area = Rect::new(0, 0, 10, 10).ok_or("a rectangle")?;
    assert_eq!(rt; always(&bus, &period(3, 4, true)?, &area), Tri::Yes);
    assert_eq!(rt; always(&bus, &period(4, 5, true)?, &area), Tri::None);
    Ok(())
}

/// What client 7's requests to remove a feature that isn't there are replied, in this order of their numbers.
fn replies(alloc: Global, numbers: &[u64], wanted: &[u8]) -> Result<bool, Fail> {
    let mut machine = Machine::new(alloc);
    let mut told = Vec::new(alloc);
    for number in numbers {
        let number = Number::new(*number).ok_or("a number")?;
        let id = Id::new(b"bus-7").ok_or("an id")?;
        let request = Request::new(7, number, Op::Remove(id))?;
        told.push(machine.execute(&Command::Request(request))?.code())?;
    }
    Ok(told.as_slice() == wanted)
}

// Number 2 has to wait for number 1, each counts once, and the last reply is kept.
#[test]
fn each_request_once(rt: HostRuntime) -> Result<(), Fail> {
    assert!(rt; replies(rt.alloc(), &[2, 1, 2, 1, 2], &[32, 21, 21, 31, 21])?);
    Ok(())
}
