//! Single calls that take memory. Each test makes one call; where that is refused memory it sees that what was there stands, and makes
//! the call again, which has to have the answer that it has undisturbed.
//!
//! The gate refuses nothing. `check/single_calls.py` runs each test again and again, each time with another request for memory refused.

use crate::storages::calls::{fill, is_filled, is_trimmed};
use mfjson::Feature;
use restrict::cut;
use sessions::{Command, Machine, Number, Request};
use sqlstable::SqlStable;
use stable::{MemStable, Scripted, Stable, StableFault};
use std::alloc::Global;
use std::test::Fail;
use store::{Db, Op, Query};
use timeindex::TimeIndex;
use tpoint::{Id, Instant, Interp, Period, Point, Seq};

// The bus stands at (0, 0) at the first instant of 2020.
const DOCUMENT: &[u8] =
    br#"{"id":"bus-7","temporalGeometry":{"coordinates":[[0,0]],"datetimes":["2020-01-01T00:00:00.000Z"],"interpolation":"Linear","type":"MovingPoint"},"type":"Feature"}"#;

// One feature: a name of five bytes, Linear, and one point; and client 7, whose request 1 was replied 0.
const TEXT: [u8; 47] = [
    0, 1, 5, 98, 117, 115, 45, 55, 3, 0, 1, 0, 0, 1, 0x6F, 0x5E, 0x66, 0xE8, 0, 0, 0, 0, 0, 0, 0,
    0, 0, 0, 0, 0, 0, 0, 0, 0, 0, 0, 1, 7, 0, 0, 0, 0, 0, 0, 0, 1, 0,
];

fn instant(after: i64) -> Result<Instant, Fail> {
    Ok(Instant::new(1_577_836_800_000_i64.wrapping_add(after)).ok_or("an instant")?)
}

fn point(after: i64) -> Result<Point, Fail> {
    let t = instant(after)?;
    Ok(Point { t, x: 0, y: 0 })
}

fn period() -> Result<Period, Fail> {
    Ok(Period::new(instant(0)?, instant(1)?).ok_or("a period")?)
}

fn name() -> Result<Id, Fail> {
    Ok(Id::new(b"bus-7").ok_or("an id")?)
}

fn bus(alloc: Global) -> Result<Seq, Fail> {
    let points = Vec::from_array(alloc, [point(0)?])?;
    Ok(Seq::new(Interp::Linear, points)?)
}

fn put(alloc: Global) -> Result<Op, Fail> {
    Ok(Op::Put(name()?, bus(alloc)?))
}

fn command(alloc: Global) -> Result<Command, Fail> {
    let number = Number::new(1).ok_or("a number")?;
    Ok(Command::Request(Request::new(7, number, put(alloc)?)?))
}

#[test]
fn append(rt: HostRuntime) -> Result<(), Fail> {
    let mut bus = bus(rt.alloc())?;
    if bus.append(point(1)?).is_err() {
        assert!(rt; bus.points().len() == 1);
        bus.append(point(1)?)?;
    }
    assert!(rt; bus.points().len() == 2);
    Ok(())
}

#[test]
fn insert(rt: HostRuntime) -> Result<(), Fail> {
    let mut index = TimeIndex::new(rt.alloc());
    if index.insert(name()?, instant(0)?, instant(1)?).is_err() {
        assert!(rt; index.overlapping(rt.alloc(), &period()?)?.is_empty());
        index.insert(name()?, instant(0)?, instant(1)?)?;
    }
    assert!(rt; index.overlapping(rt.alloc(), &period()?)?.len() == 1);
    Ok(())
}

#[test]
fn overlapping(rt: HostRuntime) -> Result<(), Fail> {
    let mut index = TimeIndex::new(rt.alloc());
    index.insert(name()?, instant(0)?, instant(1)?)?;
    let ids = match index.overlapping(rt.alloc(), &period()?) {
        Ok(ids) => ids,
        Err(_) => index.overlapping(rt.alloc(), &period()?)?,
    };
    assert!(rt; ids.as_slice() == [name()?].as_slice());
    Ok(())
}

#[test]
fn apply(rt: HostRuntime) -> Result<(), Fail> {
    let mut db = Db::new(rt.alloc());
    let op = put(rt.alloc())?;
    if db.apply(&op).is_err() {
        assert!(rt; db.len() == 0);
        db.apply(&op)?;
    }
    let query = Query::At(name()?, instant(0)?);
    assert!(rt; db.answer(rt.alloc(), &query)?.as_slice() == b"at 0 0".as_slice());
    Ok(())
}

#[test]
fn answer(rt: HostRuntime) -> Result<(), Fail> {
    let mut db = Db::new(rt.alloc());
    db.apply(&put(rt.alloc())?)?;
    let query = Query::At(name()?, instant(0)?);
    let text = match db.answer(rt.alloc(), &query) {
        Ok(text) => text,
        Err(_) => db.answer(rt.alloc(), &query)?,
    };
    assert!(rt; text.as_slice() == b"at 0 0".as_slice());
    Ok(())
}

#[test]
fn execute(rt: HostRuntime) -> Result<(), Fail> {
    let mut machine = Machine::new(rt.alloc());
    let command = command(rt.alloc())?;
    if machine.execute(&command).is_err() {
        assert!(rt; machine.snapshot(rt.alloc())?.as_slice() == [0; 4].as_slice());
        machine.execute(&command)?;
    }
    assert!(rt; machine.snapshot(rt.alloc())?.as_slice() == TEXT.as_slice());
    Ok(())
}

#[test]
fn snapshot(rt: HostRuntime) -> Result<(), Fail> {
    let mut machine = Machine::new(rt.alloc());
    machine.execute(&command(rt.alloc())?)?;
    let text = match machine.snapshot(rt.alloc()) {
        Ok(text) => text,
        Err(_) => machine.snapshot(rt.alloc())?,
    };
    assert!(rt; text.as_slice() == TEXT.as_slice());
    Ok(())
}

#[test]
fn restore(rt: HostRuntime) -> Result<(), Fail> {
    let machine = match Machine::restore(rt.alloc(), &TEXT) {
        Ok(machine) => machine,
        Err(_) => Machine::restore(rt.alloc(), &TEXT)?,
    };
    assert!(rt; machine.snapshot(rt.alloc())?.as_slice() == TEXT.as_slice());
    Ok(())
}

#[test]
fn read(rt: HostRuntime) -> Result<(), Fail> {
    let feature = match mfjson::read(rt.alloc(), DOCUMENT) {
        Ok(feature) => feature,
        Err(_) => mfjson::read(rt.alloc(), DOCUMENT)?,
    };
    assert!(rt; feature.id == name()?);
    assert!(rt; feature.seq.points() == [point(0)?].as_slice());
    Ok(())
}

#[test]
fn write(rt: HostRuntime) -> Result<(), Fail> {
    let feature = Feature {
        id: name()?,
        seq: bus(rt.alloc())?,
    };
    let text = match mfjson::write(rt.alloc(), &feature) {
        Ok(text) => text,
        Err(_) => mfjson::write(rt.alloc(), &feature)?,
    };
    assert!(rt; text.as_slice() == DOCUMENT);
    Ok(())
}

#[test]
fn cut_to_a_period(rt: HostRuntime) -> Result<(), Fail> {
    let bus = bus(rt.alloc())?;
    let part = match cut(rt.alloc(), &bus, &period()?) {
        Ok(part) => part,
        Err(_) => cut(rt.alloc(), &bus, &period()?)?,
    };
    assert!(rt; part.is_some_and(|part| part.points.len() == 1 && part.begin_in));
    Ok(())
}

// Whether a storage that is empty is trimmed as it is to be.
fn trims<S: Stable>(alloc: Global, storage: &mut S) -> Result<bool, StableFault> {
    fill(alloc, storage)?;
    if storage.trim_below(alloc, 700).is_err() {
        if !is_filled(alloc, storage)? {
            return Ok(false);
        }
        storage.trim_below(alloc, 700)?;
    }
    is_trimmed(alloc, storage)
}

#[test]
fn trim_in_memory(rt: HostRuntime) -> Result<(), Fail> {
    let mut storage = MemStable::new(rt.alloc());
    assert!(rt; trims(rt.alloc(), &mut storage)?);
    Ok(())
}

#[test]
fn trim_scripted(rt: HostRuntime) -> Result<(), Fail> {
    let mut storage = Scripted::new(rt.alloc(), MemStable::new(rt.alloc()));
    assert!(rt; trims(rt.alloc(), &mut storage)?);
    Ok(())
}

// A test holds no table: each of its ends would drop it, and each drop is checked.
fn table_trims(alloc: Global) -> Result<bool, StableFault> {
    let mut storage = SqlStable::open_in_memory(alloc)?;
    trims(alloc, &mut storage)
}

#[test]
fn trim_in_a_table(rt: HostRuntime) -> Result<(), Fail> {
    assert!(rt; table_trims(rt.alloc())?);
    Ok(())
}
