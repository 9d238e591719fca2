//! Snapshot texts: one that was worked out by hand, and what comes of it where a part is missing or a byte is another.

ghost use Rattle.std.specs.Prelude.{◌<◌};

use sessions::{Command, Machine, Number, Request, SnapFault};
use std::alloc::Global;
use std::test::Fail;
use store::Op;
use tpoint::Id;

// No feature, and one client: the request 1 of client 7, to remove a feature that wasn't there, was replied 21.
const TEXT: [u8; 14] = [0, 0, 0, 1, 7, 0, 0, 0, 0, 0, 0, 0, 1, 21];

#[test]
fn by_hand(rt: HostRuntime) -> Result<(), Fail> {
    let machine = after_one_removal(rt.alloc())?;
    let text = machine.snapshot(rt.alloc())?;
    assert!(rt; text.as_slice() == TEXT.as_slice());
    // It was written in one piece of memory, made at its size.
    assert!(rt; text.capacity() == TEXT.len());
    assert!(rt; is_restored(rt.alloc(), &TEXT)?);
    assert!(rt; is_restored(rt.alloc(), &[0; 4])?);
    Ok(())
}

#[test]
fn faults_are_told(rt: HostRuntime) -> Result<(), Fail> {
    let damaged = format!(in rt.alloc(); "{} {}", SnapFault::Damaged.code(), SnapFault::Damaged)?;
    assert!(rt; damaged.as_str() == "1 the bytes are the snapshot text of no machine");
    let memory = format!(in rt.alloc(); "{} {}", SnapFault::Memory.code(), SnapFault::Memory)?;
    assert!(rt; memory.as_str() == "2 out of memory");
    Ok(())
}

#[test]
fn no_beginning_is_a_text(rt: HostRuntime) -> Result<(), Fail> {
    for len in 0..TEXT.len() {
        assert!(rt; !is_restored(rt.alloc(), &TEXT[..len])?, "{len}");
    }
    Ok(())
}

// Each byte is given each value. In parts, as the interpreter stops a test after so many steps.
#[test]
fn other_counts_and_clients(rt: HostRuntime) -> Result<(), Fail> {
    try_bytes(rt.alloc(), 0)?;
    try_bytes(rt.alloc(), 1)?;
    try_bytes(rt.alloc(), 2)?;
    try_bytes(rt.alloc(), 3)?;
    try_bytes(rt.alloc(), 4)
}

#[test]
fn other_numbers(rt: HostRuntime) -> Result<(), Fail> {
    try_bytes(rt.alloc(), 5)?;
    try_bytes(rt.alloc(), 6)?;
    try_bytes(rt.alloc(), 7)
}

#[test]
fn further_numbers(rt: HostRuntime) -> Result<(), Fail> {
    try_bytes(rt.alloc(), 8)?;
    try_bytes(rt.alloc(), 9)?;
    try_bytes(rt.alloc(), 10)
}

#[test]
fn last_numbers_and_replies(rt: HostRuntime) -> Result<(), Fail> {
    try_bytes(rt.alloc(), 11)?;
    try_bytes(rt.alloc(), 12)?;
    try_bytes(rt.alloc(), 13)
}

/// Gives the byte at a place each value.
fn try_bytes(alloc: Global, place: usize) -> Result<(), Fail>
    requires { place < 14 }
{
    for value in 0..=u8::MAX {
        let mut text = TEXT;
        text[place] = value;
        if is_restored(alloc, &text)? != is_text_with(place, value) {
            return Err(Fail::from((place, value)));
        }
    }
    Ok(())
}

/// Whether the text with this value at the place is that of a machine: any client counts, any number but 0, and five replies.
fn is_text_with(place: usize, value: u8) -> bool {
    match place {
        3 => value == 1,
        4..=11 => true,
        12 => value != 0,
        13 => matches!(value, 0 | 21 | 22 | 23 | 24),
        _ => value == 0,
    }
}

/// Whether these bytes are the text of a machine. Such a machine has this text and no other.
fn is_restored(alloc: Global, bytes: &[u8]) -> Result<bool, Fail> {
    match Machine::restore(alloc, bytes) {
        Ok(machine) => {
            let text = machine.snapshot(alloc)?;
            if text.as_slice() != bytes {
                return Err(Fail::from("the machine has another text"));
            }
            Ok(true)
        }
        Err(SnapFault::Damaged) => Ok(false),
        Err(SnapFault::Memory) => Err(Fail::from("out of memory")),
    }
}

/// The machine once client 7 has asked to remove a feature that isn't there.
fn after_one_removal(alloc: Global) -> Result<Machine, Fail> {
    let number = Number::new(1).ok_or("1 is a number")?;
    let id = Id::new(b"bus-7").ok_or("an id")?;
    let request = Request::new(7, number, Op::Remove(id))?;
    let mut machine = Machine::new(alloc);
    machine.execute(&Command::Request(request))?;
    Ok(machine)
}
