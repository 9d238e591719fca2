//! A part of a text, which waits until no more fits into it.
//!
//! A part never grows. So who has room for one before the first is handed on needs no memory for any other.

ghost use Rattle.std.specs.Prelude.{◌≡◌, ◌+◌, ◌≤◌, ◌++◌, [], OnErr, OnOk, length, vec_capacity, vec_len};
ghost use Rattle.replay.specs.Parts.{Adds, TakesInParts};

use super::sink::Sink;
use std::io;

/// Adds bytes behind what waits. That is handed on first where the part has no room for them; bytes for which no part has room are
/// handed on at once.
pub(crate) fn add<K: Sink>(part: &mut Vec<u8>, sink: &mut K, bytes: &[u8]) -> io::Result<()>
    ensures added { OnOk result (Adds K.takes sink.old part.old.items bytes.now sink.new part.new.items) }
    ensures refused { OnErr result (K.HasFailed sink.new) }
{
    if bytes.len() <= part.capacity() - part.len() {
        keep(part, bytes);
        return Ok(());
    }
    hand_on(part, sink)?;
    if bytes.len() <= part.capacity() {
        keep(part, bytes);
        return Ok(());
    }
    sink.take(bytes)
}

/// Adds bytes for which there is room.
fn keep(part: &mut Vec<u8>, bytes: &[u8])
    requires room { vec_len part.old + length bytes.now ≤ vec_capacity part.old }
    ensures { part.new.items ≡ part.old.items ++ bytes.now }
{
    let Ok(()) = part.extend_from_slice(bytes) else {
        unreachable!()
    };
}

/// Hands on what waits.
pub(crate) fn hand_on<K: Sink>(part: &mut Vec<u8>, sink: &mut K) -> io::Result<()>
    ensures handed { OnOk result (TakesInParts K.takes sink.old part.old.items sink.new) }
    ensures empty { OnOk result (part.new.items ≡ []) }
    ensures refused { OnErr result (K.HasFailed sink.new) }
{
    if part.is_empty() {
        return Ok(());
    }
    sink.take(part.as_slice())?;
    part.clear();
    Ok(())
}
