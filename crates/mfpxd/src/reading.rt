//! Reads of streams that don't wait.

ghost use Rattle.std.specs.Prelude.{length};
ghost use Rattle.mfpxd.specs.Streams.{ReadsSome};

use std::io::{ErrorKind, Read};

/// So many bytes are read at once at most.
pub const ROOM: usize = 65_536;

/// What a read found.
#[derive(Clone, Copy, Debug, PartialEq, Eq)]
pub enum Found {
    /// So many bytes, which stand at the front of the room.
    Bytes(usize),
    /// Nothing yet.
    Nothing,
    /// The end.
    End,
    /// The stream is broken.
    Failure,
}

/// Reads what has come.
pub fn read_some<R: Read>(stream: &mut R, room: &mut [u8]) -> Found
    ensures { ReadsSome result (length room.new) }
{
    match stream.read(room) {
        Ok(0) => Found::End,
        Ok(count) => Found::Bytes(count),
        Err(error) if error.kind() == ErrorKind::WouldBlock => Found::Nothing,
        Err(_) => Found::Failure,
    }
}
