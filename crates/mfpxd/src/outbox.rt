//! Bytes that wait to be written to a stream.

ghost use Rattle.std.specs.Prelude.{◌≡◌, ◌++◌, ◌==◌, [], length, OnErr, OnOk};
ghost use Rattle.mfpxd.specs.Streams.{Writes};

use bytes::BytesMut;
use std::alloc::{AllocError, Global};
use std::io::{self, ErrorKind, Write};
use std::marker::Model;

/// The bytes that wait to be written to a stream, the oldest first.
#[derive(Drop)]
pub struct Outbox {
    bytes: BytesMut,
}

impl Model for Outbox {
    ghost use Rattle.std.specs.Prelude.{ℕ, List};

    ghost Value = { List ℕ };

    ghost view = { λ outbox. outbox.bytes.items };
}

impl Outbox {
    /// None waits.
    pub fn new(alloc: Global) -> Outbox
        ensures { result ≡ [] }
    {
        Outbox {
            bytes: BytesMut::new(alloc),
        }
    }

    /// How many wait.
    pub fn len(&self) -> usize
        ensures { result ≡ length self.now }
    {
        self.bytes.len()
    }

    /// Whether none waits.
    pub fn is_empty(&self) -> bool
        ensures { result ≡ (length self.now == 0) }
    {
        self.bytes.is_empty()
    }

    /// More bytes wait, behind those that do.
    pub fn push(&mut self, bytes: &[u8]) -> Result<(), AllocError>
        ensures ok { OnOk result (self.new ≡ self.old ++ bytes.now) }
        ensures err { OnErr result (self.new ≡ self.old) }
    {
        self.bytes.extend_from_slice(bytes)
    }

    /// None waits any more.
    pub fn clear(&mut self)
        ensures { self.new ≡ [] }
    {
        self.bytes.clear();
    }

    /// Writes what the stream takes now. What was written waits no more, and the rest waits on, also after an error.
    pub fn write_to<W: Write>(&mut self, stream: &mut W) -> io::Result<()>
        ensures { Writes self.old self.new (W.contents stream.old) (W.contents stream.new) }
    {
        while !self.bytes.is_empty() {
            match stream.write(self.bytes.as_slice()) {
                Ok(0) => return Err(ErrorKind::WriteZero.into()),
                Ok(count) => self.bytes.advance(count),
                Err(error) if error.kind() == ErrorKind::WouldBlock => return Ok(()),
                Err(error) => return Err(error),
            }
        }
        Ok(())
    }
}
