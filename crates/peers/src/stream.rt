//! A stream of bytes, cut into packets.

ghost use Rattle.std.specs.Prelude.{◌≡◌, ◌++◌, [], IfSome, IfNone, IfOk, IfErr, OnOk, OnErr};
ghost use Rattle.std.specs.Result.{IsErrOf};
ghost use Rattle.peers.specs.Sealing.{framed};
ghost use Rattle.peers.specs.Cutting.{IsAhead, IsPacket, IsIncomplete, IsTooLong, StartsWithPacket};

use crate::run::{LENGTH, LONGEST_PACKET};
use byteorder::{BigEndian, ByteOrder};
use bytes::BytesMut;
use std::alloc::{AllocError, Global};
use std::error::Error;
use std::fmt;
use std::marker::Model;

/// Why a stream hands out no packet. It is as it was.
#[derive(Clone, Copy, Debug, PartialEq, Eq)]
pub enum StreamFault {
    /// The next packet's length is above `LONGEST_PACKET`. Nothing follows in this stream that could be told apart.
    TooLong,
    /// A growth was refused.
    Memory,
}

/// The bytes that came and were not handed out yet.
#[derive(Drop)]
pub struct Stream {
    held: BytesMut,
}

impl Model for Stream {
    ghost use Rattle.std.specs.Prelude.{ℕ, List};

    ghost Value = { List ℕ };

    ghost view = { λ stream. stream.held.items };
}

impl Stream {
    /// A stream of which nothing came.
    pub fn new(alloc: Global) -> Stream
        ensures { result ≡ [] }
    {
        Stream {
            held: BytesMut::new(alloc),
        }
    }

    /// Takes the next bytes, wherever the stream was cut.
    pub fn feed(&mut self, bytes: &[u8]) -> Result<(), AllocError>
        ensures fed { OnOk result (self.new ≡ self.old ++ bytes.now) }
        ensures err { OnErr result (self.new ≡ self.old) }
    {
        self.held.extend_from_slice(bytes)
    }

    /// Hands out the next packet, or None where not all of it came.
    pub fn next(&mut self) -> Result<Option<BytesMut>, StreamFault>
        ensures packet { IfOk result (λ next. IfSome next
            (λ packet. self.old ≡ framed packet.items ++ self.new)) }
        ensures fits { IfOk result (λ next. IfSome next (λ packet. IsPacket packet.items)) }
        ensures incomplete { IfOk result (λ next. IfNone next (IsIncomplete self.old)) }
        ensures kept { IfOk result (λ next. IfNone next (self.new ≡ self.old)) }
        ensures too_long { IsErrOf result StreamFault.TooLong → IsTooLong self.old }
        ensures memory { IsErrOf result StreamFault.Memory → StartsWithPacket self.old }
        ensures err { OnErr result (self.new ≡ self.old) }
    {
        let Some(len) = next_len(self.held.as_slice())? else {
            return Ok(None);
        };
        let mut packet = self.held.split_to(LENGTH + len)?;
        packet.advance(LENGTH);
        Ok(Some(packet))
    }
}

/// How long the packet is with which the bytes begin, or None where not all of it is there.
fn next_len(bytes: &[u8]) -> Result<Option<usize>, StreamFault>
    ensures whole { IfOk result (λ next. IfSome next (IsAhead bytes.now)) }
    ensures incomplete { IfOk result (λ next. IfNone next (IsIncomplete bytes.now)) }
    ensures too_long { IfErr result (λ fault. (fault ≡ StreamFault.TooLong) × IsTooLong bytes.now) }
{
    if bytes.len() < LENGTH {
        return Ok(None);
    }
    let len = BigEndian::read_u32(bytes) as usize;
    if len > LONGEST_PACKET {
        return Err(StreamFault::TooLong);
    }
    if bytes.len() < LENGTH + len {
        return Ok(None);
    }
    Ok(Some(len))
}

impl fmt::Display for StreamFault {
    fn fmt<W: fmt::Write>(&self, f: &mut fmt::Formatter<W>) -> fmt::Result {
        f.write_str(match self {
            StreamFault::TooLong => "a packet is longer than any",
            StreamFault::Memory => "out of memory",
        })
    }
}

impl Error for StreamFault {}

impl From<AllocError> for StreamFault {
    ghost use Rattle.std.specs.Prelude.{◌≡◌};
    ghost use Rattle.peers.specs.declared.stream.StreamFault.TheVariants.{Memory};

    ghost from_gives = { λ _ fault. fault ≡ Memory };

    fn from(_: AllocError) -> StreamFault {
        StreamFault::Memory
    }
}
