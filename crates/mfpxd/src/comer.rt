//! The stream from a node.

use crate::reading::{Found, read_some};
use mio::net::TcpStream;
use peers::{Drops, Run, Stream, StreamFault};
use std::alloc::{AllocError, Global};

/// What came over a stream from another node.
#[derive(Drop)]
pub enum Arrival {
    /// A frame that was sealed under the run's key.
    Frame(Vec<u8>),
    /// Nothing yet.
    Nothing,
    /// It is to be closed: it ended, it is broken, or what comes is no packet.
    Close,
}

/// A stream from another node.
#[derive(Drop)]
pub struct Comer {
    stream: TcpStream,
    packets: Stream,
    is_readable: bool,
}

impl Comer {
    /// A stream that was just opened.
    pub fn new(alloc: Global, stream: TcpStream) -> Comer {
        Comer {
            stream,
            packets: Stream::new(alloc),
            is_readable: true,
        }
    }

    /// Something is new of it.
    pub fn wake(&mut self) {
        self.is_readable = true;
    }

    /// The next frame of the run. Packets that aren't the run's are dropped and counted.
    pub fn poll(
        &mut self,
        alloc: Global,
        run: &Run,
        drops: &mut Drops,
        room: &mut [u8],
    ) -> Result<Arrival, AllocError> {
        for _ in 0..u64::MAX {
            match self.packets.next() {
                Ok(Some(packet)) => match run.open(packet.as_slice()) {
                    Ok(frame) => return Ok(Arrival::Frame(frame.to_vec(alloc)?)),
                    Err(dropped) => drops.count(dropped),
                },
                Ok(None) => match self.fill(room)? {
                    Found::Bytes(_) => {}
                    Found::Nothing => return Ok(Arrival::Nothing),
                    Found::End | Found::Failure => return Ok(Arrival::Close),
                },
                Err(StreamFault::Memory) => return Err(AllocError),
                Err(StreamFault::TooLong) => return Ok(Arrival::Close),
            }
        }
        Ok(Arrival::Nothing)
    }

    // Reads what has come.
    fn fill(&mut self, room: &mut [u8]) -> Result<Found, AllocError> {
        if !self.is_readable {
            return Ok(Found::Nothing);
        }
        let found = read_some(&mut self.stream, room);
        match found {
            Found::Bytes(count) => self.packets.feed(&room[..count])?,
            _ => self.is_readable = false,
        }
        Ok(found)
    }
}
