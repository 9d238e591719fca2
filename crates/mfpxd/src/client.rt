//! The stream of a client.

ghost use Rattle.std.specs.Prelude.{◌≡◌};

use crate::inbox::{Inbox, LineFault};
use crate::outbox::Outbox;
use crate::reading::{Found, read_some};
use mio::net::TcpStream;
use std::alloc::{AllocError, Global};

/// So many bytes wait for a client at most. One that doesn't read them is left.
const MOST_UNREAD: usize = 8_000_000;

/// What a client did.
#[derive(Drop)]
pub enum Heard {
    /// It wrote a line, which has no line feed.
    Line(Vec<u8>),
    /// Nothing yet.
    Nothing,
    /// It is to be left: it went, its stream is broken, or its line is too long.
    Leave,
}

/// A client.
#[derive(Drop)]
pub struct Client {
    connection: u64,
    stream: TcpStream,
    inbox: Inbox,
    outbox: Outbox,
    is_readable: bool,
    // It writes no more, but may wait for replies.
    has_ended: bool,
}

impl Client {
    /// A client that just came, under a number of its own.
    pub fn new(alloc: Global, connection: u64, stream: TcpStream) -> Client {
        Client {
            connection,
            stream,
            inbox: Inbox::new(alloc),
            outbox: Outbox::new(alloc),
            is_readable: true,
            has_ended: false,
        }
    }

    /// Its number.
    pub fn connection(&self) -> u64
        ensures { result ≡ self.now.connection }
    {
        self.connection
    }

    /// Something is new of its stream.
    pub fn wake(&mut self) {
        self.is_readable = true;
    }

    /// The text waits for it.
    pub fn tell(&mut self, text: &[u8]) -> Result<(), AllocError> {
        self.outbox.push(text)
    }

    /// Writes what it takes now: whether it is to be left, since it is gone or doesn't read.
    pub fn flush(&mut self) -> bool {
        match self.outbox.write_to(&mut self.stream) {
            Ok(()) => self.outbox.len() > MOST_UNREAD,
            Err(_) => true,
        }
    }

    /// What it did. One that writes no more is left once it waits for nothing and all that it was told is written.
    pub fn hear(
        &mut self,
        alloc: Global,
        room: &mut [u8],
        is_waiting: bool,
    ) -> Result<Heard, AllocError> {
        for _ in 0..u64::MAX {
            match self.inbox.next_line(alloc) {
                Ok(Some(line)) => return Ok(Heard::Line(line)),
                Ok(None) => {}
                Err(LineFault::TooLong) => return Ok(Heard::Leave),
                Err(LineFault::Memory) => return Err(AllocError),
            }
            if self.has_ended && !is_waiting && self.outbox.is_empty() {
                return Ok(Heard::Leave);
            }
            match self.fill(room)? {
                Found::Bytes(_) | Found::End => {}
                Found::Nothing => return Ok(Heard::Nothing),
                Found::Failure => return Ok(Heard::Leave),
            }
        }
        Ok(Heard::Nothing)
    }

    // Reads what has come.
    fn fill(&mut self, room: &mut [u8]) -> Result<Found, AllocError> {
        if !self.is_readable || self.has_ended {
            return Ok(Found::Nothing);
        }
        let found = read_some(&mut self.stream, room);
        match found {
            Found::Bytes(count) => self.inbox.feed(&room[..count])?,
            Found::End => self.has_ended = true,
            Found::Nothing | Found::Failure => self.is_readable = false,
        }
        Ok(found)
    }
}
