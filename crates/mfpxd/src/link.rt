//! The stream to a node.

use crate::outbox::Outbox;
use crate::reading::{Found, read_some};
use mio::net::TcpStream;
use mio::{Interest, Poll, Token};
use peers::{LONGEST_FRAME, Run};
use std::alloc::{AllocError, Global};
use std::net::SocketAddr;

/// A stream is opened again after so many milliseconds.
const RETRY: u64 = 200;

/// So many bytes wait for a node at most. What is more is lost.
const MOST_WAITING: usize = 8_000_000;

/// The stream to a node. Nothing comes over it: what its node sends comes over one that it opens itself.
#[derive(Drop)]
pub struct Link {
    address: SocketAddr,
    stream: Option<TcpStream>,
    // The node has taken the stream.
    is_up: bool,
    // What was told of it last.
    was_up: bool,
    outbox: Outbox,
    // When it is opened again, in milliseconds.
    retry_at: u64,
}

impl Link {
    /// A stream to this address, not open yet.
    pub fn new(alloc: Global, address: SocketAddr) -> Link {
        Link {
            address,
            stream: None,
            is_up: false,
            was_up: false,
            outbox: Outbox::new(alloc),
            retry_at: 0,
        }
    }

    /// Opens it where it is closed and it is time.
    pub fn open(&mut self, rt: &HostRuntime, poll: &Poll, token: usize, now: u64) {
        if self.stream.is_some() || now < self.retry_at {
            return;
        }
        self.retry_at = now.saturating_add(RETRY);
        let Ok(mut stream) = TcpStream::connect(rt, self.address) else {
            return;
        };
        let both = Interest::READABLE | Interest::WRITABLE;
        if let Ok(()) = poll.registry().register(&mut stream, Token(token), both) {
            self.stream = Some(stream);
        }
    }

    /// In how many milliseconds it is to be opened.
    pub fn left(&self, now: u64) -> u64 {
        if self.stream.is_some() {
            u64::MAX
        } else {
            self.retry_at.saturating_sub(now)
        }
    }

    /// Something is new of it: it was taken, or it is lost.
    pub fn wake(&mut self, room: &mut [u8]) {
        let Some(stream) = &mut self.stream else {
            return;
        };
        let is_taken = stream.peer_addr().is_ok();
        if is_lost(stream, is_taken, room) {
            self.close();
            return;
        }
        if is_taken && !self.is_up {
            let _ = stream.set_nodelay(true);
        }
        self.is_up = is_taken;
    }

    /// The frame, sealed, waits to be sent, if the node has taken the stream and not too much waits. One that is too long is lost.
    pub fn send(&mut self, alloc: Global, run: &Run, frame: &[u8]) -> Result<(), AllocError> {
        if self.is_up && self.outbox.len() < MOST_WAITING && frame.len() <= LONGEST_FRAME {
            let packet = run.seal(alloc, frame)?;
            self.outbox.push(packet.as_slice())?;
        }
        Ok(())
    }

    /// Writes what the node takes now.
    pub fn flush(&mut self) {
        if !self.is_up {
            return;
        }
        let is_lost = match &mut self.stream {
            Some(stream) => self.outbox.write_to(stream).is_err(),
            None => false,
        };
        if is_lost {
            self.close();
        }
    }

    /// Whether the node was found, where that is news. It is told once.
    pub fn news(&mut self) -> Option<bool> {
        if self.is_up == self.was_up {
            return None;
        }
        self.was_up = self.is_up;
        Some(self.is_up)
    }

    // Closes it. What waited is lost.
    fn close(&mut self) {
        self.stream = None;
        self.is_up = false;
        self.outbox.clear();
    }
}

/// Whether the stream, over which nothing comes, has ended or could not be opened.
fn is_lost(stream: &mut TcpStream, is_taken: bool, room: &mut [u8]) -> bool {
    match stream.take_error() {
        Ok(None) => {}
        _ => return true,
    }
    is_taken && matches!(read_some(stream, room), Found::End | Found::Failure)
}
