//! The streams to and from the other nodes.
//!
//! A node sends over a stream that it opens, and hears over those that are opened to it. What is sent to a node that is not joined is
//! lost.

ghost use Rattle.std.specs.Prelude.{[]};

use crate::comer::{Arrival, Comer};
use crate::link::Link;
use crate::reading::ROOM;
use mio::net::{TcpListener, TcpStream};
use mio::{Interest, Poll, Token};
use peers::{Drops, Run};
use serving::Network;
use std::alloc::{AllocError, Global};
use std::net::SocketAddr;
use wire::NodeId;

/// So many streams from other nodes are there at once at most.
pub const MOST_COMERS: usize = 32;

/// The streams to and from the other nodes.
#[derive(Drop)]
pub struct Links {
    run: Run,
    own: usize,
    links: Vec<Link>,
    comers: Vec<Option<Comer>>,
    // Whose turn it is to be heard.
    next: usize,
    drops: Drops,
    room: Vec<u8>,
}

impl Links {
    /// No stream is open yet.
    pub fn new(
        alloc: Global,
        run: Run,
        own: NodeId,
        addresses: &[SocketAddr],
    ) -> Result<Links, AllocError> {
        let mut links = Vec::with_capacity(alloc, addresses.len())?;
        for address in addresses.iter() {
            links.push(Link::new(alloc, *address))?;
        }
        let mut comers = Vec::with_capacity(alloc, MOST_COMERS)?;
        for _ in 0..MOST_COMERS {
            comers.push(None)?;
        }
        let mut room = Vec::with_capacity(alloc, ROOM)?;
        room.resize(ROOM, 0)?;
        Ok(Links {
            run,
            own: usize::from(own.value()),
            links,
            comers,
            next: 0,
            drops: Drops::none(),
            room,
        })
    }

    /// Opens what is closed, where it is time.
    pub fn open(&mut self, rt: &HostRuntime, poll: &Poll, token: usize, now: u64) {
        let own = self.own;
        for (node, link) in self.links.iter_mut().enumerate() {
            if node != own {
                link.open(rt, poll, token.saturating_add(node), now);
            }
        }
    }

    /// In how many milliseconds a stream is to be opened.
    pub fn left(&self, now: u64) -> u64 {
        let mut left = u64::MAX;
        for (node, link) in self.links.iter().enumerate() {
            if node != self.own {
                left = left.min(link.left(now));
            }
        }
        left
    }

    /// Takes the streams that other nodes open.
    pub fn accept(&mut self, alloc: Global, poll: &Poll, listener: &TcpListener, token: usize) {
        for _ in 0..u64::MAX {
            let Ok((stream, _)) = listener.accept() else {
                return;
            };
            self.admit(alloc, poll, stream, token);
        }
    }

    // A stream from another node is opened. It is closed where as many are there as may.
    fn admit(&mut self, alloc: Global, poll: &Poll, mut stream: TcpStream, token: usize) {
        let Some(place) = self.comers.iter().position(|comer| comer.is_none()) else {
            return;
        };
        let named = Token(token.saturating_add(place));
        if let Ok(()) = poll
            .registry()
            .register(&mut stream, named, Interest::READABLE)
        {
            let comer = Comer::new(alloc, stream);
            if let Some(room) = self.comers.get_mut(place) {
                *room = Some(comer);
            }
        }
    }

    /// Something is new of the stream from another node.
    pub fn wake_comer(&mut self, place: usize) {
        if let Some(Some(comer)) = self.comers.get_mut(place) {
            comer.wake();
        }
    }

    /// Something is new of the stream to a node.
    pub fn wake_link(&mut self, node: usize) {
        if let Some(link) = self.links.get_mut(node) {
            link.wake(self.room.as_mut_slice());
        }
    }

    /// Writes what nodes take now.
    pub fn flush(&mut self) {
        for link in self.links.iter_mut() {
            link.flush();
        }
    }

    /// A node that was found or lost, and whether it was found. Each is told once.
    pub fn news(&mut self) -> Option<(usize, bool)> {
        for (node, link) in self.links.iter_mut().enumerate() {
            if let Some(is_found) = link.news() {
                return Some((node, is_found));
            }
        }
        None
    }

    // The next frame that came over a stream.
    fn poll_comer(&mut self, alloc: Global, place: usize) -> Result<Option<Vec<u8>>, AllocError> {
        let Some(Some(comer)) = self.comers.get_mut(place) else {
            return Ok(None);
        };
        match comer.poll(alloc, &self.run, &mut self.drops, self.room.as_mut_slice())? {
            Arrival::Frame(frame) => Ok(Some(frame)),
            Arrival::Nothing => Ok(None),
            Arrival::Close => {
                self.close_comer(place);
                Ok(None)
            }
        }
    }

    // Closes a stream from another node.
    fn close_comer(&mut self, place: usize) {
        if let Some(comer) = self.comers.get_mut(place) {
            *comer = None;
        }
    }
}

impl Network for Links {
    ghost tape = { λ _. [] };

    ghost Tells = { λ _. ⊥ };

    fn send(&mut self, alloc: Global, to: NodeId, bytes: &[u8]) -> Result<(), AllocError> {
        match self.links.get_mut(usize::from(to.value())) {
            Some(link) => link.send(alloc, &self.run, bytes),
            None => Ok(()),
        }
    }

    fn poll(&mut self, alloc: Global) -> Result<Option<Vec<u8>>, AllocError> {
        let first = self.next;
        for step in 0..MOST_COMERS {
            let place = first.wrapping_add(step) % MOST_COMERS;
            if let Some(frame) = self.poll_comer(alloc, place)? {
                self.next = place + 1;
                return Ok(Some(frame));
            }
        }
        Ok(None)
    }
}
