//! The streams of clients, as lines.

ghost use Rattle.std.specs.Prelude.{[], All};
ghost use Rattle.serving.specs.Owing.{HasRoom};
ghost use Rattle.serving.specs.Tapes.{heard_in};
ghost use Rattle.serving.specs.Waitings.{lines_of};

use crate::client::{Client, Heard};
use crate::reading::ROOM;
use mio::net::{TcpListener, TcpStream};
use mio::{Interest, Poll, Token};
use serving::{Came, Desk, Waiting};
use std::alloc::{AllocError, Global};
use std::collections::VecDeque;

/// So many clients are there at once at most. More are turned away.
pub const MOST_CLIENTS: usize = 256;

/// The streams of clients.
#[derive(Drop)]
pub struct Lines {
    clients: Vec<Option<Client>>,
    // Those that went, and are not told yet.
    gone: VecDeque<u64>,
    // The number that was given last. None is given twice.
    last: u64,
    // Whose turn it is to be heard.
    next: usize,
    room: Vec<u8>,
}

impl Lines {
    /// No client is there yet.
    pub fn new(alloc: Global) -> Result<Lines, AllocError> {
        let mut clients = Vec::with_capacity(alloc, MOST_CLIENTS)?;
        for _ in 0..MOST_CLIENTS {
            clients.push(None)?;
        }
        let mut room = Vec::with_capacity(alloc, ROOM)?;
        room.resize(ROOM, 0)?;
        Ok(Lines {
            clients,
            gone: VecDeque::with_capacity(alloc, MOST_CLIENTS)?,
            last: 0,
            next: 0,
            room,
        })
    }

    /// Takes the clients that come.
    pub fn accept(&mut self, alloc: Global, poll: &Poll, listener: &TcpListener, token: usize) {
        for _ in 0..u64::MAX {
            let Ok((stream, _)) = listener.accept() else {
                return;
            };
            self.admit(alloc, poll, stream, token);
        }
    }

    // A client comes. It is turned away where as many are there as may.
    fn admit(&mut self, alloc: Global, poll: &Poll, mut stream: TcpStream, token: usize) {
        let Some(place) = self.clients.iter().position(|client| client.is_none()) else {
            return;
        };
        let _ = stream.set_nodelay(true);
        let named = Token(token.saturating_add(place));
        let both = Interest::READABLE | Interest::WRITABLE;
        if let Ok(()) = poll.registry().register(&mut stream, named, both) {
            self.last = self.last.saturating_add(1);
            let client = Client::new(alloc, self.last, stream);
            if let Some(room) = self.clients.get_mut(place) {
                *room = Some(client);
            }
        }
    }

    /// Something is new of a client's stream.
    pub fn wake(&mut self, place: usize) {
        if let Some(Some(client)) = self.clients.get_mut(place) {
            client.wake();
        }
    }

    /// Writes what clients take now.
    pub fn flush(&mut self) -> Result<(), AllocError> {
        for place in 0..MOST_CLIENTS {
            if self.flush_one(place) {
                self.leave(place)?;
            }
        }
        Ok(())
    }

    // Writes what a client takes now: whether it is to be left.
    fn flush_one(&mut self, place: usize) -> bool {
        match self.clients.get_mut(place) {
            Some(Some(client)) => client.flush(),
            _ => false,
        }
    }

    // Closes the stream of a client.
    fn leave(&mut self, place: usize) -> Result<(), AllocError> {
        if let Some(found) = self.clients.get_mut(place) {
            if let Some(client) = found.take() {
                self.gone.push_back(client.connection())?;
            }
        }
        Ok(())
    }

    // What a client did.
    fn next_of(
        &mut self,
        alloc: Global,
        place: usize,
        waiting: &Waiting,
    ) -> Result<Option<Came>, AllocError>
        ensures { All (HasRoom waiting.now) (heard_in (lines_of waiting.now) result) }
    {
        let Some(Some(client)) = self.clients.get_mut(place) else {
            return Ok(None);
        };
        let connection = client.connection();
        if waiting.is_full(connection) {
            return Ok(None);
        }
        let is_waiting = waiting.is_for(connection);
        match client.hear(alloc, self.room.as_mut_slice(), is_waiting)? {
            Heard::Line(text) => Ok(Some(Came::Line { connection, text })),
            Heard::Nothing => Ok(None),
            Heard::Leave => {
                self.leave(place)?;
                Ok(None)
            }
        }
    }
}

impl Desk for Lines {
    ghost tape = { λ _. [] };

    ghost Tells = { λ _. ⊥ };

    fn next(&mut self, alloc: Global, waiting: &Waiting) -> Result<Option<Came>, AllocError> {
        let first = self.next;
        for step in 0..MOST_CLIENTS {
            let place = first.wrapping_add(step) % MOST_CLIENTS;
            if let Some(came) = self.next_of(alloc, place, waiting)? {
                self.next = place + 1;
                return Ok(Some(came));
            }
        }
        match self.gone.pop_front() {
            Some(connection) => Ok(Some(Came::Gone { connection })),
            None => Ok(None),
        }
    }

    fn tell(&mut self, _alloc: Global, connection: u64, text: &[u8]) -> Result<(), AllocError> {
        for place in 0..MOST_CLIENTS {
            if let Some(Some(client)) = self.clients.get_mut(place) {
                if client.connection() == connection {
                    return client.tell(text);
                }
            }
        }
        Ok(())
    }
}
