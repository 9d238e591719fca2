//! The requests of this node's clients that may be handed on.

ghost use Rattle.std.specs.Prelude.{◌≡◌, ◌<◌, ◌↔◌, ◌++◌, ◌∷◌, [], IsTrue, OnOk, OnErr, IfOk, IfSome, IfNone, All, filter, length, not, true};
ghost use Rattle.std.specs.List.{HoldsAt};
ghost use Rattle.serving.specs.Requesting.{fresh_request, is_known, is_marked, is_request, with_request, HandsOnFirst, IsDue};

use super::hand_on::is_due_again;
use std::alloc::{AllocError, Global};
use std::marker::Model;

/// A packet whose frame begins so hands on a request: the client's line follows. No message between nodes begins with this byte.
pub const HANDED_ON: u8 = b'F';

/// A request that waits.
#[derive(Drop)]
struct Request {
    client: u8,
    number: u64,
    // What is sent: the mark and the client's line.
    packet: Vec<u8>,
    // When it was handed on last, if it was.
    handed_on: Option<u64>,
}

impl Model for Request {
    ghost use Rattle.std.specs.Prelude.{◌≡◌, true};
    ghost use Rattle.serving.specs.Requesting.{RequestState, is_marked};

    ghost Value = { RequestState };

    ghost view = { λ r. record { client = r.client; number = r.number; packet = r.packet.items; handed_on = r.handed_on } };

    ghost invariant = { λ r. is_marked r.packet.items ≡ true };
}

/// The requests of this node's clients that wait, the oldest first.
#[derive(Drop)]
pub struct Requests {
    requests: Vec<Request>,
}

impl Model for Requests {
    ghost use Rattle.std.specs.Prelude.{List};
    ghost use Rattle.serving.specs.Requesting.{RequestState};

    ghost Value = { List RequestState };

    ghost view = { λ requests. requests.requests.items };
}

impl Requests {
    /// None waits.
    pub fn none(alloc: Global) -> Requests
        ensures { result ≡ [] }
    {
        Requests {
            requests: Vec::new(alloc),
        }
    }

    /// A request waits. One that waits already keeps its place.
    pub fn add(
        &mut self,
        alloc: Global,
        client: u8,
        number: u64,
        line: &[u8],
    ) -> Result<(), AllocError>
        ensures added { OnOk result (self.new ≡ with_request client number line.now self.old) }
        ensures err { OnErr result (self.new ≡ self.old) }
    {
        if self.has(client, number) {
            return Ok(());
        }
        let request = Request::new(alloc, client, number, line)?;
        self.requests.push(request)?;
        Ok(())
    }

    /// The request waits no more.
    pub fn remove(&mut self, client: u8, number: u64)
        ensures { self.new ≡ filter (λ request. not (is_request client number request)) self.old }
    {
        self.requests
            .retain(|request| !request.is_of(client, number));
    }

    /// None waits any more.
    pub fn clear(&mut self)
        ensures { self.new ≡ [] }
    {
        self.requests.clear();
    }

    /// How many wait.
    pub fn count(&self) -> usize
        ensures { result ≡ length self.now }
    {
        self.requests.len()
    }

    /// The place of the first request that is to be handed on, which counts as handed on from now on.
    pub fn next_due(&mut self, now: u64) -> Option<usize>
        ensures handed_on { IfSome result (λ place. HandsOnFirst now place self.old self.new) }
        ensures in_range { IfSome result (λ place. place < length self.new) }
        ensures none { IfNone result (All (λ request. ¬ IsDue now request) self.old) }
        ensures unchanged { IfNone result (self.new ≡ self.old) }
    {
        let place = self
            .requests
            .iter()
            .position(|request| request.is_due(now))?;
        self.requests[place].note_handed_on(now);
        Some(place)
    }

    /// What is sent of the request at this place.
    pub fn packet(&self, place: usize) -> &[u8]
        requires { place < length self.now }
        ensures packet { HoldsAt (λ request. result.now ≡ request.packet) self.now place }
        ensures marked { is_marked result.now ≡ true }
    {
        self.requests[place].packet()
    }

    // Whether the client's request of this number waits.
    fn has(&self, client: u8, number: u64) -> bool
        ensures { result ≡ is_known client number self.now }
    {
        self.requests
            .iter()
            .any(|request| request.is_of(client, number))
    }
}

impl Request {
    // A request as it comes.
    fn new(alloc: Global, client: u8, number: u64, line: &[u8]) -> Result<Request, AllocError>
        ensures { IfOk result (λ request. request ≡ fresh_request client number line.now) }
    {
        let mut packet = Vec::new(alloc);
        packet.push(HANDED_ON)?;
        packet.extend_from_slice(line)?;
        Ok(Request {
            client,
            number,
            packet,
            handed_on: None,
        })
    }

    fn is_of(&self, client: u8, number: u64) -> bool
        ensures { result ≡ is_request client number self.now }
    {
        self.client == client && self.number == number
    }

    fn is_due(&self, now: u64) -> bool
        ensures { IsTrue result ↔ IsDue now self.now }
    {
        match self.handed_on {
            Some(handed_on) => is_due_again(handed_on, now),
            None => true,
        }
    }

    fn note_handed_on(&mut self, now: u64)
        ensures { self.new ≡ record self.old { handed_on = Some now } }
    {
        self.handed_on = Some(now);
    }

    fn packet(&self) -> &[u8]
        ensures packet { result.now ≡ self.now.packet }
        ensures marked { is_marked result.now ≡ true }
    {
        self.packet.as_slice()
    }
}
