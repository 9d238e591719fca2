//! Requests that wait.

ghost use Rattle.std.specs.Prelude.{◌≡◌, ◌≤◌, ◌++◌, ◌∷◌, [], length, IsTrue, IsOk, ◌↔◌, true, false, OnOk, OnErr, IsErrOf, find};
ghost use Rattle.std.specs.List.{list_any};
ghost use Rattle.std.specs.Option.{option_copied};
ghost use Rattle.proposer.specs.Campaigning.{first_free};
ghost use Rattle.proposer.specs.Requests.{is_of, without};

use super::fault::SubmitFault;
use super::name::Name;
use super::window::Window;
use indexmap::IndexMap;
use sessions::{Number, Request};
use std::alloc::Global;
use std::marker::Model;

/// A proposer keeps at most this many requests waiting.
pub const MOST_WAITING: usize = 64;

/// The requests that wait, each once, in order of arrival. A look-up takes a number of steps that does not grow with
/// them.
#[derive(Drop)]
pub struct Waiting {
    requests: IndexMap<Name, Request>,
}

impl Model for Waiting {
    ghost use Rattle.std.specs.Prelude.{List};
    ghost use Rattle.std.specs.Prelude.{◌≤◌};
    ghost use Rattle.indexmap.specs.IndexMap.{index_map_len, values};
    ghost use Rattle.sessions.specs.declared.submission.Submission.{Submission};
    ghost use Rattle.proposer.specs.Requests.{AreNamed};
    ghost use Rattle.proposer.specs.declared.queue.TheConstants.{MOST_WAITING};

    ghost Value = { List Submission };

    ghost view = { λ w. values w.requests };

    ghost invariant = { λ w. AreNamed w.requests.entries × (index_map_len w.requests ≤ MOST_WAITING) };
}

impl Waiting {
    /// None waits.
    pub fn new(alloc: Global) -> Waiting
        ensures { result ≡ [] }
    {
        Waiting {
            requests: IndexMap::new(alloc),
        }
    }

    /// Whether the request of this client and number waits.
    pub fn has(&self, client: u8, number: Number) -> bool
        ensures { result ≡ list_any (is_of client number) self.now }
    {
        self.requests.contains_key(&Name::new(client, number))
    }

    /// Whether any request waits.
    pub fn is_empty(&self) -> bool
        ensures { IsTrue result ↔ (self.now ≡ []) }
    {
        self.requests.is_empty()
    }

    /// How many requests wait.
    pub fn count(&self) -> usize
        ensures count { result ≡ length self.now }
        ensures few { result ≤ MOST_WAITING }
    {
        self.requests.len()
    }

    /// The first request that is in no open proposal.
    pub fn first_free(&self, window: &Window) -> Option<&Request>
        ensures { option_copied result ≡ first_free self.now window.now }
    {
        self.requests.values().find(|request| !window.asks_for(request.client(), request.number()))
    }

    /// A request waits from now on, as the last of them. One that waits already keeps its place.
    pub fn submit(&mut self, request: Request) -> Result<(), SubmitFault>
        ensures again { list_any (is_of request.client request.number) self.old ≡ true
            → OnOk result (self.new ≡ self.old) }
        ensures again_succeeds { list_any (is_of request.client request.number) self.old ≡ true → IsOk result }
        ensures last { list_any (is_of request.client request.number) self.old ≡ false
            → OnOk result (self.new ≡ self.old ++ request ∷ []) }

        // Each error.
        ensures full { IsErrOf result SubmitFault.QueueFull → MOST_WAITING ≤ length self.old }
        ensures full_refused { list_any (is_of request.client request.number) self.old ≡ false
            → MOST_WAITING ≤ length self.old → IsErrOf result SubmitFault.QueueFull }
        ensures err { OnErr result (self.new ≡ self.old) }
    {
        let (client, number) = (request.client(), request.number());
        if self.has(client, number) {
            return Ok(());
        }
        if self.requests.len() >= MOST_WAITING {
            return Err(SubmitFault::QueueFull);
        }
        self.requests.insert(Name::new(client, number), request)?;
        Ok(())
    }

    /// The request of this client and number waits no more: whether it waited.
    pub fn remove(&mut self, client: u8, number: Number) -> bool
        ensures waited { result ≡ list_any (is_of client number) self.old }
        ensures rest { self.new ≡ without client number self.old }
        ensures gone { list_any (is_of client number) self.new ≡ false }
    {
        self.requests
            .shift_remove(&Name::new(client, number))
            .is_some()
    }
}
