//! What is kept of the clients.

ghost use Rattle.std.specs.Prelude.{◌≡◌, ◌≢◌, ◌<◌, ℕ, length};

use crate::number::Number;
use std::marker::Model;
use store::Reply;

/// As many clients as there are values of a byte.
const CLIENTS: usize = 256;

/// What is kept of a client: the number of its last request that counted, and the reply to it.
#[derive(Clone, Copy)]
pub struct Session {
    pub number: Number,
    pub reply: Reply,
}

/// What is kept of one client.
#[derive(Clone, Copy)]
pub struct Held {
    pub client: u8,
    pub session: Session,
}

/// What is kept of each client. A client's is found by its number, without a search.
#[derive(Drop)]
pub struct Sessions {
    table: [Option<Session>; CLIENTS],
}

impl Model for Sessions {
    ghost use Rattle.std.specs.Prelude.{List, Option};
    ghost use Rattle.sessions.specs.declared.session.Session.{Session};

    ghost Value = { List (Option Session) };

    ghost view = { λ s. s.table };
}

impl Sessions {
    ghost use Rattle.sessions.specs.Sessions.{session_of, with_session};

    /// Nothing is kept of any client.
    pub fn new() -> Sessions
        ensures none { (client : ℕ) → session_of result client ≡ None }
        ensures clients { length result ≡ CLIENTS }
    {
        Sessions {
            table: [None; CLIENTS],
        }
    }

    /// What is kept of the client.
    pub fn of(&self, client: u8) -> Option<Session>
        ensures kept { result ≡ session_of self.now client }
        ensures in_table { client < length self.now }
    {
        self.table[usize::from(client)]
    }

    /// What is kept of each client, from client 0 on.
    pub fn places(&self) -> &[Option<Session>]
        ensures { result.now ≡ self.now }
    {
        &self.table
    }

    /// Keeps this of the client from now on.
    pub fn keep(&mut self, client: u8, session: Session)
        ensures in_table { client < length self.old }
        ensures table { self.new ≡ with_session self.old client session }
        ensures kept { session_of self.new client ≡ Some session }
        ensures clients { length self.new ≡ length self.old }
        ensures others { (other : ℕ) → other ≢ client → session_of self.new other ≡ session_of self.old other }
    {
        self.table[usize::from(client)] = Some(session);
    }
}
