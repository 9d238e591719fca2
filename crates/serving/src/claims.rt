//! Which connection waits for which reply.

ghost use Rattle.std.specs.Prelude.{◌≡◌, ◌++◌, ◌∷◌, [], ◌↔◌, IsTrue, OnOk, OnErr, IfNone, MatchOption, count_by, filter, not};
ghost use Rattle.std.specs.List.{list_any};
ghost use Rattle.serving.specs.Claiming.{is_for, is_of};

use std::alloc::{AllocError, Global};
use std::marker::Model;

/// A connection has at most so many lines that wait.
pub const MOST_CLAIMS: usize = 32;

/// A connection waits for the reply to a request.
#[derive(Clone, Copy, Debug, PartialEq, Eq)]
pub struct Claim {
    /// No number names two connections in the life of a process.
    pub connection: u64,
    pub client: u8,
    pub number: u64,
}

/// What all connections wait for, in the order of their requests.
#[derive(Drop)]
pub struct Claims {
    claims: Vec<Claim>,
}

impl Model for Claims {
    ghost use Rattle.std.specs.Prelude.{List};
    ghost use Rattle.serving.specs.declared.claims.Claim.{Claim};

    ghost Value = { List Claim };

    ghost view = { λ claims. claims.claims.items };
}

impl Claims {
    /// None waits.
    pub fn none(alloc: Global) -> Claims
        ensures { result ≡ [] }
    {
        Claims {
            claims: Vec::new(alloc),
        }
    }

    /// A connection waits from now on.
    pub fn add(&mut self, claim: Claim) -> Result<(), AllocError>
        ensures added { OnOk result (self.new ≡ self.old ++ claim ∷ []) }
        ensures err { OnErr result (self.new ≡ self.old) }
    {
        self.claims.push(claim)?;
        Ok(())
    }

    /// Whether no connection waits.
    pub fn is_empty(&self) -> bool
        ensures { IsTrue result ↔ (self.now ≡ []) }
    {
        self.claims.is_empty()
    }

    /// All of them, in the order of their requests.
    pub fn as_slice(&self) -> &[Claim]
        ensures { result.now ≡ self.now }
    {
        self.claims.as_slice()
    }

    /// Whether the connection waits for any.
    pub fn has(&self, connection: u64) -> bool
        ensures { result ≡ list_any (is_for connection) self.now }
    {
        self.claims
            .iter()
            .any(|claim| claim.connection == connection)
    }

    /// For how many replies the connection waits.
    pub fn count(&self, connection: u64) -> usize
        ensures { result ≡ count_by (is_for connection) self.now }
    {
        self.claims
            .iter()
            .filter(|claim| claim.connection == connection)
            .count()
    }

    /// The oldest one, which waits no more.
    pub fn take(&mut self) -> Option<Claim>
        ensures next { MatchOption result (self.old ≡ []) (λ claim. self.old ≡ claim ∷ self.new) }
        ensures unchanged { IfNone result (self.new ≡ self.old) }
    {
        if self.claims.is_empty() {
            return None;
        }
        Some(self.claims.remove(0))
    }

    /// The reply to this request was told: nobody waits for it any more.
    pub fn settle(&mut self, client: u8, number: u64)
        ensures { self.new ≡ filter (λ claim. not (is_of client number claim)) self.old }
    {
        self.claims.retain(|claim| !claim.is_of(client, number));
    }

    /// The connection is gone.
    pub fn forget(&mut self, connection: u64)
        ensures { self.new ≡ filter (λ claim. not (is_for connection claim)) self.old }
    {
        self.claims.retain(|claim| claim.connection != connection);
    }
}

impl Claim {
    ghost use Rattle.serving.specs.Claiming.{is_of};

    /// Whether it is for the reply to this request.
    pub fn is_of(&self, client: u8, number: u64) -> bool
        ensures { result ≡ is_of client number self.now }
    {
        self.client == client && self.number == number
    }
}
