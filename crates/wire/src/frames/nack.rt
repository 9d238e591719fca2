//! Refusals.

ghost use Rattle.std.specs.Prelude.{◌≡◌, ◌↔◌, IsSome, IfSome};
ghost use Rattle.wire.specs.Promises.{IsRefusal};

use std::marker::Model;
use synod::Ballot;

/// The ballot is refused, since a greater one is promised.
#[derive(Clone, Copy, Debug, PartialEq, Eq)]
pub struct Nack {
    ballot: Ballot,
    promised: Ballot,
}

impl Model for Nack {
    ghost use Rattle.wire.specs.Promises.{Refused, IsRefusal};

    ghost Value = { Refused };

    ghost view = { λ n. record { ballot = n.ballot; promised = n.promised } };

    ghost invariant = { λ n. IsRefusal (record { ballot = n.ballot; promised = n.promised }) };

    ghost inverse = { λ n. record { ballot = n.ballot; promised = n.promised } };
}

impl Nack {
    /// The refusal of a ballot by a promise, or None where the promise is not above it.
    pub fn new(ballot: Ballot, promised: Ballot) -> Option<Nack>
        ensures valid { IsSome result ↔ IsRefusal (record { ballot = ballot; promised = promised }) }
        ensures value { IfSome result (λ n. n ≡ record { ballot = ballot; promised = promised }) }
    {
        if promised <= ballot {
            return None;
        }
        Some(Nack { ballot, promised })
    }

    /// The refusal of a ballot by a promise that is above it.
    pub(super) fn of(ballot: Ballot, promised: Ballot) -> Nack
        requires { IsRefusal (record { ballot = ballot; promised = promised }) }
        ensures { result ≡ record { ballot = ballot; promised = promised } }
    {
        Nack { ballot, promised }
    }

    /// What is refused.
    pub fn ballot(self) -> Ballot
        ensures { result ≡ self.ballot }
    {
        self.ballot
    }

    /// What is promised.
    pub fn promised(self) -> Ballot
        ensures value { result ≡ self.promised }
        ensures above { IsRefusal self }
    {
        self.promised
    }
}
