//! A ballot in nine bytes.

ghost use Rattle.std.specs.Prelude.{◌≡◌};

use std::marker::Model;
use synod::Ballot;

/// A ballot without the gap that a whole word leaves behind its node: each step of a run has an outcome, so outcomes are to be small.
/// Contracts see the ballot.
#[derive(Clone, Copy, Debug, PartialEq, Eq)]
pub struct PackedBallot {
    round: [u8; 8],
    node: u8,
}

impl Model for PackedBallot {
    ghost use Rattle.synod.specs.declared.ballot.Ballot.{Ballot};
    ghost use Rattle.world_model.specs.PackedBallots.{ballot_in, round_bytes, IsPacked};

    ghost Value = { Ballot };

    ghost view = { λ b. ballot_in b.round b.node };

    // The bytes are those of the round.
    ghost invariant = { λ b. IsPacked b.round b.node };

    ghost inverse = { λ b. record { round = round_bytes b; node = b.node } };
}

impl PackedBallot {
    /// The ballot in so few bytes.
    pub fn of(ballot: Ballot) -> PackedBallot
        ensures { result ≡ ballot }
    {
        PackedBallot {
            round: ballot.round.to_le_bytes(),
            node: ballot.node,
        }
    }

    /// The ballot.
    pub fn ballot(self) -> Ballot
        ensures { result ≡ self }
    {
        Ballot {
            round: u64::from_le_bytes(self.round),
            node: self.node,
        }
    }
}
