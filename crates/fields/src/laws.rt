//! Laws of fields: each is the contract of a function that does nothing.
//!
//! What fits is read from its spelling, whatever follows; and what is read was spelled so, and fits.

ghost use Rattle.std.specs.Prelude.{◌≡◌, ℕ, ◌<◌, ◌≤◌, List, ◌++◌, All, Ok};
ghost use Rattle.tpoint.specs.Ids.{IsId};
ghost use Rattle.tpoint.specs.Moving.{Sequence};
ghost use Rattle.tpoint.specs.declared.point.Point.{Point};
ghost use Rattle.fields.specs.Reading.{id_at, triple_at, sequence_at};
ghost use Rattle.fields.specs.Spelling.{id_bytes, triple_bytes, TripleFits, sequence_bytes, SequenceFits};

use tpoint::MOST_POINTS;

/// Ids are read as they were spelled.
pub fn ids_are_read_back()
    ensures again { (id rest : List ℕ) → IsId id → id_at (id_bytes id ++ rest) ≡ Ok (id, rest) }
    ensures only { (bytes id rest : List ℕ) → All (λ b. b < 256) bytes → id_at bytes ≡ Ok (id, rest)
        → IsId id × (bytes ≡ id_bytes id ++ rest) }
{}

/// Triples are read as they were spelled.
pub fn triples_are_read_back()
    ensures again { (p : Point) (rest : List ℕ) → TripleFits p → triple_at (triple_bytes p ++ rest) ≡ Ok (p, rest) }
    ensures only { (bytes : List ℕ) (p : Point) (rest : List ℕ) → All (λ b. b < 256) bytes → triple_at bytes ≡ Ok (p, rest)
        → TripleFits p × (bytes ≡ triple_bytes p ++ rest) }
{}

/// Sequences of so many points at most are read as they were spelled.
pub fn sequences_are_read_back()
    ensures again { (most : ℕ) (s : Sequence) (rest : List ℕ) → most ≤ MOST_POINTS → SequenceFits most s
        → sequence_at most (sequence_bytes s ++ rest) ≡ Ok (s, rest) }
    ensures only { (most : ℕ) (bytes : List ℕ) (s : Sequence) (rest : List ℕ) → All (λ b. b < 256) bytes
        → sequence_at most bytes ≡ Ok (s, rest) → SequenceFits most s × (bytes ≡ sequence_bytes s ++ rest) }
{}
