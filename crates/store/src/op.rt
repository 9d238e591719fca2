//! Operations.

ghost use Rattle.std.specs.Prelude.{◌≡◌, ◌↔◌, IsTrue, IsSome, IfSome};
ghost use Rattle.std.specs.Cmp.{partial_equiv_from_equiv};
ghost use Rattle.tpoint.specs.Moving.{InBounds};
ghost use Rattle.store.specs.Same.{same_op, same_op_equiv};

use std::alloc::AllocError;
use std::marker::Model;
use tpoint::{Id, Point, Seq};

/// A change to the database.
#[derive(Drop)]
pub enum Op {
    /// The feature of this id gets this sequence, whether the id is known or not.
    Put(Id, Seq),
    /// A known feature gets a point more.
    Append(Addition),
    /// The feature of this id goes.
    Remove(Id),
}

/// A point that is to follow the last one of a feature. Its coordinates are in range:
/// `Op::append` makes it.
#[derive(Clone, Copy, PartialEq, Eq)]
pub struct Addition {
    id: Id,
    point: Point,
}

impl Model for Addition {
    ghost use Rattle.tpoint.specs.Moving.{InBounds};
    ghost use Rattle.store.specs.Additions.{Added};

    ghost Value = { Added };

    ghost view = { λ a. record { id = a.id; point = a.point } };

    ghost invariant = { λ a. InBounds a.point };

    ghost inverse = { λ a. record { id = a.id; point = a.point } };
}

impl Addition {
    /// The feature that gets the point.
    pub fn id(&self) -> &Id
        ensures { result.now ≡ self.now.id }
    {
        &self.id
    }

    /// The point.
    pub fn point(&self) -> Point
        ensures value { result ≡ self.now.point }
        ensures in_range { InBounds self.now.point }
    {
        self.point
    }
}

impl Op {
    /// The operation that adds a point to a feature, or None where a coordinate is out of range.
    pub fn append(id: Id, point: Point) -> Option<Op>
        ensures in_range { IsSome result ↔ InBounds point }
        ensures value { IfSome result (λ op. op ≡ Op.Append (record { id = id; point = point })) }
    {
        if !point.is_in_range() {
            return None;
        }
        Some(Op::Append(Addition { id, point }))
    }
}

impl Clone for Op {
    ghost is_clone = { λ original copy. copy ≡ original };

    fn clone(&self) -> Result<Op, AllocError> {
        match self {
            Op::Put(id, seq) => Ok(Op::Put(*id, seq.clone()?)),
            Op::Append(addition) => Ok(Op::Append(*addition)),
            Op::Remove(id) => Ok(Op::Remove(*id)),
        }
    }
}

impl PartialEq for Op {
    ghost eq = { same_op };

    ghost laws = { partial_equiv_from_equiv same_op_equiv };

    fn eq(&self, other: &Op) -> bool
        ensures value { result ≡ same_op self.now other.now }
        ensures same { IsTrue result ↔ (self.now ≡ other.now) }
    {
        match (self, other) {
            (Op::Put(id, seq), Op::Put(other_id, other_seq)) => id == other_id && seq == other_seq,
            (Op::Append(addition), Op::Append(other_addition)) => addition == other_addition,
            (Op::Remove(id), Op::Remove(other_id)) => id == other_id,
            _ => false,
        }
    }
}

impl Eq for Op {
    ghost laws = { same_op_equiv };
}
