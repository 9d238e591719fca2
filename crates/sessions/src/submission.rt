//! What a client asks for.

ghost use Rattle.std.specs.Prelude.{◌≡◌, ◌↔◌, IsTrue};
ghost use Rattle.std.specs.Cmp.{partial_equiv_from_equiv};
ghost use Rattle.store.specs.Operations.{OpIsValid};
ghost use Rattle.sessions.specs.Same.{same_submission, same_submission_equiv};

use crate::number::Number;
use std::alloc::AllocError;
use store::Op;

/// What a client asks for, under a number of its own. The operation may be of any length.
#[derive(Drop)]
pub struct Submission {
    pub client: u8,
    pub number: Number,
    pub op: Op,
}

impl Submission {
    /// What its operation brings is valid, as the types have it: a sequence, or a point with its coordinates in range.
    pub fn recall_valid(&self)
        ensures { OpIsValid self.now.op }
    {
        match &self.op {
            Op::Put(_, seq) => {
                let _interp = seq.interp();
            }
            Op::Append(addition) => {
                let _point = addition.point();
            }
            Op::Remove(_) => {}
        }
    }
}

impl Clone for Submission {
    ghost is_clone = { λ original copy. copy ≡ original };

    fn clone(&self) -> Result<Submission, AllocError> {
        Ok(Submission {
            client: self.client,
            number: self.number,
            op: self.op.clone()?,
        })
    }
}

impl PartialEq for Submission {
    ghost eq = { same_submission };

    ghost laws = { partial_equiv_from_equiv same_submission_equiv };

    fn eq(&self, other: &Submission) -> bool
        ensures value { result ≡ same_submission self.now other.now }
        ensures same { IsTrue result ↔ (self.now ≡ other.now) }
    {
        self.client == other.client && self.number == other.number && self.op == other.op
    }
}

impl Eq for Submission {
    ghost laws = { same_submission_equiv };
}
