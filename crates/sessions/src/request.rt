//! Requests.

ghost use Rattle.std.specs.Prelude.{◌≡◌, ◌↔◌, IsTrue, IsOk, IfOk};
ghost use Rattle.std.specs.Cmp.{partial_equiv_from_equiv};
ghost use Rattle.sessions.specs.Requests.{IsShort, IsSameRequest};
ghost use Rattle.sessions.specs.Same.{same_submission, same_submission_equiv};

use crate::number::Number;
use crate::submission::Submission;
use std::alloc::AllocError;
use std::error::Error;
use std::fmt;
use std::marker::Model;
use store::Op;

/// A request puts a sequence of at most this many instants, so that it fits into a frame.
pub const MOST_PUT_POINTS: usize = 512;

/// A client's request: a submission that fits into a frame. It is known by its client and number alone.
pub struct Request {
    submission: Submission,
}

// By hand, so that a crate that drops one proves nothing of what lies within.
impl Drop for Request {
    fn drop(self) {
        let Request { submission } = self;
        drop(submission);
    }
}

/// The sequence that was to be put has more than `MOST_PUT_POINTS` instants.
#[derive(Clone, Copy, Debug, PartialEq, Eq)]
pub struct TooLong;

impl fmt::Display for TooLong {
    ghost use Rattle.std.specs.Prelude.{Some};
    ghost use Rattle.sessions.specs.SessionReplies.{too_long_text};

    ghost output = { λ _. Some too_long_text };

    fn fmt<W: fmt::Write>(&self, f: &mut fmt::Formatter<W>) -> fmt::Result {
        write!(f, "the sequence has more than {MOST_PUT_POINTS} instants")
    }
}

impl Error for TooLong {}

impl Model for Request {
    ghost use Rattle.sessions.specs.Requests.{IsShort};
    ghost use Rattle.sessions.specs.declared.submission.Submission.{Submission};

    ghost Value = { Submission };

    ghost view = { λ r. r.submission };

    ghost invariant = { λ r. IsShort r.submission.op };

    ghost inverse = { λ s. record { submission = s } };
}

impl Request {
    /// The request of this client under this number.
    pub fn new(client: u8, number: Number, op: Op) -> Result<Request, TooLong>
        ensures short { IsOk result ↔ IsShort op }
        ensures value { IfOk result (λ r. r ≡ record { client = client; number = number; op = op }) }
    {
        if !is_short(&op) {
            return Err(TooLong);
        }
        let submission = Submission { client, number, op };
        Ok(Request { submission })
    }

    /// What is asked for, by whom and under which number.
    pub fn submission(&self) -> &Submission
        ensures { result.now ≡ self.now }
    {
        &self.submission
    }

    /// Who asks.
    pub fn client(&self) -> u8
        ensures { result ≡ self.now.client }
    {
        self.submission.client
    }

    /// Which of the client's requests it is.
    pub fn number(&self) -> Number
        ensures { result ≡ self.now.number }
    {
        self.submission.number
    }

    /// What is asked for.
    pub fn op(&self) -> &Op
        ensures value { result.now ≡ self.now.op }
        ensures short { IsShort self.now.op }
    {
        &self.submission.op
    }

    /// Whether the other is known as the same request: it is of the same client, under the same number.
    pub fn is_same_request(&self, other: &Request) -> bool
        ensures { IsTrue result ↔ IsSameRequest self.now other.now }
    {
        self.client() == other.client() && self.number() == other.number()
    }
}

impl Clone for Request {
    ghost is_clone = { λ original copy. copy ≡ original };

    fn clone(&self) -> Result<Request, AllocError> {
        Ok(Request {
            submission: self.submission.clone()?,
        })
    }
}

impl PartialEq for Request {
    ghost eq = { same_submission };

    ghost laws = { partial_equiv_from_equiv same_submission_equiv };

    fn eq(&self, other: &Request) -> bool
        ensures value { result ≡ same_submission self.now other.now }
        ensures same { IsTrue result ↔ (self.now ≡ other.now) }
    {
        self.submission == other.submission
    }
}

impl Eq for Request {
    ghost laws = { same_submission_equiv };
}

/// Whether a request may ask for it.
fn is_short(op: &Op) -> bool
    ensures { IsTrue result ↔ IsShort op.now }
{
    match op {
        Op::Put(_, seq) => seq.points().len() <= MOST_PUT_POINTS,
        Op::Append(_) | Op::Remove(_) => true,
    }
}
