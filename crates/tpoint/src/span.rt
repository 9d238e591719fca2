//! From when to when a sequence is.

ghost use Rattle.std.specs.Prelude.{◌≡◌};
ghost use Rattle.tpoint.specs.Spans.{span_of, HasValuesIn};

use crate::{Period, Seq};

impl Seq {
    /// The period from its first instant to its last.
    pub fn span(&self) -> Period
        ensures { result ≡ span_of self.now.points }
    {
        let points = self.points();
        let first = points[0];
        let last = points[points.len() - 1];
        Period::new(first.t, last.t).unwrap()
    }

    /// A law: a sequence has values within its span alone.
    ///
    /// It does nothing, and is called for its contract.
    pub fn values_lie_in_its_span(&self)
        ensures { HasValuesIn self.now (span_of self.now.points) }
    {
        let _ = self.points();
    }
}
