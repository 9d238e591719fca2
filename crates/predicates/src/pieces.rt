//! The piece of a moving point at one of its listed points.

ghost use Rattle.std.specs.Prelude.{ℕ, ◌<◌, length};
ghost use Rattle.tpoint.specs.Places.{EachAt};
ghost use Rattle.tpoint.specs.Moving.{Rises, InBounds};
ghost use Rattle.tpoint.specs.Pieces.{OnPiece};
ghost use Rattle.predicates.specs.Questions.{AnswersQuestion};

use crate::legs::leg;
use crate::questions::{Question, Tri};
use crate::stays::{at_point, held};
use tpoint::{Interp, Period, Point, Rect};

/// What the piece at `i` answers.
#[inline(always)]
pub fn piece(
    question: Question,
    interp: Interp,
    points: &[Point],
    i: usize,
    period: &Period,
    area: &Rect,
) -> Tri
    requires in_list { i < length points.now }
    requires increasing { (k : ℕ) → Rises points.now k }
    requires in_range { (k : ℕ) → EachAt points.now InBounds k }
    ensures { AnswersQuestion question (OnPiece interp points.now i) period.now area.now result }
{
    match interp {
        Interp::Discrete => at_point(&points[i], period, area),
        Interp::Step => {
            if i + 1 < points.len() {
                held(&points[i], &points[i + 1], period, area)
            } else {
                at_point(&points[i], period, area)
            }
        }
        Interp::Linear => {
            if i + 1 < points.len() {
                leg(question, &points[i], &points[i + 1], period, area)
            } else if points.len() == 1 {
                at_point(&points[i], period, area)
            } else {
                // The last point ends the leg before it.
                Tri::None
            }
        }
    }
}
