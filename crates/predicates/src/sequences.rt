//! Ever and always, of a whole moving point.

ghost use Rattle.std.specs.Prelude.{◌≡◌, ℕ, ◌+◌, ◌<◌, ◌≤◌, nat_lt, length};
ghost use Rattle.tpoint.specs.Places.{EachAt};
ghost use Rattle.tpoint.specs.Moving.{Rises, At};
ghost use Rattle.predicates.specs.Predicates.{IsEver, IsAlways};
ghost use Rattle.predicates.specs.Questions.{AnswersQuestion, decides};

use crate::questions::{Question, Tri};
use crate::runs::run_from;
use tpoint::{Period, Point, Rect, Seq};

/// Whether the moving point is in the rectangle at some instant of the period.
///
/// Every fraction of a millisecond counts, and so do the rectangle's bounds; an end of the period that isn't in it doesn't.
/// `Tri::None` where the moving point has no value in the period. Takes no memory.
pub fn ever(seq: &Seq, period: &Period, area: &Rect) -> Tri
    ensures { IsEver seq.now period.now area.now result }
{
    answer(Question::Ever, seq, period, area)
}

/// Whether the moving point is in the rectangle at every instant of the period at which it has a
/// value.
///
/// Every fraction of a millisecond counts, and so do the rectangle's bounds; an end of the period that isn't in it doesn't.
/// `Tri::None` where the moving point has no value in the period. Takes no memory.
pub fn always(seq: &Seq, period: &Period, area: &Rect) -> Tri
    ensures { IsAlways seq.now period.now area.now result }
{
    answer(Question::Always, seq, period, area)
}

/// What the moving point answers: what a piece says that decides, and else what any piece says that
/// is in the period.
#[inline(always)]
fn answer(question: Question, seq: &Seq, period: &Period, area: &Rect) -> Tri
    ensures { AnswersQuestion question (At seq.now) period.now area.now result }
{
    let interp = seq.interp();
    let points = seq.points();
    let mut answer = Tri::None;
    let mut i = first_piece(points, period);
    while i < points.len() {
        // This piece begins after the period, as do those that follow.
        if period.last_whole() < points[i].t {
            return answer;
        }
        let run = run_from(question, interp, points, i, period, area);
        match run.answer {
            Tri::None => {}
            part => answer = part,
        }
        if decides(question, answer) {
            return answer;
        }
        i = run.next;
    }
    answer
}

/// Whether a piece with this answer decides for the whole.
fn decides(question: Question, answer: Tri) -> bool
    ensures { result ≡ decides question answer }
{
    match question {
        Question::Ever => answer == Tri::Yes,
        Question::Always => answer == Tri::No,
    }
}

/// The place of the last point before the period, or the first place where no point is.
///
/// The pieces before it end before the period.
fn first_piece(points: &[Point], period: &Period) -> usize
    requires not_empty { 1 ≤ length points.now }
    requires increasing { (k : ℕ) → Rises points.now k }
    ensures within { result < length points.now }
    ensures before { (k : ℕ) → k < result →
        EachAt points.now (λ next. next.t < period.now.begin) (k + 1) }
    ensures after { (k : ℕ) → result < k →
        EachAt points.now (λ later. period.now.begin ≤ later.t) k }
{
    let begin = period.begin();
    let earlier = points.partition_point(
        |point: &Point| -> bool
            ensures { result ≡ nat_lt point.now.t begin }
        { point.t < begin },
    );
    earlier.saturating_sub(1)
}
