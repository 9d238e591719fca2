//! The verdict.

ghost use Rattle.std.specs.Prelude.{◌≡◌, ◌+◌, List, All, IfOk};
ghost use Rattle.store.specs.Operations.{OpIsValid};
ghost use Rattle.sessions.specs.declared.submission.Submission.{Submission};
ghost use Rattle.verdicts.specs.Explaining.{position_of, reach, greatest};
ghost use Rattle.verdicts.specs.Verdicts.{IsVerdict};

use crate::lines::{LearnLine, Question, Told, ToldLine};
use crate::placement::{Placed, place_learns};
use crate::request_index::index_requests;
use crate::search::try_choices;
use crate::verdict::Verdict;
use sessions::Request;
use std::alloc::{AllocError, Global};

/// The verdict on lines of transcripts, where clients asked for these requests, and these questions.
pub fn verdict_on(
    alloc: Global,
    requests: &[Request],
    questions: &[Question],
    learns: &[LearnLine],
    told: &[ToldLine],
) -> Result<Verdict, AllocError>
    ensures { IfOk result (IsVerdict requests.now questions.now learns.now told.now) }
{
    recall_valid(requests);
    let size = reach(learns, told);
    let index = index_requests(alloc, requests)?;
    match place_learns(alloc, &index, learns, size)? {
        Placed::Ends(verdict) => Ok(verdict),
        Placed::Names(names) => try_choices(alloc, requests, &index, &names, questions, told),
    }
}

// What each request brings is valid, as its type has it.
fn recall_valid(requests: &[Request])
    ensures { All (λ (r : Submission). OpIsValid r.op) requests.now }
{
    for request in requests {
        request.submission().recall_valid();
    }
}

/// The greatest position that the lines tell.
fn reach(learns: &[LearnLine], told: &[ToldLine]) -> usize
    ensures { result ≡ reach learns.now told.now }
{
    learnt_reach(learns).max(told_reach(told))
}

/// The greatest position behind a slot that was learnt.
fn learnt_reach(learns: &[LearnLine]) -> usize
    ensures { result ≡ greatest (λ (line : LearnLine). line.slot + 1) learns.now }
{
    let mut reached: usize = 0;
    for line in learns {
        reached = reached.max(line.slot as usize + 1);
    }
    reached
}

/// The greatest position of another line.
fn told_reach(told: &[ToldLine]) -> usize
    ensures { result ≡ greatest (λ (line : ToldLine). position_of line.told) told.now }
{
    let mut reached: usize = 0;
    for line in told {
        reached = reached.max(position_of(&line.told));
    }
    reached
}

/// The position that a line tells, or 0.
fn position_of(told: &Told) -> usize
    ensures { result ≡ position_of told.now }
{
    match told {
        Told::Answer { position, .. } => *position as usize,
        Told::Restore { position } => *position as usize,
        Told::Reply { .. } | Told::Other | Told::Foreign => 0,
    }
}
