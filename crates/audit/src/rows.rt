//! One line of a transcript.

ghost use Rattle.std.specs.Prelude.{if◌then◌else◌, ◌≡◌, ◌≢◌, ◌∷◌, ℕ, Bool, List, IfOk, MatchOption};
ghost use Rattle.audit.specs.Kinds.{kind_text};
ghost use Rattle.audit.specs.Rows.{IsReadAs, IsRow};
ghost use Rattle.audit.specs.declared.kind.Kind.{Kind as AKind};

use crate::answer_line::answer_row;
use crate::code_lines::{is_last_count, is_refusal, is_stop, restore_row};
use crate::kind::{Kind, kind_of};
use crate::learn_line::learn_row;
use crate::line::Line;
use crate::reply_line::reply_row;
use crate::round_line::is_round;
use schedule::Words;
use std::alloc::{AllocError, Global};
use verdicts::Told;

/// What the line tells, in a run of so many nodes, where it is the last of its transcript or isn't.
pub(crate) fn read_line(
    alloc: Global,
    nodes: u8,
    is_last: bool,
    text: &[u8],
) -> Result<Line, AllocError>
    ensures { IfOk result (IsReadAs nodes is_last text.now) }
{
    let mut words = Words::of(text);
    match first_kind(&mut words) {
        Some(kind) => row(alloc, nodes, is_last, kind, words),
        None => Ok(Line::Told(Told::Foreign)),
    }
}

/// Takes the first word, which says what the line is.
fn first_kind(words: &mut Words) -> Option<Kind>
    ensures { MatchOption result ((kind : AKind) (others : List (List ℕ)) → words.old ≢ kind_text kind ∷ others)
        (λ kind. words.old ≡ kind_text kind ∷ words.new) }
{
    kind_of(words.next()?)
}

/// What the words tell that follow the first one of a line.
fn row(
    alloc: Global,
    nodes: u8,
    is_last: bool,
    kind: Kind,
    words: Words,
) -> Result<Line, AllocError>
    ensures { IfOk result (IsRow nodes is_last kind words.entry) }
{
    match kind {
        Kind::Learn => Ok(learnt(nodes, words)),
        Kind::Reply => Ok(replied(nodes, words)),
        Kind::Answer => answered(alloc, nodes, words),
        Kind::Restore => Ok(restored(nodes, words)),
        Kind::Refuse => Ok(passed(is_refusal(nodes, words))),
        Kind::Stop => Ok(passed(is_stop(nodes, words))),
        Kind::Round => Ok(passed(is_round(nodes, words))),
        Kind::Strangers => Ok(passed(is_last_count(is_last, words))),
    }
}

/// What is told after `learn`.
fn learnt(nodes: u8, words: Words) -> Line
    ensures { (is_last : Bool) → IsRow nodes is_last Kind.Learn words.entry result }
{
    match learn_row(nodes, words) {
        Some((slot, name)) => Line::Learn { slot, name },
        None => Line::Told(Told::Foreign),
    }
}

/// What is told after `reply`.
fn replied(nodes: u8, words: Words) -> Line
    ensures { (is_last : Bool) → IsRow nodes is_last Kind.Reply words.entry result }
{
    match reply_row(nodes, words) {
        Some(reply) => Line::Told(Told::Reply {
            client: reply.client,
            number: reply.number,
            code: reply.code,
        }),
        None => Line::Told(Told::Foreign),
    }
}

/// What is told after `answer`.
fn answered(alloc: Global, nodes: u8, words: Words) -> Result<Line, AllocError>
    ensures { (is_last : Bool) → IfOk result (IsRow nodes is_last Kind.Answer words.entry) }
{
    match answer_row(nodes, words) {
        Some(answer) => Ok(Line::Told(Told::Answer {
            node: answer.node,
            position: answer.position,
            text: Vec::from_slice(alloc, answer.text)?,
        })),
        None => Ok(Line::Told(Told::Foreign)),
    }
}

/// What is told after `restore`.
fn restored(nodes: u8, words: Words) -> Line
    ensures { (is_last : Bool) → IsRow nodes is_last Kind.Restore words.entry result }
{
    match restore_row(nodes, words) {
        Some(position) => Line::Told(Told::Restore { position }),
        None => Line::Told(Told::Foreign),
    }
}

/// A line that passes, if it is one.
fn passed(is_line: bool) -> Line
    ensures { result ≡ (if is_line then Line.Told Told.Other else Line.Told Told.Foreign) }
{
    if is_line {
        Line::Told(Told::Other)
    } else {
        Line::Told(Told::Foreign)
    }
}
