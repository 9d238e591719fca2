//! What lines are to the first commands of a list.

ghost use Rattle.std.specs.Prelude.{◌≡◌, ◌≤◌, ◌↔◌, List, All, IfOk, IsTrue, OnOk, length, false};
ghost use Rattle.sessions.specs.Meaning.{RequestsAreValid};
ghost use Rattle.verdicts.specs.Execution.{AreReplies, IsAt, IsAnswerFinding, IsFinding, IsLater, IsScan};
ghost use Rattle.verdicts.specs.Explaining.{position_of};
ghost use Rattle.verdicts.specs.declared.lines.Question.{Question as AQuestion};
ghost use Rattle.verdicts.specs.declared.lines.ToldLine.{ToldLine as ALine};

use crate::execution::{Cursor, replies_of};
use crate::lines::{Question, Told, ToldLine};
use crate::verdict::Why;
use sessions::Command;
use std::alloc::{AllocError, Global};
use std::collections::BTreeSet;

/// What the lines are to the commands that are known.
#[derive(Clone, Copy)]
pub(crate) enum Scan {
    /// Each list that begins with them explains all lines.
    Explained,
    /// None explains this line.
    Contradicted(Contradiction),
    /// A line rests on the slot behind them, of which nothing is known.
    Undecided,
}

/// A line that contradicts commands.
#[derive(Clone, Copy)]
pub(crate) struct Contradiction {
    /// So many lines stand before it.
    pub at: usize,
    pub why: Why,
}

/// What the lines are to the commands that are known: which one contradicts them, where one does.
///
/// Behind a line that rests on more commands, others are looked at no further than to that of the latest contradiction: one there
/// is no later than it, whatever comes of the line that rests on more.
pub(crate) fn examine_lines(
    alloc: Global,
    questions: &[Question],
    commands: &[Command],
    size: usize,
    told: &[ToldLine],
    latest: Option<Contradiction>,
) -> Result<Scan, AllocError>
    requires valid { RequestsAreValid commands.now }
    requires within { length commands.now ≤ size }
    requires reached { All (λ (line : ALine). position_of line.told ≤ size) told.now }
    ensures { IfOk result (IsScan questions.now size commands.now told.now latest) }
{
    let replies = replies_of(alloc, commands)?;
    let mut cursor = Cursor::new(alloc);
    let mut is_undecided = false;
    for (at, line) in told.iter().enumerate() {
        if is_enough(is_undecided, at, latest) {
            return Ok(Scan::Undecided);
        }
        match examine(
            alloc,
            questions,
            commands,
            size,
            &replies,
            &mut cursor,
            &line.told,
        )? {
            Finding::Explained => {}
            Finding::Contradicted(why) => {
                return Ok(Scan::Contradicted(Contradiction { at, why }));
            }
            Finding::Undecided => is_undecided = true,
        }
    }
    if is_undecided {
        return Ok(Scan::Undecided);
    }
    Ok(Scan::Explained)
}

/// Whether nothing more is to be looked at, from this line on.
fn is_enough(is_undecided: bool, at: usize, latest: Option<Contradiction>) -> bool
    ensures undecided { IsTrue result → IsTrue is_undecided }
    ensures later { IsTrue result → IsLater at latest }
    ensures more { result ≡ false → IsLater at latest → is_undecided ≡ false }
{
    is_later(at, latest) && is_undecided
}

/// Whether a line stands behind that of the latest contradiction.
pub(crate) fn is_later(at: usize, latest: Option<Contradiction>) -> bool
    ensures { IsTrue result ↔ IsLater at latest }
{
    match latest {
        Some(contradiction) => contradiction.at < at,
        None => true,
    }
}

/// What a line is to the commands that are known.
#[derive(Clone, Copy)]
enum Finding {
    /// Each list that begins with them explains it.
    Explained,
    /// None does.
    Contradicted(Why),
    /// It rests on the slot behind them, of which nothing is known.
    Undecided,
}

/// What a line is to the commands that are known.
fn examine(
    alloc: Global,
    questions: &[Question],
    commands: &[Command],
    size: usize,
    replies: &BTreeSet<((u8, u64), u8)>,
    cursor: &mut Cursor,
    told: &Told,
) -> Result<Finding, AllocError>
    requires valid { RequestsAreValid commands.now }
    requires within { length commands.now ≤ size }
    requires reached { position_of told.now ≤ size }
    requires replies { AreReplies commands.now replies.now }
    requires at { IsAt commands.now cursor.old }
    ensures at { OnOk result (IsAt commands.now cursor.new) }
    ensures found { IfOk result (IsFinding questions.now size commands.now told.now) }
{
    match told {
        Told::Reply {
            client,
            number,
            code,
        } => Ok(examine_reply(commands, size, replies, *client, *number, *code)),
        Told::Answer {
            node,
            position,
            text,
        } => examine_answer(
            alloc,
            questions,
            commands,
            size,
            cursor,
            *node,
            *position as usize,
            text,
        ),
        Told::Restore { .. } | Told::Other => Ok(Finding::Explained),
        Told::Foreign => Ok(Finding::Contradicted(Why::Foreign)),
    }
}

/// What a reply is to the commands that are known.
fn examine_reply(
    commands: &[Command],
    size: usize,
    replies: &BTreeSet<((u8, u64), u8)>,
    client: u8,
    number: u64,
    code: u8,
) -> Finding
    requires within { length commands.now ≤ size }
    requires replies { AreReplies commands.now replies.now }
    ensures { (questions : List AQuestion) → IsFinding questions size commands.now (Told.Reply client number code) result }
{
    if replies.contains(&((client, number), code)) {
        return Finding::Explained;
    }
    if commands.len() == size {
        return Finding::Contradicted(Why::OtherReply);
    }
    Finding::Undecided
}

/// What an answer is to the commands that are known.
fn examine_answer(
    alloc: Global,
    questions: &[Question],
    commands: &[Command],
    size: usize,
    cursor: &mut Cursor,
    node: u8,
    position: usize,
    text: &[u8],
) -> Result<Finding, AllocError>
    requires valid { RequestsAreValid commands.now }
    requires within { length commands.now ≤ size }
    requires reached { position ≤ size }
    requires at { IsAt commands.now cursor.old }
    ensures at { OnOk result (IsAt commands.now cursor.new) }
    ensures found { IfOk result (IsAnswerFinding questions.now size commands.now node position text.now) }
{
    if commands.len() < position {
        return Ok(Finding::Undecided);
    }
    cursor.go_to(alloc, commands, position)?;
    if cursor.answers_one(alloc, questions, node, text)? {
        return Ok(Finding::Explained);
    }
    Ok(Finding::Contradicted(Why::OtherAnswer))
}
