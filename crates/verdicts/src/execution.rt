//! What a list of commands replies and answers.

ghost use Rattle.std.specs.Prelude.{◌≡◌, ◌≤◌, ◌↔◌, List, IsTrue, IfOk, OnOk, length};
ghost use Rattle.sessions.specs.Meaning.{Answers, RequestsAreValid};
ghost use Rattle.sessions.specs.Standing.{StandsFor};
ghost use Rattle.sessions.specs.declared.command.Command.{Command as ACommand};
ghost use Rattle.verdicts.specs.Execution.{AreReplies, IsAt};
ghost use Rattle.verdicts.specs.Explaining.{AnswersOne};

use crate::lines::Question;
use sessions::{Command, Machine, one_answer_to_each_query};
use std::alloc::{AllocError, Global};
use std::collections::BTreeSet;

/// The replies at all places of a list, each by its client, number and code.
pub(crate) fn replies_of(
    alloc: Global,
    commands: &[Command],
) -> Result<BTreeSet<((u8, u64), u8)>, AllocError>
    ensures { IfOk result (λ replies. AreReplies commands.now replies) }
{
    let mut machine = Machine::new(alloc);
    let mut replies = BTreeSet::new(alloc);
    for command in commands {
        let told = machine.execute(command)?;
        if let Command::Request(request) = command {
            let key = (request.client(), request.number().value());
            replies.insert((key, told.code()))?;
        }
    }
    Ok(replies)
}

/// A machine that has executed the first commands of a list.
pub(crate) struct Cursor {
    machine: Machine,
    position: usize,
}

// By hand, so that a crate that drops one proves nothing of what lies within.
impl Drop for Cursor {
    fn drop(self) {
        let Cursor {
            machine,
            position: _,
        } = self;
        drop(machine);
    }
}

impl Cursor {
    /// It has executed nothing.
    pub(crate) fn new(alloc: Global) -> Cursor
        ensures at { (commands : List ACommand) → IsAt commands result }
        ensures position { result.position ≡ 0 }
    {
        Cursor {
            machine: Machine::new(alloc),
            position: 0,
        }
    }

    /// Goes to the position, from the start where it is behind it.
    pub(crate) fn go_to(
        &mut self,
        alloc: Global,
        commands: &[Command],
        position: usize,
    ) -> Result<(), AllocError>
        requires within { position ≤ length commands.now }
        requires at { IsAt commands.now self.old }
        ensures at { OnOk result (IsAt commands.now self.new) }
        ensures position { OnOk result (self.new.position ≡ position) }
    {
        if position < self.position {
            *self = Cursor::new(alloc);
        }
        self.go_on(commands, position)
    }

    /// Goes on to the position.
    fn go_on(&mut self, commands: &[Command], position: usize) -> Result<(), AllocError>
        requires order { self.old.position ≤ position }
        requires within { position ≤ length commands.now }
        requires at { IsAt commands.now self.old }
        ensures at { OnOk result (IsAt commands.now self.new) }
        ensures position { OnOk result (self.new.position ≡ position) }
    {
        while self.position < position {
            self.machine.execute(&commands[self.position])?;
            self.position += 1;
        }
        Ok(())
    }

    /// Whether the text answers one of the questions, which goes to the node.
    pub(crate) fn answers_one(
        &self,
        alloc: Global,
        questions: &[Question],
        node: u8,
        text: &[u8],
    ) -> Result<bool, AllocError>
        ensures { IfOk result (λ yes. (l : List ACommand) → StandsFor self.now.machine l → RequestsAreValid l
            → (IsTrue yes ↔ AnswersOne questions.now l node text.now)) }
    {
        for question in questions {
            if self.is_answer(alloc, question, node, text)? {
                return Ok(true);
            }
        }
        Ok(false)
    }

    /// Whether the question goes to the node, and the text answers it.
    fn is_answer(
        &self,
        alloc: Global,
        question: &Question,
        node: u8,
        text: &[u8],
    ) -> Result<bool, AllocError>
        ensures { IfOk result (λ yes. (l : List ACommand) → StandsFor self.now.machine l → RequestsAreValid l
            → (IsTrue yes ↔ ((question.now.node ≡ node) × Answers l question.now.query text.now))) }
    {
        if question.node != node {
            return Ok(false);
        }
        one_answer_to_each_query();
        let answer = self.machine.answer(alloc, &question.query)?;
        Ok(is_same(&answer, text))
    }
}

/// Whether the texts are the same, byte for byte.
fn is_same(one: &[u8], other: &[u8]) -> bool
    ensures { IsTrue result ↔ (one.now ≡ other.now) }
{
    one == other
}
