//! What connections wait for.

ghost use Rattle.std.specs.Prelude.{◌≡◌, ◌≤◌, ◌↔◌, ◌++◌, ◌∷◌, [], IsTrue, OnOk, OnErr, IfSome, IfNone, IfOk, MatchOption, All, filter, length, map, not};
ghost use Rattle.std.specs.List.{list_any};
ghost use Rattle.serving.specs.Claiming.{is_for, is_of};
ghost use Rattle.serving.specs.Owing.{owed_to};
ghost use Rattle.serving.specs.Waitings.{is_asked_by, is_told_to, is_waiting, lines_of, receiver_of, IsHeldBack, IsFirstRipe};

use super::claims::{Claim, Claims, MOST_CLAIMS};
use std::alloc::{AllocError, Global};
use std::collections::VecDeque;
use std::marker::Model;
use store::Query;

/// A query of a connection, which is asked from a position on.
#[derive(Drop)]
pub struct Question {
    pub connection: u64,
    pub query: Query,
    /// 0 where the client named none.
    pub from: u32,
}

/// What a connection is told at the end of a turn.
#[derive(Drop)]
pub enum Due {
    /// The answer of the node to a question.
    Answer(Question),
    /// A line.
    Line { connection: u64, line: Vec<u8> },
}

impl Due {
    /// Which connection is told it.
    pub fn receiver(&self) -> u64
        ensures { result ≡ receiver_of self.now }
    {
        match self {
            Due::Answer(question) => question.connection,
            Due::Line { connection, .. } => *connection,
        }
    }

    /// Whether this connection is told it.
    pub fn is_to(&self, connection: u64) -> bool
        ensures { result ≡ is_told_to connection self.now }
    {
        self.receiver() == connection
    }
}

/// What connections wait for: replies, positions, and what they are told at the end of the turn.
#[derive(Drop)]
pub struct Waiting {
    claims: Claims,
    // In the order of their lines, as what is due.
    questions: Vec<Question>,
    due: VecDeque<Due>,
}

impl Model for Waiting {
    ghost use Rattle.serving.specs.Waitings.{WaitingState};

    ghost Value = { WaitingState };

    ghost view = { λ w. record { claims = w.claims; questions = w.questions.items; due = w.due.items } };
}

impl Waiting {
    /// None waits.
    pub fn none(alloc: Global) -> Waiting
        ensures { result ≡ record { claims = []; questions = []; due = [] } }
    {
        Waiting {
            claims: Claims::none(alloc),
            questions: Vec::new(alloc),
            due: VecDeque::new(alloc),
        }
    }

    /// Whether as many lines of the connection wait as may.
    pub fn is_full(&self, connection: u64) -> bool
        ensures { IsTrue result ↔ (MOST_CLAIMS ≤ owed_to connection self.now) }
    {
        let held = self
            .questions
            .iter()
            .filter(|question| question.connection == connection)
            .count();
        let due = self.due.iter().filter(|due| due.is_to(connection)).count();
        let waiting = self.claims.count(connection).saturating_add(held);
        MOST_CLAIMS <= waiting.saturating_add(due)
    }

    /// Whether the connection waits for anything.
    pub fn is_for(&self, connection: u64) -> bool
        ensures { result ≡ is_waiting connection self.now }
    {
        self.claims.has(connection) || self.has_questions(connection) || self.has_due(connection)
    }

    /// Whether anyone waits for a reply.
    pub fn is_for_replies(&self) -> bool
        ensures { IsTrue result ↔ ¬ (self.now.claims ≡ []) }
    {
        !self.claims.is_empty()
    }

    /// Who waits for which reply.
    pub fn claims(&self) -> &[Claim]
        ensures { result.now ≡ self.now.claims }
    {
        self.claims.as_slice()
    }

    /// The connection waits for the reply to a request.
    pub fn add_claim(&mut self, claim: Claim) -> Result<(), AllocError>
        ensures added { OnOk result (self.new ≡ record self.old { claims = self.old.claims ++ claim ∷ [] }) }
        ensures err { OnErr result (self.new ≡ self.old) }
    {
        self.claims.add(claim)
    }

    /// The reply was told to all who waited for it.
    pub fn settle(&mut self, client: u8, number: u64)
        ensures { self.new ≡ record self.old { claims = filter (λ claim. not (is_of client number claim)) self.old.claims } }
    {
        self.claims.settle(client, number);
    }

    /// Who has waited longest for a reply waits no more.
    pub fn take_claim(&mut self) -> Option<Claim>
        ensures next { MatchOption result (self.old.claims ≡ []) (λ claim. self.old.claims ≡ claim ∷ self.new.claims) }
        ensures others { self.new ≡ record self.old { claims = self.new.claims } }
        ensures unchanged { IfNone result (self.new ≡ self.old) }
    {
        self.claims.take()
    }

    /// How many queries are held back.
    pub fn count_questions(&self) -> usize
        ensures { result ≡ length self.now.questions }
    {
        self.questions.len()
    }

    /// The query is held back until the node is at the position.
    pub fn hold(&mut self, connection: u64, query: Query, from: u32) -> Result<(), AllocError>
        ensures added { OnOk result (self.new ≡ record self.old {
          questions = self.old.questions
              ++ (record { connection = connection; query = query; from = from }) ∷ [];
        }) }
        ensures err { OnErr result (self.new ≡ self.old) }
    {
        self.questions.push(Question {
            connection,
            query,
            from,
        })?;
        Ok(())
    }

    /// The first query that is held back no more where the node is at this position.
    pub fn ripe(&mut self, position: u32) -> Option<Question>
        ensures first { IfSome result (IsFirstRipe position self.old.questions self.new.questions) }
        ensures others { self.new ≡ record self.old { questions = self.new.questions } }
        ensures none { IfNone result (All (IsHeldBack position) self.old.questions) }
        ensures unchanged { IfNone result (self.new ≡ self.old) }
    {
        let place = self
            .questions
            .iter()
            .position(|question| question.from <= position)?;
        Some(self.questions.remove(place))
    }

    /// It is told at the end of the turn, behind what was due before.
    pub fn add_due(&mut self, due: Due) -> Result<(), AllocError>
        ensures added { OnOk result (self.new ≡ record self.old { due = self.old.due ++ due ∷ [] }) }
        ensures err { OnErr result (self.new ≡ self.old) }
    {
        self.due.push_back(due)?;
        Ok(())
    }

    /// How much is due.
    pub fn count_due(&self) -> usize
        ensures { result ≡ length self.now.due }
    {
        self.due.len()
    }

    /// What is told next.
    pub fn take_due(&mut self) -> Option<Due>
        ensures next { MatchOption result (self.old.due ≡ []) (λ due. self.old.due ≡ due ∷ self.new.due) }
        ensures others { self.new ≡ record self.old { due = self.new.due } }
        ensures unchanged { IfNone result (self.new ≡ self.old) }
    {
        self.due.pop_front()
    }

    /// The connection is gone, and waits for nothing any more.
    pub fn forget(&mut self, connection: u64)
        ensures { self.new ≡ record self.old {
          claims = filter (λ claim. not (is_for connection claim)) self.old.claims;
          questions = filter (λ question. not (is_asked_by connection question)) self.old.questions;
          due = filter (λ due. not (is_told_to connection due)) self.old.due;
        } }
    {
        self.claims.forget(connection);
        self.questions
            .retain(|question| question.connection != connection);
        self.due.retain(|due| !due.is_to(connection));
    }

    /// The connection of each line that waits.
    pub fn lines(&self, alloc: Global) -> Result<Vec<u64>, AllocError>
        ensures { IfOk result (λ lines. lines.items ≡ lines_of self.now) }
    {
        let mut lines = Vec::new(alloc);
        self.list_claims(&mut lines)?;
        self.list_questions(&mut lines)?;
        self.list_due(&mut lines)?;
        Ok(lines)
    }

    fn list_claims(&self, lines: &mut Vec<u64>) -> Result<(), AllocError>
        ensures { OnOk result (lines.new.items ≡ lines.old.items ++ map (λ claim. claim.connection) self.now.claims) }
    {
        'claims: for claim in self.claims.as_slice().iter() {
            lines.push(claim.connection)?;
        }
        Ok(())
    }

    fn list_questions(&self, lines: &mut Vec<u64>) -> Result<(), AllocError>
        ensures { OnOk result (lines.new.items ≡ lines.old.items ++ map (λ question. question.connection) self.now.questions) }
    {
        'questions: for question in self.questions.iter() {
            lines.push(question.connection)?;
        }
        Ok(())
    }

    fn list_due(&self, lines: &mut Vec<u64>) -> Result<(), AllocError>
        ensures { OnOk result (lines.new.items ≡ lines.old.items ++ map receiver_of self.now.due) }
    {
        'due: for place in 0..self.due.len() {
            lines.push(self.due[place].receiver())?;
        }
        Ok(())
    }

    // Whether a query of the connection is held back.
    fn has_questions(&self, connection: u64) -> bool
        ensures { result ≡ list_any (is_asked_by connection) self.now.questions }
    {
        self.questions
            .iter()
            .any(|question| question.connection == connection)
    }

    // Whether anything is due to the connection.
    fn has_due(&self, connection: u64) -> bool
        ensures { result ≡ list_any (is_told_to connection) self.now.due }
    {
        self.due.iter().any(|due| due.is_to(connection))
    }
}
