//! What a process tells its clients.

ghost use Rattle.wire.specs.declared.frames.envelope.Envelope.{Envelope};
ghost use Rattle.std.specs.Prelude.{◌≡◌, ◌≤◌, ◌<◌, ℕ, List, ◌+◌, ◌-◌, ◌∷◌, ◌++◌, [], IfErr, IfOk, MatchBool, OnErr, OnOk, length, take, true, false};
ghost use Rattle.life.specs.Telling.{nothing};
ghost use Rattle.clients.specs.AnswerLines.{text_line};
ghost use Rattle.serving.specs.Ending.{EndsAt, HasEnded, IsAsked};
ghost use Rattle.serving.specs.Moves.{AreRepliesTold, IsAnswered, LetsOutSome, Moves, StopsBehind, Telling, TellsOrNot};
ghost use Rattle.serving.specs.Outgoing.{AreFramesOf, IsReplyIn, IsTextTo, KeepsLess};
ghost use Rattle.serving.specs.Knowing.{IsPosition};
ghost use Rattle.serving.specs.Owing.{BreaksOff, reply_told};
ghost use Rattle.serving.specs.Requesting.{unreplied};
ghost use Rattle.serving.specs.Resting.{IsFull, KeepsRequests, NoneIsRipe};
ghost use Rattle.serving.specs.Serving.{Passes, PassesOnly, Serves, ServesClients, asking};
ghost use Rattle.serving.specs.Tapes.{Carried, HasPassed, Told};
ghost use Rattle.serving.specs.declared.fault.TurnFault.TheVariants as turn_fault;

use super::Server;
use crate::claims::Claim;
use crate::desk::Desk;
use crate::fault::{TurnFault, refusal};
use crate::waiting::{Due, Question};
use clients::ClientAnswer;
use node_model::NodeFault;
use stable::Stable;
use std::alloc::Global;
use synod::SLOTS;
use world_model::{Answered, Replied};

impl<S: Stable + Drop> Server<S> {
    ghost use Rattle.life.specs.Seen.{life_of};
    ghost use Rattle.serving.specs.Seen.{process_of, server_of};

    // Each reply goes to those who wait for it.
    pub(super) fn tell_replies<D: Desk>(
        &mut self,
        alloc: Global,
        desk: &mut D,
        replies: &[Replied],
    ) -> Result<(), TurnFault>
        ensures tells { PassesOnly D.tape D.Tells (IsReplyIn replies.now self.old.waiting.claims) desk.old desk.new }
        ensures keeps { KeepsLess (server_of self.old) (server_of self.new) }
        ensures life { self.new.life ≡ self.old.life }
        ensures requests { OnOk result (self.new.requests ≡ unreplied replies.now self.old.requests) }
        ensures replies { OnOk result (Passes D.tape D.Tells (λ said.
            AreRepliesTold self.old.waiting.claims replies.now said self.new.waiting.claims) desk.old desk.new) }
        ensures others { process_of self.new ≡ record (process_of self.old) {
          waiting = record self.old.waiting { claims = self.new.waiting.claims };
          requests = self.new.requests;
        } }
        ensures breaks { OnErr result (Passes D.tape D.Tells (λ said. BreaksOff said self.old.waiting) desk.old desk.new) }
        ensures some { OnErr result (Passes D.tape D.Tells (λ said. (sent : List Carried) (frames : List Envelope)
            → AreFramesOf frames sent → LetsOutSome frames replies.now self.old.waiting.claims sent said) desk.old desk.new) }
        ensures memory { IfErr result (λ fault. fault ≡ turn_fault.Memory) }
    {
        'replies: for replied in replies.iter() {
            tell_reply(alloc, desk, self.waiting.claims(), replied)?;
            let number = replied.number.value();
            self.requests.remove(replied.client, number);
            self.waiting.settle(replied.client, number);
        }
        Ok(())
    }

    // The queries that are held back no more are answered: whether there was one.
    pub(super) fn tell_ripe<D: Desk>(
        &mut self,
        alloc: Global,
        desk: &mut D,
    ) -> Result<bool, TurnFault>
        ensures serves { ServesClients S.Stable D.tape D.Tells (server_of self.old) desk.old (server_of self.new) desk.new }
        ensures node { OnOk result ((life_of self.new.life).node ≡ (life_of self.old.life).node) }
        ensures ripe { OnOk result (NoneIsRipe (life_of self.new.life).node self.new.waiting.questions) }
        ensures moves { (now : ℕ) → (life_of self.old.life).held ≡ nothing → IfOk result (λ has_told. Passes D.tape D.Tells (λ said.
            TellsOrNot S.Stable now (process_of self.old) [] said (process_of self.new) has_told) desk.old desk.new) }
        ensures stops { (now : ℕ) → (life_of self.old.life).held ≡ nothing → IfErr result (λ fault. Passes D.tape D.Tells (λ said.
            StopsBehind S.Stable now (process_of self.old) [] said fault (life_of self.new.life).node) desk.old desk.new) }
        ensures ends { IfErr result (HasEnded (life_of self.new.life).node) }
        ensures breaks { (life_of self.old.life).held ≡ nothing → OnErr result (Passes D.tape D.Tells (λ said.
            BreaksOff said self.old.waiting) desk.old desk.new) }
        ensures held { (life_of self.old.life).held ≡ nothing → OnOk result ((life_of self.new.life).held ≡ nothing) }
        ensures own { OnOk result ((life_of self.new.life).own ≡ (life_of self.old.life).own) }
    {
        let mut has_told = false;
        'questions: for _ in 0..self.waiting.count_questions() {
            if !self.tell_next_ripe(alloc, desk)? {
                return Ok(has_told);
            }
            has_told = true;
        }
        Ok(has_told)
    }

    // The first such query: whether there is one.
    fn tell_next_ripe<D: Desk>(&mut self, alloc: Global, desk: &mut D) -> Result<bool, TurnFault>
        ensures serves { ServesClients S.Stable D.tape D.Tells (server_of self.old) desk.old (server_of self.new) desk.new }
        ensures node { OnOk result ((life_of self.new.life).node ≡ (life_of self.old.life).node) }
        ensures less { IfOk result (λ has_told. MatchBool has_told
            (length self.new.waiting.questions + 1 ≡ length self.old.waiting.questions)
            (NoneIsRipe (life_of self.new.life).node self.new.waiting.questions)) }
        ensures moves { (now : ℕ) → (life_of self.old.life).held ≡ nothing → IfOk result (λ has_told. Passes D.tape D.Tells (λ said.
            TellsOrNot S.Stable now (process_of self.old) [] said (process_of self.new) has_told) desk.old desk.new) }
        ensures stops { IfErr result (λ fault. EndsAt S.Stable IsAsked (life_of self.old.life).node fault (life_of self.new.life).node) }
        ensures ends { IfErr result (HasEnded (life_of self.new.life).node) }
        ensures breaks { OnErr result (HasPassed D.tape D.Tells desk.old [] desk.new) }
        ensures held { (life_of self.old.life).held ≡ nothing → OnOk result ((life_of self.new.life).held ≡ nothing) }
        ensures own { OnOk result ((life_of self.new.life).own ≡ (life_of self.old.life).own) }
    {
        let position = self.position();
        let Some(question) = self.waiting.ripe(position) else {
            return Ok(false);
        };
        self.answer(alloc, desk, question)?;
        Ok(true)
    }

    // Where the whole log is executed, no request that waits is executed any more: who waits for one is told that it is refused, as a
    // new one is.
    pub(super) fn turn_away(&mut self, alloc: Global) -> Result<(), TurnFault>
        ensures serves { Serves S.Stable (server_of self.old) [] [] (server_of self.new) }
        ensures life { self.new.life ≡ self.old.life }
        ensures questions { self.new.waiting.questions ≡ self.old.waiting.questions }
        ensures full { OnOk result (IsFull (life_of self.new.life).node → (self.new.waiting.claims ≡ []) × (self.new.requests ≡ [])) }
        ensures moves { (now : ℕ) → (life_of self.old.life).held ≡ nothing
            → OnOk result (Moves S.Stable now Telling (process_of self.old) [] [] (process_of self.new)) }
        ensures stops { (now : ℕ) → (life_of self.old.life).held ≡ nothing
            → OnErr result (StopsBehind S.Stable now (process_of self.old) [] [] turn_fault.Memory (life_of self.new.life).node) }
        ensures memory { IfErr result (λ fault. fault ≡ turn_fault.Memory) }
    {
        if self.position() < SLOTS {
            return Ok(());
        }
        'claims: for _ in 0..self.waiting.claims().len() {
            self.turn_away_next(alloc)?;
        }
        self.requests.clear();
        Ok(())
    }

    // Who has waited longest for a reply is to be told that the request is refused: whether anybody waits.
    fn turn_away_next(&mut self, alloc: Global) -> Result<bool, TurnFault>
        requires { IsFull (life_of self.old.life).node }
        ensures serves { Serves S.Stable (server_of self.old) [] [] (server_of self.new) }
        ensures life { self.new.life ≡ self.old.life }
        ensures questions { self.new.waiting.questions ≡ self.old.waiting.questions }
        ensures less { OnOk result (length self.new.waiting.claims ≡ length self.old.waiting.claims - 1) }
        ensures moves { (now : ℕ) → (life_of self.old.life).held ≡ nothing
            → OnOk result (Moves S.Stable now Telling (process_of self.old) [] [] (process_of self.new)) }
        ensures memory { IfErr result (λ fault. fault ≡ turn_fault.Memory) }
    {
        let Some(claim) = self.waiting.take_claim() else {
            return Ok(false);
        };
        let answer = ClientAnswer::Refused {
            client: claim.client,
            number: claim.number,
            code: NodeFault::LogFull.code(),
        };
        let line = answer.spell(alloc)?;
        self.waiting.add_due(Due::Line {
            connection: claim.connection,
            line,
        })?;
        Ok(true)
    }

    // What is due is told in the order of the lines: whether anything was told.
    pub(super) fn tell_due<D: Desk>(
        &mut self,
        alloc: Global,
        desk: &mut D,
    ) -> Result<bool, TurnFault>
        ensures serves { ServesClients S.Stable D.tape D.Tells (server_of self.old) desk.old (server_of self.new) desk.new }
        ensures node { OnOk result ((life_of self.new.life).node ≡ (life_of self.old.life).node) }
        ensures ripe { OnOk result (NoneIsRipe (life_of self.old.life).node self.old.waiting.questions
            → NoneIsRipe (life_of self.new.life).node self.new.waiting.questions) }
        ensures requests { KeepsRequests (server_of self.old) (server_of self.new) }
        ensures told { OnOk result (self.new.waiting.due ≡ []) }
        ensures moves { (now : ℕ) → (life_of self.old.life).held ≡ nothing
            → NoneIsRipe (life_of self.old.life).node self.old.waiting.questions → IfOk result (λ has_told. Passes D.tape D.Tells (λ said.
            TellsOrNot S.Stable now (process_of self.old) [] said (process_of self.new) has_told) desk.old desk.new) }
        ensures stops { (now : ℕ) → (life_of self.old.life).held ≡ nothing
            → NoneIsRipe (life_of self.old.life).node self.old.waiting.questions → IfErr result (λ fault. Passes D.tape D.Tells (λ said.
            StopsBehind S.Stable now (process_of self.old) [] said fault (life_of self.new.life).node) desk.old desk.new) }
        ensures ends { IfErr result (HasEnded (life_of self.new.life).node) }
        ensures breaks { (life_of self.old.life).held ≡ nothing → NoneIsRipe (life_of self.old.life).node self.old.waiting.questions
            → OnErr result (Passes D.tape D.Tells (λ said. BreaksOff said self.old.waiting) desk.old desk.new) }
        ensures held { (life_of self.old.life).held ≡ nothing → OnOk result ((life_of self.new.life).held ≡ nothing) }
        ensures own { OnOk result ((life_of self.new.life).own ≡ (life_of self.old.life).own) }
    {
        let mut has_told = false;
        'due: for _ in 0..self.waiting.count_due() {
            let was_told = self.tell_next_due(alloc, desk)?;
            has_told = has_told | was_told;
        }
        Ok(has_told)
    }

    // What is due next is told, or held back: whether it was told.
    fn tell_next_due<D: Desk>(&mut self, alloc: Global, desk: &mut D) -> Result<bool, TurnFault>
        ensures serves { ServesClients S.Stable D.tape D.Tells (server_of self.old) desk.old (server_of self.new) desk.new }
        ensures node { OnOk result ((life_of self.new.life).node ≡ (life_of self.old.life).node) }
        ensures ripe { OnOk result (NoneIsRipe (life_of self.old.life).node self.old.waiting.questions
            → NoneIsRipe (life_of self.new.life).node self.new.waiting.questions) }
        ensures requests { KeepsRequests (server_of self.old) (server_of self.new) }
        ensures less { OnOk result (length self.new.waiting.due ≡ length self.old.waiting.due - 1) }
        ensures moves { (now : ℕ) → (life_of self.old.life).held ≡ nothing
            → NoneIsRipe (life_of self.old.life).node self.old.waiting.questions → IfOk result (λ has_told. Passes D.tape D.Tells (λ said.
            TellsOrNot S.Stable now (process_of self.old) [] said (process_of self.new) has_told) desk.old desk.new) }
        ensures stops { IfErr result (λ fault. EndsAt S.Stable IsAsked (life_of self.old.life).node fault (life_of self.new.life).node) }
        ensures ends { IfErr result (HasEnded (life_of self.new.life).node) }
        ensures breaks { OnErr result (HasPassed D.tape D.Tells desk.old [] desk.new) }
        ensures held { (life_of self.old.life).held ≡ nothing → OnOk result ((life_of self.new.life).held ≡ nothing) }
        ensures own { OnOk result ((life_of self.new.life).own ≡ (life_of self.old.life).own) }
    {
        let Some(what) = self.waiting.take_due() else {
            return Ok(false);
        };
        match what {
            Due::Line { connection, line } => {
                desk.tell(alloc, connection, line.as_slice())?;
                Ok(true)
            }
            Due::Answer(question) => {
                let was_told = self.answer(alloc, desk, question)?;
                Ok(was_told)
            }
        }
    }

    // The node is asked, and the connection is told the answer; or the query is held back until the node is at its position. Whether it
    // was told.
    fn answer<D: Desk>(
        &mut self,
        alloc: Global,
        desk: &mut D,
        question: Question,
    ) -> Result<bool, TurnFault>
        ensures serves { ServesClients S.Stable D.tape D.Tells (asking (server_of self.old) question) desk.old
            (server_of self.new) desk.new }
        ensures asked { (position : ℕ) → IsPosition (life_of self.old.life).node position → question.from ≤ position
            → self.new.waiting ≡ self.old.waiting }
        ensures node { OnOk result ((life_of self.new.life).node ≡ (life_of self.old.life).node) }
        ensures ripe { OnOk result (NoneIsRipe (life_of self.old.life).node self.old.waiting.questions
            → NoneIsRipe (life_of self.new.life).node self.new.waiting.questions) }
        ensures requests { KeepsRequests (server_of self.old) (server_of self.new) }
        ensures due { self.new.waiting.due ≡ self.old.waiting.due }
        ensures answers { (position : ℕ) → IsPosition (life_of self.old.life).node position → question.from ≤ position
            → IfOk result (λ has_told. (has_told ≡ true) × Passes D.tape D.Tells (λ said.
            IsAnswered S.Stable (life_of self.old.life) question said (life_of self.new.life)) desk.old desk.new) }
        ensures holds_back { (position : ℕ) → IsPosition (life_of self.old.life).node position → position < question.from
            → (desk.new ≡ desk.old) × (life_of self.new.life ≡ life_of self.old.life) × IfOk result (λ has_told. (has_told ≡ false)
            × (self.new.waiting ≡ record self.old.waiting { questions = self.old.waiting.questions ++ question ∷ [] })) }
        ensures stops { IfErr result (λ fault. EndsAt S.Stable IsAsked (life_of self.old.life).node fault (life_of self.new.life).node) }
        ensures ends { IfErr result (HasEnded (life_of self.new.life).node) }
        ensures breaks { OnErr result (HasPassed D.tape D.Tells desk.old [] desk.new) }
        ensures others { process_of self.new ≡ record (process_of self.old) {
          life = life_of self.new.life;
          waiting = self.new.waiting;
        } }
    {
        if self.position() < question.from {
            self.waiting
                .hold(question.connection, question.query, question.from)?;
            return Ok(false);
        }
        if let Some(fault) = refusal(self.life.ask(alloc, &question.query))? {
            return Err(TurnFault::Node(fault));
        }
        // What was held before has gone out, so that the answer alone is held.
        let told = self.life.hand_out(alloc);
        match told.answers.last() {
            Some(answered) => {
                tell_answer(alloc, desk, question.connection, answered)?;
                Ok(true)
            }
            None => Ok(false),
        }
    }
}

// The reply goes to those of these who wait for it.
fn tell_reply<D: Desk>(
    alloc: Global,
    desk: &mut D,
    claims: &[Claim],
    replied: &Replied,
) -> Result<(), TurnFault>
    ensures only { PassesOnly D.tape D.Tells (IsReplyIn (replied.now ∷ []) claims.now) desk.old desk.new }
    ensures each { OnOk result (HasPassed D.tape D.Tells desk.old (reply_told replied.now claims.now) desk.new) }
    ensures breaks { OnErr result (Passes D.tape D.Tells (λ said. (count : ℕ) × (said ≡ reply_told replied.now (take count claims.now)))
        desk.old desk.new) }
    ensures memory { IfErr result (λ fault. fault ≡ turn_fault.Memory) }
{
    let number = replied.number.value();
    let answer = ClientAnswer::Reply {
        client: replied.client,
        number,
        code: replied.reply.code(),
        position: replied.position,
    };
    let line = answer.spell(alloc)?;
    'claims: for claim in claims.iter() {
        if !claim.is_of(replied.client, number) {
            continue;
        }
        desk.tell(alloc, claim.connection, line.as_slice())?;
    }
    Ok(())
}

// The connection is told the answer.
fn tell_answer<D: Desk>(
    alloc: Global,
    desk: &mut D,
    connection: u64,
    answered: &Answered,
) -> Result<(), TurnFault>
    ensures only { PassesOnly D.tape D.Tells (IsTextTo connection answered.now) desk.old desk.new }
    ensures once { OnOk result (HasPassed D.tape D.Tells desk.old
        (Told connection (text_line answered.now.position answered.now.text) ∷ []) desk.new) }
    ensures breaks { OnErr result (HasPassed D.tape D.Tells desk.old [] desk.new) }
    ensures memory { IfErr result (λ fault. fault ≡ turn_fault.Memory) }
{
    let answer = ClientAnswer::Text {
        position: answered.position,
        text: answered.text.as_bytes(),
    };
    let line = answer.spell(alloc)?;
    desk.tell(alloc, connection, line.as_slice())?;
    Ok(())
}
