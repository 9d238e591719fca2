//! What the clients of a process write.

ghost use Rattle.std.specs.Prelude.{◌≡◌, ℕ, ◌∷◌, [], IfErr, IfOk, OnErr, OnOk};
ghost use Rattle.std.specs.Global.{Vec};
ghost use Rattle.clients.specs.AnswerLines.{answer_line};
ghost use Rattle.clients.specs.ClientLines.{IsClientFault, IsClientLine};
ghost use Rattle.clients.specs.declared.line.ClientLine.TheVariants as client_line;
ghost use Rattle.serving.specs.Ending.{EndsAt, HasEnded, IsOfOthers};
ghost use Rattle.serving.specs.Moves.{IsLineTaken, IsStatus, Moves, StopsTaking, Taking, owing};
ghost use Rattle.serving.specs.Owing.{BreaksOff, HasRoom};
ghost use Rattle.serving.specs.Resting.{HasRead, IsReading};
ghost use Rattle.serving.specs.Serving.{Passes, Serves, ServesClients};
ghost use Rattle.serving.specs.Tapes.{Heard, heard, read};
ghost use Rattle.serving.specs.Turns.{IsPlain, first_position};
ghost use Rattle.serving.specs.declared.fault.TurnFault.TheVariants as turn_fault;

use super::arrivals::input_of;
use super::{MOST_IN_A_TURN, Server};
use crate::claims::Claim;
use crate::desk::{Came, Desk};
use crate::fault::{TurnFault, refusal};
use crate::waiting::{Due, Question};
use clients::{ClientAnswer, ClientLine, Status, read_line};
use schedule::ReplayCause;
use sessions::Submission;
use stable::Stable;
use std::alloc::Global;
use store::Query;

impl<S: Stable + Drop> Server<S> {
    ghost use Rattle.life.specs.Seen.{life_of};
    ghost use Rattle.serving.specs.Seen.{process_of, server_of};

    // What clients did: whether they may have done more.
    pub(super) fn take_lines<D: Desk>(
        &mut self,
        alloc: Global,
        desk: &mut D,
    ) -> Result<bool, TurnFault>
        ensures serves { ServesClients S.Stable D.tape D.Tells (server_of self.old) desk.old (server_of self.new) desk.new }
        ensures takes { (now : ℕ) → IfOk result (λ more. Passes D.tape D.Tells (λ said.
            Moves S.Stable now Taking (process_of self.old) [] said (process_of self.new) × HasRead read said more) desk.old desk.new) }
        ensures breaks { OnErr result (Passes D.tape D.Tells (λ said. BreaksOff said self.old.waiting) desk.old desk.new) }
        ensures stops { (now : ℕ) → IfErr result (λ fault. Passes D.tape D.Tells (λ said.
            StopsTaking S.Stable now (process_of self.old) [] said fault (life_of self.new.life).node) desk.old desk.new) }
        ensures ends { IfErr result (HasEnded (life_of self.new.life).node) }
    {
        'lines: for _ in 0..MOST_IN_A_TURN {
            if !self.take_next_line(alloc, desk)? {
                return Ok(false);
            }
        }
        Ok(true)
    }

    // What a client did: whether any did anything.
    fn take_next_line<D: Desk>(&mut self, alloc: Global, desk: &mut D) -> Result<bool, TurnFault>
        ensures serves { ServesClients S.Stable D.tape D.Tells (server_of self.old) desk.old (server_of self.new) desk.new }
        ensures takes { (now : ℕ) → IfOk result (λ has_come. Passes D.tape D.Tells (λ said.
            Moves S.Stable now Taking (process_of self.old) [] said (process_of self.new) × IsReading read said has_come)
            desk.old desk.new) }
        ensures breaks { OnErr result (Passes D.tape D.Tells (λ said. BreaksOff said self.old.waiting) desk.old desk.new) }
        ensures stops { (now : ℕ) → IfErr result (λ fault. Passes D.tape D.Tells (λ said.
            StopsTaking S.Stable now (process_of self.old) [] said fault (life_of self.new.life).node) desk.old desk.new) }
        ensures ends { IfErr result (HasEnded (life_of self.new.life).node) }
    {
        let came = desk.next(alloc, &self.waiting)?;
        let Some(what) = came else {
            return Ok(false);
        };
        self.hear(alloc, what)?;
        Ok(true)
    }

    // A client did this.
    fn hear(&mut self, alloc: Global, what: Came) -> Result<(), TurnFault>
        ensures serves { Serves S.Stable (server_of self.old) [] (heard what ∷ []) (server_of self.new) }
        ensures moves { (now : ℕ) → HasRoom self.old.waiting (heard what)
            → OnOk result (Moves S.Stable now Taking (process_of self.old) [] (heard what ∷ []) (process_of self.new)) }
        ensures stops { IfErr result (λ fault. EndsAt S.Stable IsOfOthers (life_of self.old.life).node fault (life_of self.new.life).node) }
        ensures ends { IfErr result (HasEnded (life_of self.new.life).node) }
    {
        match what {
            Came::Line { connection, text } => self.take_line(alloc, connection, text.as_slice()),
            Came::Gone { connection } => {
                self.waiting.forget(connection);
                Ok(())
            }
        }
    }

    // The connection wrote this line.
    fn take_line(&mut self, alloc: Global, connection: u64, text: &[u8]) -> Result<(), TurnFault>
        ensures serves { Serves S.Stable (server_of self.old) [] (Heard connection text.now ∷ []) (server_of self.new) }
        ensures stops { IfErr result (λ fault. EndsAt S.Stable IsOfOthers (life_of self.old.life).node fault (life_of self.new.life).node) }
        ensures ends { IfErr result (HasEnded (life_of self.new.life).node) }
        ensures taken { OnOk result (IsLineTaken S.Stable (process_of self.old) connection text.now (process_of self.new)) }
    {
        match read_line(alloc, text) {
            Ok(asked) => self.take_asked(alloc, connection, asked, text),
            Err(cause) => self.take_faulty(alloc, connection, cause, text),
        }
    }

    // The connection wrote a line that asks for this.
    fn take_asked(
        &mut self,
        alloc: Global,
        connection: u64,
        asked: ClientLine,
        text: &[u8],
    ) -> Result<(), TurnFault>
        requires { IsClientLine text.now asked }
        ensures serves { Serves S.Stable (server_of self.old) [] (Heard connection text.now ∷ []) (server_of self.new) }
        ensures stops { IfErr result (λ fault. EndsAt S.Stable IsOfOthers (life_of self.old.life).node fault (life_of self.new.life).node) }
        ensures ends { IfErr result (HasEnded (life_of self.new.life).node) }
        ensures taken { OnOk result (IsLineTaken S.Stable (process_of self.old) connection text.now (process_of self.new)) }
    {
        match asked {
            ClientLine::Submit(submission) => self.submit(alloc, connection, submission, text),
            ClientLine::Query { query, from } => self.ask(connection, query, from, text),
            ClientLine::Status => {
                let status = self.status();
                self.owe(alloc, connection, &ClientAnswer::Status(status), text)
            }
            ClientLine::Last(client) => {
                let number = self.last_number(client);
                let answer = ClientAnswer::Last { client, number };
                self.owe(alloc, connection, &answer, text)
            }
        }
    }

    // The connection wrote a line that has this fault.
    fn take_faulty(
        &mut self,
        alloc: Global,
        connection: u64,
        cause: ReplayCause,
        text: &[u8],
    ) -> Result<(), TurnFault>
        requires { IsClientFault text.now cause }
        ensures serves { Serves S.Stable (server_of self.old) [] (Heard connection text.now ∷ []) (server_of self.new) }
        ensures stops { IfErr result (λ fault. EndsAt S.Stable IsOfOthers (life_of self.old.life).node fault (life_of self.new.life).node) }
        ensures ends { IfErr result (HasEnded (life_of self.new.life).node) }
        ensures taken { OnOk result (IsLineTaken S.Stable (process_of self.old) connection text.now (process_of self.new)) }
    {
        match cause {
            ReplayCause::Schedule(found) => {
                let code = found.code();
                self.owe(alloc, connection, &ClientAnswer::Fault { code }, text)
            }
            // Only memory can be wanting.
            ReplayCause::World(_) => Err(TurnFault::Memory),
        }
    }

    // The connection, which wrote this line, is told the answer at the end of the turn.
    fn owe(
        &mut self,
        alloc: Global,
        connection: u64,
        answer: &ClientAnswer,
        text: &[u8],
    ) -> Result<(), TurnFault>
        requires { IsPlain (λ n. n ≡ (life_of self.old.life).node) (Heard connection text.now ∷ []) connection (answer_line answer.now) }
        ensures serves { Serves S.Stable (server_of self.old) [] (Heard connection text.now ∷ []) (server_of self.new) }
        ensures life { self.new.life ≡ self.old.life }
        ensures memory { IfErr result (λ fault. fault ≡ turn_fault.Memory) }
        ensures owes { OnOk result ((line : Vec ℕ) × (line.items ≡ answer_line answer.now)
            × (process_of self.new ≡ record (process_of self.old) { waiting = owing connection line self.old.waiting })) }
    {
        let line = answer.spell(alloc)?;
        self.waiting.add_due(Due::Line { connection, line })?;
        Ok(())
    }

    // The connection wrote this request: it waits for the reply, or is told the refusal.
    fn submit(
        &mut self,
        alloc: Global,
        connection: u64,
        submission: Submission,
        text: &[u8],
    ) -> Result<(), TurnFault>
        requires { IsClientLine text.now (client_line.Submit submission) }
        ensures serves { Serves S.Stable (server_of self.old) [] (Heard connection text.now ∷ []) (server_of self.new) }
        ensures stops { IfErr result (λ fault. EndsAt S.Stable IsOfOthers (life_of self.old.life).node fault (life_of self.new.life).node) }
        ensures ends { IfErr result (HasEnded (life_of self.new.life).node) }
        ensures taken { OnOk result (IsLineTaken S.Stable (process_of self.old) connection text.now (process_of self.new)) }
    {
        let client = submission.client;
        let number = submission.number.value();
        let outcome = self.life.take(alloc, input_of(submission));
        match refusal(outcome)? {
            Some(fault) => {
                let code = fault.code();
                let answer = ClientAnswer::Refused {
                    client,
                    number,
                    code,
                };
                let line = answer.spell(alloc)?;
                self.waiting.add_due(Due::Line { connection, line })?;
                Ok(())
            }
            None => {
                self.waiting.add_claim(Claim {
                    connection,
                    client,
                    number,
                })?;
                self.requests.add(alloc, client, number, text)?;
                Ok(())
            }
        }
    }

    // The connection wrote this query: it is due at the end of the turn.
    fn ask(
        &mut self,
        connection: u64,
        query: Query,
        position: Option<u32>,
        text: &[u8],
    ) -> Result<(), TurnFault>
        requires { IsClientLine text.now (client_line.Query query position) }
        ensures serves { Serves S.Stable (server_of self.old) [] (Heard connection text.now ∷ []) (server_of self.new) }
        ensures stops { IfErr result (λ fault. EndsAt S.Stable IsOfOthers (life_of self.old.life).node fault (life_of self.new.life).node) }
        ensures ends { IfErr result (HasEnded (life_of self.new.life).node) }
        ensures taken { OnOk result (IsLineTaken S.Stable (process_of self.old) connection text.now (process_of self.new)) }
    {
        let from = least_position(position);
        self.waiting.add_due(Due::Answer(Question {
            connection,
            query,
            from,
        }))?;
        Ok(())
    }

    // How far the node is.
    fn status(&self) -> Status
        ensures { IsStatus (process_of self.now) result }
    {
        Status {
            node: self.own.value(),
            position: self.position(),
            horizon: self.timing.horizon(),
            leader: self.timing.leader(),
            waiting: self.requests.count().min(255) as u8,
        }
    }
}

// The position from which a query may be answered. One that names none is held back nowhere.
fn least_position(named: Option<u32>) -> u32
    ensures { result ≡ first_position named }
{
    match named {
        Some(position) => position,
        None => 0,
    }
}
