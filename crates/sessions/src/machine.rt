//! The machine.

ghost use Rattle.std.specs.Prelude.{◌≡◌, ◌≢◌, ℕ, ◌≤◌, ◌<◌, [], length, IsOk, IfOk, OnOk, OnErr, IsErrOf};
ghost use Rattle.store.specs.Answers.{IsAnswer};
ghost use Rattle.sessions.specs.Machines.{after_command, after_request, reply_to_command, reply_to_request};
ghost use Rattle.sessions.specs.Machines.{is_next, last_number, told_of, kept_of, IsMachine, TakesNoMemory, RequestTakesNoMemory};
ghost use Rattle.sessions.specs.Machines.{MachineState};
ghost use Rattle.sessions.specs.Sessions.{session_of};
ghost use Rattle.sessions.specs.Snapshots.{MachineFits, TellsEach, StandsForEach, snapshot_bytes};
ghost use Rattle.sessions.specs.Standing.{StandsFor, StandsForOneMore, RepliesOneMore, KeepsLast, AnswersAll};

use crate::command::Command;
use crate::fault::SnapFault;
use crate::number::Number;
use crate::request::Request;
use crate::session::{Session, Sessions};
use crate::session_reply::SessionReply;
use crate::snapshot::{LONGEST_SNAPSHOT, snapshot_text};
use crate::snapshot_reader::read_snapshot;
use std::alloc::{AllocError, Global};
use std::cmp::Ordering;
use std::marker::Model;
use store::{Db, Query, Reply};

/// What is left of a list of commands that was executed: the database, and for each client the number of its last
/// request that counted, with the reply to it.
///
/// A request counts where its number is one more than its client's last, which is 0 at the start. Then its operation is
/// applied, and the reply is kept until the client's next request counts. No list is kept.
pub struct Machine {
    db: Db,
    sessions: Sessions,
}

// By hand, so that a crate that drops one proves nothing of what lies within.
impl Drop for Machine {
    fn drop(self) {
        let Machine { db, sessions } = self;
        drop(db);
        drop(sessions);
    }
}

impl Model for Machine {
    ghost use Rattle.sessions.specs.Machines.{MachineState, IsMachine};

    ghost Value = { MachineState };

    ghost view = { λ m. record { features = m.db; sessions = m.sessions } };

    ghost invariant = { λ m. IsMachine (record { features = m.db; sessions = m.sessions }) };
}

impl Machine {
    /// The machine that has executed nothing.
    pub fn new(alloc: Global) -> Machine
        ensures features { result.features ≡ [] }
        ensures sessions { (client : ℕ) → session_of result.sessions client ≡ None }
        ensures stands { StandsFor result [] }
        ensures machine { IsMachine result }
    {
        Machine {
            db: Db::new(alloc),
            sessions: Sessions::new(),
        }
    }

    /// Executes a command, and tells the reply to it. A no-op changes nothing, and is told as done. Where a growth was
    /// refused the machine is as it was. Nothing grows for a no-op, nor for a request that doesn't count.
    pub fn execute(&mut self, command: &Command) -> Result<SessionReply, AllocError>
        ensures reply { IfOk result (λ told. told ≡ reply_to_command self.old command.now) }
        ensures effect { OnOk result (self.new ≡ after_command self.old command.now) }
        ensures err { OnErr result (self.new ≡ self.old) }
        ensures in_place { TakesNoMemory self.old command.now → IsOk result }
        ensures machine { IsMachine self.new }

        // What that is to each list that the machine stands for.
        ensures stands { OnOk result (StandsForOneMore self.old self.new command.now) }
        ensures replies { IfOk result (λ told. RepliesOneMore self.old command.now told) }
    {
        // Read, so that callers know what a machine is.
        let _db = &self.db;
        match command {
            Command::NoOp => Ok(SessionReply::Applied(Reply::Done)),
            Command::Request(request) => self.execute_request(request),
        }
    }

    /// The reply that is kept under this number of the client: that to its last request that counted.
    pub fn kept(&self, client: u8, number: Number) -> Option<Reply>
        ensures kept { result ≡ kept_of (session_of self.now.sessions client) number }
        ensures last { KeepsLast self.now client number result }
        ensures machine { IsMachine self.now }
    {
        kept_under(self.sessions.of(client), number)
    }

    /// The number of the client's last request that counted; 0 where none of its requests has.
    pub fn last_number(&self, client: u8) -> u64
        ensures { result ≡ last_number (session_of self.now.sessions client) }
    {
        last_number(self.sessions.of(client))
    }

    /// The text that a query is answered.
    pub fn answer(&self, alloc: Global, query: &Query) -> Result<Vec<u8>, AllocError>
        ensures says { IfOk result (λ text. IsAnswer self.now.features query.now text.items) }
        ensures answers { IfOk result (λ text. AnswersAll self.now query.now text.items) }
        ensures machine { IsMachine self.now }
    {
        self.db.answer(alloc, query)
    }

    /// The database that it holds.
    pub fn database(&self) -> &Db
        ensures { result.now ≡ self.now.features }
    {
        &self.db
    }

    /// The snapshot text of the machine: that of each list that it stands for. It is written in one piece of memory.
    pub fn snapshot(&self, alloc: Global) -> Result<Vec<u8>, AllocError>
        ensures spelled { IfOk result (λ text. text.items ≡ snapshot_bytes self.now) }
        ensures of_each_list { IfOk result (λ text. TellsEach self.now text.items) }
        ensures least { IfOk result (λ text. 4 ≤ length text.items) }
        ensures most { IfOk result (λ text. length text.items ≤ LONGEST_SNAPSHOT) }
        ensures fits { OnOk result (MachineFits self.now) }
    {
        snapshot_text(alloc, &self.db, &self.sessions)
    }

    /// The machine with this snapshot text. Bytes that are the text of no machine are `Damaged`, and no others.
    pub fn restore(alloc: Global, bytes: &[u8]) -> Result<Machine, SnapFault>
        ensures restored { IfOk result (λ m. snapshot_bytes m ≡ bytes.now) }
        ensures fits { IfOk result MachineFits }
        ensures stands { IfOk result (λ m. StandsForEach bytes.now m) }
        ensures machine { IfOk result IsMachine }
        ensures damaged { IsErrOf result SnapFault.Damaged
            → (m : MachineState) → MachineFits m → snapshot_bytes m ≢ bytes.now }
    {
        let (db, sessions) = read_snapshot(alloc, bytes)?;
        Ok(Machine { db, sessions })
    }

    fn execute_request(&mut self, request: &Request) -> Result<SessionReply, AllocError>
        ensures reply { IfOk result (λ told. told ≡ reply_to_request self.old request.now) }
        ensures effect { OnOk result (self.new ≡ after_request self.old request.now) }
        ensures err { OnErr result (self.new ≡ self.old) }
        ensures in_place { RequestTakesNoMemory self.old request.now → IsOk result }
        ensures machine { IsMachine self.new }
        ensures from_one { 1 ≤ request.now.number }
        ensures known_client { request.now.client < length self.old.sessions }
    {
        let client = request.client();
        let number = request.number();
        if !is_next(self.sessions.of(client), number) {
            return Ok(told_of(self.sessions.of(client), number));
        }
        let reply = self.db.apply(request.op())?;
        self.sessions.keep(client, Session { number, reply });
        Ok(SessionReply::Applied(reply))
    }
}

/// Whether the number is one more than the client's last.
fn is_next(session: Option<Session>, number: Number) -> bool
    ensures { result ≡ is_next session number }
{
    number.value() - 1 == last_number(session)
}

/// The number of the client's last request that counted, or 0.
fn last_number(session: Option<Session>) -> u64
    ensures { result ≡ last_number session }
{
    match session {
        Some(session) => session.number.value(),
        None => 0,
    }
}

/// What is told of a number that is not the client's next.
fn told_of(session: Option<Session>, number: Number) -> SessionReply
    ensures { result ≡ told_of session number }
{
    let Some(session) = session else {
        return SessionReply::Gap;
    };
    match number.cmp(&session.number) {
        Ordering::Greater => SessionReply::Gap,
        Ordering::Equal => SessionReply::Applied(session.reply),
        Ordering::Less => SessionReply::Past,
    }
}

/// The reply that is kept under the number.
fn kept_under(session: Option<Session>, number: Number) -> Option<Reply>
    ensures { result ≡ kept_of session number }
{
    let session = session?;
    if session.number == number {
        Some(session.reply)
    } else {
        None
    }
}
