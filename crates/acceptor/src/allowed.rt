//! What an acceptor does is allowed by the protocol.
//!
//! Each law is the contract of a function that does nothing.

ghost use Rattle.std.specs.Prelude.{◌≡◌, ℕ, ◌≤◌, List};
ghost use Rattle.synod.specs.Ballots.{rank_of};
ghost use Rattle.synod.specs.declared.ballot.Ballot.{Ballot};
ghost use Rattle.synod.specs.declared.vote.Vote.{Vote};
ghost use Rattle.synod.specs.Messages.{Accept};
ghost use Rattle.synod.specs.Acts.{Membership, Input, Local, Brings};
ghost use Rattle.sessions.specs.declared.command.Command.{Command};
ghost use Rattle.stable.specs.Records.{Records};
ghost use Rattle.acceptor.specs.declared.answer.Answer.{Answer};
ghost use Rattle.acceptor.specs.Accepting.{Accepting, RecordsSay};
ghost use Rattle.acceptor.specs.Accepting.{AnswersPrepare, after_prepare, accept_answer, after_accept, after_checkpoint, after_trim};
ghost use Rattle.synod.specs.Records as synod_records;
ghost use Rattle.acceptor.specs.Protocol.{RecordsStand, MayWrite, MayAnswer, answer_frames};

/// A prepare's write is allowed, and so is its answer after that write.
pub fn prepare_is_allowed()
    ensures write { (f : Membership Command) (i : ℕ) (input : Input Command) (x : Local Command) (a : Accepting)
        (round first : ℕ) (b : Ballot) → RecordsStand a round x.records
        → MayWrite f i input x (after_prepare a b first) round }
    ensures answer { (f : Membership Command) (i : ℕ) (input : Input Command) (x : Local Command) (a : Accepting)
        (round nodes to first : ℕ) (b : Ballot) (answer : Answer) → RecordsStand a round x.records
        → AnswersPrepare a b first answer → MayAnswer f i input x (after_prepare a b first) round
        (answer_frames i nodes to answer) }
{}

/// The write of an accept that has come is allowed, and so is its answer after that write.
pub fn accept_is_allowed()
    ensures write { (f : Membership Command) (i : ℕ) (input : Input Command) (x : Local Command) (a : Accepting)
        (round : ℕ) (v : Vote Command) → Brings input (Accept v) → RecordsStand a round x.records
        → MayWrite f i input x (after_accept a v) round }
    ensures answer { (f : Membership Command) (i : ℕ) (input : Input Command) (x : Local Command) (a : Accepting)
        (round nodes to : ℕ) (v : Vote Command) → Brings input (Accept v) → RecordsStand a round x.records
        → MayAnswer f i input x (after_accept a v) round (answer_frames i nodes to (accept_answer a v)) }
{}

/// A checkpoint's write is allowed at a position that is not below the floor. A trim changes nothing that the protocol's records say.
pub fn checkpoint_is_allowed()
    ensures write { (f : Membership Command) (i : ℕ) (input : Input Command) (x : Local Command) (a : Accepting)
        (round position : ℕ) (text : List ℕ) → a.floor ≤ position → RecordsStand a round x.records
        → MayWrite f i input x (after_checkpoint a position text) round }
    ensures trim { (a : Accepting) (round : ℕ) (r : synod_records.NodeRecords Command) → RecordsStand a round r
        → RecordsStand (after_trim a) round r }
{}

/// Records say one thing: what two acceptors hold of whom they say it is the same, of promises their ranks.
pub fn records_say_one()
    ensures promise { (records : Records) (a b : Accepting) → RecordsSay records a → RecordsSay records b
        → rank_of a.promise ≡ rank_of b.promise }
    ensures floor { (records : Records) (a b : Accepting) → RecordsSay records a → RecordsSay records b
        → a.floor ≡ b.floor }
    ensures sealed { (records : Records) (a b : Accepting) → RecordsSay records a → RecordsSay records b
        → a.sealed ≡ b.sealed }
    ensures text { (records : Records) (a b : Accepting) → RecordsSay records a → RecordsSay records b → a.text ≡ b.text }
    ensures vote { (records : Records) (a b : Accepting) → RecordsSay records a → RecordsSay records b
        → (s : ℕ) → a.vote s ≡ b.vote s }
{}
