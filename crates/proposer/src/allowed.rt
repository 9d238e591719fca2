//! What a proposer does is allowed by the protocol.
//!
//! Each law is the contract of a function that does nothing.

ghost use Rattle.std.specs.Prelude.{◌≡◌, ◌<◌, ◌≤◌, ◌++◌, ◌∷◌, [], ℕ};
ghost use Rattle.synod.specs.Volatile.{IsSettled};
ghost use Rattle.synod.specs.Messages.{Promise};
ghost use Rattle.synod.specs.Records.{with_round};
ghost use Rattle.synod.specs.Acts.{Membership, Input, Came, Local};
ghost use Rattle.sessions.specs.declared.submission.Submission.{Submission};
ghost use Rattle.sessions.specs.declared.command.Command.{Command};
ghost use Rattle.sessions.specs.declared.command.Command.TheVariants.{NoOp};
ghost use Rattle.wire.specs.Promises.{Promised, Refused};
ghost use Rattle.learner.specs.Learning.{Learning, prefix};
ghost use Rattle.learner.specs.Protocol.{LearnerStands};
ghost use Rattle.proposer.specs.declared.sends.Outgoing.{Outgoing};
ghost use Rattle.proposer.specs.Requests.{without};
ghost use Rattle.proposer.specs.Proposing.{Proposing, loaded, next_round, StartsCampaign, with_promised, after_nack, after_learned};
ghost use Rattle.proposer.specs.Proposing.{proposes, sends_again, skipped_to};
ghost use Rattle.proposer.specs.Protocol.{ProposerStands, MayHold, MaySend, MayCome, submitting, advancing, stopping, frames_of};
ghost use Rattle.proposer.specs.Protocol.{frames_of_all};

/// A campaign may start, once its round is written, and its prepares be sent.
pub fn timeout_is_allowed()
    ensures { (f : Membership Command) (i : ℕ) (input : Input Command) (x : Local Command) (old new : Proposing)
        (position nodes : ℕ) (sent : Outgoing) → old.id ≡ i → x.replica.position ≡ position → ProposerStands old x
        → StartsCampaign old position new sent → MaySend f i input x new (frames_of i nodes sent) }
{}

/// A campaign that is refused may end, and one that isn't may stay.
pub fn nack_is_allowed()
    ensures { (f : Membership Command) (i : ℕ) (input : Input Command) (x : Local Command) (p : Proposing) (n : Refused)
        → ProposerStands p x → MayHold f i input x (after_nack p n) }
{}

/// A request that is executed may wait no more.
pub fn execution_is_allowed()
    ensures { (f : Membership Command) (i : ℕ) (input : Input Command) (x : Local Command) (p : Proposing)
        (client number : ℕ) → ProposerStands p x
        → MayHold f i input x (record p { waiting = without client number p.waiting }) }
{}

/// A request may be submitted: it waits from now on, or its name waits already and nothing changes.
pub fn submission_is_allowed()
    ensures last { (f : Membership Command) (i : ℕ) (input : Input Command) (x : Local Command) (p : Proposing) (r : Submission)
        → ProposerStands p x → MayCome f i input x (record p { waiting = p.waiting ++ r ∷ [] }) (submitting x r) }
    ensures again { (f : Membership Command) (i : ℕ) (input : Input Command) (x : Local Command) (p : Proposing) (r : Submission)
        → ProposerStands p x → MayCome f i input x p (submitting x r) }
{}

/// What a tick sends again may be sent, and nothing else changes.
pub fn tick_is_allowed()
    ensures { (f : Membership Command) (i : ℕ) (input : Input Command) (x : Local Command) (p : Proposing) (nodes : ℕ)
        → ProposerStands p x → MaySend f i input x p (frames_of_all i nodes (sends_again p.campaign)) }
{}

/// Where a slot is learnt, or the log is executed past it, its proposal may be closed.
pub fn learning_is_allowed()
    ensures { (f : Membership Command) (i : ℕ) (input : Input Command) (x : Local Command) (p : Proposing) (slot : ℕ)
        → IsSettled x.replica.position x.replica.learnt slot → ProposerStands p x → MayHold f i input x (after_learned p slot) }
{}

/// A promise that has come may be counted, and with a majority the campaign may lead.
///
/// Whoever sent it: a majority is one of the run's nodes alone.
pub fn promise_is_allowed()
    ensures { (f : Membership Command) (i from : ℕ) (x : Local Command) (p : Proposing) (promise : Promised)
        → f.nodes ≡ p.nodes → from < 7 → ProposerStands p x
        → MayHold f i (Came from (Promise promise.ballot promise.first promise.last promise.entries)) x
        (with_promised p from promise) }
{}

/// What a proposer proposes may be proposed, and its promises be gathered further on, where the replica's position is the learner's
/// prefix and has learnt what the learner has.
pub fn proposing_is_allowed()
    ensures { (f : Membership Command) (i : ℕ) (input : Input Command) (x : Local Command) (p : Proposing) (l : Learning)
        (nodes : ℕ) → f.noop ≡ NoOp → 1 ≤ nodes → x.replica.position ≡ prefix l → LearnerStands l x.replica → ProposerStands p x
        → MaySend f i input x (proposes p p.campaign l).0 (frames_of_all i nodes (proposes p p.campaign l).1) }
{}

/// The log may be executed further: a proposer's state says nothing of the position, and stands.
pub fn advance_is_allowed()
    ensures { (f : Membership Command) (i : ℕ) (input : Input Command) (x : Local Command) (p : Proposing) (position : ℕ)
        → x.replica.position ≤ position → ProposerStands p x → MayCome f i input x p (advancing x position) }
{}

/// A node may stop at any time, and what is loaded then stands: also where the round of a timeout was written, of which nobody
/// has heard.
pub fn stop_is_allowed()
    ensures unwritten { (f : Membership Command) (i : ℕ) (input : Input Command) (x : Local Command) (p : Proposing)
        → ProposerStands p x → MayCome f i input x (loaded p.id p.nodes p.round) (stopping x x.records) }
    ensures written { (f : Membership Command) (i : ℕ) (input : Input Command) (x : Local Command) (p : Proposing)
        → p.id ≡ i → p.id < 7 → ProposerStands p x
        → MayCome f i input x (loaded p.id p.nodes (next_round p)) (stopping x (with_round x.records (next_round p))) }
{}

/// Where the log is executed past them by a snapshot, the proposals for the slots below may be closed.
pub fn skipping_is_allowed()
    ensures { (f : Membership Command) (i : ℕ) (input : Input Command) (x : Local Command) (p : Proposing) (position : ℕ)
        → position ≤ x.replica.position → ProposerStands p x → MayHold f i input x (skipped_to p position) }
{}
