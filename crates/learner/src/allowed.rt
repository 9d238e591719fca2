//! What a learner does is allowed by the protocol.
//!
//! Each law is the contract of a function that does nothing.

ghost use Rattle.std.specs.Prelude.{◌≡◌, ◌<◌, ◌≤◌, ℕ, Option};
ghost use Rattle.synod.specs.declared.vote.Vote.{Vote};
ghost use Rattle.synod.specs.Messages.{Accepted, Decided};
ghost use Rattle.synod.specs.Acts.{Membership, Input, Local, Came, Brings};
ghost use Rattle.sessions.specs.declared.command.Command.{Command};
ghost use Rattle.learner.specs.declared.learned.Learned.{Learned};
ghost use Rattle.learner.specs.Learning.{Learning, prefix, skipped, HearsVote, HearsDecided};
ghost use Rattle.synod.specs.Volatile.{Volatile};
ghost use Rattle.synod.specs.declared.slot.TheConstants.{SLOTS};
ghost use Rattle.learner.specs.Protocol.{LearnerStands, LearnerMayLearn};

/// What a learner makes of the news of a vote that has come is allowed.
pub fn vote_is_allowed()
    ensures { (f : Membership Command) (i from : ℕ) (x : Local Command) (old new : Learning) (v : Vote Command)
        (learned : Option Learned) → f.nodes ≡ old.nodes → LearnerStands old x.replica
        → HearsVote old from v learned new → LearnerMayLearn f i (Came from (Accepted v)) x v.command learned new }
{}

/// What a learner makes of a decided slot that it is told of is allowed.
pub fn decided_is_allowed()
    ensures { (f : Membership Command) (i : ℕ) (input : Input Command) (x : Local Command) (old new : Learning) (s : ℕ)
        (c : Command) (learned : Option Learned) → Brings input (Decided s c) → LearnerStands old x.replica
        → HearsDecided old s c learned new → LearnerMayLearn f i input x c learned new }
{}

/// The prefix never falls, so the log's position may rise to it.
pub fn prefix_never_falls()
    ensures vote { (old new : Learning) (from : ℕ) (v : Vote Command) (learned : Option Learned)
        → HearsVote old from v learned new → prefix old ≤ prefix new }
    ensures decided { (old new : Learning) (s : ℕ) (c : Command) (learned : Option Learned)
        → HearsDecided old s c learned new → prefix old ≤ prefix new }
{}

/// A learner may pass over slots for which a snapshot stands: it stands for the same replica then, and its prefix lies at their end or
/// further on.
pub fn skipping_is_allowed()
    ensures stands { (l : Learning) (m : Volatile Command) (position : ℕ) → LearnerStands l m → LearnerStands (skipped l position) m }
    ensures prefix { (l : Learning) (position : ℕ) → prefix l ≤ prefix (skipped l position) }
    ensures reached { (l : Learning) (position : ℕ) → position ≤ SLOTS → position ≤ prefix (skipped l position) }
    ensures first { (l : Learning) (position : ℕ) → prefix l < position → (skipped l position).first ≡ position }
{}
