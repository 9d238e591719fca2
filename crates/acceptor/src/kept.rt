//! Laws of an acceptor's calls, for proofs about many of them.

ghost use Rattle.std.specs.Prelude.{◌≡◌, ℕ, ◌≤◌, List};
ghost use Rattle.synod.specs.Ballots.{rank_of};
ghost use Rattle.synod.specs.declared.slot.TheConstants.{SLOTS};
ghost use Rattle.synod.specs.declared.ballot.Ballot.{Ballot};
ghost use Rattle.synod.specs.declared.vote.Vote.{Vote};
ghost use Rattle.sessions.specs.declared.command.Command.{Command};
ghost use Rattle.stable.specs.Records.{Records, changed};
ghost use Rattle.acceptor.specs.Accepting.{Accepting, OptionalWrite, RecordsSay, records_after};
ghost use Rattle.acceptor.specs.Accepting.{prepare_write, after_prepare};
ghost use Rattle.acceptor.specs.Accepting.{IsAcceptWrite, after_accept, checkpoint_change, after_checkpoint};
ghost use Rattle.acceptor.specs.Accepting.{IsTrimWrite, after_trim, IsCovered};
ghost use Rattle.acceptor.specs.Forms.{BallotFitsRecord, VoteFitsRecord, IsSnapshotText};

/// Records that say what an acceptor holds say so after a prepare and its write.
pub fn prepare_keeps_records()
    ensures { (records : Records) (a : Accepting) (b : Ballot) (first : ℕ) → BallotFitsRecord b → RecordsSay records a
        → RecordsSay (records_after records (prepare_write a b first)) (after_prepare a b first) }
{}

/// Records that say what an acceptor holds say so after an accept and its write.
pub fn accept_keeps_records()
    ensures { (records : Records) (a : Accepting) (v : Vote Command) (w : OptionalWrite)
        → VoteFitsRecord v → IsAcceptWrite a v w → RecordsSay records a
        → RecordsSay (records_after records w) (after_accept a v) }
{}

/// Records that say what an acceptor holds say so after a checkpoint and its write, where what it writes is a snapshot text.
pub fn checkpoint_keeps_records()
    ensures { (records : Records) (a : Accepting) (position : ℕ) (text : List ℕ) → 1 ≤ position → position ≤ SLOTS → IsSnapshotText text
        → RecordsSay records a
        → RecordsSay (changed records (checkpoint_change a position text)) (after_checkpoint a position text) }
{}

/// Records that say what an acceptor holds say so after a trim and its write, the promise included: each vote that goes is covered
/// by the promise in the checkpoint's record.
pub fn trim_keeps_records()
    ensures { (records : Records) (a : Accepting) (w : OptionalWrite) → IsCovered a → IsTrimWrite a w → RecordsSay records a
        → RecordsSay (records_after records w) (after_trim a) }
{}

/// Votes below the floor are covered by the promise in the checkpoint's record after each call where they were so before, and after
/// a checkpoint and a trim in any case.
pub fn calls_keep_votes_covered()
    ensures prepare { (a : Accepting) (b : Ballot) (first : ℕ) → IsCovered a → IsCovered (after_prepare a b first) }
    ensures accept { (a : Accepting) (v : Vote Command) → IsCovered a → IsCovered (after_accept a v) }
    ensures checkpoint { (records : Records) (a : Accepting) (position : ℕ) (text : List ℕ) → RecordsSay records a
        → IsCovered (after_checkpoint a position text) }
    ensures trim { (a : Accepting) → IsCovered (after_trim a) }
{}

/// No promise falls when the vote that raised it is taken out: whatever is loaded after a trim has promised the same.
pub fn promises_outlive_trims()
    ensures { (records : Records) (a b : Accepting) (w : OptionalWrite) → IsCovered a → IsTrimWrite a w → RecordsSay records a
        → RecordsSay (records_after records w) b → rank_of b.promise ≡ rank_of a.promise }
{}
