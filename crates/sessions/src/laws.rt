//! What holds of all lists of commands. Nothing runs.

ghost use Rattle.std.specs.Prelude.{◌≡◌, ℕ, List};
ghost use Rattle.store.specs.Features.{IsDatabase};
ghost use Rattle.store.specs.declared.query.Query.{Query};
ghost use Rattle.sessions.specs.declared.submission.Submission.{Submission};
ghost use Rattle.sessions.specs.Machines.{MachineState, IsMachine};
ghost use Rattle.sessions.specs.Meaning.{Execution, RepliesAt, Answers, RequestsAreValid};
ghost use Rattle.sessions.specs.Snapshots.{IsSnapshot, MachineFits, snapshot_bytes};
ghost use Rattle.sessions.specs.Standing.{StandsFor};
ghost use Rattle.sessions.specs.declared.command.Command.{Command};

use crate::request::MOST_PUT_POINTS;
use crate::snapshot::LONGEST_SNAPSHOT;

/// A list of commands can be executed, and in one way: it is settled which of its places count, and which database is
/// there before each.
pub fn one_execution()
    ensures some { (l : List Command) → Execution l }
    ensures counts { (l : List Command) (e f : Execution l) (i : ℕ) → e.counts i ≡ f.counts i }
    ensures databases { (l : List Command) (e f : Execution l) (i : ℕ) → e.before i ≡ f.before i }
{}

/// A list of commands has one reply at each of its places.
pub fn one_reply_at_each_place()
    ensures { (l : List Command) (i : ℕ) (r q : Submission) (a b : ℕ) → RepliesAt l i r a → RepliesAt l i q b → a ≡ b }
{}

/// A list of commands has one answer to a query, byte for byte, where what its requests bring is valid: the sequence
/// of a Put, and the coordinates of an Append.
pub fn one_answer_to_each_query()
    ensures { (l : List Command) (query : Query) (a b : List ℕ) → RequestsAreValid l → Answers l query a → Answers l query b
        → a ≡ b }
{}

/// At each place of a list of commands the features are a database: at most 256, ascending by their ids.
pub fn each_place_has_a_database()
    ensures { (l : List Command) (e : Execution l) (i : ℕ) → IsDatabase (e.before i) }
{}

/// A Put has at most 512 points, and a snapshot text at most 6,311,428 bytes.
pub fn limits()
    ensures put { MOST_PUT_POINTS ≡ 512 }
    ensures snapshot { LONGEST_SNAPSHOT ≡ 6311428 }
{}

/// A list of commands has one machine: what stands for it is the same in every part.
pub fn one_machine_of_each_list()
    ensures { (l : List Command) (m n : MachineState) → IsMachine m → IsMachine n → StandsFor m l → StandsFor n l
        → m ≡ n }
{}

/// A list of commands has one snapshot text, byte for byte, whichever machine writes it.
pub fn one_snapshot_of_each_list()
    ensures { (l : List Command) (a b : List ℕ) → IsSnapshot l a → IsSnapshot l b → a ≡ b }
{}

/// A snapshot text has one machine: none is lost, and none taken for another.
pub fn one_machine_of_each_text()
    ensures { (m n : MachineState) → MachineFits m → MachineFits n → snapshot_bytes m ≡ snapshot_bytes n → m ≡ n }
{}

/// Each list that a machine stands for has a snapshot text, and it is the machine's.
pub fn each_machine_has_a_text()
    ensures { (l : List Command) (m : MachineState) → MachineFits m → StandsFor m l → IsSnapshot l (snapshot_bytes m) }
{}
