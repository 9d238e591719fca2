//! Nodes as processes of their own, started, killed and started again at will. Nothing runs.

ghost use Rattle.std.specs.Prelude.{◌≡◌, ◌++◌, ◌∷◌, [], ℕ, ◌≤◌, List, Contains, Result};
ghost use Rattle.synod.specs.declared.ballot.TheConstants.{MOST_NODES};
ghost use Rattle.events.specs.declared.event.Event.{Event};
ghost use Rattle.node_model.specs.States.{NodeState};
ghost use Rattle.node_model.specs.declared.fault.NodeFault.{NodeFault};
ghost use Rattle.world_model.specs.Flushing.{IsStart};
ghost use Rattle.world_model.specs.Lives.{AreExplained, AreLives, AreRun, HasBegun, Moment, StoragesAreHonest};
ghost use Rattle.world_model.specs.Lives.{Happening, Happens, IsLife, Loaded};
ghost use Rattle.world_model.specs.Lives.{answered_at, down_over, replied_at, told_by};
ghost use Rattle.world_model.specs.declared.lists.Answered.{Answered};
ghost use Rattle.world_model.specs.declared.lists.Replied.{Replied};
ghost use Rattle.sessions.specs.SessionReplies.{outcome_code};
ghost use Rattle.world_model.specs.Progress.{StepsAll};
ghost use Rattle.world_model.specs.Reaching.{AreHonest, IsAllowed};
ghost use Rattle.world_model.specs.Safety.{IsSafe};
ghost use Rattle.world_model.specs.Worlds.{WorldState};

use stable::{Scripted, Stable};

/// Every world that steps reach from a start of a run is safe, and moves that the protocol allows lead to it, where its storages are
/// honest.
pub fn reached_worlds_are_safe<S: Stable>()
    ensures safe { (count : ℕ) (start : WorldState S) (events : List Event) (w : WorldState S) → count ≤ MOST_NODES
        → IsStart (⟦<Scripted<S> as Stable>⟧) count start → StepsAll (⟦<Scripted<S> as Stable>⟧) start events w
        → AreHonest ⟦<Scripted<S> as Stable>⟧.IsHonest w.nodes → IsSafe w }
    ensures allowed { (count : ℕ) (start : WorldState S) (events : List Event) (w : WorldState S) → count ≤ MOST_NODES
        → IsStart (⟦<Scripted<S> as Stable>⟧) count start → StepsAll (⟦<Scripted<S> as Stable>⟧) start events w
        → AreHonest ⟦<Scripted<S> as Stable>⟧.IsHonest w.nodes
        → IsAllowed ⟦<Scripted<S> as Stable>⟧.contents w.nodes w.frames w.learnt w.submitted }
{}

/// The lives of all nodes, woven together, are a run of a world, which tells what they told.
pub fn lives_are_a_run<S: Stable>()
    ensures { (moments : List Moment) (first last : List (NodeState S)) → AreLives S.Stable moments first last
        → AreRun S.Stable moments last }
{}

/// One list of commands explains every reply and every answer that any process ever told, where every storage is honest to the end.
pub fn one_list_explains_lives<S: Stable>()
    ensures { (moments : List Moment) (first last : List (NodeState S)) → AreLives S.Stable moments first last
        → StoragesAreHonest S.Stable last → AreExplained moments }
{}

/// Two answers to one query at one position are equal, byte for byte, whichever processes gave them, and two replies at one position have
/// one number, where every storage is honest to the end.
pub fn lives_tell_the_same<S: Stable>()
    ensures answers { (moments : List Moment) (first last : List (NodeState S)) → AreLives S.Stable moments first last
        → StoragesAreHonest S.Stable last → (a b : Answered) → Contains (told_by answered_at moments) a
        → Contains (told_by answered_at moments) b → a.query ≡ b.query → a.position ≡ b.position → a.text ≡ b.text }
    ensures replies { (moments : List Moment) (first last : List (NodeState S)) → AreLives S.Stable moments first last
        → StoragesAreHonest S.Stable last → (a b : Replied) → Contains (told_by replied_at moments) a
        → Contains (told_by replied_at moments) b → a.position ≡ b.position → outcome_code a.reply ≡ outcome_code b.reply }
{}

/// What a process begins over a storage is a node that has loaded it, or has failed to.
pub fn a_start_is_a_load<S: Stable>()
    ensures { (id nodes : ℕ) (storage : S) (n : NodeState S) → HasBegun S.Stable id nodes storage n
        → (result : Result (Unit {0}) NodeFault) × Happens S.Stable (down_over id nodes storage) (Loaded result) n }
{}

/// A life goes on by whatever happens next, and the life of a process by that of the next one.
pub fn lives_go_on<S: Stable>()
    ensures goes_on { (old : NodeState S) (past : List Happening) (between : NodeState S) (what : Happening) (new : NodeState S)
        → IsLife S.Stable old past between → Happens S.Stable between what new → IsLife S.Stable old (past ++ what ∷ []) new }
    ensures joins { (old : NodeState S) (past : List Happening) (between : NodeState S) (more : List Happening) (new : NodeState S)
        → IsLife S.Stable old past between → IsLife S.Stable between more new → IsLife S.Stable old (past ++ more) new }
{}
