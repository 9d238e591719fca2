//! What a life promises of all that it hands out. Nothing runs.

ghost use Rattle.std.specs.Prelude.{◌≡◌, ℕ, ◌++◌, ◌∷◌, [], List, Contains, Result};
ghost use Rattle.std.specs.List.{flat_map};
ghost use Rattle.wire.specs.FrameSpelling.{Fits};
ghost use Rattle.wire.specs.declared.frames.envelope.Envelope.{Envelope};
ghost use Rattle.node_model.specs.States.{NodeState};
ghost use Rattle.node_model.specs.Outputs.{Response};
ghost use Rattle.node_model.specs.declared.fault.NodeFault.{NodeFault};
ghost use Rattle.node_model.specs.declared.input.Input.TheVariants as input;
ghost use Rattle.sessions.specs.SessionReplies.{outcome_code};
ghost use Rattle.world_model.specs.declared.lists.Answered.{Answered};
ghost use Rattle.world_model.specs.declared.lists.Replied.{Replied};
ghost use Rattle.world_model.specs.Lives.{AreLives, Happening, Loaded, Moment, StoragesAreHonest, Took, down_over, sent_at};
ghost use Rattle.life.specs.Lives.{GoesOn, IsBorn, IsHandedOut, IsLifeOf, LifeState, TakesFirst, WasTold};
ghost use Rattle.life.specs.Telling.{ToldLists, joined, nothing};

use stable::Stable;

/// From its start on, what a life has handed out and what it holds is what happened to its node tells, in order, and nothing else;
/// and a frame to itself was sent before it is taken back.
pub fn lives_are_told<S: Stable>()
    ensures begins { (id nodes : ℕ) (storage : S) (l : LifeState S) → IsBorn S.Stable id nodes storage l
        → (result : Result (Unit {0}) NodeFault) × IsLifeOf S.Stable (down_over id nodes storage) (Loaded result ∷ []) nothing l }
    ensures goes_on { (first : NodeState S) (history : List Happening) (handed : ToldLists) (old new : LifeState S) (what : Happening)
        → IsLifeOf S.Stable first history handed old → GoesOn S.Stable old what new
        → IsLifeOf S.Stable first (history ++ what ∷ []) handed new }
    ensures takes_back { (first : NodeState S) (history : List Happening) (handed : ToldLists) (old new : LifeState S)
        (answer : Result Response NodeFault) → IsLifeOf S.Stable first history handed old → TakesFirst S.Stable old answer new
        → (e : Envelope) × Contains (flat_map (sent_at first.id) history) e × Fits 7 e
        × IsLifeOf S.Stable first (history ++ Took (input.Message e) answer ∷ []) handed new }
    ensures hands_out { (first : NodeState S) (history : List Happening) (handed : ToldLists) (old : LifeState S)
        → IsLifeOf S.Stable first history handed old
        → IsLifeOf S.Stable first history (joined handed old.held) (record old { held = nothing }) }
{}

/// What a process hands out stands in what the lives of all nodes tell, of which one list of commands explains every reply and every
/// answer.
pub fn handed_out_was_told<S: Stable>()
    ensures { (moments : List Moment) (handed : ToldLists) → IsHandedOut S.Stable moments handed → WasTold moments handed }
{}

/// Two answers to one query at one position are equal, byte for byte, whichever processes hand them out, and two replies at one position
/// have one number, where every storage is honest to the end.
pub fn lives_hand_out_the_same<S: Stable>()
    ensures answers { (moments : List Moment) (first last : List (NodeState S)) → AreLives S.Stable moments first last
        → StoragesAreHonest S.Stable last → (one other : ToldLists) → IsHandedOut S.Stable moments one
        → IsHandedOut S.Stable moments other → (a b : Answered) → Contains one.answers a → Contains other.answers b
        → a.query ≡ b.query → a.position ≡ b.position → a.text ≡ b.text }
    ensures replies { (moments : List Moment) (first last : List (NodeState S)) → AreLives S.Stable moments first last
        → StoragesAreHonest S.Stable last → (one other : ToldLists) → IsHandedOut S.Stable moments one
        → IsHandedOut S.Stable moments other → (a b : Replied) → Contains one.replies a → Contains other.replies b
        → a.position ≡ b.position → outcome_code a.reply ≡ outcome_code b.reply }
{}
