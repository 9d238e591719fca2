//! What holds of all runs. Nothing runs.

ghost use Rattle.std.specs.Prelude.{◌≡◌, Contains};
ghost use Rattle.world_model.specs.Progress.{ArmedReadsFire, BallotsNeverFall, PromisesNeverFall};
ghost use Rattle.world_model.specs.Safety.{IsSafe};
ghost use Rattle.world_model.specs.Tallies.{StepsTally};
ghost use Rattle.world_model.specs.Worlds.{WorldState};
ghost use Rattle.world_model.specs.declared.lists.Answered.{Answered};
ghost use Rattle.world_model.specs.declared.lists.Replied.{Replied};
ghost use Rattle.sessions.specs.SessionReplies.{outcome_code};

use stable::{Scripted, Stable};

/// As many learnt slots, replies and answers are listed as outcomes tell of: at the start, and after every step.
#[tactic(auto, using(crate::proofs::OneLog::TallyLemmas::steps_tally))]
pub fn lists_are_as_told<S: Stable>()
    ensures { StepsTally (⟦<Scripted<S> as Stable>⟧) }
{}

/// In every world that is safe two answers to one query at one position are equal, byte for byte, whoever gave them.
pub fn answers_are_one<S>()
    ensures { (w : WorldState S) → ∥ IsSafe w ∥₁ → (a b : Answered) → Contains w.answers a → Contains w.answers b
        → a.query ≡ b.query → a.position ≡ b.position → a.text ≡ b.text }
{}

/// In every world that is safe two replies at one position have one number, whoever gave them.
pub fn replies_are_one<S>()
    ensures { (w : WorldState S) → ∥ IsSafe w ∥₁ → (a b : Replied) → Contains w.replies a → Contains w.replies b
        → a.position ≡ b.position → outcome_code a.reply ≡ outcome_code b.reply }
{}

/// No step but its restart makes the next ballot of a node lower, as long as it stays up: what a round was told of stays below it.
pub fn ballots_never_fall<S: Stable>()
    ensures { BallotsNeverFall (⟦<Scripted<S> as Stable>⟧) }
{}

/// No steps make what a node has promised lower, also where the votes that raised it are trimmed, or where it goes down and restarts on
/// the way.
pub fn promises_never_fall<S: Stable>()
    ensures { PromisesNeverFall (⟦<Scripted<S> as Stable>⟧) }
{}

/// No restart passes over an armed reading: the node is down after it, and the outcome is its device's.
pub fn armed_reads_fire<S: Stable>()
    ensures { ArmedReadsFire (⟦<Scripted<S> as Stable>⟧) }
{}
