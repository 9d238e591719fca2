//! One list of commands explains what any node told.
//!
//! Each law is the contract of a function that does nothing.

ghost use Rattle.std.specs.Prelude.{ℕ};
ghost use Rattle.world_model.specs.Explaining.{IsExplained, LearntAgree, LearntGrounded, LearntInLog};
ghost use Rattle.world_model.specs.Flushing.{IsStart};
ghost use Rattle.world_model.specs.Reaching.{AreHonest, IsAllowed};
ghost use Rattle.stable.specs.Records.{Records};
ghost use Rattle.stable.specs.Script.{Script};
ghost use Rattle.world_model.specs.Telling.{WorldIsBacked};
ghost use Rattle.world_model.specs.Worlds.{WorldState, Steps};
ghost use Rattle.events.specs.declared.event.Event.{Event};

use stable::{Scripted, Stable};

/// At the start, over honest storages, the lists tell no more than the nodes know.
pub fn start_keeps_lists<S: Stable>()
    ensures { (count : ℕ) (w : WorldState S) → IsStart (⟦<Scripted<S> as Stable>⟧) count w
        → AreHonest ⟦<Scripted<S> as Stable>⟧.IsHonest w.nodes → WorldIsBacked ⟦<Scripted<S> as Stable>⟧.contents w }
{}

/// Each step of a world of a run that leaves the storages honest keeps what the lists of the world tell of one another. In such a world no
/// two nodes learnt different commands for one slot, so the parts of a text make one text, from whichever nodes they come.
pub fn steps_keep_lists<S: Stable>()
    ensures { (old new : WorldState S) (event : Event)
        → Steps (⟦<Scripted<S> as Stable>⟧) old event new → AreHonest ⟦<Scripted<S> as Stable>⟧.IsHonest new.nodes
        → IsAllowed ⟦<Scripted<S> as Stable>⟧.contents old.nodes old.frames old.learnt old.submitted
        → WorldIsBacked ⟦<Scripted<S> as Stable>⟧.contents old → WorldIsBacked ⟦<Scripted<S> as Stable>⟧.contents new }
{}

/// Where any two nodes that learnt a slot learnt one command there, at a slot of the log, a no-op or a request that was
/// submitted, one list of commands explains everything that any node told.
pub fn one_log_explains<S>()
    ensures { (contents : Script S → Records) (w : WorldState S) → WorldIsBacked contents w → LearntAgree w.learnt → LearntInLog w.learnt → LearntGrounded w.submitted w.learnt
        → IsExplained w.submitted w.learnt w.replies w.answers }
{}
