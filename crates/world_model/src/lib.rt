//! All nodes of a run as one state machine: what a world remembers, what each event does to it, and what holds of every run.
//!
//! `specs/Worlds.antt` defines a world and its steps, `specs/Rounds.antt` a manual round, `specs/Safety.antt` what is promised.
//! No code runs here: the crate `world` has the code, and its calls keep what is defined here.
#![tactic(auto)]

mod explanation;
mod laws;
mod lists;
mod lives;
mod packed_ballot;
mod round_end;

pub use explanation::{one_log_explains, start_keeps_lists, steps_keep_lists};
pub use laws::{
    answers_are_one, armed_reads_fire, ballots_never_fall, lists_are_as_told, promises_never_fall,
    replies_are_one,
};
pub use lists::{Answered, LearntEntry, Replied, StepOutcome, Submitted};
pub use lives::{
    a_start_is_a_load, lives_are_a_run, lives_go_on, lives_tell_the_same, one_list_explains_lives,
    reached_worlds_are_safe,
};
pub use packed_ballot::PackedBallot;
pub use round_end::RoundEnd;
