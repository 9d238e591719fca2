//! Space-time diagrams: a lane for each node, time from top to bottom, and an arrow for each frame from where it was sent to where it came.
//!
//! `list_arrows` says what is drawn of each frame, `specs/Arrows.antt` what that is; `draw` makes the picture. What a run is stands in no
//! definition here: a `Scene` has its frames, and what is told beside them.
#![tactic(auto)]

mod arrow_lines;
mod arrows;
mod colors;
mod facts;
mod layout;
mod places;
mod scene;
mod signs;
mod space_time;
mod strokes;

pub use arrows::{Arrow, Fate, Passage, list_arrows};
pub use facts::{Facts, facts_of, kind_name, push_frame};
pub use layout::{MOST_FRAMES, Window, choose_window};
pub use scene::{Label, Mark, Scene, Sign};
pub use space_time::draw;
