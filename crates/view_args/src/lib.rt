//! Command-line arguments of `mfpxview`: what they ask to see, and of which file.
//!
//! `clap` parses them, and writes what `--help` and `--version` print and why other words are refused. `specs/Forms.antt` has the forms
//! as it is told them, and which words ask for what.
#![tactic(auto)]

mod commands;
mod view;
mod words;

pub use view::View;
pub use words::view_of;
