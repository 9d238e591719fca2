//! Pictures as SVG texts, which a browser shows without a script.
//!
//! `Picture` takes lines, shapes and texts, and each text from outside goes through `push_escaped`: whatever it is, it breaks out of
//! neither an attribute nor an element, and it can be read back. `specs/Escaped.antt` defines how a text is escaped. Places are in
//! hundredths of a unit, from the upper left corner.
#![tactic(auto)]

mod canvas;
mod escape;
mod number;

pub use canvas::{Picture, Place};
pub use escape::{escaped_texts_are_read_back, nothing_breaks_out, push_escaped};
pub use number::push_hundredths;
