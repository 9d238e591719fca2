//! Whether a moving point is ever, or always, in a rectangle during a period.
//!
//! Every instant of the period counts, whole or fractional, and so do the bounds of the rectangle.
//! Nothing is rounded: a leg, the way from one listed instant to the next, is decided by comparisons
//! of its ends, or else by those of four products, and where it goes on beyond the period by a window
//! between two fractions. A call takes no memory; it costs one binary search, and then a few
//! comparisons for each point within the period, up to the first one that decides.
#![tactic(auto)]

mod bounds;
mod courses;
mod ends;
mod inner_part;
mod legs;
mod pieces;
mod questions;
mod runs;
mod sequences;
mod stays;
mod windows;

pub use questions::Tri;
pub use sequences::{always, ever};
