//! The cut: what a moving point does in a period.
//!
//! A `Cut` lists instants with positions, as a sequence does, and has its values by the same interpolation. At an end of the
//! period the position may be a fraction: it is never rounded. `specs/Cuts.antt` defines a cut.
#![tactic(auto)]

mod part;
mod period_cut;

pub use part::Cut;
pub use period_cut::cut;
