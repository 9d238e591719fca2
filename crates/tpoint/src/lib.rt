//! Moving points: the position at every instant, by a list of instants with positions.
//!
//! `Seq::value_at` returns the position at an instant as fractions, never rounded, or none. Instants are whole milliseconds and
//! coordinates whole millimetres. `specs/Moving.antt` defines the value for every fraction of a millisecond, so that the crates
//! above can use it.
//!
//! Only `Seq::append` and the clone of a `Seq` allocate.
#![tactic(auto)]

mod coordinate;
mod faults;
mod frac;
mod id;
mod instant;
mod interp;
mod listed;
mod lowest_terms;
mod period;
mod point;
mod probed;
mod rect;
mod seq;
mod sizes;
mod span;
mod values;

pub use coordinate::{FURTHEST, is_coordinate};
pub use faults::{AppendFault, SeqFault};
pub use frac::Frac;
pub use id::{Id, LONGEST_ID, is_id_byte};
pub use instant::{Instant, LAST_MS};
pub use interp::Interp;
pub use listed::{Listed, MOST_PROBES, search};
pub use period::Period;
pub use point::Point;
pub use rect::Rect;
pub use seq::{MOST_POINTS, Seq};
pub use sizes::limits;
pub use values::Found;
