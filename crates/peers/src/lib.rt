//! Packets between the nodes of a run, and how a stream of bytes is cut into them.
//!
//! A packet is a frame behind the run's name and an HMAC-SHA-256 of both under the run's key. So packets of strangers and of
//! other runs are dropped, and so are those whose bytes changed on the way. `specs/Sealing.antt` has the bytes of a packet.
//! On a stream each packet comes behind its length, and the packets found are the same however the stream was cut in reads.
//!
//! No sockets are here. That nobody without the key makes a digest that fits is a premise, and no theorem.
#![tactic(auto)]

mod dropped;
mod key;
mod laws;
mod run;
mod stream;

pub use dropped::{Dropped, Drops};
pub use key::Key;
pub use laws::packets_are_cut_in_one_way;
pub use run::{HEAD, LONGEST_FRAME, LONGEST_PACKET, NAME, Run};
pub use stream::{Stream, StreamFault};
