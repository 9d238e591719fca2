//! A transport over UDP: a socket for each node, on 127.0.0.1, and a queue of what has come there.
#![tactic(auto)]

mod end;
mod room;
mod sockets;

pub use sockets::Sockets;
