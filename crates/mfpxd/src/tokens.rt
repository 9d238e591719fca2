//! Which token stands for which source.

ghost use Rattle.std.specs.Prelude.{◌≡◌, ◌≤◌, IfNone, IfSome};
ghost use Rattle.mfpxd.specs.Tokens.{IsTokenOf};

use crate::lines::MOST_CLIENTS;
use crate::links::MOST_COMERS;

/// The token of the socket that other nodes come to.
pub const PEERS: usize = 0;

/// The token of the socket that clients come to.
pub const CLIENTS: usize = 1;

/// The token of the stream to node 0. Those to the others follow.
pub const FIRST_LINK: usize = 2;

/// The token of the first stream from another node.
pub const FIRST_COMER: usize = 16;

/// The token of the first client.
pub const FIRST_CLIENT: usize = FIRST_COMER + MOST_COMERS;

const END: usize = FIRST_CLIENT + MOST_CLIENTS;

/// What a token stands for.
#[derive(Clone, Copy, Debug, PartialEq, Eq)]
pub enum Source {
    /// The socket that other nodes come to.
    Peers,
    /// The socket that clients come to.
    Clients,
    /// The stream to the node of this number.
    Link(usize),
    /// The stream from another node at this place.
    Comer(usize),
    /// The client at this place.
    Client(usize),
}

/// What the token stands for, or None where it is none.
pub fn source_of(token: usize) -> Option<Source>
    ensures source { IfSome result (IsTokenOf token) }
    ensures none { IfNone result (END ≤ token) }
{
    if token == PEERS {
        Some(Source::Peers)
    } else if token == CLIENTS {
        Some(Source::Clients)
    } else if token < FIRST_COMER {
        Some(Source::Link(token - FIRST_LINK))
    } else if token < FIRST_CLIENT {
        Some(Source::Comer(token - FIRST_COMER))
    } else if token < END {
        Some(Source::Client(token - FIRST_CLIENT))
    } else {
        None
    }
}
