//! What nodes say to one another.

ghost use Rattle.std.specs.Prelude.{◌≡◌};
ghost use Rattle.wire.specs.Kinds.{kind_of};

use super::kind::Kind;
use super::nack::Nack;
use super::part::{Part, PartNumber};
use super::position::Position;
use super::promise::Promise;
use crate::SharedCommand;
use sessions::Command;
use synod::{Ballot, Slot, Vote};

/// What one node says to another. Every message may be sent among seven nodes.
#[derive(Drop)]
pub enum Message {
    /// Asks for a promise of this ballot, and for the votes from this slot on.
    Prepare {
        ballot: Ballot,
        first: Slot,
    },
    /// The ballot is promised.
    Promise(Promise),
    /// A prepare or an accept is refused.
    Nack(Nack),
    /// Asks for this vote.
    Accept(Vote<SharedCommand>),
    /// The sender voted so.
    Accepted(Vote<SharedCommand>),
    /// Asks what is decided at this slot.
    Ask {
        slot: Slot,
    },
    /// The sender has learnt that this is chosen.
    Decided {
        slot: Slot,
        command: SharedCommand,
    },
    /// Asks for this part of the text of the checkpoint at this position.
    SnapAsk {
        position: Position,
        number: PartNumber,
    },
    /// A part of the text of a checkpoint.
    SnapPart(Part),
    /// The sender may not speak of slots below this one any more.
    Behind {
        floor: Position,
    },
}

impl Message {
    /// Which kind it is.
    pub fn kind(&self) -> Kind
        ensures { result ≡ kind_of self.now }
    {
        match self {
            Message::Prepare { .. } => Kind::Prepare,
            Message::Promise(_) => Kind::Promise,
            Message::Nack(_) => Kind::Nack,
            Message::Accept(_) => Kind::Accept,
            Message::Accepted(_) => Kind::Accepted,
            Message::Ask { .. } => Kind::Ask,
            Message::Decided { .. } => Kind::Decided,
            Message::SnapAsk { .. } => Kind::SnapAsk,
            Message::SnapPart(_) => Kind::SnapPart,
            Message::Behind { .. } => Kind::Behind,
        }
    }
}
