//! The kinds of messages.

ghost use Rattle.std.specs.Prelude.{◌≡◌};
ghost use Rattle.wire.specs.Kinds.{version_of, byte_of, kinds};
ghost use Rattle.wire.specs.FrameReading.{found_among};

/// What kind of message it is. Each kind has a version and a byte, which stand in the head of its frame.
#[derive(Clone, Copy, Debug, PartialEq, Eq)]
pub enum Kind {
    Prepare,
    Promise,
    Nack,
    Accept,
    Accepted,
    Ask,
    Decided,
    SnapAsk,
    SnapPart,
    Behind,
}

impl Kind {
    /// The version of frames that has it.
    pub fn version(self) -> u8
        ensures { result ≡ version_of self }
    {
        match self {
            Kind::Prepare
            | Kind::Promise
            | Kind::Nack
            | Kind::Accept
            | Kind::Accepted
            | Kind::Ask
            | Kind::Decided => 1,
            Kind::SnapAsk | Kind::SnapPart | Kind::Behind => 2,
        }
    }

    /// Its byte.
    pub fn byte(self) -> u8
        ensures { result ≡ byte_of self }
    {
        match self {
            Kind::Prepare => 1,
            Kind::Promise => 2,
            Kind::Nack => 3,
            Kind::Accept => 4,
            Kind::Accepted => 5,
            Kind::Ask => 6,
            Kind::Decided => 7,
            Kind::SnapAsk => 8,
            Kind::SnapPart => 9,
            Kind::Behind => 10,
        }
    }

    /// The kind of this version with this byte, or None where there is none.
    pub fn of(version: u8, byte: u8) -> Option<Kind>
        ensures { result ≡ found_among kinds version byte }
    {
        match (version, byte) {
            (1, 1) => Some(Kind::Prepare),
            (1, 2) => Some(Kind::Promise),
            (1, 3) => Some(Kind::Nack),
            (1, 4) => Some(Kind::Accept),
            (1, 5) => Some(Kind::Accepted),
            (1, 6) => Some(Kind::Ask),
            (1, 7) => Some(Kind::Decided),
            (2, 8) => Some(Kind::SnapAsk),
            (2, 9) => Some(Kind::SnapPart),
            (2, 10) => Some(Kind::Behind),
            _ => None,
        }
    }
}
