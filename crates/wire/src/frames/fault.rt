//! Why bytes are no frame.

ghost use Rattle.std.specs.Prelude.{◌≡◌, ◌↔◌, IsTrue};
ghost use Rattle.wire.specs.Faults.{code_of};

use fields::FieldFault;
use std::alloc::{AllocError, AllocFailed};
use std::error::Error;
use std::fmt;

/// Why bytes were not read as a frame: the first fault in reading order, but that `Long` is tested before all.
#[derive(Clone, Copy, Debug, PartialEq, Eq)]
pub enum WireFault {
    /// The bytes end where a number or a byte must come.
    Short,
    /// The first two bytes are no frame's.
    Magic,
    /// No kind of message has this version.
    Version,
    /// The version has no message of this kind.
    Kind,
    /// A field holds a value that it can't have.
    Field,
    /// Bytes stand after the message.
    Trailing,
    /// There are more bytes than a frame has at most.
    Long,
    /// A growth was refused.
    Memory,
}

impl WireFault {
    /// The number of this fault: 1 to 8, in the order in which they stand here.
    pub fn code(self) -> u8
        ensures { result ≡ code_of self }
    {
        match self {
            WireFault::Short => 1,
            WireFault::Magic => 2,
            WireFault::Version => 3,
            WireFault::Kind => 4,
            WireFault::Field => 5,
            WireFault::Trailing => 6,
            WireFault::Long => 7,
            WireFault::Memory => 8,
        }
    }

    /// Whether a growth was refused, which says nothing of the bytes.
    pub(super) fn is_memory(self) -> bool
        ensures { IsTrue result ↔ (self ≡ WireFault.Memory) }
    {
        match self {
            WireFault::Memory => true,
            _ => false,
        }
    }
}

impl fmt::Display for WireFault {
    ghost use Rattle.std.specs.Prelude.{Some};
    ghost use Rattle.wire.specs.Faults.{fault_text};

    ghost output = { λ fault. Some (fault_text fault) };

    fn fmt<W: fmt::Write>(&self, f: &mut fmt::Formatter<W>) -> fmt::Result {
        f.write_str(match self {
            WireFault::Short => "the frame ends too early",
            WireFault::Magic => "the first two bytes are no frame's",
            WireFault::Version => "no kind of message has this version",
            WireFault::Kind => "the version has no message of this kind",
            WireFault::Field => "a field holds a value that it can't have",
            WireFault::Trailing => "bytes stand after the message",
            WireFault::Long => "there are more bytes than a frame has at most",
            WireFault::Memory => "out of memory",
        })
    }
}

impl Error for WireFault {}

impl From<FieldFault> for WireFault {
    ghost use Rattle.wire.specs.Faults.{widened};

    ghost from_gives = { λ field fault. fault ≡ widened field };

    fn from(fault: FieldFault) -> WireFault {
        match fault {
            FieldFault::Short => WireFault::Short,
            FieldFault::Field => WireFault::Field,
            FieldFault::Memory => WireFault::Memory,
        }
    }
}

impl From<AllocError> for WireFault {
    ghost use Rattle.wire.specs.declared.frames.fault.WireFault.TheVariants.{Memory};

    ghost from_gives = { λ _ fault. fault ≡ Memory };

    fn from(_: AllocError) -> WireFault {
        WireFault::Memory
    }
}

impl<T: Drop> From<AllocFailed<T>> for WireFault {
    ghost use Rattle.wire.specs.declared.frames.fault.WireFault.TheVariants.{Memory};

    ghost from_gives = { λ _ fault. fault ≡ Memory };

    fn from(_: AllocFailed<T>) -> WireFault {
        WireFault::Memory
    }
}
