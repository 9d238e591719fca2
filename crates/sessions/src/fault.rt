//! Why a text was not restored.

use fields::FieldFault;
use std::alloc::AllocError;
use std::error::Error;
use std::fmt;

/// Why a text was not restored.
#[derive(Clone, Copy, Debug, PartialEq, Eq)]
pub enum SnapFault {
    /// It is the text of no machine.
    Damaged,
    /// A growth was refused.
    Memory,
}

impl SnapFault {
    ghost use Rattle.std.specs.Prelude.{◌≡◌};
    ghost use Rattle.sessions.specs.SessionReplies.{snap_code};

    /// The number under which it is told.
    pub fn code(self) -> u8
        ensures { result ≡ snap_code self }
    {
        match self {
            SnapFault::Damaged => 1,
            SnapFault::Memory => 2,
        }
    }
}

impl fmt::Display for SnapFault {
    ghost use Rattle.std.specs.Prelude.{Some};
    ghost use Rattle.sessions.specs.SessionReplies.{fault_text};

    ghost output = { λ fault. Some (fault_text fault) };

    fn fmt<W: fmt::Write>(&self, f: &mut fmt::Formatter<W>) -> fmt::Result {
        match self {
            SnapFault::Damaged => f.write_str("the bytes are the snapshot text of no machine"),
            SnapFault::Memory => f.write_str("out of memory"),
        }
    }
}

impl Error for SnapFault {}

impl From<FieldFault> for SnapFault {
    ghost use Rattle.std.specs.Prelude.{◌≡◌};
    ghost use Rattle.sessions.specs.Restoring.{snap_fault};

    ghost from_gives = { λ field fault. fault ≡ snap_fault field };

    fn from(fault: FieldFault) -> SnapFault {
        match fault {
            FieldFault::Memory => SnapFault::Memory,
            FieldFault::Short | FieldFault::Field => SnapFault::Damaged,
        }
    }
}

impl From<AllocError> for SnapFault {
    ghost use Rattle.std.specs.Prelude.{◌≡◌};
    ghost use Rattle.sessions.specs.declared.fault.SnapFault.TheVariants.{Memory};

    ghost from_gives = { λ _ fault. fault ≡ Memory };

    fn from(_: AllocError) -> SnapFault {
        SnapFault::Memory
    }
}
