//! Why there is no verdict.

ghost use Rattle.std.specs.Prelude.{◌≡◌};
ghost use Rattle.audit.specs.declared.fault.AuditFault.TheVariants.{Memory};

use schedule::ReplayFault;
use std::alloc::AllocError;
use std::error::Error;
use std::fmt;

/// Why there is no verdict.
#[derive(Clone, Copy, Debug, PartialEq, Eq)]
pub enum AuditFault {
    /// The schedule has a faulty line, or memory ran out as it was read.
    Schedule(ReplayFault),
    /// A growth was refused.
    Memory,
}

impl fmt::Display for AuditFault {
    ghost use Rattle.std.specs.Prelude.{Some};
    ghost use Rattle.audit.specs.Texts.{fault_text};

    ghost output = { λ fault. Some (fault_text fault) };

    fn fmt<W: fmt::Write>(&self, f: &mut fmt::Formatter<W>) -> fmt::Result {
        match self {
            AuditFault::Schedule(fault) => fault.fmt(f),
            AuditFault::Memory => f.write_str("out of memory"),
        }
    }
}

impl Error for AuditFault {}

impl From<AllocError> for AuditFault {
    ghost from_gives = { λ _ fault. fault ≡ Memory };

    fn from(_refused: AllocError) -> AuditFault {
        AuditFault::Memory
    }
}
