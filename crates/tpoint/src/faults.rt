//! Why points are refused.

ghost use Rattle.std.specs.Prelude.{◌≡◌};
ghost use Rattle.tpoint.specs.Faults.{seq_fault_code, append_fault_code};
ghost use Rattle.tpoint.specs.declared.faults.AppendFault.TheVariants.{Memory};

use std::alloc::AllocFailed;
use std::error::Error;
use std::fmt;

/// Why a list of points is no sequence. Places count from 0.
///
/// Where there are several faults the first kind below is told, and of its places the first.
#[derive(Clone, Copy, Debug, PartialEq, Eq)]
pub enum SeqFault {
    /// There is no point.
    Empty,
    /// There are more than `MOST_POINTS` points.
    TooMany,
    /// This point is not later than the one before it.
    NotIncreasing(usize),
    /// This point has a coordinate out of range.
    Range(usize),
}

impl SeqFault {
    /// Its number: 1 to 4.
    pub fn code(self) -> u8
        ensures { result ≡ seq_fault_code self }
    {
        match self {
            SeqFault::Empty => 1,
            SeqFault::TooMany => 2,
            SeqFault::NotIncreasing(_) => 3,
            SeqFault::Range(_) => 4,
        }
    }
}

impl fmt::Display for SeqFault {
    ghost use Rattle.std.specs.Prelude.{Some};
    ghost use Rattle.tpoint.specs.Faults.{seq_fault_text};

    ghost output = { λ fault. Some (seq_fault_text fault) };

    fn fmt<W: fmt::Write>(&self, f: &mut fmt::Formatter<W>) -> fmt::Result {
        match *self {
            SeqFault::Empty => f.write_str("there is no point"),
            SeqFault::TooMany => f.write_str("there are too many points"),
            SeqFault::NotIncreasing(i) => write!(
                f,
                "point {i} is not later than the one before it"
            ),
            SeqFault::Range(i) => write!(f, "point {i} has a coordinate out of range"),
        }
    }
}

impl Error for SeqFault {}

/// Why a point was not appended. The sequence is as it was.
///
/// Where there are several reasons the first below is told.
#[derive(Clone, Copy, Debug, PartialEq, Eq)]
pub enum AppendFault {
    /// The point is not later than the last one.
    NotLater,
    /// The sequence has `MOST_POINTS` points.
    Full,
    /// The point has a coordinate out of range.
    Range,
    /// A growth was refused.
    Memory,
}

impl AppendFault {
    /// Its number: 22, 23 or 4. Want of memory has none of its own, and is told under the number
    /// that the caller's fault has for it.
    pub fn code(self) -> Option<u8>
        ensures { result ≡ append_fault_code self }
    {
        match self {
            AppendFault::NotLater => Some(22),
            AppendFault::Full => Some(23),
            AppendFault::Range => Some(4),
            AppendFault::Memory => None,
        }
    }
}

impl fmt::Display for AppendFault {
    ghost use Rattle.std.specs.Prelude.{Some};
    ghost use Rattle.tpoint.specs.Faults.{append_fault_text};

    ghost output = { λ fault. Some (append_fault_text fault) };

    fn fmt<W: fmt::Write>(&self, f: &mut fmt::Formatter<W>) -> fmt::Result {
        f.write_str(match self {
            AppendFault::NotLater => "the point is not later than the last one",
            AppendFault::Full => "the sequence has no room for a point more",
            AppendFault::Range => "the point has a coordinate out of range",
            AppendFault::Memory => "out of memory",
        })
    }
}

impl Error for AppendFault {}

impl<T: Drop> From<AllocFailed<T>> for AppendFault {
    ghost from_gives = { λ _ fault. fault ≡ Memory };

    fn from(_refused: AllocFailed<T>) -> AppendFault {
        Self::Memory
    }
}
