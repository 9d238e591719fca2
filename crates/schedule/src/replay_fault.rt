//! Why a schedule has no replay.

ghost use Rattle.std.specs.Prelude.{◌≡◌};
ghost use Rattle.schedule.specs.Causes.{cause_code, memory};

use super::fault::ScheduleFault;
use events::WorldFault;
use std::alloc::AllocFailed;
use std::error::Error;
use std::fmt;

/// Why a line is not done. Its number and its text are those of the fault.
#[derive(Clone, Copy, Debug, PartialEq, Eq)]
pub enum ReplayCause {
    /// The line is none of a schedule.
    Schedule(ScheduleFault),
    /// The world doesn't do what the line asks for, or memory ran out, be it as the line was read.
    World(WorldFault),
}

impl ReplayCause {
    /// The number under which it is told.
    pub fn code(self) -> u8
        ensures { result ≡ cause_code self }
    {
        match self {
            ReplayCause::Schedule(fault) => fault.code(),
            ReplayCause::World(fault) => fault.code(),
        }
    }
}

impl fmt::Display for ReplayCause {
    ghost use Rattle.std.specs.Prelude.{Some};
    ghost use Rattle.schedule.specs.Causes.{cause_text};

    ghost output = { λ cause. Some (cause_text cause) };

    fn fmt<W: fmt::Write>(&self, f: &mut fmt::Formatter<W>) -> fmt::Result {
        match self {
            ReplayCause::Schedule(fault) => fault.fmt(f),
            ReplayCause::World(fault) => fault.fmt(f),
        }
    }
}

impl Error for ReplayCause {}

impl<T: Drop> From<AllocFailed<T>> for ReplayCause {
    ghost from_gives = { λ _ cause. cause ≡ memory };

    fn from(_refused: AllocFailed<T>) -> ReplayCause {
        ReplayCause::World(WorldFault::Memory)
    }
}

/// The line at which a run ends without a transcript, and why.
#[derive(Clone, Copy, Debug, PartialEq, Eq)]
pub struct ReplayFault {
    /// Which line of the file it is, counted from 1; the first one where no node was started.
    pub line: u64,
    pub cause: ReplayCause,
}

impl fmt::Display for ReplayFault {
    ghost use Rattle.std.specs.Prelude.{Some};
    ghost use Rattle.schedule.specs.Causes.{replay_text};

    ghost output = { λ fault. Some (replay_text fault) };

    fn fmt<W: fmt::Write>(&self, f: &mut fmt::Formatter<W>) -> fmt::Result {
        write!(f, "line {}: {}", self.line, self.cause)
    }
}

impl Error for ReplayFault {}
