//! What the faults of schedules and documents are to the program.

ghost use Rattle.std.specs.Prelude.{◌≡◌, ◌≢◌};
ghost use Rattle.schedule.specs.Causes.{memory};

use crate::Failure;
use events::WorldFault;
use mfjson::MfFault;
use schedule::{ReplayCause, ReplayFault};

/// What a replay's fault is to the program. Want of memory has no line, wherever it came.
pub(crate) fn replay_failure(fault: ReplayFault) -> Failure
    ensures memory { fault.cause ≡ memory → result ≡ Failure.Memory }
    ensures line { fault.cause ≢ memory → result ≡ Failure.Schedule fault }
{
    match fault.cause {
        ReplayCause::World(WorldFault::Memory) => Failure::Memory,
        _ => Failure::Schedule(fault),
    }
}

/// What a run's fault is to the program, over storages that were handed over. One that holds a record has no line either.
pub(crate) fn run_failure(fault: ReplayFault) -> Failure
    ensures memory { fault.cause ≡ memory → result ≡ Failure.Memory }
    ensures used { fault.cause ≡ ReplayCause.World WorldFault.NotEmpty → result ≡ Failure.NotEmpty }
    ensures line { fault.cause ≢ memory → fault.cause ≢ ReplayCause.World WorldFault.NotEmpty
        → result ≡ Failure.Schedule fault }
{
    match fault.cause {
        ReplayCause::World(WorldFault::NotEmpty) => Failure::NotEmpty,
        _ => replay_failure(fault),
    }
}

/// What a document's fault is to the program. Want of memory has no line of its own.
pub(crate) fn document_failure(fault: MfFault) -> Failure
    ensures memory { fault ≡ MfFault.Memory → result ≡ Failure.Memory }
    ensures told { fault ≢ MfFault.Memory → result ≡ Failure.Document fault }
{
    match fault {
        MfFault::Memory => Failure::Memory,
        other => Failure::Document(other),
    }
}
