//! The audit.

ghost use Rattle.std.specs.Prelude.{ℕ, List, map, IfOk, IfErr};
ghost use Rattle.schedule.specs.Schedules.{IsScheduleOf};
ghost use Rattle.audit.specs.Audits.{IsAudit, IsNoAudit};

use crate::demands::demands_of;
use crate::fault::AuditFault;
use crate::transcripts::read_transcripts;
use schedule::{Schedule, parse_schedule};
use std::alloc::{AllocError, Global};
use verdicts::{Verdict, verdict_on};

/// Whether one list of commands explains what the transcripts tell, where the schedule has their submissions and queries.
///
/// The transcripts are of runs of the schedule: whole ones, of single nodes, or of loopbacks. `AuditFault::Schedule` comes
/// where the schedule is none, with its first faulty line. Nothing is kept.
pub fn audit(alloc: Global, schedule: &[u8], transcripts: &[Vec<u8>]) -> Result<Verdict, AuditFault>
    ensures audited { IfOk result (IsAudit schedule.now (map (λ t. t.items) transcripts.now)) }
    ensures no_schedule { IfErr result (IsNoAudit schedule.now) }
{
    match parse_schedule(alloc, schedule) {
        Ok(schedule) => Ok(judge(alloc, schedule, transcripts)?),
        Err(fault) => Err(AuditFault::Schedule(fault)),
    }
}

/// The verdict on transcripts of runs of the schedule.
fn judge(alloc: Global, schedule: Schedule, transcripts: &[Vec<u8>]) -> Result<Verdict, AllocError>
    ensures { IfOk result (λ verdict. (bytes : List ℕ) → IsScheduleOf bytes schedule
        → IsAudit bytes (map (λ t. t.items) transcripts.now) verdict) }
{
    let nodes = schedule.nodes().count();
    let demands = demands_of(alloc, schedule)?;
    let read = read_transcripts(alloc, nodes, transcripts)?;
    let verdict = verdict_on(
        alloc,
        &demands.requests,
        &demands.questions,
        &read.learns,
        &read.told,
    )?;
    Ok(verdict)
}
