//! Reading a whole schedule.

ghost use Rattle.std.specs.Prelude.{IfOk, IfErr, MatchResult};
ghost use Rattle.schedule.specs.Reading.{IsLineRefusal, IsUnreadFor};
ghost use Rattle.schedule.specs.Entries.{entry_of};
ghost use Rattle.schedule.specs.Schedules.{IsScheduleOf, IsParseRefusal, IsNoSchedule};
ghost use Rattle.schedule.specs.Spelling.{Spells};

use super::action::Action;
use super::lines::Line;
use super::one_line::later_line;
use super::pending_line::finish_line;
use super::replay_fault::{ReplayCause, ReplayFault};
use super::schedule::Schedule;
use super::unread::UnreadSchedule;
use mfjson::DocumentReader;
use std::alloc::Global;
use wire::Nodes;

/// The schedule that the bytes spell; else the first faulty line and the lowest of its faults.
///
/// `WorldFault::Memory` comes where a growth was refused, and tells the line that was reached: no line before
/// it is faulty. The bytes are read once, from the front.
pub fn parse_schedule(alloc: Global, bytes: &[u8]) -> Result<Schedule, ReplayFault>
    ensures spelled { IfOk result (IsScheduleOf bytes.now) }
    ensures refused { IfErr result (IsParseRefusal bytes.now) }
    ensures no_schedule { IfErr result (λ fault. IsNoSchedule bytes.now fault.cause) }
{
    let unread = UnreadSchedule::open(alloc, bytes)?;
    let first = unread.first();
    let nodes = unread.nodes();
    let lines = unread.into_lines(alloc)?;
    Ok(Schedule::new(first, nodes, lines))
}

/// The action that the line spells.
pub(crate) fn action_of(
    alloc: Global,
    documents: &mut DocumentReader,
    nodes: Nodes,
    line: Line,
) -> Result<Action, ReplayFault>
    ensures { MatchResult result (Spells nodes line.entry.text.now)
        (IsLineRefusal nodes (entry_of line.entry)) }
{
    match line_action(alloc, documents, nodes, line.text) {
        Ok(action) => Ok(action),
        Err(cause) => Err(ReplayFault {
            line: line.number,
            cause,
        }),
    }
}

/// The action that the text of a line after the first spells, in a run of so many nodes; else the lowest of its faults.
///
/// `WorldFault::Memory` comes where a growth was refused.
pub fn read_action(alloc: Global, nodes: Nodes, text: &[u8]) -> Result<Action, ReplayCause>
    ensures { MatchResult result (Spells nodes text.now) (IsUnreadFor nodes text.now) }
{
    line_action(alloc, &mut DocumentReader::new(alloc), nodes, text)
}

/// The same, where documents were read before.
fn line_action(
    alloc: Global,
    documents: &mut DocumentReader,
    nodes: Nodes,
    text: &[u8],
) -> Result<Action, ReplayCause>
    ensures { MatchResult result (Spells nodes text.now) (IsUnreadFor nodes text.now) }
{
    match later_line(nodes, text) {
        Ok(unread) => finish_line(alloc, documents, nodes, unread),
        Err(fault) => Err(ReplayCause::Schedule(fault)),
    }
}
