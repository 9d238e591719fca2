//! A run, and what was asked of rectangles in it.

ghost use Rattle.std.specs.Prelude.{◌≡◌, ◌↔◌, ◌⊎◌, IfErr, IfOk, IsTrue};
ghost use Rattle.world.specs.Seen.{world_of};
ghost use Rattle.schedule.specs.Causes.{memory};
ghost use Rattle.schedule.specs.Schedules.{IsParseRefusal};
ghost use Rattle.run_map.specs.Endings.{EndsBy, IsRunOf, LineEndsBy};

use events::{Event, WorldFault};
use fleetmap::Asked;
use replay::{Watch, do_line, start_world};
use schedule::{Action, ReplayCause, ReplayFault, ScheduleLine, parse_schedule};
use stable::{MemStable, Scripted, Stable};
use std::alloc::{AllocError, Global};
use store::Query;
use wire::{NodeId, Nodes};
use world::{World, fresh_stores};

/// A run: the world in which it ended, and what was asked of rectangles on the way.
#[derive(Drop)]
pub struct Survey {
    pub nodes: Nodes,
    pub world: World<MemStable>,
    pub asked: Vec<Asked>,
    /// The line that couldn't be done, with which it ended.
    pub end: Option<ReplayFault>,
}

/// The run that the bytes spell, over records in memory, to its last line or to the first that can't be done. The watch is told of each line
/// that is done.
///
/// An error is the first faulty line, before which nothing is done; or `Memory`, told at the line that was reached.
pub fn survey_run<W: Watch>(
    alloc: Global,
    bytes: &[u8],
    watch: &mut W,
) -> Result<Survey, ReplayFault>
    ensures run { IfOk result (λ survey.
        IsRunOf (⟦<Scripted<MemStable> as Stable>⟧) bytes.now survey.nodes survey.end (world_of survey.world)) }
    ensures fault { IfErr result (λ fault. IsParseRefusal bytes.now fault ⊎ (fault.cause ≡ memory)) }
{
    let schedule = parse_schedule(alloc, bytes)?;
    let nodes = schedule.nodes();
    let first = schedule.first();
    let Ok(stores) = fresh_stores(alloc, nodes) else {
        return Err(memory_at(first));
    };
    // The records are fresh, so nothing but memory can be wanting.
    let Ok(mut world) = start_world(alloc, &schedule, stores) else {
        return Err(memory_at(first));
    };
    let mut asked = Vec::new(alloc);
    let end = survey_lines(alloc, &mut world, &mut asked, schedule.into_lines(), watch)?;
    Ok(Survey {
        nodes,
        world,
        asked,
        end,
    })
}

/// Does the lines in order, up to the first that can't be done, whose fault is told; and gathers what was asked.
fn survey_lines<W: Watch>(
    alloc: Global,
    world: &mut World<MemStable>,
    asked: &mut Vec<Asked>,
    lines: Vec<ScheduleLine>,
    watch: &mut W,
) -> Result<Option<ReplayFault>, ReplayFault>
    ensures ends { IfOk result (λ end. EndsBy (⟦<Scripted<MemStable> as Stable>⟧) lines.items
        (world_of world.old) end (world_of world.new)) }
    ensures memory { IfErr result (λ fault. fault.cause ≡ memory) }
{
    for line in lines {
        let number = line.number;
        let stopped = survey_line(alloc, world, asked, line)?;
        match stopped {
            Some(fault) => return Ok(Some(fault)),
            None => watch.line_done(number, world.frames().len()),
        }
    }
    Ok(None)
}

/// Does one line, and adds what it asks, and what it was answered. The fault, if the line can't be done.
fn survey_line(
    alloc: Global,
    world: &mut World<MemStable>,
    asked: &mut Vec<Asked>,
    line: ScheduleLine,
) -> Result<Option<ReplayFault>, ReplayFault>
    ensures done { IfOk result (λ end. LineEndsBy (⟦<Scripted<MemStable> as Stable>⟧) line
        (world_of world.old) end (world_of world.new)) }
    ensures memory { IfErr result (λ fault. fault.cause ≡ memory) }
{
    let number = line.number;
    let question = question_of(&line.action);
    let before = world.answers().len();
    if let Err(fault) = do_line(alloc, world, line) {
        return if is_memory(&fault) {
            Err(fault)
        } else {
            Ok(Some(fault))
        };
    }
    let Some((node, query)) = question else {
        return Ok(None);
    };
    match push_asked(alloc, world, asked, before, number, node, query) {
        Ok(()) => Ok(None),
        Err(_) => Err(memory_at(number)),
    }
}

/// Adds what a line asked, with the answer that came after so many others; None of them where the node refused.
fn push_asked(
    alloc: Global,
    world: &World<MemStable>,
    asked: &mut Vec<Asked>,
    before: usize,
    line: u64,
    node: NodeId,
    query: Query,
) -> Result<(), AllocError> {
    let answer = match world.answers().get(before) {
        Some(answered) => {
            let mut text = Vec::new(alloc);
            text.extend_from_slice(answered.text.as_bytes())?;
            Some(text)
        }
        None => None,
    };
    asked.push(Asked {
        line,
        node: node.value(),
        query,
        answer,
    })?;
    Ok(())
}

/// What a line asks of a rectangle, if it asks.
fn question_of(action: &Action) -> Option<(NodeId, Query)> {
    let Action::Step(Event::Query(node, query)) = action else {
        return None;
    };
    match query {
        Query::Ever(..) | Query::Always(..) | Query::Within(..) => Some((*node, *query)),
        Query::At(..) | Query::Cut(..) | Query::Get(_) | Query::Count => None,
    }
}

/// Whether memory was wanting.
fn is_memory(fault: &ReplayFault) -> bool
    ensures { IsTrue result ↔ (fault.now.cause ≡ memory) }
{
    fault.cause == ReplayCause::World(WorldFault::Memory)
}

/// Memory was wanting at a line.
fn memory_at(line: u64) -> ReplayFault
    ensures { result.cause ≡ memory }
{
    ReplayFault {
        line,
        cause: ReplayCause::World(WorldFault::Memory),
    }
}
