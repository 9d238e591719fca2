//! A run of a schedule.

ghost use Rattle.std.specs.Prelude.{◌≡◌, ◌≢◌, ◌++◌, [], IfErr, IfOk, MatchResult, OnErr, OnOk, vec_len};
ghost use Rattle.world_model.specs.Flushing.{IsStart};
ghost use Rattle.world.specs.Seen.{world_of};
ghost use Rattle.world_model.specs.Starting.{AreOver};
ghost use Rattle.world_model.specs.Staying.{StaysSafe};
ghost use Rattle.replay.specs.Runs.{EndsAt, EndsOver, ActionIsDone, ActionIsRefused, IsReplay, IsRunOver, RunIsStopped, Leads, ReplayEnds, RunFails};
ghost use Rattle.replay.specs.AsRead.{AreDoneAsRead, EndsAsRead};
ghost use Rattle.replay.specs.Runs.{RunsTo, told_of};
ghost use Rattle.replay.specs.Parts.{TakesInParts};

use super::replayed::Replayed;
use super::report::{print_run, transcript};
use super::sink::Sink;
use events::WorldFault;
use schedule::{Action, ReplayCause, ReplayFault, Schedule, ScheduleLine, UnreadSchedule};
use stable::{MemStable, Scripted, Stable};
use std::alloc::{AllocError, Global};
use std::io;
use world::World;

/// The world in which the run ends that the bytes spell, over records in memory. Each line is done once it is read, and is not kept.
///
/// The run is safe, to the end or to the line that ends it: records in memory are always honest, whatever faults the
/// schedule arms.
///
/// An error is the first faulty line, be it behind one that can't be done; else the first line that can't be done, as it delivers or
/// drops a frame that was never sent, or its flush meets the limit; or the line that was reached when memory was wanting, which is the
/// first one of the schedule for the start of the nodes.
pub fn replay_text(alloc: Global, bytes: &[u8]) -> Result<World<MemStable>, ReplayFault>
    ensures ended { IfOk result (λ world.
        (replay : IsReplay (⟦<Scripted<MemStable> as Stable>⟧) bytes.now (told_of (world_of world)))
        × (replay.end ≡ world_of world)) }
    ensures fault { IfErr result (ReplayEnds (⟦<Scripted<MemStable> as Stable>⟧) bytes.now) }
    ensures nodes_are_there { IfErr result (λ fault. fault.cause ≢ ReplayCause.World WorldFault.NoSuchNode) }
{
    let unread = UnreadSchedule::open(alloc, bytes)?;
    let first = unread.first();
    match World::new(alloc, unread.nodes()) {
        Ok(started) => {
            let mut world = started;
            do_unread(alloc, &mut world, unread)?;
            Ok(world)
        }
        Err(fault) => {
            unread.see_faultless(alloc)?;
            Err(ReplayFault {
                line: first,
                cause: ReplayCause::World(fault),
            })
        }
    }
}

/// Does the lines that are left, each once it is read, up to the first that can't be done. It is told once nothing is wrong with any
/// line behind it.
fn do_unread<S: Stable>(
    alloc: Global,
    world: &mut World<S>,
    unread: UnreadSchedule,
) -> Result<(), ReplayFault>
    ensures ends { MatchResult result
        (λ _. AreDoneAsRead (⟦<Scripted<S> as Stable>⟧) unread.entry.nodes unread.entry.left (world_of world.old) (world_of world.new))
        (λ fault. EndsAsRead (⟦<Scripted<S> as Stable>⟧) unread.entry.nodes unread.entry.left (world_of world.old) fault (world_of world.new)) }
    ensures safe { StaysSafe (⟦<Scripted<S> as Stable>⟧) S.IsHonest (world_of world.new) }
{
    // Whoever looks knows that all of it is safe.
    let _ = world.outcomes();
    let mut unread = unread;
    while let Some(line) = unread.next(alloc)? {
        if let Err(fault) = do_line(alloc, world, line) {
            unread.see_faultless(alloc)?;
            return Err(fault);
        }
    }
    Ok(())
}

/// The schedule's run over these storages, one for each of its nodes, in their order: its transcript, and the world in
/// which it ends, with the storages in it.
///
/// `NotEmpty` where one of them holds a record already; all of them were only read then. As long as the storages are honest
/// the run is safe, to the end or to the line that ends it.
pub fn run<S: Stable + Drop>(
    alloc: Global,
    schedule: Schedule,
    stores: Vec<S>,
) -> Result<Replayed<S>, ReplayFault>
    requires one_each { vec_len stores ≡ schedule.nodes }
    ensures transcript { IfOk result (λ replayed. IsRunOver S.Stable stores.items schedule replayed.text.items) }
    ensures ended { IfOk result (λ replayed.
        (run : IsRunOver S.Stable stores.items schedule replayed.text.items)
        × (run.runs.end ≡ world_of replayed.world)) }
    ensures fault { IfErr result (EndsOver S.Stable stores.items schedule) }
{
    let world = start_world(alloc, &schedule, stores)?;
    run_lines(alloc, schedule, world)
}

/// The world in which the schedule's run over these storages begins, one for each of its nodes, in their order.
///
/// `NotEmpty` where one of them holds a record already, `Memory` where a growth was refused, told at the line that says how many nodes
/// there are. All of the storages were only read then.
pub fn start_world<S: Stable + Drop>(
    alloc: Global,
    schedule: &Schedule,
    stores: Vec<S>,
) -> Result<World<S>, ReplayFault>
    requires one_each { vec_len stores ≡ schedule.now.nodes }
    ensures started { IfOk result (λ world.
        IsStart (⟦<Scripted<S> as Stable>⟧) schedule.now.nodes (world_of world)) }
    ensures over { IfOk result (λ world. AreOver S.Stable stores.items (world_of world).nodes) }
    ensures fault { IfErr result (EndsOver S.Stable stores.items schedule.now) }
{
    match World::with(alloc, schedule.nodes(), stores) {
        Ok(world) => Ok(world),
        Err(fault) => Err(ReplayFault {
            line: schedule.first(),
            cause: ReplayCause::World(fault),
        }),
    }
}

/// The world once the schedule's lines are done in it, and the transcript of all that happened there.
///
/// The world may have any storages, and any past, which stands in the transcript too. As long as the storages inside
/// are honest the world is safe in which the run ends, with a fault as without.
pub fn run_lines<S: Stable + Drop>(
    alloc: Global,
    schedule: Schedule,
    world: World<S>,
) -> Result<Replayed<S>, ReplayFault>
    ensures transcript { IfOk result (λ replayed.
        RunsTo (⟦<Scripted<S> as Stable>⟧) S.IsHonest schedule (world_of world) replayed.text.items) }
    ensures ended { IfOk result (λ replayed.
        (run : RunsTo (⟦<Scripted<S> as Stable>⟧) S.IsHonest schedule (world_of world) replayed.text.items)
        × (run.end ≡ world_of replayed.world)) }
    ensures fault { IfErr result
        (RunFails (⟦<Scripted<S> as Stable>⟧) S.IsHonest schedule (world_of world)) }
{
    let mut world = world;
    let last = schedule.last();
    do_lines(alloc, &mut world, schedule.into_lines())?;
    match world_transcript(alloc, &world) {
        Ok(text) => Ok(Replayed { text, world }),
        Err(_) => Err(ReplayFault {
            line: last,
            cause: ReplayCause::World(WorldFault::Memory),
        }),
    }
}

/// The transcript of all that happened in the world.
pub fn world_transcript<S: Stable>(alloc: Global, world: &World<S>) -> Result<Vec<u8>, AllocError>
    ensures told { IfOk result (λ text. text.items ≡ told_of (world_of world.now)) }
    ensures safe { StaysSafe (⟦<Scripted<S> as Stable>⟧) S.IsHonest (world_of world.now) }
{
    transcript(
        alloc,
        world.outcomes(),
        world.learnt(),
        world.replies(),
        world.answers(),
    )
}

/// Hands on the transcript of all that happened in the world behind what waits, in parts for which there is room. Then nothing
/// waits.
pub fn print_transcript<S: Stable, K: Sink>(
    part: &mut Vec<u8>,
    sink: &mut K,
    world: &World<S>,
) -> io::Result<()>
    ensures handed { OnOk result (TakesInParts K.takes sink.old (part.old.items ++ told_of (world_of world.now)) sink.new) }
    ensures empty { OnOk result (part.new.items ≡ []) }
    ensures refused { OnErr result (K.HasFailed sink.new) }
{
    print_run(
        part,
        sink,
        world.outcomes(),
        world.learnt(),
        world.replies(),
        world.answers(),
    )
}

/// Does the lines in order, up to the first that can't be done. The world is as they left it, and safe, there as well: who asks for
/// more than a transcript looks at it.
pub fn do_lines<S: Stable>(
    alloc: Global,
    world: &mut World<S>,
    lines: Vec<ScheduleLine>,
) -> Result<(), ReplayFault>
    ensures ends { MatchResult result
        (λ _. Leads (⟦<Scripted<S> as Stable>⟧) lines.items (world_of world.old) (world_of world.new))
        (λ fault. EndsAt (⟦<Scripted<S> as Stable>⟧) lines.items (world_of world.old) fault (world_of world.new)) }
    ensures safe { OnErr result (StaysSafe (⟦<Scripted<S> as Stable>⟧) S.IsHonest (world_of world.new)) }
{
    for line in lines {
        do_line(alloc, world, line)?;
    }
    Ok(())
}

/// Does one line, if it can be done. Else the world is as it was, but for the frames that a flush has delivered, and the steps that a
/// round has made. Who reads the world's lists between two lines knows what came of each.
pub fn do_line<S: Stable>(
    alloc: Global,
    world: &mut World<S>,
    line: ScheduleLine,
) -> Result<(), ReplayFault>
    ensures done { MatchResult result
        (λ _. ActionIsDone (⟦<Scripted<S> as Stable>⟧) line.action (world_of world.old) (world_of world.new))
        (λ fault. RunIsStopped (⟦<Scripted<S> as Stable>⟧) line (world_of world.old) fault (world_of world.new)) }
    ensures safe { StaysSafe (⟦<Scripted<S> as Stable>⟧) S.IsHonest (world_of world.new) }
{
    let ScheduleLine { number, action } = line;
    match act(alloc, world, action) {
        Ok(()) => Ok(()),
        Err(fault) => Err(ReplayFault {
            line: number,
            cause: ReplayCause::World(fault),
        }),
    }
}

/// Does what a line asks for.
fn act<S: Stable>(alloc: Global, world: &mut World<S>, action: Action) -> Result<(), WorldFault>
    ensures done { MatchResult result
        (λ _. ActionIsDone (⟦<Scripted<S> as Stable>⟧) action (world_of world.old) (world_of world.new))
        (λ fault. ActionIsRefused (⟦<Scripted<S> as Stable>⟧) action (world_of world.old) fault (world_of world.new)) }
    ensures safe { StaysSafe (⟦<Scripted<S> as Stable>⟧) S.IsHonest (world_of world.new) }
{
    match action {
        Action::Step(event) => world.step(alloc, event),
        Action::Flush => {
            let _delivered = world.flush(alloc)?;
            Ok(())
        }
        Action::Round { node, members } => {
            let _end = world.round(alloc, node, members.as_slice())?;
            Ok(())
        }
    }
}
