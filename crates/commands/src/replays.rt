//! Replays: a schedule's run over records in memory, or over those that an archive opens.

ghost use Rattle.std.specs.Prelude.{◌≡◌, ◌≢◌, ◌⊎◌, ℕ, List, true, IfErr, IfOk, OnOk, vec_len};
ghost use Rattle.replay.specs.Runs.{IsReplay, IsRunOver, told_of};
ghost use Rattle.schedule.specs.Schedules.{IsScheduleOf};
ghost use Rattle.commands.specs.Archives.{EndsKept, HandsNone, HandsOut, IsKept, IsSettledAfter};
ghost use Rattle.commands.specs.Streams.{Takes};
ghost use Rattle.commands.specs.Works.{IsUnread, ReplayStops, StopsOver};
ghost use Rattle.world.specs.Seen.{world_of};

use crate::failures::{replay_failure, run_failure};
use crate::{Archive, CheckedStream, Failure};
use replay::{print_transcript, replay_text, run, world_transcript};
use schedule::{Schedule, parse_schedule};
use stable::{MemStable, Scripted, Stable};
use std::alloc::Global;
use std::io::Write;
use std::mem;
use wire::Nodes;
use world::World;

/// A part of a transcript has at most this many bytes, but for one that is a longer answer's text.
const PART: usize = 65_536;

/// Prints the transcript of the schedule that the bytes spell, run over records in memory.
///
/// Each line is done once it is read. Nothing is printed before the run has come to its end and there is room for a part; from then on
/// only the stream can fail.
pub fn print_replay<O: Write>(
    alloc: Global,
    bytes: &[u8],
    out: &mut CheckedStream<O>,
) -> Result<(), Failure>
    ensures printed { OnOk result ((text : List ℕ)
        × IsReplay (⟦<Scripted<MemStable> as Stable>⟧) bytes.now text × Takes O.contents out.old out.new text) }
    ensures ends { IfErr result (λ failure. ((out.new ≡ out.old) × (failure ≢ Failure.Memory
        → ReplayStops (⟦<Scripted<MemStable> as Stable>⟧) bytes.now failure))
        ⊎ ((failure ≡ Failure.Device) × (text : List ℕ)
        × IsReplay (⟦<Scripted<MemStable> as Stable>⟧) bytes.now text × (out.new.has_failed ≡ true))) }
{
    let world = match replay_text(alloc, bytes) {
        Ok(world) => world,
        Err(fault) => return Err(replay_failure(fault)),
    };
    let printed = print_world(alloc, &world, out);
    // The process that prints a transcript ends with it, and the system takes back at once all that it holds. Giving
    // back hundreds of thousands of frames one by one would cost a good part of the run's time.
    mem::forget(world);
    printed
}

/// Prints the transcript of all that happened in the world, part by part.
fn print_world<O: Write>(
    alloc: Global,
    world: &World<MemStable>,
    out: &mut CheckedStream<O>,
) -> Result<(), Failure>
    ensures printed { OnOk result (Takes O.contents out.old out.new (told_of (world_of world.now))) }
    ensures ends { IfErr result (λ failure. ((failure ≡ Failure.Memory) × (out.new ≡ out.old))
        ⊎ ((failure ≡ Failure.Device) × (out.new.has_failed ≡ true))) }
{
    let mut part = Vec::with_capacity(alloc, PART)?;
    match print_transcript(&mut part, out, world) {
        Ok(()) => Ok(()),
        Err(_) => Err(Failure::Device),
    }
}

/// The transcript of the schedule that the bytes spell, run over records in memory.
///
/// The memory of the world in which the run ended is not given back: it is kept until the process ends.
pub fn replay_in_memory(alloc: Global, bytes: &[u8]) -> Result<Vec<u8>, Failure>
    ensures replay { IfOk result (λ text.
        IsReplay (⟦<Scripted<MemStable> as Stable>⟧) bytes.now text.items) }
    ensures ends { IfErr result (λ failure. failure ≢ Failure.Memory
        → ReplayStops (⟦<Scripted<MemStable> as Stable>⟧) bytes.now failure) }
{
    match replay_text(alloc, bytes) {
        Ok(world) => tell_world(alloc, world),
        Err(fault) => Err(replay_failure(fault)),
    }
}

/// The transcript of all that happened in the world, which is not given back.
fn tell_world(alloc: Global, world: World<MemStable>) -> Result<Vec<u8>, Failure>
    ensures told { IfOk result (λ text. text.items ≡ told_of (world_of world)) }
    ensures memory { IfErr result (λ failure. failure ≡ Failure.Memory) }
{
    let text = world_transcript(alloc, &world);
    mem::forget(world);
    Ok(text?)
}

/// The transcript of the schedule that the bytes spell, whose nodes keep their records under the folder's name.
///
/// The schedule is parsed before the archive is asked for anything. Whether a run has left records open there is asked before they are
/// opened, as it decides what is settled after a run that makes no transcript.
pub fn replay<A: Archive>(
    rt: &HostRuntime,
    archive: &mut A,
    folder: &str,
    bytes: &[u8],
) -> Result<Vec<u8>, Failure>
    ensures kept { IfOk result (λ text. IsKept A.Archive A.Records.Stable folder.now bytes.now archive.old text.items archive.new) }
    ensures ends { IfErr result (λ failure. EndsKept A.Archive A.Records.Stable folder.now bytes.now archive.old failure archive.new) }
    ensures no_usage { IfErr result (λ failure. failure ≢ Failure.Usage) }
{
    let schedule = read_schedule(rt.alloc(), bytes)?;
    let count = schedule.nodes();
    let was_left_open = archive.has_unmerged_log(rt, folder, count)?;
    match run_in_folder(rt, archive, folder, schedule) {
        Ok(text) => {
            archive.merge_logs(rt, folder, count);
            Ok(text)
        }
        Err(failure) => {
            settle_after(rt, archive, folder, count, was_left_open, failure);
            Err(failure)
        }
    }
}

/// The schedule that the bytes spell.
pub(crate) fn read_schedule(alloc: Global, bytes: &[u8]) -> Result<Schedule, Failure>
    ensures spelled { IfOk result (IsScheduleOf bytes.now) }
    ensures ends { IfErr result (λ failure. failure ≢ Failure.Memory → IsUnread bytes.now failure) }
{
    match parse_schedule(alloc, bytes) {
        Ok(schedule) => Ok(schedule),
        Err(fault) => Err(replay_failure(fault)),
    }
}

/// The transcript of the schedule's run over records under the folder's name.
fn run_in_folder<A: Archive>(
    rt: &HostRuntime,
    archive: &mut A,
    folder: &str,
    schedule: Schedule,
) -> Result<Vec<u8>, Failure>
    ensures made { IfOk result (λ text. (stores : List A.Records)
        × HandsOut A.Archive folder.now schedule.nodes archive.old stores archive.new
        × IsRunOver A.Records.Stable stores schedule text.items) }
    ensures ends { IfErr result (λ failure. HandsNone A.Archive folder.now schedule.nodes archive.old failure archive.new
        ⊎ ((stores : List A.Records)
        × HandsOut A.Archive folder.now schedule.nodes archive.old stores archive.new
        × (failure ≢ Failure.Memory → StopsOver A.Records.Stable stores schedule failure))) }
    ensures no_usage { IfErr result (λ failure. failure ≢ Failure.Usage) }
{
    let stores = archive.open(rt, folder, schedule.nodes())?;
    run_over(rt.alloc(), schedule, stores)
}

/// The transcript of the schedule's run over these storages, one for each of its nodes, which are dropped with their world, and so
/// closed, before it is handed out.
fn run_over<S: Stable + Drop>(
    alloc: Global,
    schedule: Schedule,
    stores: Vec<S>,
) -> Result<Vec<u8>, Failure>
    requires one_each { vec_len stores ≡ schedule.nodes }
    ensures makes { IfOk result (λ text. IsRunOver S.Stable stores.items schedule text.items) }
    ensures ends { IfErr result (λ failure. failure ≢ Failure.Memory
        → StopsOver S.Stable stores.items schedule failure) }
{
    match run(alloc, schedule, stores) {
        Ok(replayed) => Ok(replayed.text),
        Err(fault) => Err(run_failure(fault)),
    }
}

/// Settles the archive after a run that ended so. What a crash had left open is settled where the run came to a line that can't be
/// done, as it was over no records then; else there may be records beside it, where nothing is to be changed.
fn settle_after<A: Archive>(
    rt: &HostRuntime,
    archive: &mut A,
    folder: &str,
    count: Nodes,
    was_left_open: bool,
    failure: Failure,
)
    ensures { IsSettledAfter A.Archive was_left_open failure folder.now count archive.old archive.new }
{
    if !was_left_open || matches!(failure, Failure::Schedule(_)) {
        archive.merge_logs(rt, folder, count);
    }
}
