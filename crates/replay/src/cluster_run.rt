//! A run of a schedule over a cluster.

ghost use Rattle.std.specs.Prelude.{◌≡◌, ◌++◌, IfErr, IfOk, MatchResult, OnErr, OnOk};
ghost use Rattle.cluster.specs.ClusterViews.{cluster_of, world_in};
ghost use Rattle.replay.specs.LineByLine.{AllDone, LineStops, StopsAtOne};
ghost use Rattle.world_model.specs.Staying.{IsSafeOver};
ghost use Rattle.replay.specs.ClusterRuns.{DoneThrough, FailsThrough, RefusedThrough, RunsThrough, strangers_line, text_of};

use super::report::transcript;
use cluster::{Cluster, Transport};
use events::WorldFault;
use schedule::{Action, ReplayCause, ReplayFault, Schedule, ScheduleLine};
use stable::{MemStable, Scripted, Stable};
use std::alloc::{AllocError, Global};
use std::io::{self, Write};

/// The transcript of all that happened in the cluster's world once the schedule's lines are done, and behind it how many strangers
/// came.
///
/// A `flush` is a pump: it delivers what the transport hands over. Every other line steps the world itself, and the frames
/// that it sends go through the transport; a frame that is dropped is dropped from the world, and not from the transport. In
/// which order things are learnt, and whether they are, is the transport's affair; whatever it does, what is told is true.
///
/// The world may have any past, which stands in the transcript too. An error is the first line that can't be done, as for a
/// replay; `FlushLimit` comes where a pump has made as many Delivers as it may. The cluster is left as the lines made it, up to
/// the one that can't be done.
pub fn run_through<T: Transport>(
    alloc: Global,
    schedule: Schedule,
    cluster: &mut Cluster<T>,
) -> Result<Vec<u8>, ReplayFault>
    ensures text { IfOk result (λ text. RunsThrough (⟦<T as Transport>⟧) schedule
        (cluster_of cluster.old) text.items (cluster_of cluster.new)) }
    ensures fault { IfErr result (λ fault. FailsThrough (⟦<T as Transport>⟧) schedule
        (cluster_of cluster.old) fault (cluster_of cluster.new)) }
{
    let last = schedule.last();
    do_lines_through(alloc, cluster, schedule.into_lines())?;
    match cluster_text(alloc, cluster) {
        Ok(text) => Ok(text),
        Err(_) => Err(ReplayFault {
            line: last,
            cause: ReplayCause::World(WorldFault::Memory),
        }),
    }
}

/// The transcript of all that happened in the cluster's world, and its strangers.
fn cluster_text<T: Transport>(alloc: Global, cluster: &Cluster<T>) -> Result<Vec<u8>, AllocError>
    ensures told { IfOk result (λ text. text.items ≡ text_of (cluster_of cluster.now)) }
    ensures safe { IsSafeOver (⟦<Scripted<MemStable> as Stable>⟧) (world_in cluster.now) }
{
    let world = cluster.world();
    let mut text = transcript(
        alloc,
        world.outcomes(),
        world.learnt(),
        world.replies(),
        world.answers(),
    )?;
    // A vector refuses bytes only where it can't grow.
    match print_strangers(&mut text, cluster.strangers()) {
        Ok(()) => Ok(text),
        Err(_) => Err(AllocError),
    }
}

/// Adds the line that tells how many strangers came.
fn print_strangers(text: &mut Vec<u8>, count: u64) -> io::Result<()>
    ensures { OnOk result (text.new.items ≡ text.old.items ++ strangers_line count) }
{
    write!(text, "strangers {}\n", count)
}

/// Does the lines in order, up to the first that can't be done.
fn do_lines_through<T: Transport>(
    alloc: Global,
    cluster: &mut Cluster<T>,
    lines: Vec<ScheduleLine>,
) -> Result<(), ReplayFault>
    ensures ends { MatchResult result
        (λ _. AllDone (DoneThrough (⟦<T as Transport>⟧)) lines.items (cluster_of cluster.old) (cluster_of cluster.new))
        (λ fault. StopsAtOne (DoneThrough (⟦<T as Transport>⟧)) (RefusedThrough (⟦<T as Transport>⟧))
        lines.items (cluster_of cluster.old) fault (cluster_of cluster.new)) }
    ensures safe { OnErr result (IsSafeOver (⟦<Scripted<MemStable> as Stable>⟧) (world_in cluster.new)) }
{
    for line in lines {
        do_line_through(alloc, cluster, line)?;
    }
    Ok(())
}

/// Does one line, if it can be done.
fn do_line_through<T: Transport>(
    alloc: Global,
    cluster: &mut Cluster<T>,
    line: ScheduleLine,
) -> Result<(), ReplayFault>
    ensures done { MatchResult result
        (λ _. DoneThrough (⟦<T as Transport>⟧) line.action (cluster_of cluster.old) (cluster_of cluster.new))
        (λ fault. LineStops (RefusedThrough (⟦<T as Transport>⟧)) line (cluster_of cluster.old) fault (cluster_of cluster.new)) }
    ensures safe { IsSafeOver (⟦<Scripted<MemStable> as Stable>⟧) (world_in cluster.new) }
{
    let ScheduleLine { number, action } = line;
    match act_through(alloc, cluster, action) {
        Ok(()) => Ok(()),
        Err(fault) => Err(ReplayFault {
            line: number,
            cause: ReplayCause::World(fault),
        }),
    }
}

/// Does what a line asks for.
fn act_through<T: Transport>(
    alloc: Global,
    cluster: &mut Cluster<T>,
    action: Action,
) -> Result<(), WorldFault>
    ensures done { MatchResult result
        (λ _. DoneThrough (⟦<T as Transport>⟧) action (cluster_of cluster.old) (cluster_of cluster.new))
        (λ fault. RefusedThrough (⟦<T as Transport>⟧) action (cluster_of cluster.old) fault (cluster_of cluster.new)) }
    ensures safe { IsSafeOver (⟦<Scripted<MemStable> as Stable>⟧) (world_in cluster.new) }
{
    match action {
        Action::Step(event) => cluster.step(alloc, event),
        Action::Flush => {
            let _delivered = cluster.pump(alloc)?;
            Ok(())
        }
        Action::Round { node, members } => {
            let _end = cluster.round(alloc, node, members.as_slice())?;
            Ok(())
        }
    }
}
