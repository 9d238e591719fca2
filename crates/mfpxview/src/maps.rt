//! Fleets on maps.

use crate::failure::Failure;
use crate::faults::tell_faults;
use crate::files::{read_file, write_file};
use crate::progress::Progress;
use events::WorldFault;
use mfjson::datetime_read;
use run_map::{MapFault, map};
use schedule::ReplayCause;
use schedule::forms::decimal;
use tpoint::Instant;

/// Draws the fleet that the run of the schedule in this file leaves at a node, by itself node 0, at an instant, by itself the last of any
/// feature. It answers 1 where the run ended with a fault, and where there is no fleet, which is told then.
pub(crate) fn show_map(
    rt: &HostRuntime,
    file: &str,
    output: &str,
    at: Option<&str>,
    node: Option<&str>,
    progress: Progress,
) -> Result<u8, Failure> {
    let at = instant_of(at)?;
    let node = node_of(node)?;
    let bytes = read_file(rt, file, progress)?;
    let watch = &mut progress.watch(rt);
    match map(rt.alloc(), bytes.as_slice(), at, node, watch) {
        Ok(drawn) => {
            let text = drawn.text.as_slice();
            progress.tell_done(rt, text.len());
            write_file(rt, output, text, progress)?;
            Ok(if drawn.end.is_some() { 1 } else { 0 })
        }
        Err(MapFault::Memory) => Err(Failure::Memory),
        Err(MapFault::Schedule(fault)) => match fault.cause {
            ReplayCause::World(WorldFault::Memory) => Err(Failure::Memory),
            _ => tell_faults(rt, file, bytes.as_slice()),
        },
        Err(fault) => {
            let _ = eprintln!(rt; "mfpxview: {file}: {fault}");
            Ok(1)
        }
    }
}

/// The instant of a datetime, where one is named.
fn instant_of(word: Option<&str>) -> Result<Option<Instant>, Failure> {
    let Some(word) = word else {
        return Ok(None);
    };
    match datetime_read(word.as_bytes()) {
        Some(t) => Ok(Some(t)),
        None => Err(Failure::NoDatetime),
    }
}

/// The number of a node, where one is named.
fn node_of(word: Option<&str>) -> Result<u8, Failure> {
    let Some(word) = word else {
        return Ok(0);
    };
    match decimal(word.as_bytes()) {
        Some(number) => u8::try_from(number).map_err(|_| Failure::NoNode),
        None => Err(Failure::NoNode),
    }
}
