//! Runs of schedules: told line by line, or drawn.

use crate::failure::Failure;
use crate::faults::tell_faults;
use crate::files::{read_file, write_file};
use crate::progress::Progress;
use events::WorldFault;
use schedule::forms::decimal;
use schedule::{ReplayCause, ReplayFault};
use story::{Account, Form, draw, tell};

/// Tells what came of each line of the schedule in this file.
pub(crate) fn show_run(
    rt: &HostRuntime,
    file: &str,
    frames: bool,
    json: bool,
    progress: Progress,
) -> Result<u8, Failure> {
    let bytes = read_file(rt, file, progress)?;
    let form = if json { Form::Json } else { Form::Words };
    let told = tell(
        rt.alloc(),
        bytes.as_slice(),
        form,
        frames,
        &mut progress.watch(rt),
    );
    write_account(rt, file, "-", bytes.as_slice(), told, progress)
}

/// Draws the frames of its run, from and to these, where they are named.
pub(crate) fn show_drawing(
    rt: &HostRuntime,
    file: &str,
    output: &str,
    from: Option<&str>,
    to: Option<&str>,
    progress: Progress,
) -> Result<u8, Failure> {
    let from = frame_of(from)?;
    let to = frame_of(to)?;
    let bytes = read_file(rt, file, progress)?;
    let drawn = draw(
        rt.alloc(),
        bytes.as_slice(),
        from,
        to,
        &mut progress.watch(rt),
    );
    write_account(rt, file, output, bytes.as_slice(), drawn, progress)
}

/// The number of a frame, where one is named.
fn frame_of(word: Option<&str>) -> Result<Option<usize>, Failure> {
    let Some(word) = word else {
        return Ok(None);
    };
    match decimal(word.as_bytes()) {
        Some(number) => Ok(Some(number as usize)),
        None => Err(Failure::NoNumber),
    }
}

/// Writes what was made of a run, and answers 1 where it ended with a fault. Of a file that is no schedule its faults are told.
fn write_account(
    rt: &HostRuntime,
    file: &str,
    output: &str,
    bytes: &[u8],
    made: Result<Account, ReplayFault>,
    progress: Progress,
) -> Result<u8, Failure> {
    match made {
        Ok(account) => {
            let text = account.text.as_slice();
            progress.tell_done(rt, text.len());
            write_file(rt, output, text, progress)?;
            Ok(if account.fault.is_some() { 1 } else { 0 })
        }
        Err(fault) => match fault.cause {
            ReplayCause::World(WorldFault::Memory) => Err(Failure::Memory),
            _ => tell_faults(rt, file, bytes),
        },
    }
}
