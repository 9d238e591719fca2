//! Audits of transcripts.

use crate::failure::{Failure, FileFailure};
use crate::faults::tell_faults;
use crate::files::{read_file, write_file};
use crate::progress::Progress;
use audit::{AuditFault, audit, report, status};
use events::WorldFault;
use schedule::ReplayCause;
use verdicts::Verdict;

/// Tells whether one list of commands explains what the transcripts tell of runs of the schedule, and answers the verdict's status. Of a
/// file that is no schedule its faults are told.
pub(crate) fn show_audit<'a>(
    rt: &HostRuntime,
    schedule: &'a str,
    transcripts: &[&'a str],
    progress: Progress,
) -> Result<u8, FileFailure<'a>> {
    if names_input_twice(schedule, transcripts) {
        return Err(FileFailure {
            file: "-",
            failure: Failure::InputTwice,
        });
    }
    let bytes = read_named(rt, schedule, progress)?;
    let mut read = Vec::new(rt.alloc());
    for file in transcripts {
        let transcript = read_named(rt, file, progress)?;
        if let Err(_) = read.push(transcript) {
            return Err(FileFailure {
                file,
                failure: Failure::Memory,
            });
        }
    }
    match tell_audit(
        rt,
        schedule,
        bytes.as_slice(),
        transcripts,
        read.as_slice(),
        progress,
    ) {
        Ok(status) => Ok(status),
        Err(failure) => Err(FileFailure {
            file: schedule,
            failure,
        }),
    }
}

/// Whether more than one of the files is standard input, which can be read once.
fn names_input_twice(schedule: &str, transcripts: &[&str]) -> bool {
    let mut is_named = schedule == "-";
    for file in transcripts {
        let is_input = *file == "-";
        if is_named && is_input {
            return true;
        }
        is_named = is_named || is_input;
    }
    false
}

/// The bytes of the file, or that it fails.
fn read_named<'a>(
    rt: &HostRuntime,
    file: &'a str,
    progress: Progress,
) -> Result<Vec<u8>, FileFailure<'a>> {
    match read_file(rt, file, progress) {
        Ok(bytes) => Ok(bytes),
        Err(failure) => Err(FileFailure { file, failure }),
    }
}

/// Tells the verdict on these transcripts, or what is wrong with the schedule.
fn tell_audit(
    rt: &HostRuntime,
    schedule: &str,
    bytes: &[u8],
    names: &[&str],
    transcripts: &[Vec<u8>],
    progress: Progress,
) -> Result<u8, Failure> {
    match audit(rt.alloc(), bytes, transcripts) {
        Ok(verdict) => write_verdict(rt, &verdict, names, progress),
        Err(AuditFault::Schedule(fault)) => match fault.cause {
            ReplayCause::World(WorldFault::Memory) => Err(Failure::Memory),
            _ => tell_faults(rt, schedule, bytes),
        },
        Err(AuditFault::Memory) => Err(Failure::Memory),
    }
}

/// Writes the verdict as a line, and answers its status.
fn write_verdict(
    rt: &HostRuntime,
    verdict: &Verdict,
    names: &[&str],
    progress: Progress,
) -> Result<u8, Failure> {
    let text = report(rt.alloc(), verdict, names)?;
    let line = format!(in rt.alloc(); "{text}\n")?;
    let text = line.as_str().as_bytes();
    progress.tell_done(rt, text.len());
    write_file(rt, "-", text, progress)?;
    Ok(status(verdict))
}
