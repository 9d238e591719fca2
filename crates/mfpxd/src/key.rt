//! The run's name and key.

use crate::refusal::Refusal;
use crate::stop::Stop;
use peers::{NAME, Run};
use std::fs;
use std::os::unix::fs::PermissionsExt;

/// A key has at least so many bytes.
const LEAST_KEY: usize = 32;

/// What others than the owner may do with a file.
const OTHERS: u32 = 0o077;

/// The run of the name and the key in this file, and its name. Only the file's owner may be allowed to use it.
pub fn read_run(rt: &HostRuntime, path: &str) -> Result<(Run, [u8; NAME]), Stop> {
    let Ok(metadata) = fs::metadata(rt, path) else {
        return Err(Stop::Refused(Refusal::NoKey));
    };
    if metadata.permissions().mode() & OTHERS != 0 {
        return Err(Stop::Refused(Refusal::SharedKey));
    }
    let bytes = fs::read(rt, path)?;
    match run_in(bytes.as_slice()) {
        Some(run) => Ok(run),
        None => Err(Stop::Refused(Refusal::ShortKey)),
    }
}

/// The run whose name stands first in these bytes and whose key is the rest, and its name. None where the key is too short.
fn run_in(bytes: &[u8]) -> Option<(Run, [u8; NAME])> {
    if bytes.len() < NAME + LEAST_KEY {
        return None;
    }
    let (front, key) = bytes.split_at(NAME);
    let mut name = [0; NAME];
    name.copy_from_slice(front);
    Some((Run::new(name, key), name))
}
