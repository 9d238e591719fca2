//! Runs every example, and compares what comes of it with what has to.
//!
//! An example is two files of the folder that this is run in, by one name: a schedule or a document,
//! and beside it what comes of it. The names of all schedules and documents are printed, in their
//! order, and below each what came of it. An example that comes to something else is reported and ends
//! the run with status 1, and so does a file that belongs to no example. Folders are passed over.

use crate::fault::Fault;
use crate::outcome::{Kind, Outcome, kind_of, outcome_of};
use std::fs::{self, DirEntry};
use std::io::{self, Write};

/// Runs all examples, and prints the name of each and what came of it.
pub fn run_examples(rt: &HostRuntime) -> Result<(), Fault> {
    let names = names_in(rt, ".")?;
    let mut inputs = 0u64;
    for name in names.iter() {
        if let Some((stem, kind)) = input_of(name.as_str()) {
            run_example(rt, name.as_str(), stem, kind)?;
            inputs = inputs.saturating_add(1);
        }
    }
    if inputs.saturating_mul(2) != names.len() as u64 {
        return Err(Fault::StrayFile);
    }
    Ok(())
}

/// The names of the folder's files, in their order.
fn names_in(rt: &HostRuntime, folder: &str) -> Result<Vec<String>, Fault> {
    let Ok(entries) = fs::read_dir(rt, folder) else {
        return Err(Fault::Device);
    };
    let mut names = Vec::new(rt.alloc());
    for entry in entries {
        if let Some(name) = name_of(rt, entry)? {
            names.push(name)?;
        }
    }
    names.sort()?;
    Ok(names)
}

/// The name of a file; None of a folder, which holds no examples.
fn name_of(rt: &HostRuntime, entry: io::Result<DirEntry>) -> Result<Option<String>, Fault> {
    let Ok(entry) = entry else {
        return Err(Fault::Device);
    };
    match entry.file_type() {
        Ok(kind) if kind.is_dir() => Ok(None),
        Ok(_) => Ok(Some(String::from_str(rt.alloc(), entry.file_name())?)),
        Err(_) => Err(Fault::Device),
    }
}

/// What the file of this name holds, where it goes into a run, and the name without its ending.
fn input_of(name: &str) -> Option<(&str, Kind)> {
    let (stem, ending) = name.rsplit_once('.')?;
    Some((stem, kind_of(ending)?))
}

/// Prints an example, once what comes of it is the file beside it.
fn run_example(rt: &HostRuntime, name: &str, stem: &str, kind: Kind) -> Result<(), Fault> {
    let Ok(bytes) = fs::read(rt, name) else {
        return Err(Fault::Device);
    };
    let outcome = outcome_of(rt.alloc(), kind, bytes.as_slice())?;
    if !is_beside(rt, stem, &outcome)? {
        let _ = eprintln!(rt; "{name} comes to something else than the file beside it");
        return Err(Fault::Example);
    }
    match print_example(rt, name, outcome.text.as_slice()) {
        Ok(()) => Ok(()),
        Err(_) => Err(Fault::Device),
    }
}

/// Prints the name, and below it what came of it.
fn print_example(rt: &HostRuntime, name: &str, text: &[u8]) -> io::Result<()> {
    println!(rt; "{name}")?;
    rt.stdout().write_all(text)
}

/// Whether the file of this name that has such outcomes is this one.
fn is_beside(rt: &HostRuntime, stem: &str, outcome: &Outcome) -> Result<bool, Fault> {
    let ending = outcome.ending;
    let beside = format!(in rt.alloc(); "{stem}.{ending}")?;
    match fs::read(rt, beside.as_str()) {
        Ok(wanted) => Ok(outcome.text.as_slice() == wanted.as_slice()),
        Err(_) => Err(Fault::Device),
    }
}
