//! Every example, vectors from outside, and timed loops over queries, documents, commands, frames and the parts of a node.
//!
//! `conformance WORK SIZE ROUNDS` does one work so many times, on a moving point of so many points or a part of a node with so
//! many entries, and prints the sum of the answers, which is the same on every machine. It reads no clock: the scripts in
//! `bench/` do. Without arguments it does so for each line of the input. The expected sums in `stdout` come from the definitions,
//! by other programs. A line `frame NODES FRAME` or `vote RECORD`, in hexadecimal, is decoded and encoded again; `document TEXT`
//! is answered with the canonical document; each with its fault where it has one. A line `examples` runs every example of the
//! folder.
//!
//! `examples` runs the examples, and `outcome` says what each comes to. `vectors` has frames, votes and documents from outside,
//! and `timing` the loops.
#![tactic(auto)]

mod examples;
mod fault;
mod outcome;
mod timing;
mod vectors;

ghost use Rattle.std.specs.Prelude.{◌≡◌, ◌≢◌, IfErr, IfOk, map, string_bytes};
ghost use Rattle.std.specs.IoError.{error_kind};
ghost use Rattle.std.specs.Process.{exit_status};
ghost use Rattle.conformance.specs.Faults.{IsUntimed, status_of};
ghost use Rattle.conformance.specs.Tasks.{AsksForTask};
ghost use Rattle.conformance.specs.declared.timing.task.Task.{Task};

use crate::examples::run_examples;
use crate::fault::Fault;
use crate::timing::{sum, task_of};
use crate::vectors::{document_again, frame_again, vote_again};
use std::alloc::Global;
use std::env;
use std::fmt::Display;
use std::io::{self, ErrorKind, Read};
use std::process::ExitCode;

fn main(rt: HostRuntime) -> ExitCode {
    match answered(&rt) {
        Ok(()) => ExitCode::SUCCESS,
        Err(fault) => told(&rt, fault),
    }
}

/// Prints the sum of the task that the words after the program's name ask for, or where there are none, what each line of the
/// input comes to.
fn answered(rt: &HostRuntime) -> Result<(), Fault> {
    let words = own_words(rt)?;
    if words.is_empty() {
        return answer_lines(rt);
    }
    let sum = sum_of(rt, words.as_slice())?;
    print(rt, Ok(sum))
}

/// The words after the program's name.
fn own_words(rt: &HostRuntime) -> Result<Vec<String>, Fault> {
    let all = match env::args(rt) {
        Ok(all) => all,
        Err(error) => return Err(words_fault(&error)),
    };
    let mut words = Vec::new(rt.alloc());
    for word in all.skip(1) {
        words.push(word)?;
    }
    Ok(words)
}

/// Prints for each line of the input the sum of the task that its words ask for, or what is read again, or why there is none.
fn answer_lines(rt: &HostRuntime) -> Result<(), Fault> {
    let mut lines = String::new(rt.alloc());
    if rt.stdin().read_to_string(&mut lines).is_err() {
        return Err(Fault::Device);
    }
    for line in lines.lines() {
        answer_line(rt, line)?;
    }
    Ok(())
}

/// Prints what a line comes to. One example that comes to something else ends the run.
fn answer_line(rt: &HostRuntime, line: &str) -> Result<(), Fault> {
    if line == "examples" {
        return run_examples(rt);
    }
    match again(rt.alloc(), line) {
        Some(told) => print(rt, told),
        None => print(rt, answer(rt, line)),
    }
}

/// What a line comes to that has a frame, a vote or a document; None where it has none.
fn again(alloc: Global, line: &str) -> Option<Result<String, Fault>> {
    let (kind, behind) = line.split_once(' ').unwrap_or((line, ""));
    match kind {
        "frame" => Some(frame_again(alloc, behind)),
        "vote" => Some(vote_again(alloc, behind)),
        "document" => Some(document_again(alloc, behind)),
        _ => None,
    }
}

/// Prints what a line of the input comes to, or why it comes to nothing.
fn print<T: Display + Drop>(rt: &HostRuntime, told: Result<T, Fault>) -> Result<(), Fault> {
    let printed = match told {
        Ok(answer) => println!(rt; "{answer}"),
        Err(fault) => println!(rt; "{fault}"),
    };
    match printed {
        Ok(()) => Ok(()),
        Err(_) => Err(Fault::Device),
    }
}

/// The sum of the task that the words of the line ask for, which lie apart by blanks.
fn answer(rt: &HostRuntime, line: &str) -> Result<u64, Fault> {
    let mut words = Vec::new(rt.alloc());
    for word in line.split(' ') {
        words.push(String::from_str(rt.alloc(), word)?)?;
    }
    sum_of(rt, words.as_slice())
}

/// The sum of the task that the words ask for.
fn sum_of(rt: &HostRuntime, words: &[String]) -> Result<u64, Fault>
    ensures asks { IfOk result (λ _. (task : Task) × AsksForTask (map string_bytes words.now) task) }
    ensures err { IfErr result IsUntimed }
{
    let Some(task) = task_of(words) else {
        return Err(Fault::Usage);
    };
    let total = sum(rt.alloc(), task)?;
    Ok(total)
}

/// What words that can't be had are to the program: those that are no text ask for nothing.
fn words_fault(error: &io::Error) -> Fault
    ensures memory { error_kind error.now ≡ ErrorKind.OutOfMemory → result ≡ Fault.Memory }
    ensures usage { error_kind error.now ≢ ErrorKind.OutOfMemory → result ≡ Fault.Usage }
{
    match error.kind() {
        ErrorKind::OutOfMemory => Fault::Memory,
        _ => Fault::Usage,
    }
}

/// Says why nothing is done, and the status that tells it.
fn told(rt: &HostRuntime, fault: Fault) -> ExitCode
    ensures { exit_status result ≡ status_of fault }
{
    let _ = eprintln!(rt; "conformance: {fault}");
    ExitCode::from(fault.status())
}
