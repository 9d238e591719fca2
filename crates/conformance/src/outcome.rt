//! What comes of an example.

ghost use Rattle.std.specs.Prelude.{◌≡◌, ◌≢◌, codes, IfErr, IfOk, MatchOption, OnOk};
ghost use Rattle.commands.specs.Failures.{line_text};
ghost use Rattle.conformance.specs.Outcomes.{EndsWith, IsOutcome, Makes, input_ending, text_ending};

use commands::{Failure, check, replay_in_memory};
use stable::{MemStable, Scripted, Stable};
use std::alloc::Global;

/// What a file that goes into a run holds.
#[derive(Clone, Copy)]
pub(crate) enum Kind {
    /// A schedule, which is run.
    Schedule,
    /// A document, whose canonical form is made.
    Document,
}

/// What comes of a run, and the ending of the file that has it.
#[derive(Drop)]
pub(crate) struct Outcome {
    /// `transcript` and `canonical` for standard output, `error` for standard error.
    pub(crate) ending: &'static str,
    pub(crate) text: Vec<u8>,
}

/// What files of this ending hold, where they go into a run.
pub(crate) fn kind_of(ending: &str) -> Option<Kind>
    ensures { MatchOption result ((kind : Kind) → ending.now ≢ input_ending kind)
        (λ kind. ending.now ≡ input_ending kind) }
{
    match ending {
        "schedule" => Some(Kind::Schedule),
        "json" => Some(Kind::Document),
        _ => None,
    }
}

/// What the program prints where it replays or checks the bytes: to standard output what is made of
/// them, or to standard error why nothing is. Want of memory is an error, as it tells nothing of
/// the bytes.
pub(crate) fn outcome_of(alloc: Global, kind: Kind, bytes: &[u8]) -> Result<Outcome, Failure>
    ensures ok { IfOk result (IsOutcome (⟦<Scripted<MemStable> as Stable>⟧) kind bytes.now) }
    ensures err { IfErr result (λ refusal. refusal ≡ Failure.Memory) }
{
    match made(alloc, kind, bytes) {
        Ok(text) => Ok(Outcome {
            ending: ending_of(kind),
            text,
        }),
        Err(failure) => told(alloc, failure),
    }
}

/// What is made of such a file.
fn made(alloc: Global, kind: Kind, bytes: &[u8]) -> Result<Vec<u8>, Failure>
    ensures makes { IfOk result (λ text. Makes (⟦<Scripted<MemStable> as Stable>⟧) kind bytes.now text.items) }
    ensures ends { IfErr result (λ failure. failure ≢ Failure.Memory
        → EndsWith (⟦<Scripted<MemStable> as Stable>⟧) kind bytes.now failure) }
{
    match kind {
        Kind::Schedule => replay_in_memory(alloc, bytes),
        Kind::Document => check(alloc, bytes),
    }
}

/// The ending of the file with what is made.
fn ending_of(kind: Kind) -> &'static str
    ensures { result.now ≡ text_ending kind }
{
    match kind {
        Kind::Schedule => "transcript",
        Kind::Document => "canonical",
    }
}

/// A run that ends with this failure's line of standard error.
fn told(alloc: Global, failure: Failure) -> Result<Outcome, Failure>
    ensures ending { IfOk result (λ outcome. outcome.ending.now ≡ codes "error") }
    ensures line { IfOk result (λ outcome. outcome.text.items ≡ line_text failure) }
    ensures not_memory { OnOk result (failure ≢ Failure.Memory) }
    ensures err { IfErr result (λ refusal. refusal ≡ Failure.Memory) }
{
    if let Failure::Memory = failure {
        return Err(Failure::Memory);
    }
    let mut line = Vec::new(alloc);
    match failure.tell(&mut line) {
        Ok(()) => Ok(Outcome {
            ending: "error",
            text: line,
        }),
        // A vector takes whatever memory is there for.
        Err(_) => Err(Failure::Memory),
    }
}
