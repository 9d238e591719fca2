//! A verdict as it is printed.

ghost use Rattle.std.specs.Prelude.{◌≡◌, IfOk, map, slice_get, string_bytes};
ghost use Rattle.audit.specs.Statuses.{status_of};
ghost use Rattle.audit.specs.Texts.{contradiction_text, name_or_mark, two_operations_text, verdict_text, why_text};

use std::alloc::{AllocError, Global};
use verdicts::{Verdict, Why};

/// The exit status of a program that prints the verdict: 0 where a list explains all lines, 1 at a contradiction, and 3 where
/// nothing is claimed.
pub fn status(verdict: &Verdict) -> u8
    ensures { result ≡ status_of verdict.now }
{
    match verdict {
        Verdict::Explained => 0,
        Verdict::Contradicted { .. } => 1,
        Verdict::UnlearntSlot(_) | Verdict::TwoOperations { .. } => 3,
    }
}

/// The verdict in one line, where the transcripts have these names. It has no line feed.
///
/// `explained`; `NAME:LINE: why`; `undecided: slot 4`; or `undecided: 7:1 is submitted with two operations`. A transcript
/// without a name is `?`.
pub fn report(alloc: Global, verdict: &Verdict, names: &[&str]) -> Result<String, AllocError>
    ensures { IfOk result (λ text. string_bytes text ≡ verdict_text (map (λ name. name.now) names.now) verdict.now) }
{
    match verdict {
        Verdict::Explained => String::from_str(alloc, "explained"),
        Verdict::Contradicted { place, why } => {
            contradiction(alloc, name_at(names, place.file), place.line, *why)
        }
        Verdict::UnlearntSlot(slot) => format!(in alloc; "undecided: slot {slot}"),
        Verdict::TwoOperations { client, number } => two_operations(alloc, *client, *number),
    }
}

/// The line of a contradiction, in the transcript of this name.
fn contradiction(alloc: Global, name: &str, line: usize, why: Why) -> Result<String, AllocError>
    ensures { IfOk result (λ text. string_bytes text ≡ contradiction_text name.now line why) }
{
    let why = words_of(why);
    format!(in alloc; "{name}:{line}: {why}")
}

/// The line of a request that is submitted with two operations.
fn two_operations(alloc: Global, client: u8, number: u64) -> Result<String, AllocError>
    ensures { IfOk result (λ text. string_bytes text ≡ two_operations_text client number) }
{
    format!(in alloc; "undecided: {client}:{number} is submitted with two operations")
}

/// The name of the transcript.
fn name_at<'a>(names: &[&'a str], file: usize) -> &'a str
    ensures { result.now ≡ name_or_mark (slice_get (map (λ name. name.now) names.now) file) }
{
    match names.get(file) {
        Some(name) => name,
        None => "?",
    }
}

/// Why a line contradicts those before it, in words.
fn words_of(why: Why) -> &'static str
    ensures { result.now ≡ why_text why }
{
    match why {
        Why::TwoCommands => "another command was learnt at this slot",
        Why::NotSubmitted => "no `submit` line has this request",
        Why::OtherReply => "at no slot has this request this reply",
        Why::OtherAnswer => "no query of this node is answered so at this position",
        Why::Foreign => "this is no line of a transcript",
    }
}
