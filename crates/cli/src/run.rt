//! A run of the program over any streams.

ghost use Rattle.std.specs.Prelude.{◌≡◌, ◌≢◌, ◌≤◌, ◌⊎◌, ℕ, List, map};
ghost use Rattle.std.specs.Prelude.{string_bytes, true, IfOk, IfErr, IsErrOf, OnOk};
ghost use Rattle.args.specs.Forms.{AskFor, NameInput, text_of};
ghost use Rattle.cli.specs.Jobs.{EndsIn, Gives, GivesNone, IsAnswer, IsFaulty, IsCutShort, MakesIn};
ghost use Rattle.cli.specs.Outside.{around};
ghost use Rattle.commands.specs.Failures.{line_text, status_of};
ghost use Rattle.commands.specs.Streams.{Takes, Tells};

use crate::failures::words_failure;
use crate::sockets::LocalSockets;
use args::{Source, Work, job_of};
use commands::{Archive, CheckedStream, Failure, check, loopback, print_replay, replay};
use std::io::{Read, Write};

/// Runs the program on the words after its name, and answers its exit status. What it makes, a
/// transcript or a document, goes to `out`, and only once all of it is made; why there is nothing
/// goes to `err`.
///
/// | Status | When | `err` |
/// |---|---|---|
/// | 0 | done | nothing |
/// | 1 | line L of a schedule has the fault F | `mfpx: line L fault F` |
/// | 1 | what is to keep records holds one | `mfpx: fault 55` |
/// | 1 | a document has the fault F | `mfpx: document fault F` |
/// | 1 | element I of a document's list has it | `mfpx: document fault F at I` |
/// | 2 | the words are none of the forms | `mfpx: usage` |
/// | 3 | a stream fails, or a file, a folder or a socket can't be used | `mfpx: device` |
/// | 3 | memory is refused | `mfpx: out of memory` |
///
/// Faults are told in this order: the words, reading the file, parsing, opening the records, the run, writing. An
/// `err` that fails changes nothing else.
pub fn command<R: Read, O: Write, E: Write, A: Archive>(
    rt: &HostRuntime,
    words: Vec<String>,
    input: &mut CheckedStream<R>,
    out: &mut CheckedStream<O>,
    err: &mut CheckedStream<E>,
    archive: &mut A,
) -> u8
    ensures statuses { result ≤ 3 }
    ensures words_come_first { result ≡ 2 → input.new ≡ input.old }
    ensures file_alone { ¬ NameInput (map string_bytes words.items) → input.new ≡ input.old }
    ensures archive_untouched { result ≡ 2 → archive.new ≡ archive.old }
    // What goes to `out`: the whole text, or nothing. Of what a stream that fails took no clause speaks.
    ensures done { result ≡ 0 → (text : List ℕ) × IsAnswer (around A.Archive A.Records.Stable) (map string_bytes words.items)
        (R.remaining input.old.inner) archive.old text archive.new × Takes O.contents out.old out.new text }
    ensures unprinted { (result ≡ 1) ⊎ (result ≡ 2) → out.new ≡ out.old }
    ensures failed_unprinted { result ≡ 3 → ((out.new ≡ out.old) × (failure : Failure) × (status_of failure ≡ 3)
        × IsCutShort (around A.Archive A.Records.Stable) (map string_bytes words.items) (R.remaining input.old.inner)
        input.new.has_failed archive.old failure archive.new × Tells E.contents err.old err.new (line_text failure))
        ⊎ ((text : List ℕ) × IsAnswer (around A.Archive A.Records.Stable) (map string_bytes words.items)
        (R.remaining input.old.inner) archive.old text archive.new × (out.new.has_failed ≡ true)) }
    // Why, and what goes to `err`: the line of that failure.
    ensures done_silently { result ≡ 0 → err.new ≡ err.old }
    ensures faulty { result ≡ 1 → (failure : Failure) × (status_of failure ≡ 1)
        × IsFaulty (around A.Archive A.Records.Stable) (map string_bytes words.items) (R.remaining input.old.inner)
        archive.old failure archive.new × Tells E.contents err.old err.new (line_text failure) }
    ensures usage { result ≡ 2 → (work : Work) → ¬ AskFor (map string_bytes words.items) work }
    ensures usage_told { result ≡ 2 → Tells E.contents err.old err.new (line_text Failure.Usage) }
    ensures no_form { ((work : Work) → ¬ AskFor (map string_bytes words.items) work)
        → (result ≡ 2) ⊎ ((result ≡ 3) × Tells E.contents err.old err.new (line_text Failure.Memory)) }
    ensures no_form_unread { ((work : Work) → ¬ AskFor (map string_bytes words.items) work) → input.new ≡ input.old }
    ensures failed_told { result ≡ 3 → Tells E.contents err.old err.new (line_text Failure.Device)
        ⊎ Tells E.contents err.old err.new (line_text Failure.Memory) }
{
    match run(rt, words.as_slice(), input, out, archive) {
        Ok(()) => 0,
        Err(failure) => report(err, failure),
    }
}

/// Tells why nothing was printed, and answers the exit status of a run that ends so.
fn report<E: Write>(err: &mut CheckedStream<E>, failure: Failure) -> u8
    ensures status { result ≡ status_of failure }
    ensures line { Tells E.contents err.old err.new (line_text failure) }
{
    err.tell(failure);
    failure.status()
}

/// Writes what the words ask for.
fn run<R: Read, O: Write, A: Archive>(
    rt: &HostRuntime,
    words: &[String],
    input: &mut CheckedStream<R>,
    out: &mut CheckedStream<O>,
    archive: &mut A,
) -> Result<(), Failure>
    ensures done { OnOk result ((text : List ℕ) × IsAnswer (around A.Archive A.Records.Stable) (map string_bytes words.now)
        (R.remaining input.old.inner) archive.old text archive.new × Takes O.contents out.old out.new text) }
    ensures faulty { IfErr result (λ failure. status_of failure ≡ 1
        → IsFaulty (around A.Archive A.Records.Stable) (map string_bytes words.now) (R.remaining input.old.inner)
        archive.old failure archive.new) }
    ensures usage { IfErr result (λ failure. failure ≡ Failure.Usage
        → (work : Work) → ¬ AskFor (map string_bytes words.now) work) }
    ensures no_form { ((work : Work) → ¬ AskFor (map string_bytes words.now) work)
        → IsErrOf result Failure.Usage ⊎ IsErrOf result Failure.Memory }
    ensures no_form_unread { ((work : Work) → ¬ AskFor (map string_bytes words.now) work) → input.new ≡ input.old }
    ensures untouched { IfErr result (λ failure. failure ≢ Failure.Device → out.new ≡ out.old) }
    ensures unprinted { IfErr result (λ failure. failure ≢ Failure.Usage → ((out.new ≡ out.old)
        × IsCutShort (around A.Archive A.Records.Stable) (map string_bytes words.now) (R.remaining input.old.inner)
        input.new.has_failed archive.old failure archive.new)
        ⊎ ((text : List ℕ) × IsAnswer (around A.Archive A.Records.Stable) (map string_bytes words.now)
        (R.remaining input.old.inner) archive.old text archive.new × (out.new.has_failed ≡ true))) }
    ensures words_come_first { IfErr result (λ failure. failure ≡ Failure.Usage → input.new ≡ input.old) }
    ensures file_alone { ¬ NameInput (map string_bytes words.now) → input.new ≡ input.old }
    ensures archive_untouched { IfErr result (λ failure. failure ≡ Failure.Usage → archive.new ≡ archive.old) }
{
    let job = match job_of(rt.alloc(), words) {
        Ok(job) => job,
        Err(fault) => return Err(words_failure(fault)),
    };
    let bytes = read_source(rt, &job.source, input, archive)?;
    print_work(rt, archive, job.work, job.folder, bytes.as_slice(), out)
}

/// The bytes of the source: all that is left of the input, or what the archive reads under the FILE's name.
fn read_source<R: Read, A: Archive>(
    rt: &HostRuntime,
    source: &Source,
    input: &mut CheckedStream<R>,
    archive: &mut A,
) -> Result<Vec<u8>, Failure>
    ensures gives { IfOk result (λ bytes. Gives A.Archive source.now (R.remaining input.old.inner) archive.old bytes.items archive.new) }
    ensures gives_none { IfErr result (λ failure.
        GivesNone A.Archive source.now input.new.has_failed archive.old failure archive.new) }
    ensures file_alone { source.now ≢ Source.Input → input.new ≡ input.old }
    ensures err { IfErr result (λ failure. (failure ≡ Failure.Device) ⊎ (failure ≡ Failure.Memory)) }
{
    match source {
        Source::Input => input.read_all(rt.alloc()),
        Source::File(path) => archive.read(rt, path),
    }
}

/// Writes what the work makes of the bytes: a replay with its records in memory, or in the archive where a folder is given for them.
fn print_work<O: Write, A: Archive>(
    rt: &HostRuntime,
    archive: &mut A,
    work: Work,
    folder: Option<&str>,
    bytes: &[u8],
    out: &mut CheckedStream<O>,
) -> Result<(), Failure>
    ensures done { OnOk result ((text : List ℕ) × MakesIn (around A.Archive A.Records.Stable)
        work (text_of folder.entry) bytes.now archive.old text archive.new × Takes O.contents out.old out.new text) }
    ensures ends { IfErr result (λ failure. ((out.new ≡ out.old) × EndsIn (around A.Archive A.Records.Stable)
        work (text_of folder.entry) bytes.now archive.old failure archive.new)
        ⊎ ((failure ≡ Failure.Device) × (text : List ℕ) × MakesIn (around A.Archive A.Records.Stable)
        work (text_of folder.entry) bytes.now archive.old text archive.new × (out.new.has_failed ≡ true))) }
    ensures no_usage { IfErr result (λ failure. failure ≢ Failure.Usage) }
{
    match (work, folder) {
        (Work::Replay, None) => print_replay(rt.alloc(), bytes, out),
        (Work::Replay, Some(folder)) => print_text(replay(rt, archive, folder, bytes)?, out),
        (Work::Loopback, _) => print_text(loopback(rt, &LocalSockets, bytes)?, out),
        (Work::Check, _) => print_text(check(rt.alloc(), bytes)?, out),
    }
}

/// Writes the text, all of it.
fn print_text<O: Write>(text: Vec<u8>, out: &mut CheckedStream<O>) -> Result<(), Failure>
    ensures printed { OnOk result (Takes O.contents out.old out.new text.items) }
    ensures failed { IfErr result (λ failure. (failure ≡ Failure.Device) × (out.new.has_failed ≡ true)) }
{
    match out.print(text.as_slice()) {
        Ok(()) => Ok(()),
        Err(_) => Err(Failure::Device),
    }
}
