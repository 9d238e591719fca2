//! From words to a job.

ghost use Rattle.std.specs.Prelude.{◌≡◌, ◌≢◌, ◌⊎◌, ◌∷◌, [], ℕ, List, map, codes, string_bytes};
ghost use Rattle.std.specs.Prelude.{IfErr, IfOk, IfSome, IsNone, MatchOption, MatchResult, None, Some, false};
ghost use Rattle.clap.specs.Words.{app_of, first_value, found_of, kind_of, subcommand_rows_of, with_subcommand};
ghost use Rattle.clap.specs.declared.builder.command.Command.TheViews.{out-Command};
ghost use Rattle.args.specs.Forms.{AskFor, IsFolderOf, NameFolder, NameSource, Names};
ghost use Rattle.args.specs.Forms.{bare_form, file_form, forms, given_file, given_folder, given_name, name_of, replay_form};
ghost use Rattle.args.specs.Forms.{text_of};

use crate::fault::WordsFault;
use crate::job::{Job, Source, Work};
use clap::error::ErrorKind;
use clap::{Arg, ArgMatches, Command, Error};
use std::alloc::{AllocError, Global};

/// The job that the words ask for. No words stand for a replay of standard input.
pub fn job_of<'a>(alloc: Global, words: &'a [String]) -> Result<Job<'a>, WordsFault>
    ensures work { IfOk result (λ job. AskFor (map string_bytes words.now) job.work) }
    ensures source { IfOk result (λ job. NameSource (map string_bytes words.now) job.source) }
    ensures folder { IfOk result (λ job. NameFolder (map string_bytes words.now) job.work (text_of job.folder)) }
    ensures no_form { IfErr result (λ fault. fault ≡ WordsFault.NoForm
        → (work : Work) → ¬ AskFor (map string_bytes words.now) work) }

    // What the forms come to where standard input is named.
    ensures no_words { words.now ≡ []
        → result ≡ Ok (record { work = Work.Replay; source = Source.Input; folder = None }) }
    ensures dash { (work : Work) → map string_bytes words.now ≡ name_of work ∷ codes "-" ∷ []
        → MatchResult result (λ job. job ≡ record { work = work; source = Source.Input; folder = None })
        (λ fault. fault ≡ WordsFault.Memory) }
{
    if words.is_empty() {
        return Ok(Job {
            work: Work::Replay,
            source: Source::Input,
            folder: None,
        });
    }
    let command = program(alloc)?;
    match command.try_get_matches_from(words) {
        Ok(matches) => job_in(&matches).ok_or(WordsFault::NoForm),
        Err(refusal) => Err(fault_of_refusal(&refusal)),
    }
}

/// The forms that `clap` accepts. It answers a call for help or for the version with an error
/// like any other, as neither is one of the forms.
fn program<'a>(alloc: Global) -> Result<Command<'a>, AllocError>
    ensures { IfOk result (λ command. app_of command ≡ forms) }
{
    let replay = replay_command(alloc)?;
    let command = bare_program(alloc).subcommand(replay)?;
    let command = with_file_command(alloc, command, "loopback")?;
    with_file_command(alloc, command, "check")
}

/// The program without its works.
fn bare_program<'a>(alloc: Global) -> Command<'a>
    ensures { app_of result ≡ bare_form }
{
    Command::new(alloc, "mfpx")
        .no_binary_name(true)
        .disable_help_flag(true)
        .disable_help_subcommand(true)
        .subcommand_required(true)
}

/// The form of a replay, which may have a folder.
fn replay_command<'a>(alloc: Global) -> Result<Command<'a>, AllocError>
    ensures app { IfOk result (λ command. app_of command ≡ replay_form) }
    ensures local { IfOk result (λ command. (out-Command command).has_globals ≡ false) }
{
    file_command(alloc, "replay")?.arg(Arg::new(alloc, "DIR").long("db"))
}

/// The command with one more: that of a work of this name, with a FILE.
fn with_file_command<'a>(
    alloc: Global,
    command: Command<'a>,
    name: &'static str,
) -> Result<Command<'a>, AllocError>
    ensures { IfOk result (λ with. app_of with ≡ with_subcommand (app_of command.entry) (file_form name.now).top) }
{
    let work = file_command(alloc, name)?;
    command.subcommand(work)
}

/// The form of a work of this name, with a FILE.
fn file_command<'a>(alloc: Global, name: &'static str) -> Result<Command<'a>, AllocError>
    ensures app { IfOk result (λ command. app_of command ≡ file_form name.now) }
    ensures local { IfOk result (λ command. (out-Command command).has_globals ≡ false) }
{
    Command::new(alloc, name)
        .disable_help_flag(true)
        .arg(Arg::new(alloc, "FILE").required(true))
}

/// The job of words that were accepted.
fn job_in<'a>(matches: &ArgMatches<'a>) -> Option<Job<'a>>
    ensures work { IfSome result (λ job.
        given_name (subcommand_rows_of matches.now) ≡ Some (name_of job.work)) }
    ensures source { IfSome result (λ job. (text : List ℕ)
        × (given_file (subcommand_rows_of matches.now) ≡ Some text) × Names text job.source) }
    ensures folder { IfSome result (λ job.
        IsFolderOf job.work (given_folder (subcommand_rows_of matches.now)) (text_of job.folder)) }
    ensures none { IsNone result → (given_file (subcommand_rows_of matches.now) ≡ None)
        ⊎ ((work : Work) → given_name (subcommand_rows_of matches.now) ≢ Some (name_of work)) }
{
    let (name, inner) = matches.subcommand()?;
    let work = work_named(name)?;
    let file = inner.get_str("FILE")?;
    Some(Job {
        work,
        source: source_named(file),
        folder: folder_in(work, inner),
    })
}

/// The folder that a replay was given.
fn folder_in<'a>(work: Work, inner: &ArgMatches<'a>) -> Option<&'a str>
    ensures { IsFolderOf work (first_value (found_of inner.now) (codes "DIR")) (text_of result) }
{
    match work {
        Work::Replay => inner.get_str("DIR"),
        Work::Loopback | Work::Check => None,
    }
}

/// The work of this name.
fn work_named(name: &str) -> Option<Work>
    ensures { MatchOption result ((work : Work) → name.now ≢ name_of work)
        (λ work. name.now ≡ name_of work) }
{
    match name {
        "replay" => Some(Work::Replay),
        "loopback" => Some(Work::Loopback),
        "check" => Some(Work::Check),
        _ => None,
    }
}

/// The source that a FILE names.
fn source_named(file: &str) -> Source
    ensures { Names file.now result }
{
    match file {
        "-" => Source::Input,
        path => Source::File(path),
    }
}

/// Why words that were refused have no job.
fn fault_of_refusal(refusal: &Error) -> WordsFault
    ensures memory { kind_of refusal.now ≡ ErrorKind.OutOfMemory → result ≡ WordsFault.Memory }
    ensures no_form { kind_of refusal.now ≢ ErrorKind.OutOfMemory → result ≡ WordsFault.NoForm }
{
    match refusal.kind() {
        ErrorKind::OutOfMemory => WordsFault::Memory,
        _ => WordsFault::NoForm,
    }
}
