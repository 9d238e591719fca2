//! The forms of the command line, as `clap` is told them.

ghost use Rattle.std.specs.Prelude.{◌≡◌, IfOk, false};
ghost use Rattle.clap.specs.Words.{app_of, rule_of};
ghost use Rattle.clap.specs.declared.builder.command.Command.TheViews.{out-Command};
ghost use Rattle.view_args.specs.Forms.{audit_form, bare_form, draw_form, file_form, file_forms, flag, forms, map_form, option, output, progress, run_form, transcripts};

use clap::{Arg, ArgAction, Command};
use std::alloc::{AllocError, Global};

/// The forms that `clap` accepts.
pub(crate) fn program<'a>(alloc: Global) -> Result<Command<'a>, AllocError>
    ensures { IfOk result (λ command. app_of command ≡ forms) }
{
    file_program(alloc)?
        .subcommand(draw_command(alloc)?)?
        .subcommand(map_command(alloc)?)?
        .subcommand(audit_command(alloc)?)
}

/// The program with the commands that write no file and read one.
fn file_program<'a>(alloc: Global) -> Result<Command<'a>, AllocError>
    ensures { IfOk result (λ command. app_of command ≡ file_forms) }
{
    let why = file_command(
        alloc,
        "why",
        "What is wrong with a schedule or a document",
        "A schedule; or a document, if its name ends in .json or .mfjson or it begins with {. - is standard input",
    )?;
    bare_program(alloc)
        .subcommand(why)?
        .subcommand(run_command(alloc)?)
}

/// The program without its commands.
fn bare_program<'a>(alloc: Global) -> Command<'a>
    ensures { app_of result ≡ bare_form }
{
    Command::new(alloc, "mfpxview")
        .about("What people want to see of schedules, runs and documents of mfpx")
        .version("1")
        .no_binary_name(true)
        .subcommand_required(true)
}

/// The form of a command of this name, with a FILE.
fn file_command<'a>(
    alloc: Global,
    name: &'static str,
    about: &'static str,
    help: &'static str,
) -> Result<Command<'a>, AllocError>
    ensures app { IfOk result (λ command. app_of command ≡ file_form name.now) }
    ensures local { IfOk result (λ command. (out-Command command).has_globals ≡ false) }
{
    Command::new(alloc, name)
        .about(about)
        .arg(Arg::new(alloc, "FILE").required(true).help(help))
}

/// The form of `run`.
fn run_command<'a>(alloc: Global) -> Result<Command<'a>, AllocError>
    ensures app { IfOk result (λ command. app_of command ≡ run_form) }
    ensures local { IfOk result (λ command. (out-Command command).has_globals ≡ false) }
{
    let command = file_command(
        alloc,
        "run",
        "What came of each line of a schedule",
        "A schedule. - is standard input",
    )?;
    command
        .arg(flag_arg(alloc, "frames", "Tells each frame"))?
        .arg(flag_arg(alloc, "json", "One JSON object a line, for programs"))?
        .arg(progress_arg(alloc))
}

/// The form of `draw`.
fn draw_command<'a>(alloc: Global) -> Result<Command<'a>, AllocError>
    ensures app { IfOk result (λ command. app_of command ≡ draw_form) }
    ensures local { IfOk result (λ command. (out-Command command).has_globals ≡ false) }
{
    let command = file_command(
        alloc,
        "draw",
        "The frames of a run between its nodes, as a picture in SVG",
        "A schedule. - is standard input",
    )?;
    command
        .arg(output_arg(alloc))?
        .arg(option_arg(alloc, "from", "The first frame that is drawn"))?
        .arg(option_arg(alloc, "to", "The last frame that is drawn"))?
        .arg(progress_arg(alloc))
}

/// The form of `map`.
fn map_command<'a>(alloc: Global) -> Result<Command<'a>, AllocError>
    ensures app { IfOk result (λ command. app_of command ≡ map_form) }
    ensures local { IfOk result (λ command. (out-Command command).has_globals ≡ false) }
{
    let command = file_command(
        alloc,
        "map",
        "The fleet that a run leaves at a node, on a map in SVG",
        "A schedule. - is standard input",
    )?;
    command
        .arg(output_arg(alloc))?
        .arg(option_arg(
            alloc,
            "at",
            "The datetime that is shown; without it the last of any feature",
        ))?
        .arg(option_arg(
            alloc,
            "node",
            "The node whose features are shown; without it node 0",
        ))?
        .arg(progress_arg(alloc))
}

/// The form of `audit`.
fn audit_command<'a>(alloc: Global) -> Result<Command<'a>, AllocError>
    ensures app { IfOk result (λ command. app_of command ≡ audit_form) }
    ensures local { IfOk result (λ command. (out-Command command).has_globals ≡ false) }
{
    let command = file_command(
        alloc,
        "audit",
        "Whether one list of commands explains what transcripts tell",
        "The schedule of the runs. One of the files may be -, standard input",
    )?;
    command
        .arg(transcripts_arg(alloc))?
        .arg(progress_arg(alloc))
}

/// Transcripts, one or more.
fn transcripts_arg<'a>(alloc: Global) -> Arg<'a>
    ensures rule { rule_of result ≡ transcripts }
    ensures local { result.global ≡ false }
{
    Arg::new(alloc, "TRANSCRIPT")
        .action(ArgAction::Append)
        .required(true)
        .help("Transcripts of whole runs, or of single nodes")
}

/// The file to which a picture is written.
fn output_arg<'a>(alloc: Global) -> Arg<'a>
    ensures rule { rule_of result ≡ output }
    ensures local { result.global ≡ false }
{
    Arg::new(alloc, "OUT")
        .short('o')
        .required(true)
        .help("The file to be written. - is standard output")
}

/// An option with a value, of which this is the long name.
fn option_arg<'a>(alloc: Global, name: &'static str, help: &'static str) -> Arg<'a>
    ensures rule { rule_of result ≡ option name.now }
    ensures local { result.global ≡ false }
{
    Arg::new(alloc, name).long(name).help(help)
}

/// The flag with which it is told how far a view is.
fn progress_arg<'a>(alloc: Global) -> Arg<'a>
    ensures rule { rule_of result ≡ progress }
    ensures local { result.global ≡ false }
{
    flag_arg(alloc, "progress", "Tells on standard error how far it is")
}

/// A flag, of which this is the long name.
fn flag_arg<'a>(alloc: Global, name: &'static str, help: &'static str) -> Arg<'a>
    ensures rule { rule_of result ≡ flag name.now }
    ensures local { result.global ≡ false }
{
    Arg::new(alloc, name)
        .long(name)
        .action(ArgAction::SetTrue)
        .help(help)
}
