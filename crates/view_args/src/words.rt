//! From words to a view.

ghost use Rattle.std.specs.Prelude.{◌≡◌, map, string_bytes, IfOk, IfSome};
ghost use Rattle.clap.specs.Words.{FailsBy, fault_of, first_value, found_of, subcommand_of, subcommand_rows_of};
ghost use Rattle.view_args.specs.Forms.{AsksForAudit, IsFlag, Says, forms};

use crate::commands::program;
use crate::view::View;
use clap::{ArgMatches, Error};
use std::alloc::{AllocError, Global};

/// The view that the words ask for.
///
/// An error's text is for people: help or a version where they ask for it, else what is wrong with the words. Its kind says which, and
/// where memory ran out.
pub fn view_of<'a>(alloc: Global, words: &'a [String]) -> Result<View<'a>, Error>
    ensures says { IfOk result (Says (subcommand_of forms (map string_bytes words.now))) }
    ensures kinds { FailsBy (fault_of forms (map string_bytes words.now)) result }
{
    let command = program(alloc)?;
    let matches = command.try_get_matches_from(words)?;
    match any_view(alloc, &matches)? {
        Some(view) => Ok(view),
        // It can't come: whatever `clap` accepts has a name and its FILE.
        None => Err(Error::from(AllocError)),
    }
}

/// The view of words that were accepted.
fn any_view<'a>(alloc: Global, matches: &ArgMatches<'a>) -> Result<Option<View<'a>>, AllocError>
    ensures { IfOk result (λ view. IfSome view (Says (subcommand_rows_of matches.now))) }
{
    match view_in(matches) {
        Some(view) => Ok(Some(view)),
        None => audit_in(alloc, matches),
    }
}

/// The view of words that were accepted, where it is one of a single file.
fn view_in<'a>(matches: &ArgMatches<'a>) -> Option<View<'a>>
    ensures { IfSome result (Says (subcommand_rows_of matches.now)) }
{
    let (name, inner) = matches.subcommand()?;
    let file = inner.get_str("FILE")?;
    let progress = has_flag(inner, "progress");
    match name {
        "why" => Some(View::Why { file }),
        "run" => {
            let frames = has_flag(inner, "frames");
            let json = has_flag(inner, "json");
            Some(View::Run {
                file,
                frames,
                json,
                progress,
            })
        }
        "draw" => {
            let output = inner.get_str("OUT")?;
            let from = inner.get_str("from");
            let to = inner.get_str("to");
            Some(View::Draw {
                file,
                output,
                from,
                to,
                progress,
            })
        }
        "map" => {
            let output = inner.get_str("OUT")?;
            let at = inner.get_str("at");
            let node = inner.get_str("node");
            Some(View::Map {
                file,
                output,
                at,
                node,
                progress,
            })
        }
        _ => None,
    }
}

/// The view of words that were accepted, if it is an audit.
fn audit_in<'a>(alloc: Global, matches: &ArgMatches<'a>) -> Result<Option<View<'a>>, AllocError>
    ensures { IfOk result (λ view. IfSome view (Says (subcommand_rows_of matches.now))) }
{
    match audited_files(matches) {
        Some((schedule, named, progress)) => {
            let transcripts = Vec::from_slice(alloc, named)?;
            Ok(Some(View::Audit {
                schedule,
                transcripts,
                progress,
            }))
        }
        None => Ok(None),
    }
}

/// The schedule and the transcripts that are to be audited, and whether it is told how far that is.
fn audited_files<'a, 'b>(matches: &'b ArgMatches<'a>) -> Option<(&'a str, &'b [&'a str], bool)>
    ensures { IfSome result (λ asked. AsksForAudit (subcommand_rows_of matches.now) asked.0.now
        (map (λ text. text.now) asked.1.now) asked.2) }
{
    let (name, inner) = matches.subcommand()?;
    let schedule = inner.get_str("FILE")?;
    match name {
        "audit" => {
            let named = inner.get_strs("TRANSCRIPT")?;
            let progress = has_flag(inner, "progress");
            Some((schedule, named, progress))
        }
        _ => None,
    }
}

/// Whether the flag was given.
fn has_flag(inner: &ArgMatches<'_>, name: &str) -> bool
    ensures { IsFlag (first_value (found_of inner.now) name.now) result }
{
    match inner.get_str(name) {
        Some(text) => text == "true",
        None => false,
    }
}
