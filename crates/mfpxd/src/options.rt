//! The words of the command line.

use clap::{Arg, ArgAction, ArgMatches, Command, Error};
use std::alloc::{AllocError, Global};

/// Where clients are listened to unless the words say otherwise: at this machine alone.
const LOCAL_CLIENTS: &str = "127.0.0.1:8100";

/// What the words ask for.
#[derive(Drop)]
pub struct Options<'a> {
    /// Which node this is.
    pub id: &'a str,
    /// The addresses of all nodes, by number, with commas between them.
    pub peers: &'a str,
    /// Where clients are listened to.
    pub listen: &'a str,
    /// The database of the node's records.
    pub db: &'a str,
    /// The file of the run's name and key.
    pub key: &'a str,
    /// It is the node's first start.
    pub is_new: bool,
}

/// What the words ask for. An error's text is for people, and its kind says what it is.
pub fn options_of<'a>(alloc: Global, words: &'a [String]) -> Result<Options<'a>, Error> {
    let command = program(alloc)?;
    let matches = command.try_get_matches_from(words)?;
    match options_in(&matches) {
        Some(options) => Ok(options),
        // It can't come: each of these words is required.
        None => Err(Error::from(AllocError)),
    }
}

/// The form that `clap` accepts.
fn program<'a>(alloc: Global) -> Result<Command<'a>, AllocError> {
    let command = with_files(alloc)?;
    command.arg(
        Arg::new(alloc, "new")
            .long("new")
            .action(ArgAction::SetTrue)
            .help("The node's first start: there is no database yet"),
    )
}

/// The program, with the options that name files.
fn with_files<'a>(alloc: Global) -> Result<Command<'a>, AllocError> {
    let command = with_addresses(alloc)?;
    command
        .arg(option_arg(alloc, "db", "FILE", "The database of the node's records"))?
        .arg(option_arg(
            alloc,
            "key",
            "FILE",
            "The run's name in 16 bytes and its key in 32 or more, in a file that only its owner may use",
        ))
}

/// The program, with the options that name the node and addresses.
fn with_addresses<'a>(alloc: Global) -> Result<Command<'a>, AllocError> {
    bare_program(alloc)
        .arg(option_arg(alloc, "id", "N", "Which node this is, from 0"))?
        .arg(option_arg(
            alloc,
            "peers",
            "ADDRESSES",
            "The addresses of all 3, 5 or 7 nodes, HOST:PORT, by number, with commas between them",
        ))?
        .arg(
            Arg::new(alloc, "listen")
                .long("listen")
                .value_name("ADDRESS")
                .help(
                    "Where clients are listened to; 127.0.0.1:8100, for those of this machine, unless given",
                ),
        )
}

/// The program without options.
fn bare_program<'a>(alloc: Global) -> Command<'a> {
    Command::new(alloc, "mfpxd")
        .about("One node of a fleet position database, as a process")
        .version("1")
        .no_binary_name(true)
}

/// An option with a value, which has to be there.
fn option_arg<'a>(
    alloc: Global,
    name: &'static str,
    value: &'static str,
    help: &'static str,
) -> Arg<'a> {
    Arg::new(alloc, name)
        .long(name)
        .value_name(value)
        .required(true)
        .help(help)
}

fn options_in<'a>(matches: &ArgMatches<'a>) -> Option<Options<'a>> {
    Some(Options {
        id: matches.get_str("id")?,
        peers: matches.get_str("peers")?,
        listen: matches.get_str("listen").unwrap_or(LOCAL_CLIENTS),
        db: matches.get_str("db")?,
        key: matches.get_str("key")?,
        is_new: matches.get_flag("new"),
    })
}
