//! The command line over any streams: the words are read, the command is done, its text is printed, and the answer is the exit status.
//!
//! The crate `args` says what the words ask for, and `commands` does it and says how a run ends. Here are the arguments, the source and the
//! printing: the bytes come from a FILE or from the input, and the text is printed once all of it is made. FILEs, and the records of a
//! replay's nodes, are an `Archive`'s, which is handed in; a loopback has UDP sockets. What a run prints stands in `specs/Jobs.antt`, and
//! what surrounds it in `specs/Outside.antt`. `program` is this over the words and streams of the process.
#![tactic(auto)]

mod failures;
mod process;
mod run;
mod sockets;
mod words;

pub use process::program;
pub use run::command;
