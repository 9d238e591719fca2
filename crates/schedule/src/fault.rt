//! What is wrong with a line of a schedule.

ghost use Rattle.std.specs.Prelude.{◌≡◌};
ghost use Rattle.schedule.specs.Codes.{code_of};

use std::error::Error;
use std::fmt;

/// What is wrong with a line. Of a line's faults the one with the lowest number is told.
#[derive(Clone, Copy, Debug, PartialEq, Eq)]
pub enum ScheduleFault {
    /// A byte is outside 20 to 7E (hexadecimal).
    NotPrintable,
    /// No line begins so: the first word, or the one that says what is submitted or asked.
    UnknownWord,
    /// The first line that is not empty isn't `nodes` with 3, 5 or 7, or a later one begins with `nodes`.
    NodesLine,
    /// There are too few or too many words.
    WordCount,
    /// A word isn't what its place wants, a period has no instant, or a rectangle is reversed.
    WordForm,
    /// The document that is to be put stands for no feature.
    Document,
}

impl ScheduleFault {
    /// Its number, from 1.
    pub fn code(self) -> u8
        ensures { result ≡ code_of self }
    {
        match self {
            ScheduleFault::NotPrintable => 1,
            ScheduleFault::UnknownWord => 2,
            ScheduleFault::NodesLine => 3,
            ScheduleFault::WordCount => 4,
            ScheduleFault::WordForm => 5,
            ScheduleFault::Document => 6,
        }
    }
}

impl fmt::Display for ScheduleFault {
    ghost use Rattle.std.specs.Prelude.{Some};
    ghost use Rattle.schedule.specs.Codes.{fault_text};

    ghost output = { λ fault. Some (fault_text fault) };

    fn fmt<W: fmt::Write>(&self, f: &mut fmt::Formatter<W>) -> fmt::Result {
        f.write_str(match self {
            ScheduleFault::NotPrintable => "a byte is not printable",
            ScheduleFault::UnknownWord => "no line begins so",
            ScheduleFault::NodesLine => "the line `nodes` is missing, or isn't right",
            ScheduleFault::WordCount => "too few or too many words",
            ScheduleFault::WordForm => "a word isn't what its place wants",
            ScheduleFault::Document => "the document stands for no feature",
        })
    }
}

impl Error for ScheduleFault {}
