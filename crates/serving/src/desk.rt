//! What a process is joined to its clients by.

ghost use Rattle.std.specs.Prelude.{◌≡◌, ◌++◌, All, List};
ghost use Rattle.serving.specs.Owing.{HasRoom};
ghost use Rattle.serving.specs.Tapes.{Talk, heard_in, told_in};
ghost use Rattle.serving.specs.Waitings.{lines_of};

use super::waiting::Waiting;
use std::alloc::{AllocError, Global};

/// What a client did.
#[derive(Drop)]
pub enum Came {
    /// It wrote a line, which has no line feed.
    Line { connection: u64, text: Vec<u8> },
    /// It went. Its number comes never again.
    Gone { connection: u64 },
}

/// The lines of clients, by connection.
///
/// Its meaning is a tape, and whether it tells, as that of a network is.
pub trait Desk {
    /// What was heard and told, the oldest first.
    ghost tape: { Self → List Talk };

    /// The tape is true.
    ghost Tells: { Self → Type 0 };

    /// What a client did, or None where none did anything. Lines of a connection of which as many wait as may stay unread.
    fn next(&mut self, alloc: Global, waiting: &Waiting) -> Result<Option<Came>, AllocError>
        ensures room { All (HasRoom waiting.now) (heard_in (lines_of waiting.now) result) }
        ensures tape { Tells self.new → tape self.new ≡ tape self.old ++ heard_in (lines_of waiting.now) result }
        ensures told { Tells self.new → Tells self.old }
        ensures kept { ¬ Tells self.new → tape self.new ≡ tape self.old };

    /// Tells the connection a text. One that is gone is told nothing, and none is after an error.
    fn tell(&mut self, alloc: Global, connection: u64, text: &[u8]) -> Result<(), AllocError>
        ensures tape { Tells self.new → tape self.new ≡ tape self.old ++ told_in connection text.now result }
        ensures told { Tells self.new → Tells self.old }
        ensures kept { ¬ Tells self.new → tape self.new ≡ tape self.old };
}
