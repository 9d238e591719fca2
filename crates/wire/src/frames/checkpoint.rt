//! Checkpoints.

ghost use Rattle.std.specs.Prelude.{◌≡◌};

use std::marker::Model;
use synod::Ballot;

/// What a checkpoint's record holds. The text stands where the record does.
#[derive(Drop)]
pub struct Checkpoint<'a> {
    position: u32,
    promise: Option<Ballot>,
    text: &'a [u8],
}

impl<'a> Model for Checkpoint<'a> {
    ghost use Rattle.wire.specs.RecordForms.{Checkpointed};

    ghost Value = { Checkpointed };

    ghost view = { λ c. record { position = c.position; promise = c.promise; text = c.text.now } };
}

impl<'a> Checkpoint<'a> {
    /// The checkpoint of these parts.
    pub(super) fn of(position: u32, promise: Option<Ballot>, text: &'a [u8]) -> Checkpoint<'a>
        ensures { result ≡ record { position = position; promise = promise; text = text.now } }
    {
        Checkpoint {
            position,
            promise,
            text,
        }
    }

    /// The position of the log that it was made at.
    pub fn position(&self) -> u32
        ensures { result ≡ self.now.position }
    {
        self.position
    }

    /// What was promised then.
    pub fn promise(&self) -> Option<Ballot>
        ensures { result ≡ self.now.promise }
    {
        self.promise
    }

    /// The text of the database.
    pub fn text(&self) -> &'a [u8]
        ensures { result.now ≡ self.now.text }
    {
        self.text
    }
}
