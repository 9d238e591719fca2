//! Parts of a snapshot text.

ghost use Rattle.std.specs.Prelude.{◌≡◌, ◌↔◌, ◌<◌, ◌≤◌, ◌-◌, ℕ, min, List, length, take, drop, slice_get};
ghost use Rattle.std.specs.Prelude.{Option, Some, IsSome, IfSome, IfOk, OnErr, true};
ghost use Rattle.wire.specs.Parts.{IsPartNumber, Piece, IsPiece, offset_of, has_part, piece, piece_of, parts_in, joined};

use super::position::Position;
use sessions::LONGEST_SNAPSHOT;
use std::alloc::{AllocError, Global};
use std::marker::Model;
use std::rc::Rc;

/// A part has this many bytes, but for the last one, which has what is left.
pub const PART: usize = 32_768;

/// The longest text has this many parts.
pub const MOST_PARTS: u8 = 193;

/// The number of a part of a text, from 0 on.
#[derive(Clone, Copy, Debug, PartialEq, Eq)]
pub struct PartNumber {
    value: u8,
}

impl Model for PartNumber {
    ghost use Rattle.std.specs.Prelude.{ℕ};
    ghost use Rattle.wire.specs.Parts.{IsPartNumber};

    ghost Value = { ℕ };

    ghost view = { λ n. n.value };

    ghost invariant = { λ n. IsPartNumber n.value };

    ghost inverse = { λ n. record { value = n } };
}

impl PartNumber {
    /// The part of this number, or None where no text has so many.
    pub fn new(value: u8) -> Option<PartNumber>
        ensures valid { IsSome result ↔ IsPartNumber value }
        ensures value { IfSome result (λ number. number ≡ value) }
    {
        if value < MOST_PARTS {
            Some(PartNumber { value })
        } else {
            None
        }
    }

    /// The first part.
    pub fn first() -> PartNumber
        ensures { result ≡ 0 }
    {
        PartNumber { value: 0 }
    }

    /// Its number.
    pub fn value(self) -> u8
        ensures value { result ≡ self }
        ensures is { IsPartNumber self }
    {
        self.value
    }

    /// The place in the text at which it begins.
    pub fn offset(self) -> u32
        ensures { result ≡ offset_of self }
    {
        u32::from(self.value) * PART as u32
    }
}

/// A part of the text of a checkpoint. Its bytes are shared by who holds it.
#[derive(Drop)]
pub struct Part {
    position: Position,
    total: u32,
    number: PartNumber,
    bytes: Rc<Vec<u8>>,
}

impl Model for Part {
    ghost use Rattle.wire.specs.Parts.{Piece, IsPiece};

    ghost Value = { Piece };

    ghost view = { λ p. record { position = p.position; total = p.total; number = p.number; bytes = p.bytes.value.items } };

    ghost invariant = { λ p. IsPiece (record { position = p.position; total = p.total; number = p.number; bytes = p.bytes.value.items }) };
}

impl Part {
    /// The part of this number of a text, or None where the text has no such part, or is none that a database has.
    pub fn of(
        alloc: Global,
        position: Position,
        text: &[u8],
        number: PartNumber,
    ) -> Result<Option<Part>, AllocError>
        ensures of_the_text { IfOk result (λ part. part ≡ piece_of position text.now number) }
        ensures wanted { OnErr result (has_part text.now number ≡ true) }
    {
        let offset = number.offset() as usize;
        if text.len() < 4 || text.len() > LONGEST_SNAPSHOT || offset >= text.len() {
            return Ok(None);
        }
        let bytes = part_from(alloc, text, offset)?;
        Ok(Some(Part {
            position,
            total: text.len() as u32,
            number,
            bytes: Rc::new(alloc, bytes)?,
        }))
    }

    /// The part that says this.
    pub(super) fn made(
        position: Position,
        total: u32,
        number: PartNumber,
        bytes: Rc<Vec<u8>>,
    ) -> Part
        requires { IsPiece (record { position = position; total = total; number = number; bytes = bytes.value.items }) }
        ensures { result ≡ record { position = position; total = total; number = number; bytes = bytes.value.items } }
    {
        Part {
            position,
            total,
            number,
            bytes,
        }
    }

    /// The position of the checkpoint.
    pub fn position(&self) -> Position
        ensures { result ≡ self.now.position }
    {
        self.position
    }

    /// How many bytes the whole text has.
    pub fn total(&self) -> u32
        ensures value { result ≡ self.now.total }
        ensures is { IsPiece self.now }
    {
        self.total
    }

    /// Its number.
    pub fn number(&self) -> PartNumber
        ensures { result ≡ self.now.number }
    {
        self.number
    }

    /// Its bytes.
    pub fn bytes(&self) -> &[u8]
        ensures value { result.now ≡ self.now.bytes }
        ensures is { IsPiece self.now }
    {
        self.bytes.as_slice()
    }

    /// The same part once more. Its bytes aren't copied.
    pub fn share(&self) -> Result<Part, AllocError>
        ensures { IfOk result (λ part. part ≡ self.now) }
    {
        Ok(Part {
            position: self.position,
            total: self.total,
            number: self.number,
            bytes: self.bytes.clone()?,
        })
    }
}

/// The bytes of the part that begins at this place of a text.
fn part_from(alloc: Global, text: &[u8], offset: usize) -> Result<Vec<u8>, AllocError>
    requires { offset ≤ length text.now }
    ensures bytes { IfOk result (λ bytes. bytes.items ≡ take PART (drop offset text.now)) }
    ensures len { IfOk result (λ bytes. length bytes.items ≡ min PART (length text.now - offset)) }
{
    let rest = &text[offset..];
    rest[..PART.min(rest.len())].to_vec(alloc)
}

/// The parts of a text, one behind the other, are the text: as many as it has, each at the place of its number.
pub fn parts_make_the_text()
    ensures { (position : ℕ) (text : List ℕ) (held : List (Option Piece)) → length held ≡ parts_in (length text)
        → ((k : ℕ) → k < length held → slice_get held k ≡ Some (Some (piece position text k))) → joined held ≡ text }
{}
