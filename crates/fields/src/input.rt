//! Bytes that are read from left to right.

ghost use Rattle.std.specs.Prelude.{◌≡◌, ◌≤◌, ◌==◌, if◌then◌else◌, length, OnErr};
ghost use Rattle.std.specs.List.{list_all};
ghost use Rattle.fields.specs.Reading.{Tells, byte_at, number_at, bytes_at, text_at};
ghost use Rattle.tpoint.specs.Ids.{is_id_byte};

use crate::fault::FieldFault;
use byteorder::{BigEndian, ByteOrder};
use std::marker::Model;
use tpoint::{Id, LONGEST_ID, is_id_byte};

/// The bytes that are not read yet. What a reader takes is gone from them; after a fault nothing more is read.
#[derive(Drop)]
pub struct Input<'a> {
    rest: &'a [u8],
}

impl<'a> Model for Input<'a> {
    ghost use Rattle.std.specs.Prelude.{ℕ, List};

    ghost Value = { List ℕ };

    ghost view = { λ input. input.rest.now };
}

impl<'a> Input<'a> {
    /// All of the bytes.
    pub fn new(bytes: &'a [u8]) -> Input<'a>
        ensures { result ≡ bytes.now }
    {
        Input { rest: bytes }
    }

    /// Whether no byte is left.
    pub fn is_empty(&self) -> bool
        ensures { result ≡ (length self.now == 0) }
    {
        self.rest.is_empty()
    }

    /// The next byte.
    pub fn u8(&mut self) -> Result<u8, FieldFault>
        ensures read { Tells (λ x. (x, self.new)) result (byte_at self.old) }
        ensures err { OnErr result (self.new ≡ self.old) }
    {
        match self.rest {
            [] => Err(FieldFault::Short),
            [byte, rest @ ..] => {
                self.rest = rest;
                Ok(*byte)
            }
        }
    }

    /// The next two bytes, as a number.
    pub fn u16(&mut self) -> Result<u16, FieldFault>
        ensures read { Tells (λ x. (x, self.new)) result (number_at 2 self.old) }
        ensures err { OnErr result (self.new ≡ self.old) }
    {
        if self.rest.len() < 2 {
            return Err(FieldFault::Short);
        }
        let number = BigEndian::read_u16(self.rest);
        self.rest = &self.rest[2..];
        Ok(number)
    }

    /// The next four bytes, as a number.
    pub fn u32(&mut self) -> Result<u32, FieldFault>
        ensures read { Tells (λ x. (x, self.new)) result (number_at 4 self.old) }
        ensures err { OnErr result (self.new ≡ self.old) }
    {
        if self.rest.len() < 4 {
            return Err(FieldFault::Short);
        }
        let number = BigEndian::read_u32(self.rest);
        self.rest = &self.rest[4..];
        Ok(number)
    }

    /// The next eight bytes, as a number.
    pub fn u64(&mut self) -> Result<u64, FieldFault>
        ensures read { Tells (λ x. (x, self.new)) result (number_at 8 self.old) }
        ensures err { OnErr result (self.new ≡ self.old) }
    {
        if self.rest.len() < 8 {
            return Err(FieldFault::Short);
        }
        let number = BigEndian::read_u64(self.rest);
        self.rest = &self.rest[8..];
        Ok(number)
    }

    /// The next bytes, so many, as they stand.
    pub fn bytes(&mut self, len: usize) -> Result<&'a [u8], FieldFault>
        ensures read { Tells (λ x. (x.now, self.new)) result (bytes_at len self.old) }
        ensures err { OnErr result (self.new ≡ self.old) }
    {
        if self.rest.len() < len {
            return Err(FieldFault::Short);
        }
        let (bytes, rest) = self.rest.split_at(len);
        self.rest = rest;
        Ok(bytes)
    }

    /// The next bytes, so many, as an id.
    pub fn text(&mut self, len: usize) -> Result<Id, FieldFault>
        requires some { 1 ≤ len }
        requires few { len ≤ LONGEST_ID }
        ensures read { Tells (λ x. (x, self.new)) result (text_at len self.old) }
        ensures err { OnErr result (self.new ≡ self.old) }
    {
        if self.rest.len() < len {
            return Err(fault_of_short(self.rest));
        }
        let Some(id) = Id::new(&self.rest[..len]) else {
            return Err(FieldFault::Field);
        };
        self.rest = &self.rest[len..];
        Ok(id)
    }
}

/// The fault of an id that has these bytes and lacks others: a byte that is none of an id's comes before the end.
fn fault_of_short(bytes: &[u8]) -> FieldFault
    ensures { result ≡ (if list_all is_id_byte bytes.now then FieldFault.Short else FieldFault.Field) }
{
    if are_id_bytes(bytes) {
        FieldFault::Short
    } else {
        FieldFault::Field
    }
}

/// Whether an id may have each of these bytes.
fn are_id_bytes(bytes: &[u8]) -> bool
    ensures { result ≡ list_all is_id_byte bytes.now }
{
    bytes.iter().all(|&byte| is_id_byte(byte))
}
