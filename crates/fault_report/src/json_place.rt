//! Where the parts of a JSON text begin.

use json::{MAX_DEPTH, Reader, Scratch, Token};
use std::alloc::{AllocError, Global};

/// A value of a JSON text: the text, and how many of its bytes come before the value.
#[derive(Clone, Copy)]
pub(crate) struct Spot<'a> {
    pub text: &'a [u8],
    pub at: usize,
}

impl<'a> Spot<'a> {
    /// What the text has from the value on.
    fn rest(&self) -> &'a str {
        match self.text.get(self.at..) {
            Some(rest) => match str::from_utf8(rest) {
                Ok(rest) => rest,
                Err(_) => "",
            },
            None => "",
        }
    }

    /// Whether the value begins with this byte.
    pub(crate) fn begins_with(&self, byte: u8) -> bool {
        match self.text.get(self.at) {
            Some(first) => *first == byte,
            None => false,
        }
    }

    /// Whether the value is written so.
    pub(crate) fn is_written(&self, spelling: &[u8]) -> bool {
        match self.text.get(self.at..) {
            Some(rest) => rest.starts_with(spelling),
            None => false,
        }
    }

    /// So many bytes further on in the text.
    fn moved(&self, by: usize) -> Spot<'a> {
        Spot {
            text: self.text,
            at: self.at.saturating_add(by),
        }
    }

    /// The object's member of this name; of those that are written twice the last, which counts.
    pub(crate) fn member(&self, alloc: Global, name: &str) -> Result<Option<Spot<'a>>, AllocError> {
        let rest = self.rest();
        let mut scratch = Scratch::new(alloc);
        let mut reader = Reader::new(rest, &mut scratch)?;
        let Some(Token::BeginObject) = reader.next() else {
            return Ok(None);
        };
        let mut found = None;
        for _ in 0..rest.len() {
            let Ok(Some(key)) = reader.next_key() else {
                break;
            };
            if key == name {
                found = Some(self.moved(reader.offset()));
            }
            let Ok(()) = reader.skip_value(MAX_DEPTH) else {
                break;
            };
        }
        Ok(found)
    }

    /// The object's first member whose name is none of these, by its name.
    pub(crate) fn stranger(
        &self,
        alloc: Global,
        names: &[&str],
    ) -> Result<Option<Spot<'a>>, AllocError> {
        let rest = self.rest();
        let mut scratch = Scratch::new(alloc);
        let mut reader = Reader::new(rest, &mut scratch)?;
        let Some(Token::BeginObject) = reader.next() else {
            return Ok(None);
        };
        for _ in 0..rest.len() {
            let start = reader.offset();
            let Ok(Some(key)) = reader.next_key() else {
                break;
            };
            if names.iter().all(|name| *name != key) {
                return Ok(Some(self.moved(start)));
            }
            let Ok(()) = reader.skip_value(MAX_DEPTH) else {
                break;
            };
        }
        Ok(None)
    }

    /// The array's element of this index.
    pub(crate) fn element(
        &self,
        alloc: Global,
        index: usize,
    ) -> Result<Option<Spot<'a>>, AllocError> {
        let rest = self.rest();
        let mut scratch = Scratch::new(alloc);
        let mut reader = Reader::new(rest, &mut scratch)?;
        let Some(Token::BeginArray) = reader.next() else {
            return Ok(None);
        };
        for _ in 0..index {
            let Ok(()) = reader.skip_value(MAX_DEPTH) else {
                return Ok(None);
            };
        }
        Ok(Some(self.moved(reader.offset())))
    }
}
