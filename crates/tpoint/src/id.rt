//! Names of moving points.

ghost use Rattle.std.specs.Prelude.{◌≡◌, ◌≤◌, ◌↔◌, length, nat_eq, IsTrue, Some, IsSome, IfSome};
ghost use Rattle.std.specs.Ordering.{nat_cmp, as_partial_cmp};
ghost use Rattle.std.specs.Cmp.{partial_equiv_from_equiv, partial_order_from_agreeing_total};
ghost use Rattle.std.specs.Cmp.Lexicographic.{pointwise, slice_cmp};
ghost use Rattle.std.specs.Cmp.Lexicographic.{nat_list_eq_equiv, nat_list_cmp_total, texts_ties};
ghost use Rattle.std.specs.Cmp.Rules.{hashing};
ghost use Rattle.std.specs.Hash as fed;
ghost use Rattle.std.proofs.Common.{refl, rules};
ghost use Rattle.tpoint.specs.Ids.{IsId, is_id_byte, with_zeros};

use std::cmp::Ordering;
use std::convert::AsStr;
use std::hash::{Hash, Hasher};
use std::marker::Model;
use std::{fmt, str};

/// An id has at most this many bytes.
pub const LONGEST_ID: usize = 64;

/// Whether ids may have this byte: an ASCII letter, a digit, `-`, `_` or `.`.
pub fn is_id_byte(byte: u8) -> bool
    ensures { result ≡ is_id_byte byte }
{
    byte.is_ascii_alphanumeric() || byte == b'-' || byte == b'_' || byte == b'.'
}

/// The name of a moving point: 1 to `LONGEST_ID` ASCII letters, digits, `-`, `_` and `.`.
///
/// Its bytes are kept in place. Ids are ordered as their texts are, byte by byte.
#[derive(Clone, Copy, Debug)]
pub struct Id {
    /// The text, and zeros after it.
    bytes: [u8; LONGEST_ID],
    len: u8,
}

impl Model for Id {
    ghost use Rattle.std.specs.Prelude.{ℕ, List, length, take};

    ghost Value = { List ℕ };

    ghost use Rattle.tpoint.specs.Ids.{KeepsId, with_zeros, kept_bytes_back, kept_len_back};

    ghost view = { λ id. take id.len id.bytes };

    ghost invariant = { λ id. KeepsId id.bytes id.len };

    ghost inverse = { λ text. record {
      bytes = with_zeros text;
      len = length text;
    } };

    ghost inverse_ok = { λ id h i. record {
      bytes = kept_bytes_back id.bytes id.len h i;
      len = kept_len_back id.bytes id.len h i;
    } };
}

impl Id {
    /// The id with this text, or None where the text is no id.
    pub fn new(text: &[u8]) -> Option<Id>
        ensures valid { IsSome result ↔ IsId text.now }
        ensures value { IfSome result (λ id. id ≡ text.now) }
    {
        if !is_id(text) {
            return None;
        }
        Some(Id {
            bytes: with_zeros(text),
            len: text.len() as u8,
        })
    }

    /// Its text.
    pub fn bytes(&self) -> &[u8]
        ensures value { result.now ≡ self.now }
        ensures valid { IsId self.now }
    {
        &self.bytes[..usize::from(self.len)]
    }

    /// Its text.
    pub fn as_str(&self) -> &str
        ensures value { result.now ≡ self.now }
        ensures valid { IsId self.now }
    {
        str::from_utf8(self.bytes()).unwrap()
    }
}

/// Whether the text is an id.
fn is_id(text: &[u8]) -> bool
    ensures { IsTrue result ↔ IsId text.now }
{
    !text.is_empty() && text.len() <= LONGEST_ID && text.iter().all(|&byte| is_id_byte(byte))
}

/// The text and zeros after it, up to `LONGEST_ID` bytes.
fn with_zeros(text: &[u8]) -> [u8; LONGEST_ID]
    requires { length text.now ≤ LONGEST_ID }
    ensures { result ≡ with_zeros text.now }
{
    let mut bytes = [0; LONGEST_ID];
    bytes[..text.len()].copy_from_slice(text);
    bytes
}

impl AsStr for Id {
    ghost text = { λ id. id };

    fn as_str(&self) -> &str {
        Id::as_str(self)
    }
}

impl fmt::Display for Id {
    ghost output = { λ id. Some id };

    fn fmt<W: fmt::Write>(&self, f: &mut fmt::Formatter<W>) -> fmt::Result {
        f.write_str(self.as_str())
    }
}

impl PartialEq for Id {
    ghost eq = { pointwise nat_eq };

    ghost laws = { partial_equiv_from_equiv nat_list_eq_equiv };

    fn eq(&self, other: &Id) -> bool
        ensures value { result ≡ pointwise nat_eq self.now other.now }
        ensures same { IsTrue result ↔ (self.now ≡ other.now) }
    {
        self.bytes() == other.bytes()
    }
}

impl Eq for Id {
    ghost laws = { nat_list_eq_equiv };
}

impl PartialOrd for Id {
    ghost partial_cmp = { as_partial_cmp (slice_cmp nat_cmp) };

    ghost laws = { partial_order_from_agreeing_total (slice_cmp nat_cmp) nat_list_cmp_total
        (λ _ _. refl) texts_ties };

    fn partial_cmp(&self, other: &Id) -> Option<Ordering> {
        Some(self.cmp(other))
    }
}

impl Ord for Id {
    ghost cmp = { slice_cmp nat_cmp };

    ghost total = { nat_list_cmp_total };

    ghost matches_partial_cmp = { λ _ _. refl };

    ghost matches_eq = { texts_ties };

    /// The byte order of the two texts: the first byte that differs decides, and else the shorter
    /// text comes first.
    fn cmp(&self, other: &Id) -> Ordering {
        self.bytes().cmp(other.bytes())
    }
}

impl Hash for Id {
    ghost hash_input = { λ id. fed.str id };

    ghost respects_eq = { Prim.search (hashing, rules) };

    /// As its text is hashed.
    fn hash<H: Hasher>(&self, state: &mut H) {
        self.as_str().hash(state);
    }
}
