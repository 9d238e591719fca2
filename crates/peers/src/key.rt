//! The key of a run: digests that only its holders can make.

ghost use Rattle.std.specs.Prelude.{◌≡◌, ◌≤◌, ◌-◌, ◌++◌, length, map, replicate, bit_xor};
ghost use Rattle.peers.specs.Hmac.{block_of, keyed_digest};

use sha2::{Digest, Sha256};
use std::marker::Model;

/// SHA-256 takes a message in blocks of this many bytes.
const BLOCK: usize = 64;

/// A digest has this many bytes.
pub(crate) const DIGEST: usize = 32;

/// A key for HMAC-SHA-256 (RFC 2104), as a block of the hash function. There is no `Debug`: it is a secret.
#[derive(Drop)]
pub struct Key {
    block: [u8; BLOCK],
}

impl Model for Key {
    ghost use Rattle.std.specs.Prelude.{ℕ, List};

    ghost Value = { List ℕ };

    ghost view = { λ key. key.block };
}

impl Key {
    /// The key of these bytes, however many. A key that isn't to be guessed has at least 32, drawn at random.
    pub fn new(bytes: &[u8]) -> Key
        ensures { result ≡ block_of bytes.now }
    {
        if bytes.len() > BLOCK {
            return Key {
                block: padded(&Sha256::digest(bytes)),
            };
        }
        Key {
            block: padded(bytes),
        }
    }

    /// The HMAC-SHA-256 of the two texts, one after the other, under this key.
    pub fn authenticate(&self, first: &[u8], second: &[u8]) -> [u8; DIGEST]
        ensures { result ≡ keyed_digest self.now (first.now ++ second.now) }
    {
        let mut inner = Sha256::new();
        inner.update(masked(&self.block, 0x36));
        inner.update(first);
        inner.update(second);
        let mut outer = Sha256::new();
        outer.update(masked(&self.block, 0x5C));
        outer.update(inner.finalize());
        outer.finalize()
    }
}

/// The bytes, and zeros up to a block.
fn padded(bytes: &[u8]) -> [u8; BLOCK]
    requires { length bytes.now ≤ BLOCK }
    ensures { result ≡ bytes.now ++ replicate (BLOCK - length bytes.now) 0 }
{
    let mut block = [0; BLOCK];
    block[..bytes.len()].copy_from_slice(bytes);
    block
}

/// Each byte of the block, in exclusive or with the mask.
fn masked(block: &[u8; BLOCK], mask: u8) -> [u8; BLOCK]
    ensures { result ≡ map (λ byte. bit_xor byte mask) block.now }
{
    let mut out = [0; BLOCK];
    'bytes: for i in 0..BLOCK {
        out[i] = block[i] ^ mask;
    }
    out
}
