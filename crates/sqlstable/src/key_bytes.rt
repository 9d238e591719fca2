//! Keys as bytes, whose order is that of the keys.

ghost use Rattle.std.specs.Prelude.{◌≡◌, ◌≢◌, ◌≤◌, true, take, MatchOption};
ghost use Rattle.stable.specs.declared.key.Key.{Key};
ghost use Rattle.sqlstable.specs.Keys.{is_valid, spelled, vote_key};

use stable::Key;
use synod::Slot;

const VOTE: u8 = 0x56;

/// The most bytes that a key is spelled by.
pub const MOST_BYTES: usize = 5;

/// The bytes of a key, and how many of them count.
pub fn spelling(key: Key) -> ([u8; MOST_BYTES], usize)
    ensures length { result.1 ≤ 5 }
    ensures spelled { take result.1 result.0 ≡ spelled key }
    ensures valid { is_valid key ≡ true }
{
    match key {
        Key::Vote(slot) => (vote_key(slot.value()), MOST_BYTES),
        fixed => ([fixed.letter(), 0, 0, 0, 0], 1),
    }
}

/// The bytes of a vote's key at a slot. Those of the log's end are above all of them.
pub fn vote_key(slot: u32) -> [u8; MOST_BYTES]
    ensures { result ≡ vote_key slot }
{
    let at = slot.to_be_bytes();
    [VOTE, at[0], at[1], at[2], at[3]]
}

/// The key that these bytes spell, or None where they spell none.
pub fn key_of(bytes: &[u8]) -> Option<Key>
    ensures { MatchOption result
        ((key : Key) → is_valid key ≡ true → spelled key ≢ bytes.now)
        (λ key. (is_valid key ≡ true) × (spelled key ≡ bytes.now)) }
{
    match bytes {
        [letter] => Key::of_letter(*letter),
        [VOTE, a, b, c, d] => {
            let slot = Slot::new(u32::from_be_bytes([*a, *b, *c, *d]))?;
            Some(Key::Vote(slot))
        }
        _ => None,
    }
}
