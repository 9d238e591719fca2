//! What a client wrote, cut into lines.

ghost use Rattle.std.specs.Prelude.{◌≡◌, ◌++◌, ◌≤◌, [], length, position, IfOk, IfSome, IfNone, OnErr, OnOk};
ghost use Rattle.std.specs.List.{position_or_len};
ghost use Rattle.std.specs.Result.{IsErrOf};
ghost use Rattle.mfpxd.specs.Streams.{HasNoLine, IsFirstLine, IsTooLong, is_feed};

use bytes::BytesMut;
use std::alloc::{AllocError, Global};
use std::marker::Model;

/// A line has at most so many bytes.
pub const LONGEST_LINE: usize = 262_144;

/// Why no line is handed out. The bytes are as they were.
#[derive(Clone, Copy, Debug, PartialEq, Eq)]
pub enum LineFault {
    /// The next line is longer than `LONGEST_LINE`.
    TooLong,
    /// A growth was refused.
    Memory,
}

impl From<AllocError> for LineFault {
    ghost use Rattle.std.specs.Prelude.{◌≡◌};
    ghost use Rattle.mfpxd.specs.declared.inbox.LineFault.TheVariants.{Memory};

    ghost from_gives = { λ _ fault. fault ≡ Memory };

    fn from(_: AllocError) -> LineFault {
        LineFault::Memory
    }
}

/// The bytes that a client wrote and that were not handed out yet.
#[derive(Drop)]
pub struct Inbox {
    bytes: BytesMut,
}

impl Model for Inbox {
    ghost use Rattle.std.specs.Prelude.{ℕ, List};

    ghost Value = { List ℕ };

    ghost view = { λ inbox. inbox.bytes.items };
}

impl Inbox {
    /// Nothing was written.
    pub fn new(alloc: Global) -> Inbox
        ensures { result ≡ [] }
    {
        Inbox {
            bytes: BytesMut::new(alloc),
        }
    }

    /// Takes the next bytes, wherever the stream was cut.
    pub fn feed(&mut self, bytes: &[u8]) -> Result<(), AllocError>
        ensures fed { OnOk result (self.new ≡ self.old ++ bytes.now) }
        ensures err { OnErr result (self.new ≡ self.old) }
    {
        self.bytes.extend_from_slice(bytes)
    }

    /// Hands out the next line, without its line feed, or None where not all of it came.
    pub fn next_line(&mut self, alloc: Global) -> Result<Option<Vec<u8>>, LineFault>
        ensures line { IfOk result (λ next. IfSome next (λ line. IsFirstLine self.old line.items self.new)) }
        ensures fits { IfOk result (λ next. IfSome next (λ line. length line.items ≤ LONGEST_LINE)) }
        ensures none { IfOk result (λ next. IfNone next (HasNoLine self.old)) }
        ensures kept { IfOk result (λ next. IfNone next (self.new ≡ self.old)) }
        ensures too_long { IsErrOf result LineFault.TooLong → IsTooLong self.old }
        ensures err { OnErr result (self.new ≡ self.old) }
    {
        let bytes = self.bytes.as_slice();
        let end = first_feed(bytes);
        if end > LONGEST_LINE {
            return Err(LineFault::TooLong);
        }
        if end < bytes.len() {
            let line = bytes[..end].to_vec(alloc)?;
            self.bytes.advance(end + 1);
            return Ok(Some(line));
        }
        Ok(None)
    }
}

/// Where the first line feed stands, or the end where there is none.
fn first_feed(bytes: &[u8]) -> usize
    ensures place { result ≡ position_or_len is_feed bytes.now }
    ensures within { result ≤ length bytes.now }
{
    feed_place(bytes).unwrap_or(bytes.len())
}

/// Where the first line feed stands.
fn feed_place(bytes: &[u8]) -> Option<usize>
    ensures { result ≡ position is_feed bytes.now }
{
    bytes.iter().position(|byte| *byte == b'\n')
}
